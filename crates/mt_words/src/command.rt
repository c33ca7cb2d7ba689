//! What a command line asks for.
use mt_model::{NoMemory, Text};
use thiserror::Error;

/// Where rows are kept: in two stores in memory.
#[derive(Clone, Copy, Debug, PartialEq, Eq)]
pub enum StoreChoice {
    /// Each store has its rows in one list.
    Plain,
    /// Each store has its rows in pages.
    Paged,
}

/// What is common to the commands that serve a table.
#[derive(Drop)]
pub struct Common {
    /// The name of the table.
    pub table: Text,

    /// How many entries the history may have: 1 to 1,048,576.
    pub history: u64,

    /// Where the rows are kept.
    pub stores: StoreChoice,
}

/// A command of the program.
#[derive(Drop)]
pub enum Command {
    /// One connection over standard input and output.
    Session {
        common: Common,
    },

    /// A run of many actors by a schedule that is made from the number.
    Drill {
        number: u64,
        events: u32,
        common: Common,
    },

    /// The usage line.
    Help,
}

/// Why no command was read.
#[derive(Clone, Copy, Debug, PartialEq, Eq, Error)]
pub enum Usage {
    /// The words spell no command.
    #[error("the words are no command")]
    Bad,

    /// There was no memory.
    #[error("out of memory")]
    NoMemory,
}

impl From<NoMemory> for Usage {
    ghost use Rattle.std.specs.Prelude.{◌≡◌};
    ghost use Rattle.mt_words.specs.declared.command.Usage.TheVariants.{NoMemory};

    ghost from_gives = { λ _ e. e ≡ NoMemory };

    fn from(_e: NoMemory) -> Usage {
        Usage::NoMemory
    }
}
