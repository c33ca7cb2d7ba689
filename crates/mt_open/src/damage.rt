//! Where two stores are no sound pair.
ghost use Rattle.std.specs.Prelude.{◌≡◌};
ghost use Rattle.mt_open.specs.Damage.{rule_number};

use mt_model::Key;

/// The rules of a sound pair, in their order.
#[derive(Clone, Copy, Debug, PartialEq, Eq)]
pub enum Rule {
    /// Every row has a form for its store, and its key keeps the rules of keys.
    Forms,
    /// A data row's partition has its marker in that store.
    Marked,
    /// Where old is at `use-old`, new has no marker.
    UseOld,
    /// Where old is at `prefer-old`, new has no marker, or it is filling and has copies alone.
    PreferOld,
    /// Where old is at `prefer-new`, new has a marker.
    PreferNew,
    /// Where old has no marker, new has none, or it is at `use-new` and old is sealed; and no tombstone.
    NoOld,
    /// Tags have their store's number and an n that it gave, and differ; a kept tag is of a store below.
    Tags,
    /// New is not sealed.
    Unsealed,
}

impl Rule {
    /// The number of the rule, from 1 to 8.
    pub fn number(self) -> u8
        ensures { result ≡ rule_number self }
    {
        match self {
            Rule::Forms => 1,
            Rule::Marked => 2,
            Rule::UseOld => 3,
            Rule::PreferOld => 4,
            Rule::PreferNew => 5,
            Rule::NoOld => 6,
            Rule::Tags => 7,
            Rule::Unsealed => 8,
        }
    }
}

/// Where two stores fail a rule of a sound pair.
#[derive(Debug, Drop, PartialEq, Eq)]
pub struct Damage {
    /// The number of the store.
    pub store: u32,
    /// The key of a row there, or of two empty texts where the store is sealed.
    pub key: Key,
    pub rule: Rule,
}
