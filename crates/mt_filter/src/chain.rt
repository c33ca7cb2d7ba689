//! The chains of the grammar.
ghost use Rattle.std.specs.Prelude.{◌≡◌, IfOk};
ghost use Rattle.mt_filter.specs.Tree.{tree_of};
ghost use Rattle.mt_filter.specs.Grammar.{word_of, joined};

use crate::filter::Filter;
use mt_model::NoMemory;
use std::alloc::Global;

/// A chain of operands: `or` between chains of `and`, and `and` between unaries.
#[derive(Clone, Copy)]
pub enum Chain {
    Or,
    And,
}

impl Chain {
    /// The word that goes on the chain.
    pub fn word(self) -> &'static str
        ensures { result.now ≡ word_of self }
    {
        match self {
            Chain::Or => "or",
            Chain::And => "and",
        }
    }

    /// Both filters joined. The one error is want of memory.
    pub fn join(self, alloc: Global, left: Filter, right: Filter) -> Result<Filter, NoMemory>
        ensures { IfOk result (λ f. tree_of f ≡ joined self (tree_of left) (tree_of right)) }
    {
        let left = Box::new(alloc, left)?;
        let right = Box::new(alloc, right)?;
        match self {
            Chain::Or => Ok(Filter::Or(left, right)),
            Chain::And => Ok(Filter::And(left, right)),
        }
    }
}
