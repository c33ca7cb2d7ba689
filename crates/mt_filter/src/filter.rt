//! What a filter is, and why a text is none.
ghost use Rattle.std.specs.Prelude.{◌≡◌, IfOk};
ghost use Rattle.mt_filter.specs.Tree.{tree_of};

use mt_model::{Name, NoMemory, Value};
use std::alloc::{AllocError, AllocFailed, Global};

/// How a test compares a field with a literal.
#[derive(Clone, Copy, Debug, PartialEq, Eq)]
pub enum Compare {
    Eq,
    Ne,
    Gt,
    Ge,
    Lt,
    Le,
}

/// What a test looks at.
#[derive(Debug, Drop, PartialEq, Eq)]
pub enum Field {
    PartitionKey,
    RowKey,
    Property(Name),
}

/// A filter: tests, joined by `not`, `and` and `or`.
#[derive(Drop)]
pub enum Filter {
    Test {
        field: Field,
        compare: Compare,
        literal: Value,
    },
    Not(Box<Filter>),
    And(Box<Filter>, Box<Filter>),
    Or(Box<Filter>, Box<Filter>),
}

/// What is wrong at a place of a text.
#[derive(Clone, Copy, Debug, PartialEq, Eq)]
pub enum FilterKind {
    /// No token begins here, or a quoted literal has no end or a wrong inside.
    Token,

    /// A token that the grammar does not allow here, or the end of the text.
    Expected,

    /// The name of the 16th test.
    TooManyComparisons,

    /// Digits followed by `.`, `e` or `E`.
    DoubleLiteral,

    /// A whole number outside Int64.
    OutOfRange,

    /// The parenthesis or `not` that opens level 65.
    TooDeep,
}

/// Why a text was not read as a filter.
#[derive(Clone, Copy, Debug, PartialEq, Eq)]
pub enum FilterFault {
    /// The text is no filter: what is wrong begins at byte `at`.
    Bad { at: u64, kind: FilterKind },

    /// There was no memory.
    NoMemory,
}

impl From<NoMemory> for FilterFault {
    ghost use Rattle.mt_filter.specs.declared.filter.FilterFault.TheVariants.{NoMemory};

    ghost from_gives = { λ _ e. e ≡ NoMemory };

    fn from(_e: NoMemory) -> FilterFault {
        FilterFault::NoMemory
    }
}

impl Field {
    /// The same field. The one error is want of memory.
    pub fn copy(&self, alloc: Global) -> Result<Field, NoMemory>
        ensures { IfOk result (λ f. f ≡ self.now) }
    {
        match self {
            Field::PartitionKey => Ok(Field::PartitionKey),
            Field::RowKey => Ok(Field::RowKey),
            Field::Property(name) => Ok(Field::Property(name.copy(alloc)?)),
        }
    }
}

impl Filter {
    /// An equal filter. The one error is want of memory.
    pub fn copy(&self, alloc: Global) -> Result<Filter, NoMemory>
        ensures { IfOk result (λ f. tree_of f ≡ tree_of self.now) }
    {
        match self {
            Filter::Test {
                field,
                compare,
                literal,
            } => {
                let field = field.copy(alloc)?;
                let literal = literal.copy(alloc)?;
                Ok(Filter::Test {
                    field,
                    compare: *compare,
                    literal,
                })
            }
            Filter::Not(inner) => {
                let inner = inner.copy(alloc)?;
                Ok(Filter::Not(Box::new(alloc, inner)?))
            }
            Filter::And(left, right) => {
                let left = left.copy(alloc)?;
                let right = right.copy(alloc)?;
                Ok(Filter::And(Box::new(alloc, left)?, Box::new(alloc, right)?))
            }
            Filter::Or(left, right) => {
                let left = left.copy(alloc)?;
                let right = right.copy(alloc)?;
                Ok(Filter::Or(Box::new(alloc, left)?, Box::new(alloc, right)?))
            }
        }
    }
}
