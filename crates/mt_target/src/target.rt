//! What a target spells.
ghost use Rattle.std.specs.Prelude.{◌≡◌};

use mt_model::Text;
use std::marker::Model;

/// What stands behind a table's name.
#[derive(Drop)]
pub enum Keys {
    /// Nothing: `/Orders`.
    Absent,

    /// Empty parentheses: `/Orders()`.
    Empty,

    /// The keys of an entity: `/Orders(PartitionKey='p',RowKey='r')`.
    Entity { pk: Text, rk: Text },
}

/// What a path names beside tables.
#[derive(Clone, Copy, Debug, PartialEq, Eq)]
pub enum Service {
    /// `/$batch`.
    Batch,

    /// `/$mt/migrate`.
    Migrate,

    /// `/$mt/clean`.
    Clean,

    /// `/$mt/seal`.
    Seal,

    /// `/$mt/status`.
    Status,
}

/// What a path names.
#[derive(Drop)]
pub enum Target {
    /// A table, or entities of it.
    Table { name: Text, keys: Keys },

    /// The list of tables, `/Tables`, or a table in it, `/Tables('Orders')`.
    Tables,

    /// Something beside the tables.
    Service(Service),
}

/// An option of a target, decoded.
#[derive(Drop)]
pub struct QueryOption {
    pub name: Text,
    pub value: Text,
}

/// The options of a target, in their order.
#[derive(Drop)]
pub struct QueryOptions {
    items: Vec<QueryOption>,
}

impl Model for QueryOptions {
    ghost use Rattle.std.specs.Prelude.{List};
    ghost use Rattle.mt_target.specs.declared.target.QueryOption.{QueryOption};

    ghost Value = { List QueryOption };

    ghost view = { λ o. o.items.items };
}

impl QueryOptions {
    /// The list of these options, which takes no memory.
    pub fn of(items: Vec<QueryOption>) -> QueryOptions
        ensures { result ≡ items.items }
    {
        QueryOptions { items }
    }

    /// The options, in their order.
    pub fn as_slice(&self) -> &[QueryOption]
        ensures { result.now ≡ self.now }
    {
        self.items.as_slice()
    }
}

/// What a target spells: its path, and its options.
#[derive(Drop)]
pub struct Spelled {
    pub target: Target,
    pub options: QueryOptions,
}
