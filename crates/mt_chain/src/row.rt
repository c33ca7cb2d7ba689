ghost use Rattle.std.specs.Prelude.{◌≡◌, option_copied};
ghost use Rattle.std.specs.Ordering.{nat_cmp};
ghost use Rattle.std.specs.Cmp.Lexicographic.{slice_cmp};
ghost use Rattle.mt_chain.specs.Rows.{RisingRows, last_key, row_in};
ghost use Rattle.mt_chain.specs.Places.{EndsBy};

use mt_model::{Props, Tag, Text};
use std::cmp::Ordering;
use std::marker::Model;

/// What a store keeps at a key: the properties, hidden ones among them, and the tag that it gave.
#[derive(Drop)]
pub struct Stored {
    pub props: Props,
    pub tag: Tag,
}

/// A row of one partition, as a store answers it.
#[derive(Drop)]
pub struct StoredRow {
    pub rk: Text,
    pub props: Props,
    pub tag: Tag,
}

/// One conditional change of a row of a partition.
#[derive(Drop)]
pub enum Put {
    /// The row is there with that tag, and stays.
    Check { rk: Text, tag: Tag },
    /// No row is there, and this one comes.
    Insert { rk: Text, props: Props },
    /// The row is there with that tag, and gets these properties.
    Replace { rk: Text, props: Props, tag: Tag },
    /// The row is there with that tag, and goes.
    Delete { rk: Text, tag: Tag },
}

/// Changes of one partition, made all at once or not at all.
#[derive(Drop)]
pub struct Puts {
    items: Vec<Put>,
}

impl Model for Puts {
    ghost use Rattle.std.specs.Prelude.{List};
    ghost use Rattle.mt_chain.specs.declared.row.Put.{Put};

    ghost Value = { List Put };

    ghost view = { λ p. p.items.items };
}

impl Puts {
    /// These changes in this order.
    pub fn of(items: Vec<Put>) -> Puts
        ensures { result ≡ items.items }
    {
        Puts { items }
    }

    /// The changes in order.
    pub fn as_slice(&self) -> &[Put]
        ensures { result.now ≡ self.now }
    {
        self.items.as_slice()
    }

    /// The changes in order, without taking memory.
    pub fn into_items(self) -> Vec<Put>
        ensures { result.items ≡ self }
    {
        self.items
    }
}

/// Tags in order.
#[derive(Drop)]
pub struct Tags {
    items: Vec<Tag>,
}

impl Model for Tags {
    ghost use Rattle.std.specs.Prelude.{List};
    ghost use Rattle.mt_model.specs.declared.tag.Tag.{Tag};

    ghost Value = { List Tag };

    ghost view = { λ t. t.items.items };
}

impl Tags {
    /// These tags in this order.
    pub fn of(items: Vec<Tag>) -> Tags
        ensures { result ≡ items.items }
    {
        Tags { items }
    }

    /// The tags in order.
    pub fn as_slice(&self) -> &[Tag]
        ensures { result.now ≡ self.now }
    {
        self.items.as_slice()
    }
}

/// Rows of one partition with rising row keys.
#[derive(Drop)]
pub struct StoredRows {
    items: Vec<StoredRow>,
}

impl Model for StoredRows {
    ghost use Rattle.std.specs.Prelude.{List};
    ghost use Rattle.mt_chain.specs.declared.row.StoredRow.{StoredRow};
    ghost use Rattle.mt_chain.specs.Rows.{RisingRows};

    ghost Value = { List StoredRow };

    ghost view = { λ r. r.items.items };

    ghost invariant = { λ r. RisingRows r.items.items };
}

/// The place of the row of a row key, or where one would stand.
fn place_of(rows: &[StoredRow], rk: &str) -> Result<usize, usize>
    requires { RisingRows rows.now }
    ensures { EndsBy (λ r. slice_cmp nat_cmp r.rk rk.now) rows.now result }
{
    rows.binary_search_by(
        |row: &StoredRow| -> Ordering
            ensures { result ≡ slice_cmp nat_cmp row.now.rk rk.entry.now }
        { row.rk.as_str().cmp(rk) },
    )
}

/// The row of a row key.
fn found_in<'a>(rows: &'a [StoredRow], rk: &str) -> Option<&'a StoredRow>
    requires { RisingRows rows.now }
    ensures { option_copied result ≡ row_in rows.now rk.now }
{
    match place_of(rows, rk) {
        Ok(at) => Some(&rows[at]),
        Err(_) => None,
    }
}

/// The row key of the last of the rows.
fn last_in(rows: &[StoredRow]) -> Option<&Text>
    ensures { option_copied result ≡ last_key rows.now }
{
    match rows.last() {
        None => None,
        Some(row) => Some(&row.rk),
    }
}

impl StoredRows {
    /// These rows, whose row keys rise.
    pub fn of(items: Vec<StoredRow>) -> StoredRows
        requires { RisingRows items.items }
        ensures { result ≡ items.items }
    {
        StoredRows { items }
    }

    /// The rows in order.
    pub fn as_slice(&self) -> &[StoredRow]
        ensures value { result.now ≡ self.now }
        ensures rising { RisingRows self.now }
    {
        self.items.as_slice()
    }

    /// The rows in order, without taking memory.
    pub fn into_items(self) -> Vec<StoredRow>
        ensures value { result.items ≡ self }
        ensures rising { RisingRows self }
    {
        self.items
    }

    /// The row key of the last of the rows.
    pub fn last_key(&self) -> Option<&Text>
        ensures { option_copied result ≡ last_key self.now }
    {
        last_in(&self.items)
    }

    /// The row of a row key, found by binary search.
    pub fn get(&self, rk: &str) -> Option<&StoredRow>
        ensures { option_copied result ≡ row_in self.now rk.now }
    {
        found_in(&self.items, rk)
    }
}
