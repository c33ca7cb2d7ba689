//! Rows of a store or of a table, each with its key.
ghost use Rattle.std.specs.Prelude.{◌≡◌, ◌≤◌, IsTrue, OnOk, OnErr, vec_len, insert, set, remove, option_copied};
ghost use Rattle.mt_model.specs.Key.{key_cmp};
ghost use Rattle.mt_chain.specs.Rows.{are_rising, key_at, row_at, with_row, without_row};
ghost use Rattle.mt_chain.specs.Places.{EndsAt};
ghost use Rattle.mt_chain.specs.Table.{table_of};

use crate::row::Stored;
use mt_model::{Key, NoMemory};
use std::cmp::Ordering;
use std::marker::Model;

/// A row with its key.
pub type Row = (Key, Stored);

/// Rows with rising keys.
#[derive(Drop)]
pub struct Rows {
    items: Vec<Row>,
}

impl Model for Rows {
    ghost use Rattle.std.specs.Prelude.{List};
    ghost use Rattle.mt_model.specs.declared.key.Key.{Key};
    ghost use Rattle.mt_chain.specs.declared.row.Stored.{Stored};

    ghost Value = { List (Key × Stored) };

    ghost use Rattle.std.specs.Prelude.{IsTrue};
    ghost use Rattle.mt_chain.specs.Rows.{are_rising};

    ghost view = { λ r. r.items.items };

    ghost invariant = { λ r. IsTrue (are_rising r.items.items) };
}

/// How a key stands to the key of two texts.
fn compare(key: &Key, pk: &str, rk: &str) -> Ordering
    ensures { result ≡ key_cmp key.now (key_at pk.now rk.now) }
{
    match key.pk.as_str().cmp(pk) {
        Ordering::Equal => key.rk.as_str().cmp(rk),
        order => order,
    }
}

/// The place of the row at a key, or where one would stand.
fn place_in(rows: &[Row], pk: &str, rk: &str) -> Result<usize, usize>
    requires { IsTrue (are_rising rows.now) }
    ensures { EndsAt (λ k. key_cmp k (key_at pk.now rk.now)) rows.now result }
{
    rows.binary_search_by(
        |row: &Row| -> Ordering
            ensures { result ≡ key_cmp row.now.0 (key_at pk.entry.now rk.entry.now) }
        { compare(&row.0, pk, rk) },
    )
}

/// The place of the row at a key, or where one would stand.
fn place_of(rows: &[Row], key: &Key) -> Result<usize, usize>
    requires { IsTrue (are_rising rows.now) }
    ensures { EndsAt (λ k. key_cmp k key.now) rows.now result }
{
    place_in(rows, key.pk.as_str(), key.rk.as_str())
}

/// The row at the key of two texts.
fn found_in<'a>(rows: &'a [Row], pk: &str, rk: &str) -> Option<&'a Stored>
    requires { IsTrue (are_rising rows.now) }
    ensures { option_copied result ≡ row_at rows.now pk.now rk.now }
{
    match place_in(rows, pk, rk) {
        Ok(at) => Some(&rows[at].1),
        Err(_) => None,
    }
}

fn insert_at(rows: &mut Vec<Row>, at: usize, row: Row) -> Result<(), NoMemory>
    requires { at ≤ vec_len rows.old }
    ensures ok { OnOk result (rows.new.items ≡ insert rows.old.items at row) }
    ensures err { OnErr result (rows.new.items ≡ rows.old.items) }
{
    match rows.insert(at, row) {
        Ok(()) => Ok(()),
        Err(_) => Err(NoMemory),
    }
}

/// Puts a row at its key, in the place of any other.
fn put_row(rows: &mut Vec<Row>, row: Row) -> Result<(), NoMemory>
    requires { IsTrue (are_rising rows.old.items) }
    ensures ok { OnOk result (rows.new.items ≡ with_row rows.old.items row.0.pk row.0.rk row.1) }
    ensures err { OnErr result (rows.new.items ≡ rows.old.items) }
    ensures rising { IsTrue (are_rising rows.new.items) }
{
    match place_of(rows, &row.0) {
        Ok(at) => {
            rows[at] = row;
            Ok(())
        }
        Err(at) => insert_at(rows, at, row),
    }
}

/// Takes out the row at a key, if there is one.
fn take_row(rows: &mut Vec<Row>, key: &Key)
    requires { IsTrue (are_rising rows.old.items) }
    ensures rows { rows.new.items ≡ without_row rows.old.items key.now.pk key.now.rk }
    ensures rising { IsTrue (are_rising rows.new.items) }
{
    if let Ok(at) = place_of(rows, key) {
        let _ = rows.remove(at);
    }
}

impl Rows {
    /// These rows, whose keys rise.
    pub fn of(items: Vec<Row>) -> Rows
        requires { IsTrue (are_rising items.items) }
        ensures { result ≡ items.items }
    {
        Rows { items }
    }

    /// The rows in order.
    pub fn as_slice(&self) -> &[Row]
        ensures value { result.now ≡ self.now }
        ensures rising { IsTrue (are_rising self.now) }
    {
        self.items.as_slice()
    }

    /// The rows in order, without taking memory.
    pub fn into_items(self) -> Vec<Row>
        ensures value { result.items ≡ self }
        ensures rising { IsTrue (are_rising self) }
    {
        self.items
    }

    /// The place of the row at the key of two texts, or where one would stand, found by binary search.
    pub fn place_of(&self, pk: &str, rk: &str) -> Result<usize, usize>
        ensures { EndsAt (λ k. key_cmp k (key_at pk.now rk.now)) self.now result }
    {
        place_in(&self.items, pk, rk)
    }

    /// The row at the key of two texts, found by binary search.
    pub fn row_at(&self, pk: &str, rk: &str) -> Option<&Stored>
        ensures { option_copied result ≡ row_at self.now pk.now rk.now }
    {
        found_in(&self.items, pk, rk)
    }

    /// The row at a key, found by binary search.
    pub fn get(&self, key: &Key) -> Option<&Stored>
        ensures { option_copied result ≡ table_of self.now key.now }
    {
        self.row_at(key.pk.as_str(), key.rk.as_str())
    }

    /// Puts a row at its key, in the place of any other. The one error is want of memory, which leaves
    /// the rows as they were.
    pub fn put(&mut self, row: Row) -> Result<(), NoMemory>
        ensures ok { OnOk result (self.new ≡ with_row self.old row.0.pk row.0.rk row.1) }
        ensures err { OnErr result (self.new ≡ self.old) }
    {
        put_row(&mut self.items, row)
    }

    /// Takes out the row at a key, if there is one.
    pub fn remove(&mut self, key: &Key)
        ensures { self.new ≡ without_row self.old key.now.pk key.now.rk }
    {
        take_row(&mut self.items, key)
    }
}
