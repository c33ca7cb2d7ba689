//! A page: at most `PAGE` rows, with room for so many from its begin.
ghost use Rattle.std.specs.Prelude.{◌≡◌, ◌≤◌, ◌<◌, ◌+◌, ◌-◌, IfOk, [], ◌∷◌, ◌++◌, take, drop, length, insert, remove, reverse, slice_set, vec_len, vec_capacity};

use mt_mem::Row;
use mt_model::NoMemory;
use std::alloc::Global;
use std::marker::Model;

/// How many rows a page takes at most.
pub const PAGE: usize = 128;

/// At most `PAGE` rows, with memory for so many.
#[derive(Drop)]
pub struct Page {
    items: Vec<Row>,
}

impl Model for Page {
    ghost use Rattle.std.specs.Prelude.{List, ◌≤◌};
    ghost use Rattle.std.specs.Vec.{vec_len, vec_capacity};
    ghost use Rattle.std.specs.Prelude.{ℕ};
    ghost use Rattle.mt_chain.specs.declared.row.StoredRow.{StoredRow};

    ghost Value = { List (List ℕ × StoredRow) };

    ghost view = { λ p. p.items.items };

    ghost invariant = { λ p. (vec_len p.items ≤ 128) × (128 ≤ vec_capacity p.items) };
}

/// Puts a row at a place, for which there is memory.
fn put_row(items: &mut Vec<Row>, at: usize, row: Row)
    requires place { at ≤ vec_len items.old }
    requires room { vec_len items.old < vec_capacity items.old }
    ensures items { items.new.items ≡ insert items.old.items at row }
    ensures len { vec_len items.new ≡ vec_len items.old + 1 }
    ensures capacity { vec_capacity items.old ≤ vec_capacity items.new }
{
    match items.insert(at, row) {
        Ok(()) => {}
        Err(_) => unreachable!(),
    }
}

/// Puts a row behind the others, for which there is memory.
fn push_row(items: &mut Vec<Row>, row: Row)
    requires { vec_len items.old < vec_capacity items.old }
    ensures items { items.new.items ≡ items.old.items ++ row ∷ [] }
    ensures len { vec_len items.new ≡ vec_len items.old + 1 }
    ensures capacity { vec_capacity items.old ≤ vec_capacity items.new }
{
    match items.push(row) {
        Ok(()) => {}
        Err(_) => unreachable!(),
    }
}

/// Where a full page is cut for a row at a place: at its end for a row behind all others, so that rising
/// keys leave full pages, else in the middle.
fn cut_for(at: usize) -> usize
    ensures within { (0 < result) × (result ≤ 128) }
    ensures room { at < result → result < 128 }
{
    if at == PAGE { PAGE } else { PAGE / 2 }
}

impl Page {
    /// A page with no row.
    pub fn new(alloc: Global) -> Result<Page, NoMemory>
        ensures { IfOk result (λ p. p ≡ []) }
    {
        Ok(Page {
            items: Vec::with_capacity(alloc, PAGE)?,
        })
    }

    /// The rows.
    pub fn rows(&self) -> &[Row]
        ensures now { result.now ≡ self.now }
        ensures few { length self.now ≤ 128 }
    {
        self.items.as_slice()
    }

    /// Puts a row at a place.
    pub fn insert(&mut self, at: usize, row: Row)
        requires place { at ≤ length self.old }
        requires room { length self.old < 128 }
        ensures { self.new ≡ insert self.old at row }
    {
        put_row(&mut self.items, at, row);
    }

    /// Puts another row in the place of one.
    pub fn set(&mut self, at: usize, row: Row)
        requires { at < length self.old }
        ensures { self.new ≡ slice_set self.old at row }
    {
        self.items[at] = row;
    }

    /// Takes a row out.
    pub fn remove(&mut self, at: usize)
        requires { at < length self.old }
        ensures { self.new ≡ remove self.old at }
    {
        self.items.remove(at);
    }

    /// Puts the rows of another page behind its own.
    pub fn join(&mut self, mut other: Page)
        requires { length self.old + length other ≤ 128 }
        ensures { self.new ≡ self.old ++ other }
    {
        if self.items.append(&mut other.items).is_err() {
            unreachable!();
        }
    }

    /// Puts the rows from a place on into an empty page.
    fn split(&mut self, at: usize, other: &mut Page)
        requires place { at ≤ length self.old }
        requires empty { other.old ≡ [] }
        ensures left { self.new ≡ take at self.old }
        ensures right { other.new ≡ drop at self.old }
        ensures left_len { length self.new ≡ at }
        ensures right_len { length other.new + at ≡ length self.old }
    {
        let _ = &self.items;
        while self.items.len() > at {
            other.take_last(self);
        }
        other.items.reverse();
    }

    /// Puts the last row of another page behind its own.
    fn take_last(&mut self, other: &mut Page)
        requires some { 0 < length other.old }
        requires room { length self.old < 128 }
        ensures moved { other.new ++ reverse self.new ≡ other.old ++ reverse self.old }
        ensures left { length other.new + 1 ≡ length other.old }
        ensures right { length self.new ≡ length self.old + 1 }
    {
        if let Some(last) = other.items.pop() {
            push_row(&mut self.items, last);
        }
    }

    /// Puts a row at a place of a full page, which is split for it.
    pub fn insert_split(&mut self, at: usize, row: Row, other: &mut Page)
        requires place { at ≤ length self.old }
        requires full { length self.old ≡ 128 }
        requires empty { other.old ≡ [] }
        ensures left { 0 < length self.new }
        ensures right { 0 < length other.new }
        ensures all { self.new ++ other.new ≡ insert self.old at row }
    {
        let half = cut_for(at);
        self.split(half, other);
        if at < half {
            self.insert(at, row);
        } else {
            other.insert(at - half, row);
        }
    }
}
