//! Rows written anew in their own memory, in one pass from the first to the last.
ghost use Rattle.std.specs.Prelude.{◌≡◌, ◌≤◌, ◌<◌, ◌+◌, ◌-◌, min, List, [], ◌∷◌, ◌++◌, take, drop, length, vec_len, vec_capacity};
ghost use Rattle.std.specs.VecDeque.{deque_len, deque_capacity};
ghost use Rattle.mt_mem.specs.Rewriting.{Rewriting};

use crate::lookup::Row;
use std::collections::VecDeque;
use std::marker::Model;
use std::mem;

/// Rows in the course of a pass that writes them anew.
///
/// The rows before `filled` are written, those from `read` on are left to read, and what stands between
/// is of no use. Where nothing stands between, further written rows wait until a row that is read leaves
/// its place.
#[derive(Drop)]
pub struct Rewrite {
    rows: Vec<Row>,
    filled: usize,
    read: usize,
    waiting: VecDeque<Row>,
}

impl Model for Rewrite {
    ghost use Rattle.std.specs.Prelude.{min, ◌-◌, ◌++◌, take, drop};
    ghost use Rattle.std.specs.Vec.{vec_len, vec_capacity};
    ghost use Rattle.std.specs.VecDeque.{deque_len, deque_capacity};
    ghost use Rattle.mt_mem.specs.Rewriting.{Rewriting};

    ghost Value = { Rewriting };

    ghost use Rattle.std.specs.Prelude.{◌≡◌, ◌≤◌, ◌<◌, ◌+◌, []};

    ghost view = { λ r. record {
      written = take r.filled r.rows.items ++ r.waiting.items;
      left = drop r.read r.rows.items;
      spare = min (vec_capacity r.rows - vec_len r.rows - deque_len r.waiting) (deque_capacity r.waiting - deque_len r.waiting);
    } };

    ghost invariant = { λ r. (r.filled ≤ r.read) × (r.read ≤ vec_len r.rows)
        × (r.filled < r.read → r.waiting.items ≡ [])
        × (vec_len r.rows + deque_len r.waiting ≤ vec_capacity r.rows)
        × (deque_len r.waiting ≤ deque_capacity r.waiting) };
}

impl Rewrite {
    /// The pass over these rows before its begin, with an empty queue. As many more rows may be written as
    /// both have room for.
    pub fn new(rows: Vec<Row>, waiting: VecDeque<Row>) -> Rewrite
        requires empty { waiting.items ≡ [] }
        requires room { vec_len rows ≤ vec_capacity rows }
        ensures written { result.written ≡ [] }
        ensures left { result.left ≡ rows.items }
        ensures spare { result.spare ≡ min (vec_capacity rows - vec_len rows) (deque_capacity waiting) }
    {
        Rewrite {
            rows,
            filled: 0,
            read: 0,
            waiting,
        }
    }

    /// The rows left to read.
    pub fn left(&self) -> &[Row]
        ensures { result.now ≡ self.now.left }
    {
        &self.rows[self.read..]
    }

    /// Reads a row and writes it.
    fn keep_one(&mut self)
        requires { 0 < length self.old.left }
        ensures written { self.new.written ≡ self.old.written ++ take 1 self.old.left }
        ensures left { self.new.left ≡ drop 1 self.old.left }
        ensures spare { self.new.spare ≡ self.old.spare }
    {
        if self.filled < self.read {
            self.rows.swap(self.filled, self.read);
        } else if let Some(first) = self.waiting.pop_front() {
            let row = mem::replace(&mut self.rows[self.read], first);
            self.waiting.push_back_reserved(row);
        }
        self.filled += 1;
        self.read += 1;
    }

    /// Reads so many rows and writes them.
    pub fn keep(&mut self, count: usize)
        requires { count ≤ length self.old.left }
        ensures written { self.new.written ≡ self.old.written ++ take count self.old.left }
        ensures left { self.new.left ≡ drop count self.old.left }
        ensures spare { self.new.spare ≡ self.old.spare }
    {
        if self.filled == self.read && self.waiting.is_empty() {
            self.filled += count;
            self.read += count;
            return;
        }
        for _ in 0..count {
            self.keep_one();
        }
    }

    /// Reads a row and does not write it.
    pub fn skip(&mut self)
        requires { 0 < length self.old.left }
        ensures written { self.new.written ≡ self.old.written }
        ensures left { self.new.left ≡ drop 1 self.old.left }
        ensures spare { self.old.spare ≤ self.new.spare }
    {
        if let Some(first) = self.waiting.pop_front() {
            self.rows[self.read] = first;
            self.filled += 1;
        }
        self.read += 1;
    }

    /// Writes another row.
    pub fn put(&mut self, row: Row)
        requires { 0 < self.old.spare }
        ensures written { self.new.written ≡ self.old.written ++ row ∷ [] }
        ensures left { self.new.left ≡ self.old.left }
        ensures spare { self.old.spare ≤ self.new.spare + 1 }
    {
        if self.filled < self.read {
            self.rows[self.filled] = row;
            self.filled += 1;
        } else {
            self.waiting.push_back_reserved(row);
        }
    }

    /// All rows, those left to read as they are.
    pub fn finish(mut self) -> Vec<Row>
        ensures { result.items ≡ self.written ++ self.left }
    {
        let left = self.left().len();
        self.keep(left);
        let Rewrite {
            mut rows,
            filled,
            waiting,
            ..
        } = self;
        rows.truncate(filled);
        let mut waiting = waiting.into_vec();
        if rows.append(&mut waiting).is_err() {
            unreachable!();
        }
        rows
    }
}
