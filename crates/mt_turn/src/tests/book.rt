//! A book of lines, whose first ones may be cut off.
ghost use Rattle.std.specs.Prelude.{◌≡◌, ℕ, ◌+◌, ◌^◌, ◌<◌, ◌≤◌, [], ◌∷◌, length, All, IfOk, Some};
ghost use Rattle.std.proofs.Math.Nat.{le_trans};
ghost use Rattle.mt_turn.specs.Windows.{end_of};
ghost use Rattle.mt_turn.specs.Turns.{MayGive};

use crate::{Journaled, Knowing};
use std::alloc::{AllocError, Global};

/// A line: who wrote it, and its number among that caller's.
#[derive(Clone, Copy)]
pub struct Line {
    pub caller: u32,
    pub number: u64,
}

#[derive(Drop)]
pub struct Book {
    pub first: u64,
    /// The last line that was cut off.
    pub before: Option<Line>,
    pub lines: Vec<Line>,
}

impl Journaled for Book {
    type Entry = Line;

    type Base = Option<Line>;

    type Fixed = ();

    /// So many lines were written at least.
    type Fact = u64;

    ghost window = { λ b. record { first = b.first; base = b.before; entries = b.lines.items } };

    ghost base_after = { λ base e. Some e };

    ghost calls = { λ b. 0 };

    ghost fixed = { λ b. tt };

    ghost caller_of = { λ e. e.caller };

    ghost holds = { λ b n. n ≤ b.first + length b.lines.items };

    ghost apart = { λ m n. Unit {0} };

    ghost keeps = { λ b c before after. b.first + length b.lines.items ≤ c.first + length c.lines.items };

    ghost tells = { λ b. Unit {0} };

    fn made(&self) -> u64 {
        self.first + self.lines.len() as u64
    }

    ghost kept = { λ b c before after n grew holds apart. (le_trans holds grew, λ k d lt. tt) };

    ghost apart_both = { λ m n apart. tt };
}

/// What a pass knows of a book.
#[derive(Clone, Copy)]
pub struct Reader {
    pub least: u64,
}

impl Knowing<u64> for Reader {
    ghost facts = { λ r. r.least ∷ [] };
}

impl Book {
    /// A book with one line, which caller 0 wrote.
    pub fn begun(alloc: Global) -> Result<Book, AllocError>
        ensures { IfOk result (λ b. end_of (⟦<Book as Journaled>⟧.window b) < 2 ^ 63) }
    {
        let line = Line {
            caller: 0,
            number: 0,
        };
        Ok(Book {
            first: 0,
            before: None,
            lines: Vec::from_array(alloc, [line])?,
        })
    }

    /// What its length says.
    pub fn reader(&self) -> Reader
        requires { end_of (⟦<Book as Journaled>⟧.window self.now) < 2 ^ 63 }
        ensures { result.least ≡ end_of (⟦<Book as Journaled>⟧.window self.now) }
    {
        Reader { least: self.made() }
    }

    /// Adds a line, or none where there is no memory.
    pub fn write(&mut self, caller: u32, number: u64)
        requires { end_of (⟦<Book as Journaled>⟧.window self.old) < 2 ^ 63 }
        ensures few { end_of (⟦<Book as Journaled>⟧.window self.new) < 2 ^ 63 }
        ensures grew { end_of (⟦<Book as Journaled>⟧.window self.old) ≤ end_of (⟦<Book as Journaled>⟧.window self.new) }
        ensures may { MayGive ⟦<Book as Journaled>⟧.base_after ⟦<Book as Journaled>⟧.caller_of caller (⟦<Book as Journaled>⟧.window self.old) (⟦<Book as Journaled>⟧.window self.new) }
    {
        if self.made() < 1 << 62 {
            let _ = self.lines.push(Line { caller, number });
        }
    }

    /// Cuts the first line off, where there is one.
    pub fn cut(&mut self)
        requires { end_of (⟦<Book as Journaled>⟧.window self.old) < 2 ^ 63 }
        ensures end { end_of (⟦<Book as Journaled>⟧.window self.new) ≡ end_of (⟦<Book as Journaled>⟧.window self.old) }
        ensures may { (caller : ℕ) → MayGive ⟦<Book as Journaled>⟧.base_after ⟦<Book as Journaled>⟧.caller_of caller (⟦<Book as Journaled>⟧.window self.old) (⟦<Book as Journaled>⟧.window self.new) }
    {
        if !self.lines.is_empty() {
            self.before = Some(self.lines.remove(0));
            self.first += 1;
        }
    }
}
