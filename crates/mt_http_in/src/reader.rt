//! Bytes that were read and not used.
ghost use Rattle.std.specs.Prelude.{◌≡◌, ◌≤◌, ◌+◌, ◌++◌, ℕ, List, [], length, drop, if◌then◌else◌, IfOk, vec_len, ◌==◌};
ghost use Rattle.mt_http_in.specs.Reading.{Fills};

use crate::Code;
use mt_io::{IoFault, Source};
use mt_model::NoMemory;
use std::alloc::Global;
use std::marker::Model;

/// Why reading stopped.
#[derive(Clone, Copy, Drop)]
pub enum Halt {
    /// A read failed.
    ReadFault,

    /// The allocator had no memory.
    NoMemory,

    /// The bytes are refused.
    Refused(Code),
}

/// The most bytes that one read brings.
const PIECE: usize = 4_096;

/// The most bytes that are kept: a head or trailers with the line end behind them, and a piece.
const ROOM: usize = 20_482;

/// Bytes that were read off a source and not used, 20,482 at most.
#[derive(Drop)]
pub struct Reader {
    bytes: Vec<u8>,
    start: usize,
}

impl Model for Reader {
    ghost use Rattle.std.specs.Prelude.{ℕ, List, drop, ◌≤◌, vec_len};

    ghost Value = { List ℕ };

    ghost view = { λ r. drop r.start r.bytes.items };

    ghost invariant = { λ r. (r.start ≤ vec_len r.bytes) × (vec_len r.bytes ≤ 20482) };
}

/// Removes the first n bytes, and moves the others to the front.
fn remove_front(bytes: &mut Vec<u8>, n: usize)
    requires { n ≤ vec_len bytes.old }
    ensures items { bytes.new.items ≡ drop n bytes.old.items }
    ensures len { vec_len bytes.new + n ≡ vec_len bytes.old }
{
    if n > 0 {
        let len = bytes.len();
        bytes.as_mut_slice().copy_within(n..len, 0);
        bytes.truncate(len - n);
    }
}

impl Reader {
    /// A reader that has no bytes yet. The one error is want of memory.
    pub fn new(alloc: Global) -> Result<Reader, NoMemory>
        ensures { IfOk result (λ r. r ≡ []) }
    {
        let bytes = Vec::with_capacity(alloc, ROOM)?;
        Ok(Reader { bytes, start: 0 })
    }

    /// How many bytes are kept.
    pub fn len(&self) -> usize
        ensures value { result ≡ length self.now }
        ensures bounded { result ≤ 20482 }
    {
        self.bytes.len() - self.start
    }

    /// Whether no bytes are kept.
    pub fn is_empty(&self) -> bool
        ensures { result ≡ (length self.now == 0) }
    {
        self.len() == 0
    }

    pub(crate) fn as_slice(&self) -> &[u8]
        ensures { result.now ≡ self.now }
    {
        &self.bytes[self.start..]
    }

    /// Drops bytes off the front.
    pub(crate) fn skip(&mut self, n: usize)
        requires { n ≤ length self.old }
        ensures { self.new ≡ drop n self.old }
    {
        self.start += n;
    }

    /// Adds bytes at the end, in the buffer's own room.
    fn add(&mut self, piece: &[u8]) -> bool
        requires { length self.old + length piece.now ≤ 20482 }
        ensures { self.new ≡ (if result then self.old ++ piece.now else self.old) }
    {
        remove_front(&mut self.bytes, self.start);
        self.start = 0;
        self.bytes.extend_from_slice(piece).is_ok()
    }

    /// Reads a piece; 0 at the end of input.
    pub(crate) fn fill<S: Source>(&mut self, source: &mut S) -> Result<usize, Halt>
        requires { length self.old ≤ 16386 }
        ensures { Fills self.old (S.input source.old) result self.new (S.input source.new) }
    {
        let mut piece = [0u8; PIECE];
        match source.read(&mut piece) {
            Ok(n) => {
                if self.add(&piece[..n]) {
                    Ok(n)
                } else {
                    Err(Halt::NoMemory)
                }
            }
            Err(IoFault::Failed) => Err(Halt::ReadFault),
        }
    }
}
