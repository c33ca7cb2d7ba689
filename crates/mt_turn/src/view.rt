//! What contracts see of a value and of a pass. No value of these types is made.
use std::collections::LinkedList;

/// A part of a history: the place of its first entry, what the entries before it made, and the
/// entries from there on.
pub struct Window<E, B> {
    pub first: u64,
    pub base: B,
    pub entries: LinkedList<E>,
}

/// What a pass knows. W is the value's type, E that of its entries, B that of its bases, X that of
/// its fixed data, and F that of its facts.
pub struct View<W, E, B, X, F> {
    /// It is a pass's. What one pass tells another has no number.
    pub numbered: bool,
    pub caller: u64,
    /// How many passes were split off.
    pub count: u64,
    /// The fixed data of the turnstile's value.
    pub fixed: Option<X>,
    /// The windows that it has seen, the last one last.
    pub seen: LinkedList<Window<E, B>>,
    /// Those that it had seen when it was made.
    pub start: LinkedList<Window<E, B>>,
    /// The last window of another pass, until it is compared with its own. None between calls.
    pub heard: Option<Window<E, B>>,
    /// It holds the turn.
    pub turn: bool,
    /// The value that it, or the pass that it was split off from, took last; before the first take, that at `new`.
    pub last: Option<W>,
    pub facts: LinkedList<F>,
    /// The number of calls made in its turns.
    pub made: u64,
}
