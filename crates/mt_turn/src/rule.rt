//! The rule of a turnstile's table, and its steps.
ghost use Rattle.std.specs.Prelude.{List, []};
ghost use Rattle.mt_turn.specs.Views.{first_pass, note, after_split, split_off, hears};
ghost use Rattle.mt_turn.specs.Steps.{claimed, left, looked};
ghost use Rattle.mt_turn.specs.Rule.{Kept};

use crate::journal::Journaled;
use crate::view::View;
use atomic_table::{Join, Play, Split, TableRule};
use std::marker::{Brand, PhantomData};
use std::snapshot::Snapshot;

/// The view of a pass of a turnstile over W.
pub(crate) type ViewOf<W> = View<
    W,
    <W as Journaled>::Entry,
    <W as Journaled>::Base,
    <W as Journaled>::Fixed,
    <W as Journaled>::Fact,
>;

/// The rule of a turnstile over W, about the value at `new`.
pub struct Law<W> {
    of: PhantomData<W>,
}

impl<W: Journaled> TableRule<Option<W>, ViewOf<W>, Snapshot<W>> for Law<W> {
    ghost holds = { λ key. Kept W.window W.base_after W.fixed W.caller_of W.holds W.tells W.apart key.value };

    ghost first = { λ key. first_pass W.window W.fixed key.value };
}

/// Sets the bit that says that the turn is held.
pub(crate) struct Claim<W> {
    of: PhantomData<W>,
}

impl<W: Journaled> Play<Option<W>, ViewOf<W>> for Claim<W> {
    ghost then = { claimed W.window W.base_after W.fixed W.caller_of W.holds W.tells };
}

/// The facts of a pass from a give on.
pub(crate) trait Picked<F> {
    ghost facts: { List F };
}

impl<F> Picked<F> for Brand {
    ghost facts = { [] };
}

/// Stores the number of entries, with the turn given back.
pub(crate) struct Leave<W, N> {
    of: PhantomData<(W, N)>,
}

impl<W: Journaled, N: Picked<W::Fact>> Play<Option<W>, ViewOf<W>> for Leave<W, N> {
    ghost then = { left W.window W.base_after W.calls N.facts };
}

/// Reads the word, to compare what was heard with what was seen.
pub(crate) struct Look<W> {
    of: PhantomData<W>,
}

impl<W: Journaled> Play<Option<W>, ViewOf<W>> for Look<W> {
    ghost then = { looked W.base_after };
}

/// A new pass, with the next number.
pub(crate) struct Number;

impl<W, E, B, X, F> Split<View<W, E, B, X, F>> for Number {
    ghost left = { after_split };

    ghost right = { split_off };
}

/// A note of what a pass has seen.
pub(crate) struct Note;

impl<W, E, B, X, F> Split<View<W, E, B, X, F>> for Note {
    ghost left = { λ v. v };

    ghost right = { λ v. note v.seen };
}

/// A note or a pass is given up, and its last window heard of.
pub(crate) struct Tell;

impl<W, E, B, X, F> Join<View<W, E, B, X, F>> for Tell {
    ghost both = { hears };

    ghost spent = { note [] };
}
