//! Passes of a turnstile.
ghost use Rattle.std.specs.Prelude.{◌≡◌, true, None};
ghost use Rattle.std.specs.Option.{is_some};
ghost use Rattle.mt_turn.specs.Windows.{last_of};
ghost use Rattle.mt_turn.specs.Views.{hand};

use crate::journal::Journaled;
use crate::view::View;
use atomic_table::Seat;

/// What a caller of a turnstile holds: its caller number, and the turn between `take` and `give`.
///
/// Contracts see more of it: the windows of the history that it has seen, the facts that it
/// carries, the number of calls made in its turns, the fixed data of its turnstile, and whose it
/// is. The turnstile tells the five types; `PassOf` names them by the value's.
#[derive(Drop)]
pub struct Pass<W, E, B, X, F> {
    pub(crate) caller: u32,
    pub(crate) count: u32,
    pub(crate) seat: Seat<Option<W>, View<W, E, B, X, F>>,
    pub ghost number: { (seat.me.0.numbered ≡ true) × (seat.me.0.caller ≡ caller) × (seat.me.0.count ≡ count) },
    pub ghost slots: { seat.me.1 ≡ hand seat.me.0.turn },
    pub ghost begun: { is_some (last_of seat.me.0.seen) ≡ true },
    pub ghost heard: { seat.me.0.heard ≡ None },
}

/// A pass of a turnstile over W.
pub type PassOf<W> = Pass<
    W,
    <W as Journaled>::Entry,
    <W as Journaled>::Base,
    <W as Journaled>::Fixed,
    <W as Journaled>::Fact,
>;

impl<W, E, B, X, F> Pass<W, E, B, X, F> {
    ghost use Rattle.mt_turn.specs.Passes.{known};

    /// The number by which entries name the caller: 0 for the pass that `new` gives, k for the k-th that was split off.
    pub fn caller(&self) -> u32
        ensures { result ≡ (known self.now).caller }
    {
        self.caller
    }
}
