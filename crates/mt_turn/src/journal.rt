//! What a value under a turnstile means.
ghost use Rattle.std.specs.Prelude.{◌≡◌, ℕ, ◌+◌, ◌^◌, ◌<◌, List, length, All};
ghost use Rattle.mt_turn.specs.declared.view.Window.{Window};
ghost use Rattle.mt_turn.specs.Windows.{end_of};

/// A value that stands for a window of a history, and for a number of calls made.
///
/// Its meanings are seen by contracts alone. An entry has a caller, and the base of a window is
/// what the entries before it made: what was cut off has gone into it.
pub trait Journaled: Drop {
    type Entry;

    type Base;

    /// What no turn changes.
    type Fixed;

    /// What a caller may know of a value between its turns. Running code makes no value of it.
    type Fact;

    ghost window: { Self → Window Self.Entry Self.Base };

    /// The base after one entry.
    ghost base_after: { Self.Base → Self.Entry → Self.Base };

    ghost calls: { Self → ℕ };

    ghost fixed: { Self → Self.Fixed };

    ghost caller_of: { Self.Entry → ℕ };

    /// The fact holds of the value.
    ghost holds: { Self → Self.Fact → Type 0 };

    /// Two facts that two callers may have at one time.
    ghost apart: { Self.Fact → Self.Fact → Type 0 };

    /// What a turn keeps: of the value taken, the value given, and the caller's facts before and after.
    ghost keeps: { Self → Self → List Self.Fact → List Self.Fact → Type 0 };

    /// The value tells what it contains. A turn may end that, and none begins it.
    ghost tells: { Self → Type 0 };

    /// The number of entries ever made, those that were cut off among them.
    fn made(&self) -> u64
        requires { end_of (window self.now) < 2 ^ 63 }
        ensures { result ≡ end_of (window self.now) };

    /// A fact that held of the value taken and was apart from the caller's facts holds of the value given, and is apart from the caller's new facts.
    ghost kept: { (taken given : Self) (before after : List Self.Fact) (f : Self.Fact) → keeps taken given before after → holds taken f → All (apart f) before → holds given f × All (apart f) after };

    ghost apart_both: { (f g : Self.Fact) → apart f g → apart g f };
}

/// Who knows facts between its turns: what `give` takes the facts of a pass from.
pub trait Knowing<F> {
    ghost facts: { Self → List F };
}
