//! Counts that stand still at their end.
ghost use Rattle.std.specs.Prelude.{◌≡◌, ◌≤◌};
ghost use Rattle.mt_io.specs.Ends.{raised};

/// The number of the first read that every source refuses.
pub const READ_LIMIT: u64 = 1 << 32;

/// Adds 1, unless the count stands at its end.
pub fn raise(count: &mut u64)
    ensures raised { count.new ≡ raised count.old }
    ensures grew { count.old ≤ count.new }
{
    *count = count.saturating_add(1);
}
