//! Which of two stores' rows clients see.
ghost use Rattle.std.specs.Prelude.{◌≡◌, option_copied};
ghost use Rattle.mt_meta.specs.Overlay.{old_choice, filling_choice, new_choice, overlay};

use crate::mark::{Mark, mark_of, seen_tag};
use crate::marker::NewPhase;
use mt_chain::StoredRow;
use mt_model::Tag;

/// The row that clients see, with the tag that they see.
#[derive(Clone, Copy, Debug, PartialEq, Eq)]
pub enum Choice {
    /// There is no row for clients.
    Nothing,
    /// The visible properties of old's row.
    OldRow(Tag),
    /// The visible properties of new's row.
    NewRow(Tag),
}

fn old_choice(old: Option<&StoredRow>) -> Choice
    ensures { result ≡ old_choice (option_copied old.entry) }
{
    match old {
        None => Choice::Nothing,
        Some(row) => match seen_tag(row) {
            None => Choice::Nothing,
            Some(tag) => Choice::OldRow(tag),
        },
    }
}

fn filling_choice(mark: Option<Mark>, own: Tag, old: Choice) -> Choice
    ensures { result ≡ filling_choice mark own old }
{
    match mark {
        Some(Mark::Live) => Choice::NewRow(own),
        Some(Mark::Copy(_)) => old,
        Some(Mark::Tomb) => Choice::Nothing,
        None => Choice::Nothing,
    }
}

fn new_choice(mark: Option<Mark>, own: Tag) -> Choice
    ensures { result ≡ new_choice mark own }
{
    match mark {
        Some(Mark::Live) => Choice::NewRow(own),
        Some(Mark::Copy(kept)) => Choice::NewRow(kept),
        Some(Mark::Tomb) => Choice::Nothing,
        None => Choice::Nothing,
    }
}

/// What clients see at a key of a partition whose new marker is in that phase, given the two stores'
/// rows at the key. While new fills, a live row shows itself, a tombstone nothing, and a copy or no
/// entry shows old's row. Once new is used alone, a live row and a copy show themselves, with their
/// own tag and the kept one. A row whose hidden texts are no mark shows nothing.
pub fn overlay(phase: NewPhase, old: Option<&StoredRow>, new: Option<&StoredRow>) -> Choice
    ensures { result ≡ overlay phase (option_copied old.entry) (option_copied new.entry) }
{
    match (phase, new) {
        (NewPhase::Filling, None) => old_choice(old),
        (NewPhase::Filling, Some(row)) => filling_choice(mark_of(row), row.tag, old_choice(old)),
        (NewPhase::UseNew, None) => Choice::Nothing,
        (NewPhase::UseNew, Some(row)) => new_choice(mark_of(row), row.tag),
    }
}
