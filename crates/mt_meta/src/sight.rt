//! What clients see by rows that were read, which is copied nowhere.
ghost use Rattle.std.specs.Prelude.{◌≡◌, option_copied, option_map};
ghost use Rattle.mt_meta.specs.Logical.{shown_as, from_old, shown_over};
ghost use Rattle.mt_meta.specs.Steps.{as_row};
ghost use Rattle.mt_meta.specs.ReadRows.{kept_row, sight_row};

use crate::mark::seen_tag;
use crate::marker::NewPhase;
use crate::showing::{Choice, overlay};
use mt_chain::StoredRow;
use mt_model::{Props, Tag};

/// A row as clients see it: its visible properties, and the tag that they see. The hidden ones are
/// among them still.
#[derive(Clone, Copy)]
pub struct Sight<'a> {
    pub props: &'a Props,
    pub tag: Tag,
}

/// A row with the tag that clients see of it.
fn with_tag(row: Option<&StoredRow>, tag: Tag) -> Option<Sight<'_>>
    ensures { option_map sight_row result ≡ option_map (λ r. as_row (shown_as r.props tag)) (option_copied row.entry) }
{
    let row = row?;
    Some(Sight {
        props: &row.props,
        tag,
    })
}

/// What clients see of a row of old that no entry of new hides.
pub fn sight_of_old(row: Option<&StoredRow>) -> Option<Sight<'_>>
    ensures { option_map sight_row result ≡ option_map as_row (from_old (option_map kept_row (option_copied row.entry))) }
{
    with_tag(row, seen_tag(row?)?)
}

/// What clients see by a row of old and an entry of new, while new fills or once it is used alone.
pub fn sight_over<'a>(
    phase: NewPhase,
    row: Option<&'a StoredRow>,
    entry: Option<&'a StoredRow>,
) -> Option<Sight<'a>>
    ensures { option_map sight_row result ≡ option_map as_row (shown_over phase (option_map kept_row (option_copied row.entry)) (option_map kept_row (option_copied entry.entry))) }
{
    match overlay(phase, row, entry) {
        Choice::Nothing => None,
        Choice::OldRow(tag) => with_tag(row, tag),
        Choice::NewRow(tag) => with_tag(entry, tag),
    }
}
