//! Where a cleaner goes with what a store replied: one function for each line of its table.
ghost use Rattle.std.specs.Prelude.{◌≡◌, option_copied};
ghost use Rattle.mt_clean.specs.Cleanings.{walked, purged, purge_or_on, by_new_phase, read_new, read_old, dropped};

use crate::rows::{data_rows, tombs_of};
use crate::state::State;
use mt_chain::{StoredRow, StoredRows};
use mt_meta::{NewPhase, new_phase};
use mt_model::Text;

/// Where a reply leads.
#[derive(Drop)]
pub(crate) enum Lead {
    /// To this state.
    To(State),

    /// To the beginning, since old is not sealed.
    NotSealed,

    /// To the beginning, since new does not use the partition alone.
    NotMigrated { pk: Text },
}

/// Old told its first partition, or that it has none, and whether it is sealed.
pub(crate) fn walked(sealed: bool, pk: Option<Text>) -> Lead
    ensures { result ≡ walked sealed pk }
{
    match (sealed, pk) {
        (false, _) => Lead::NotSealed,
        (true, None) => Lead::To(State::Done),
        (true, Some(pk)) => Lead::To(State::Tombs { pk, after: None }),
    }
}

/// New has no tombstone up to there.
pub(crate) fn purged(pk: Text, upto: Option<Text>) -> State
    ensures { result ≡ purged pk upto }
{
    match upto {
        None => State::Rows { pk },
        Some(rk) => State::Tombs {
            pk,
            after: Some(rk),
        },
    }
}

fn purge_or_on(pk: Text, upto: Option<Text>, tombs: StoredRows) -> State
    ensures { result ≡ purge_or_on pk upto tombs }
{
    if tombs.as_slice().is_empty() {
        purged(pk, upto)
    } else {
        State::Purge { pk, upto, tombs }
    }
}

fn by_new_phase(pk: Text, upto: Option<Text>, rows: StoredRows, phase: Option<NewPhase>) -> Lead
    ensures { result ≡ by_new_phase pk upto rows phase }
{
    match phase {
        Some(NewPhase::UseNew) => Lead::To(purge_or_on(pk, upto, tombs_of(rows))),
        Some(NewPhase::Filling) => Lead::NotMigrated { pk },
        None => Lead::To(State::Walk),
    }
}

/// New was read up to there.
pub(crate) fn read_new(
    pk: Text,
    upto: Option<Text>,
    rows: StoredRows,
    marker: Option<&StoredRow>,
) -> Lead
    ensures { result ≡ read_new pk upto rows (option_copied marker.entry) }
{
    match marker {
        None => Lead::NotMigrated { pk },
        Some(row) => by_new_phase(pk, upto, rows, new_phase(row)),
    }
}

/// Old was read.
pub(crate) fn read_old(pk: Text, rows: StoredRows, more: bool, marker: Option<&StoredRow>) -> State
    ensures { result ≡ read_old pk rows more (option_copied marker.entry) }
{
    match marker {
        None => State::Walk,
        Some(row) => State::Drop {
            pk,
            marker: row.tag,
            rows: data_rows(rows),
            more,
        },
    }
}

/// Rows of old were dropped, and the marker where there were no more.
pub(crate) fn dropped(pk: Text, more: bool) -> State
    ensures { result ≡ dropped pk more }
{
    if more {
        State::Rows { pk }
    } else {
        State::Walk
    }
}
