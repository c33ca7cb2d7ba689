//! What a query does with the rows that it read.
ghost use Rattle.std.specs.Prelude.{◌≡◌, [], IfOk};
ghost use Rattle.mt_query_plan.specs.Queries.{lead_of, Sees};
ghost use Rattle.mt_query_plan.specs.declared.place.Place.TheVariants as at;

use crate::answer::answer;
use crate::place::{AfterOld, Place};
use mt_chain::{Found, StoredRows};
use mt_filter::Filter;
use mt_meta::{MARKER_KEY, NewPhase, Phase, new_phase, old_phase};
use mt_model::{Entities, NoMemory, Text};
use std::alloc::Global;

/// What comes of a read.
#[derive(Drop)]
pub(crate) enum Seen {
    /// The query begins again.
    Again,

    /// It goes on to a read of new.
    Read(AfterOld),

    /// It is answered.
    Answer(Entities),
}

fn no_rows(alloc: Global) -> StoredRows
    ensures { result ≡ [] }
{
    StoredRows::of(Vec::new(alloc))
}

fn nothing(alloc: Global) -> Entities
    ensures { result ≡ [] }
{
    Entities::of(Vec::new(alloc))
}

/// What comes of a read of old. The one error is want of memory.
fn see_old(
    alloc: Global,
    pk: &Text,
    filter: &Option<Filter>,
    found: Found,
) -> Result<Seen, NoMemory>
    ensures { IfOk result (Sees pk.now filter.now (lead_of at.ReadOld found)) }
{
    let Found {
        named,
        rows,
        sealed,
        ..
    } = found;
    match named.get(MARKER_KEY) {
        Some(marker) => match old_phase(marker) {
            Some(Phase::UseOld | Phase::PreferOld) => {
                let entries = no_rows(alloc);
                let seen = answer(alloc, pk, filter, NewPhase::Filling, &rows, &entries)?;
                Ok(Seen::Answer(seen))
            }
            Some(Phase::PreferNew) => Ok(Seen::Read(AfterOld::Turned { rows })),
            None => Ok(Seen::Again),
        },
        None if sealed => Ok(Seen::Read(AfterOld::Closed)),
        None => Ok(Seen::Answer(nothing(alloc))),
    }
}

/// What comes of a read of new, after what old showed. The one error is want of memory.
fn see_new(
    alloc: Global,
    pk: &Text,
    filter: &Option<Filter>,
    after: &AfterOld,
    found: &Found,
) -> Result<Seen, NoMemory>
    ensures { IfOk result (Sees pk.now filter.now (lead_of (at.ReadNew after.now) found.now)) }
{
    let entries = &found.rows;
    match found.named.get(MARKER_KEY) {
        Some(marker) => match (new_phase(marker), after) {
            (Some(NewPhase::Filling), AfterOld::Turned { rows }) => {
                let seen = answer(alloc, pk, filter, NewPhase::Filling, rows, entries)?;
                Ok(Seen::Answer(seen))
            }
            (Some(NewPhase::UseNew), _) => {
                let rows = no_rows(alloc);
                let seen = answer(alloc, pk, filter, NewPhase::UseNew, &rows, entries)?;
                Ok(Seen::Answer(seen))
            }
            (Some(NewPhase::Filling), AfterOld::Closed | AfterOld::Moved) | (None, _) => {
                Ok(Seen::Again)
            }
        },
        None => match after {
            AfterOld::Closed => Ok(Seen::Answer(nothing(alloc))),
            AfterOld::Turned { .. } | AfterOld::Moved => Ok(Seen::Again),
        },
    }
}

/// What comes of a read at that place. The one error is want of memory.
pub(crate) fn see(
    alloc: Global,
    pk: &Text,
    filter: &Option<Filter>,
    place: &Place,
    found: Found,
) -> Result<Seen, NoMemory>
    ensures { IfOk result (Sees pk.now filter.now (lead_of place.now found)) }
{
    match place {
        Place::ReadOld => see_old(alloc, pk, filter, found),
        Place::ReadNew { after } => see_new(alloc, pk, filter, after, &found),
    }
}
