//! What a page does with a store's reply.
ghost use Rattle.std.specs.Prelude.{◌≡◌, ◌≤◌, IfOk, option_copied};
ghost use Rattle.mt_scan.specs.Chunks.{is_fair, is_fair_next, lesser};
ghost use Rattle.mt_scan.specs.Pages.{Lead, chunk as to_chunk, gap as to_gap, old_marker, new_marker, saw_old, saw_turned, saw_closed, read_lead, next_lead, SeesRows, SeesNext};

use crate::chunk::{Chunk, chunk_of, copy_end, lesser};
use crate::keys::{is_fair, is_fair_next};
use mt_chain::{Found, Next};
use mt_filter::Filter;
use mt_meta::{MARKER_KEY, NewPhase, Phase, new_phase, old_phase};
use mt_model::{NoMemory, Text};
use std::alloc::Global;

/// What the first call of a unit showed, if it was made.
#[derive(Drop)]
pub enum Half {
    /// It was not.
    First,

    /// The partition has turned to new, and old showed this.
    Turned(Found),

    /// Old is sealed, and has no such partition.
    Closed,

    /// Old is sealed, and this is its next partition.
    Named(Option<Text>),
}

/// What comes of a read of rows.
#[derive(Drop)]
pub(crate) enum SeenRows {
    /// The unit begins again.
    Again,

    /// It goes on to a read of new.
    On(Half),

    /// These are its rows.
    Made(Chunk),
}

/// What comes of the question for the next partition.
#[derive(Drop)]
pub(crate) enum SeenNext {
    /// The unit begins again.
    Again,

    /// It goes on to the same question of new.
    On(Half),

    /// It goes up to that partition.
    Next(Option<Text>),
}

fn see_chunk(
    alloc: Global,
    pk: &Text,
    filter: &Option<Filter>,
    room: usize,
    phase: NewPhase,
    old: Option<&Found>,
    new: Option<&Found>,
) -> Result<SeenRows, NoMemory>
    requires { 1 ≤ room }
    ensures { IfOk result (SeesRows pk.now filter.now room (to_chunk phase (option_copied old.entry) (option_copied new.entry))) }
{
    Ok(SeenRows::Made(chunk_of(alloc, pk, filter, phase, room, old, new)?))
}

/// What old's marker says, if there is one.
fn old_marker_of(found: &Found) -> Option<Option<Phase>>
    ensures { result ≡ old_marker found.now }
{
    match found.named.get(MARKER_KEY) {
        None => None,
        Some(marker) => Some(old_phase(marker)),
    }
}

/// What new's marker says, if there is one.
fn new_marker_of(found: &Found) -> Option<Option<NewPhase>>
    ensures { result ≡ new_marker found.now }
{
    match found.named.get(MARKER_KEY) {
        None => None,
        Some(marker) => Some(new_phase(marker)),
    }
}

/// What comes of a read of old. The one error is want of memory.
fn see_old(
    alloc: Global,
    pk: &Text,
    filter: &Option<Filter>,
    room: usize,
    found: Found,
) -> Result<SeenRows, NoMemory>
    requires { 1 ≤ room }
    ensures { IfOk result (SeesRows pk.now filter.now room (saw_old found (old_marker found) found.sealed)) }
{
    match old_marker_of(&found) {
        Some(Some(Phase::UseOld | Phase::PreferOld)) => {
            see_chunk(
                alloc,
                pk,
                filter,
                room,
                NewPhase::Filling,
                Some(&found),
                None,
            )
        }
        Some(Some(Phase::PreferNew)) => Ok(SeenRows::On(Half::Turned(found))),
        Some(None) => Ok(SeenRows::Again),
        None if found.sealed => Ok(SeenRows::On(Half::Closed)),
        None => see_chunk(alloc, pk, filter, room, NewPhase::UseNew, None, None),
    }
}

/// What comes of a read of new where old was turned. The one error is want of memory.
fn see_turned(
    alloc: Global,
    pk: &Text,
    filter: &Option<Filter>,
    room: usize,
    old: &Found,
    found: &Found,
) -> Result<SeenRows, NoMemory>
    requires { 1 ≤ room }
    ensures { IfOk result (SeesRows pk.now filter.now room (saw_turned old.now found.now (new_marker found.now))) }
{
    match new_marker_of(found) {
        Some(Some(NewPhase::Filling)) => {
            see_chunk(
                alloc,
                pk,
                filter,
                room,
                NewPhase::Filling,
                Some(old),
                Some(found),
            )
        }
        Some(Some(NewPhase::UseNew)) => {
            see_chunk(alloc, pk, filter, room, NewPhase::UseNew, None, Some(found))
        }
        Some(None) | None => Ok(SeenRows::Again),
    }
}

/// What comes of a read of new where old was sealed without the partition. The one error is want of
/// memory.
fn see_closed(
    alloc: Global,
    pk: &Text,
    filter: &Option<Filter>,
    room: usize,
    found: &Found,
) -> Result<SeenRows, NoMemory>
    requires { 1 ≤ room }
    ensures { IfOk result (SeesRows pk.now filter.now room (saw_closed found.now (new_marker found.now))) }
{
    match new_marker_of(found) {
        Some(Some(NewPhase::UseNew)) => {
            see_chunk(alloc, pk, filter, room, NewPhase::UseNew, None, Some(found))
        }
        Some(Some(NewPhase::Filling) | None) => Ok(SeenRows::Again),
        None => see_chunk(alloc, pk, filter, room, NewPhase::UseNew, None, None),
    }
}

/// What comes of a read of rows. The one error is want of memory.
pub(crate) fn see_rows(
    alloc: Global,
    pk: &Text,
    filter: &Option<Filter>,
    room: usize,
    half: &Half,
    found: Found,
) -> Result<SeenRows, NoMemory>
    requires { 1 ≤ room }
    ensures { IfOk result (SeesRows pk.now filter.now room (read_lead (is_fair found) half.now found)) }
{
    if !is_fair(alloc, &found)? {
        return Ok(SeenRows::Again);
    }
    match half {
        Half::First => see_old(alloc, pk, filter, room, found),
        Half::Turned(old) => see_turned(alloc, pk, filter, room, old, &found),
        Half::Closed => see_closed(alloc, pk, filter, room, &found),
        Half::Named(_) => Ok(SeenRows::Again),
    }
}

fn lesser_of(alloc: Global, old: &Option<Text>, new: &Option<Text>) -> Result<SeenNext, NoMemory>
    ensures { IfOk result (SeesNext (to_gap (lesser old.now new.now))) }
{
    let to = copy_end(alloc, lesser(old.as_ref(), new.as_ref()))?;
    Ok(SeenNext::Next(to))
}

/// What comes of the question for the next partition. The one error is want of memory.
pub(crate) fn see_next(alloc: Global, half: &Half, next: Next) -> Result<SeenNext, NoMemory>
    ensures { IfOk result (SeesNext (next_lead (is_fair_next next.pk) half.now next)) }
{
    if !is_fair_next(alloc, &next.pk)? {
        return Ok(SeenNext::Again);
    }
    match half {
        Half::First if next.sealed => Ok(SeenNext::On(Half::Named(next.pk))),
        Half::First => Ok(SeenNext::Next(next.pk)),
        Half::Named(old) => lesser_of(alloc, old, &next.pk),
        Half::Turned(_) | Half::Closed => Ok(SeenNext::Again),
    }
}
