//! The rows of a chunk.
ghost use Rattle.std.specs.Prelude.{◌≡◌, ◌≤◌, nat_lt, length, IfOk, option_copied};
ghost use Rattle.mt_chain.specs.Rows as says;
ghost use Rattle.mt_chain.specs.Rows.{RisingRows, read_end};
ghost use Rattle.mt_scan.specs.Chunks.{rows_of, end_of, lesser, reads_end, last_of, cut_at, up_to, next_key, AreFirst, IsChunk};

use mt_chain::{Found, StoredRow, first_key, first_row, rows_past};
use mt_filter::Filter;
use mt_meta::NewPhase;
use mt_model::{Entity, NoMemory, Text};
use mt_query_plan::{push_one, wanted};
use std::alloc::Global;

/// Some rows of a partition.
#[derive(Drop)]
pub(crate) struct Chunk {
    pub rows: Vec<Entity>,

    /// The row key up to which it goes, which belongs to it; none at the end.
    pub upto: Option<Text>,
}

/// Where a read ends: at its last row key where its range has more rows, else nowhere.
pub(crate) fn end_of_read(found: &Found) -> Option<&Text>
    ensures { option_copied result ≡ read_end found.now.rows found.now.more }
{
    if found.more {
        found.rows.last_key()
    } else {
        None
    }
}

fn end_of(found: Option<&Found>) -> Option<&Text>
    ensures { option_copied result ≡ end_of (option_copied found.entry) }
{
    match found {
        None => None,
        Some(found) => end_of_read(found),
    }
}

fn rows_of<'a>(found: Option<&'a Found>) -> &'a [StoredRow]
    ensures value { result.now ≡ rows_of (option_copied found.entry) }
    ensures rising { RisingRows result.now }
{
    match found {
        None => &[],
        Some(found) => found.rows.as_slice(),
    }
}

/// The lesser of two ends.
pub(crate) fn lesser<'a>(a: Option<&'a Text>, b: Option<&'a Text>) -> Option<&'a Text>
    ensures { option_copied result ≡ lesser (option_copied a.entry) (option_copied b.entry) }
{
    match (a, b) {
        (None, b) => b,
        (Some(a), None) => Some(a),
        (Some(a), Some(b)) => if a <= b { Some(a) } else { Some(b) },
    }
}

fn is_upto(end: Option<&Text>, rk: &Text) -> bool
    ensures { result ≡ says.is_upto (option_copied end.entry) rk.now }
{
    match end {
        None => true,
        Some(end) => rk <= end,
    }
}

/// The next key of two lists of rows, up to an end and while there is room.
fn next_key<'a>(
    has_room: bool,
    end: Option<&Text>,
    rows: &'a [StoredRow],
    entries: &'a [StoredRow],
) -> Option<&'a Text>
    ensures { option_copied result ≡ next_key has_room (option_copied end.entry) rows.now entries.now }
{
    if !has_room {
        return None;
    }
    match first_key(rows, entries) {
        Some(rk) if is_upto(end, rk) => Some(rk),
        _ => None,
    }
}

/// Whether there is room for one row more.
fn has_room(rows: &[Entity], room: usize) -> bool
    ensures { result ≡ nat_lt (length rows.now) room }
{
    rows.len() < room
}

/// The first rows that clients see and that the filter matches, up to an end, no more than there is
/// room: one walk over the rows of old and the entries of new. The one error is want of memory.
fn first_rows(
    alloc: Global,
    pk: &Text,
    filter: &Option<Filter>,
    phase: NewPhase,
    room: usize,
    end: Option<&Text>,
    rows: &[StoredRow],
    entries: &[StoredRow],
) -> Result<Vec<Entity>, NoMemory>
    requires room { 1 ≤ room }
    requires rising { RisingRows rows.now × RisingRows entries.now }
    ensures { IfOk result (λ v. AreFirst pk.now filter.now phase room (option_copied end.entry) rows.now entries.now v.items) }
{
    let mut found = Vec::new(alloc);
    let mut old = rows;
    let mut new = entries;
    while let Some(rk) = next_key(has_room(&found, room), end, old, new) {
        let row = first_row(old, rk);
        let entry = first_row(new, rk);
        let one = wanted(alloc, pk, filter, phase, rk, row, entry)?;
        push_one(&mut found, one)?;
        old = rows_past(old, rk);
        new = rows_past(new, rk);
    }
    Ok(found)
}

/// The row key of the last of the rows.
fn last_of(rows: &[Entity]) -> Option<&Text>
    ensures { option_copied result ≡ last_of rows.now }
{
    match rows.last() {
        None => None,
        Some(row) => Some(&row.key.rk),
    }
}

/// Where a chunk ends: at the last of its rows where they fill the room.
fn cut_at<'a>(room: usize, end: Option<&'a Text>, rows: &'a [Entity]) -> Option<&'a Text>
    ensures { option_copied result ≡ cut_at room (option_copied end.entry) rows.now }
{
    if has_room(rows, room) {
        end
    } else {
        last_of(rows)
    }
}

/// A copy of a text, if there is one. The one error is want of memory.
pub(crate) fn copy_end(alloc: Global, end: Option<&Text>) -> Result<Option<Text>, NoMemory>
    ensures { IfOk result (λ to. to ≡ option_copied end.entry) }
{
    match end {
        None => Ok(None),
        Some(text) => Ok(Some(text.copy(alloc)?)),
    }
}

/// The chunk by the reads of old and new that count. The one error is want of memory.
pub(crate) fn chunk_of(
    alloc: Global,
    pk: &Text,
    filter: &Option<Filter>,
    phase: NewPhase,
    room: usize,
    old: Option<&Found>,
    new: Option<&Found>,
) -> Result<Chunk, NoMemory>
    requires { 1 ≤ room }
    ensures { IfOk result (λ c. IsChunk pk.now filter.now phase room (option_copied old.entry) (option_copied new.entry) (record { rows = c.rows.items; upto = c.upto })) }
{
    let end = lesser(end_of(old), end_of(new));
    let rows = first_rows(
        alloc,
        pk,
        filter,
        phase,
        room,
        end,
        rows_of(old),
        rows_of(new),
    )?;
    let upto = copy_end(alloc, cut_at(room, end, rows.as_slice()))?;
    Ok(Chunk { rows, upto })
}
