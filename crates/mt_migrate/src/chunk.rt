//! A chunk of rows that were read in both stores: where it ends, and what each of its keys wants.
ghost use Rattle.std.specs.Prelude.{◌≡◌, Some, None, IfOk, MatchOption, [], ◌∷◌, filter, option_copied};
ghost use Rattle.std.specs.List.{list_any};
ghost use Rattle.mt_model.specs.Props.{is_visible};
ghost use Rattle.mt_meta.specs.Marks.{seen_tag};
ghost use Rattle.mt_migrate.specs.Chunks.{end_of, lesser, chunk_end, are_alike, insert_want, replace_want, copy_want, want_of, is_of_chunk, want_at, is_want, wants_put, is_wanting};

use crate::state::Reading;
use mt_chain::{Found, StoredRow, StoredRows, is_upto};
use mt_meta::{MARKER_KEY, Mark, mark_of, seen_tag};
use mt_model::{NoMemory, Prop, Props, Tag, Text};
use std::alloc::Global;

/// Where a reading ends: at its last row key where its range has more rows, else nowhere.
pub(crate) fn end_of(rows: &StoredRows, more: bool) -> Option<&Text>
    ensures { option_copied result ≡ end_of (record { rows = rows.now; more = more }) }
{
    if more { rows.last_key() } else { None }
}

/// The lesser of two ends.
fn lesser<'a>(a: Option<&'a Text>, b: Option<&'a Text>) -> Option<&'a Text>
    ensures { option_copied result ≡ lesser (option_copied a.entry) (option_copied b.entry) }
{
    match (a, b) {
        (None, b) => b,
        (Some(a), None) => Some(a),
        (Some(a), Some(b)) => if a <= b { Some(a) } else { Some(b) },
    }
}

/// A copy of a row key, if there is one. The one error is want of memory.
pub(crate) fn copy_end(alloc: Global, end: Option<&Text>) -> Result<Option<Text>, NoMemory>
    ensures { IfOk result (λ to. to ≡ option_copied end.entry) }
{
    match end {
        None => Ok(None),
        Some(rk) => Ok(Some(rk.copy(alloc)?)),
    }
}

/// Where the chunk of two readings ends. The one error is want of memory.
pub(crate) fn chunk_end(alloc: Global, old: &Reading, new: &Found) -> Result<Option<Text>, NoMemory>
    ensures { IfOk result (λ end. end ≡ chunk_end old.now (record { rows = new.now.rows; more = new.now.more })) }
{
    let end = lesser(end_of(&old.rows, old.more), end_of(&new.rows, new.more));
    copy_end(alloc, end)
}

/// The first visible property, and those behind it.
fn split_visible(mut props: &[Prop]) -> Option<(&Prop, &[Prop])>
    ensures { MatchOption result (filter is_visible props.now ≡ []) (λ r. filter is_visible props.now ≡ r.0.now ∷ filter is_visible r.1.now) }
{
    while let Some((prop, rest)) = props.split_first() {
        if prop.is_visible() {
            return Some((prop, rest));
        }
        props = rest;
    }
    None
}

/// Whether the visible properties are equal.
fn are_alike(a: &Props, b: &Props) -> bool
    ensures { result ≡ are_alike a.now b.now }
{
    let mut a = a.as_slice();
    let mut b = b.as_slice();
    while let Some((prop, rest)) = split_visible(a) {
        let Some((other, others)) = split_visible(b) else {
            return false;
        };
        if prop != other {
            return false;
        }
        a = rest;
        b = others;
    }
    split_visible(b).is_none()
}

/// What a key of a chunk wants.
#[derive(Clone, Copy, Debug, PartialEq, Eq)]
pub(crate) enum Want {
    Nothing,

    /// A copy of old's row, which clients see with this tag.
    Insert { seen: Tag },

    /// The same, in the place of the copy of that own tag.
    Replace { seen: Tag, own: Tag },

    /// That the copy of that own tag goes.
    Delete { own: Tag },
}

impl Want {
    /// Whether it is a put.
    pub fn is_put(self) -> bool
        ensures { result ≡ is_want self }
    {
        !matches!(self, Want::Nothing)
    }
}

fn insert_want(seen: Option<Tag>) -> Want
    ensures { result ≡ insert_want seen }
{
    match seen {
        None => Want::Nothing,
        Some(seen) => Want::Insert { seen },
    }
}

fn replace_want(row: &StoredRow, entry: &StoredRow, kept: Tag) -> Want
    ensures { result ≡ replace_want row.now (seen_tag row.now.props row.now.tag) entry.now kept }
{
    match seen_tag(row) {
        None => Want::Nothing,
        Some(seen) => if are_alike(&row.props, &entry.props) && seen == kept {
            Want::Nothing
        } else {
            Want::Replace {
                seen,
                own: entry.tag,
            }
        },
    }
}

fn copy_want(row: Option<&StoredRow>, entry: &StoredRow, kept: Tag) -> Want
    ensures { result ≡ copy_want (option_copied row.entry) entry.now kept }
{
    match row {
        None => Want::Delete { own: entry.tag },
        Some(row) => replace_want(row, entry, kept),
    }
}

/// What a key wants with that row of old and that entry of new.
fn want_of(row: Option<&StoredRow>, entry: Option<&StoredRow>) -> Want
    ensures { result ≡ want_of (option_copied row.entry) (option_copied entry.entry) }
{
    match (row, entry) {
        (None, None) => Want::Nothing,
        (Some(row), None) => insert_want(seen_tag(row)),
        (row, Some(entry)) => match mark_of(entry) {
            Some(Mark::Copy(kept)) => copy_want(row, entry, kept),
            Some(Mark::Live | Mark::Tomb) | None => Want::Nothing,
        },
    }
}

/// Whether the key is a client's, and the chunk that ends there has it.
fn is_of_chunk(upto: &Option<Text>, rk: &Text) -> bool
    ensures { result ≡ is_of_chunk upto.now rk.now }
{
    rk.as_str() != MARKER_KEY && is_upto(upto, rk)
}

/// What a key of a chunk wants, by the rows that were read of both stores.
pub(crate) fn want_at(
    upto: &Option<Text>,
    rows: &StoredRows,
    entries: &StoredRows,
    rk: &Text,
) -> Want
    ensures { result ≡ want_at upto.now rows.now entries.now rk.now }
{
    if is_of_chunk(upto, rk) {
        want_of(rows.get(rk.as_str()), entries.get(rk.as_str()))
    } else {
        Want::Nothing
    }
}

/// Whether some row's key wants a put.
fn is_any_wanting(
    upto: &Option<Text>,
    rows: &StoredRows,
    entries: &StoredRows,
    keys: &StoredRows,
) -> bool
    ensures { result ≡ list_any (λ r. wants_put upto.now rows.now entries.now r.rk) keys.now }
{
    for row in keys.as_slice() {
        if want_at(upto, rows, entries, &row.rk).is_put() {
            return true;
        }
    }
    false
}

/// Whether some key of a chunk wants a put.
pub(crate) fn is_wanting(upto: &Option<Text>, rows: &StoredRows, entries: &StoredRows) -> bool
    ensures { result ≡ is_wanting upto.now rows.now entries.now }
{
    is_any_wanting(upto, rows, entries, rows) || is_any_wanting(upto, rows, entries, entries)
}
