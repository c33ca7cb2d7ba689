//! Answers to queries: copies of rows.
ghost use Rattle.std.specs.Prelude.{◌≡◌, ◌<◌, ◌≤◌, ◌++◌, suc, ℕ, IsTrue, IfOk, IfSome, [], length, drop, slice_index_or};
ghost use Rattle.mt_chain.specs.Rows.{are_rising, named_rows, is_past};
ghost use Rattle.mt_chain.specs.StoreCall.{CanQuery, IsFound, IsNext, range_answer, range_has_more};
ghost use Rattle.mt_paged.specs.Pages.{joined, rows_in};
ghost use Rattle.mt_paged.specs.Walks.{is_full, walk, Walked};

use crate::front::Front;
use crate::lookup::{first_past, row_at};
use crate::pages::Pages;
use mt_chain::{Found, PkFrom, Range, RangeQuery, StoredRow, StoredRows};
use mt_mem::{Row, copy_row, is_not_past};
use mt_model::{NoMemory, Text};
use std::alloc::Global;

/// Where a walk through rows stands.
#[derive(Clone, Copy)]
pub enum Reach {
    /// It goes on with the rows that come next.
    Open,
    /// It ended, where the range has further rows or not.
    Ended { more: bool },
}

/// Copies of those of the named rows of a partition that are there.
fn named_rows(
    alloc: Global,
    pages: &Pages,
    pk: &Text,
    names: &[Text],
) -> Result<Vec<StoredRow>, NoMemory>
    requires { IsTrue (are_rising (rows_in pages.now)) }
    ensures { IfOk result (λ v. v.items ≡ named_rows (rows_in pages.now) pk.now names.now) }
{
    let mut found = Vec::new(alloc);
    for rk in names {
        match row_at(pages, pk, rk) {
            Some(row) => found.push(copy_row(alloc, row)?)?,
            None => {}
        }
    }
    Ok(found)
}

/// Whether so many rows are all that are wanted.
fn is_full(limit: Option<u32>, count: usize) -> bool
    ensures { result ≡ is_full limit count }
{
    match limit {
        None => false,
        Some(limit) => count == limit as usize,
    }
}

/// Copies rows up to the end of a range and its limit, behind those found before.
fn walk_page(
    alloc: Global,
    rows: &[Row],
    pk: &Text,
    range: &Range,
    found: &mut Vec<StoredRow>,
) -> Result<Reach, NoMemory>
    ensures { IfOk result (λ reach. Walked pk.now range.now found.old.items rows.now reach found.new.items) }
{
    for row in rows {
        if !is_not_past(pk, &range.upto, row) {
            return Ok(Reach::Ended { more: false });
        }
        if is_full(range.limit, found.len()) {
            return Ok(Reach::Ended { more: true });
        }
        found.push(copy_row(alloc, &row.1)?)?;
    }
    Ok(Reach::Open)
}

/// Copies rows from a place of a page on, up to the end of a range and its limit, and whether the range
/// has more.
fn walk_from(
    alloc: Global,
    pages: &Pages,
    first: usize,
    place: usize,
    pk: &Text,
    range: &Range,
) -> Result<(Vec<StoredRow>, bool), NoMemory>
    requires within { first < length pages.now.pages }
    requires place { place ≤ length (slice_index_or pages.now.pages first []) }
    ensures { IfOk result (λ r. (r.0.items, r.1) ≡ walk pk.now range.now [] (drop place (slice_index_or pages.now.pages first []) ++ joined (drop (suc first) pages.now.pages))) }
{
    let mut found = Vec::new(alloc);
    let rows = &pages.page(first)[place..];
    if let Reach::Ended { more } = walk_page(alloc, rows, pk, range, &mut found)? {
        return Ok((found, more));
    }
    let len = pages.len();
    for at in first + 1..len {
        if let Reach::Ended { more } = walk_page(alloc, pages.page(at), pk, range, &mut found)? {
            return Ok((found, more));
        }
    }
    Ok((found, false))
}

/// Copies of the rows of a range up to its limit, and whether the range has more.
fn range_rows(
    alloc: Global,
    pages: &Pages,
    pk: &Text,
    range: &Option<Range>,
) -> Result<(Vec<StoredRow>, bool), NoMemory>
    requires { IsTrue (are_rising (rows_in pages.now)) }
    ensures first { IfOk result (λ r. r.0.items ≡ range_answer (rows_in pages.now) pk.now range.now) }
    ensures more { IfOk result (λ r. r.1 ≡ range_has_more (rows_in pages.now) pk.now range.now) }
{
    match range {
        Some(range) if pages.len() > 0 => {
            let (first, place) = pages.spot(Front::BeforeRange(pk, &range.from));
            walk_from(alloc, pages, first, place, pk, range)
        }
        _ => Ok((Vec::new(alloc), false)),
    }
}

/// The answer of a store of these rows to a query.
pub fn find(
    alloc: Global,
    pages: &Pages,
    sealed: bool,
    query: &RangeQuery,
) -> Result<Found, NoMemory>
    requires rising { IsTrue (are_rising (rows_in pages.now)) }
    requires can { CanQuery query.now }
    ensures { IfOk result (λ found. (counter : ℕ) → IsFound query.now found (record { rows = rows_in pages.now; sealed = sealed; counter = counter })) }
{
    let named = named_rows(alloc, pages, &query.pk, query.named.as_slice())?;
    let (rows, more) = range_rows(alloc, pages, &query.pk, &query.range)?;
    Ok(Found {
        named: StoredRows::of(named),
        rows: StoredRows::of(rows),
        more,
        sealed,
    })
}

/// A copy of the least partition key with a row at or after a place.
pub fn next_key(alloc: Global, pages: &Pages, at: &PkFrom) -> Result<Option<Text>, NoMemory>
    requires { IsTrue (are_rising (rows_in pages.now)) }
    ensures next { IfOk result (λ pk. IsNext at.now pk (rows_in pages.now)) }
    ensures past { IfOk result (λ pk. IfSome pk (λ pk. IsTrue (is_past at.now pk))) }
{
    match first_past(pages, Front::BeforePlace(at)) {
        None => Ok(None),
        Some(row) => Ok(Some(row.0.copy(alloc)?)),
    }
}
