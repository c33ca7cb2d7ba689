//! Answers to queries: copies of rows.
ghost use Rattle.std.specs.Prelude.{◌≡◌, ℕ, IsTrue, IfOk, IfSome, bytes_eq, map, length, Option, Some};
ghost use Rattle.mt_chain.specs.Rows.{are_rising, named_rows, rows_within, limited, is_beyond, is_past};
ghost use Rattle.mt_chain.specs.StoreCall.{CanQuery, IsFound, IsNext, range_answer, range_has_more};
ghost use Rattle.mt_mem.specs.Entries.{entries};

use crate::lookup::{Row, place_past, row_at, rows_within};
use mt_chain::{Found, PkFrom, Range, RangeQuery, StoredRow, StoredRows};
use mt_model::{NoMemory, Text};
use std::alloc::Global;

/// A copy of a row.
pub fn copy_row(alloc: Global, row: &StoredRow) -> Result<StoredRow, NoMemory>
    ensures { IfOk result (λ r. r ≡ row.now) }
{
    Ok(StoredRow {
        rk: row.rk.copy(alloc)?,
        props: row.props.copy(alloc)?,
        tag: row.tag,
    })
}

/// Copies of those of the named rows of a partition that are there.
fn named_rows(
    alloc: Global,
    rows: &[Row],
    pk: &Text,
    names: &[Text],
) -> Result<Vec<StoredRow>, NoMemory>
    requires { IsTrue (are_rising (entries rows.now)) }
    ensures { IfOk result (λ v. v.items ≡ named_rows (entries rows.now) pk.now names.now) }
{
    let mut found = Vec::new(alloc);
    for rk in names {
        match row_at(rows, pk, rk) {
            Some(row) => found.push(copy_row(alloc, row)?)?,
            None => {}
        }
    }
    Ok(found)
}

/// Copies of rows.
fn copies(alloc: Global, rows: &[Row]) -> Result<Vec<StoredRow>, NoMemory>
    ensures { IfOk result (λ v. v.items ≡ map (λ r. r.1) rows.now) }
{
    let mut all = Vec::with_capacity(alloc, rows.len())?;
    for row in rows {
        all.push(copy_row(alloc, &row.1)?)?;
    }
    Ok(all)
}

/// The first rows up to a limit, and whether there are more.
fn first_rows(rows: &[Row], limit: Option<u32>) -> (&[Row], bool)
    ensures first { result.0.now ≡ limited limit rows.now }
    ensures more { result.1 ≡ is_beyond limit rows.now }
{
    match limit {
        Some(n) if (n as usize) < rows.len() => (&rows[..n as usize], true),
        _ => (rows, false),
    }
}

/// The rows of a range up to its limit, and whether the range has more.
fn range_rows<'a>(rows: &'a [Row], pk: &Text, range: &Option<Range>) -> (&'a [Row], bool)
    requires { IsTrue (are_rising (entries rows.now)) }
    ensures first { map (λ r. r.1) result.0.now ≡ range_answer (entries rows.now) pk.now range.now }
    ensures more { result.1 ≡ range_has_more (entries rows.now) pk.now range.now }
{
    match range {
        None => (&rows[..0], false),
        Some(range) => first_rows(rows_within(rows, pk, range), range.limit),
    }
}

/// The answer of a store of these rows to a query.
pub fn find(
    alloc: Global,
    rows: &[Row],
    sealed: bool,
    query: &RangeQuery,
) -> Result<Found, NoMemory>
    requires rising { IsTrue (are_rising (entries rows.now)) }
    requires can { CanQuery query.now }
    ensures { IfOk result (λ found. (counter : ℕ) → IsFound query.now found (record { rows = entries rows.now; sealed = sealed; counter = counter })) }
{
    let named = named_rows(alloc, rows, &query.pk, query.named.as_slice())?;
    let (range, more) = range_rows(rows, &query.pk, &query.range);
    let range = copies(alloc, range)?;
    Ok(Found {
        named: StoredRows::of(named),
        rows: StoredRows::of(range),
        more,
        sealed,
    })
}

/// A copy of the least partition key with a row at or after a place.
pub fn next_key(alloc: Global, rows: &[Row], at: &PkFrom) -> Result<Option<Text>, NoMemory>
    requires { IsTrue (are_rising (entries rows.now)) }
    ensures next { IfOk result (λ pk. IsNext at.now pk (entries rows.now)) }
    ensures past { IfOk result (λ pk. IfSome pk (λ pk. IsTrue (is_past at.now pk))) }
{
    match rows.get(place_past(rows, at)) {
        None => Ok(None),
        Some(row) => Ok(Some(row.0.copy(alloc)?)),
    }
}
