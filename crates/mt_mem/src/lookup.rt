//! Searches in rows whose keys rise.
ghost use Rattle.std.specs.Prelude.{◌≡◌, ◌&&◌, ◌<◌, ◌≤◌, IsTrue, bytes_eq, length, filter, option_copied, option_map, MatchOption, Some, None};
ghost use Rattle.std.specs.Ordering.{nat_cmp, is_lt, is_le};
ghost use Rattle.std.specs.Cmp.Lexicographic.{slice_cmp};
ghost use Rattle.mt_model.specs.Key.{key_cmp};
ghost use Rattle.mt_chain.specs.Rows.{are_rising, key_at, row_at, has_partition, shown, is_within};
ghost use Rattle.mt_chain.specs.Places.{EndsAt, IsCut, is_before, is_not_past, is_passed};
ghost use Rattle.mt_mem.specs.Entries.{entry, entries, stored};

use mt_chain::{PkFrom, Range, RkFrom, StoredRow, is_upto};
use mt_model::Text;
use std::cmp::Ordering;

/// A row of a store with its partition key.
pub type Row = (Text, StoredRow);

/// How the key of a row stands to that of two texts.
pub fn compare(row: &Row, pk: &Text, rk: &Text) -> Ordering
    ensures { result ≡ key_cmp (entry row.now).0 (key_at pk.now rk.now) }
{
    match row.0.cmp(pk) {
        Ordering::Equal => row.1.rk.cmp(rk),
        order => order,
    }
}

/// The place of the row at a key, or where one would stand.
pub fn place_of(rows: &[Row], pk: &Text, rk: &Text) -> Result<usize, usize>
    requires { IsTrue (are_rising (entries rows.now)) }
    ensures { EndsAt (λ k. key_cmp k (key_at pk.now rk.now)) (entries rows.now) result }
{
    rows.binary_search_by(
        |row: &Row| -> Ordering
            ensures { result ≡ key_cmp (entry row.now).0 (key_at pk.entry.now rk.entry.now) }
        { compare(row, pk, rk) },
    )
}

/// The row at a key.
pub fn row_at<'a>(rows: &'a [Row], pk: &Text, rk: &Text) -> Option<&'a StoredRow>
    requires { IsTrue (are_rising (entries rows.now)) }
    ensures stored { option_map stored (option_copied result) ≡ row_at (entries rows.now) pk.now rk.now }
    ensures shown { option_copied result ≡ option_map (shown rk.now) (row_at (entries rows.now) pk.now rk.now) }
{
    match place_of(rows, pk, rk) {
        Ok(at) => Some(&rows[at].1),
        Err(_) => None,
    }
}

/// Whether a partition has a row.
pub fn has_partition(rows: &[Row], pk: &Text) -> bool
    requires { IsTrue (are_rising (entries rows.now)) }
    ensures { result ≡ has_partition (entries rows.now) pk.now }
{
    let found = rows.binary_search_by(
        |row: &Row| -> Ordering
            ensures { result ≡ slice_cmp nat_cmp row.now.0 pk.entry.now }
        { row.0.cmp(pk) },
    );
    found.is_ok()
}

/// Whether a row comes before the range of a partition that begins there.
pub fn is_before(pk: &Text, from: &RkFrom, row: &Row) -> bool
    ensures { result ≡ is_before pk.now from.now (entry row.now).0 }
{
    row.0 < *pk || (row.0 == *pk && !from.admits(&row.1.rk))
}

/// Whether a row does not come past the range of a partition that ends there.
pub fn is_not_past(pk: &Text, upto: &Option<Text>, row: &Row) -> bool
    ensures { result ≡ is_not_past pk.now upto.now (entry row.now).0 }
{
    row.0 < *pk || (row.0 == *pk && is_upto(upto, &row.1.rk))
}

/// The place of the first row that is not before a range.
fn start_of(rows: &[Row], pk: &Text, from: &RkFrom) -> usize
    requires { IsTrue (are_rising (entries rows.now)) }
    ensures { IsCut (is_before pk.now from.now) (entries rows.now) result }
{
    rows.partition_point(|row| is_before(pk, from, row))
}

/// The place of the first row past a range.
fn end_of(rows: &[Row], pk: &Text, upto: &Option<Text>) -> usize
    requires { IsTrue (are_rising (entries rows.now)) }
    ensures { IsCut (is_not_past pk.now upto.now) (entries rows.now) result }
{
    rows.partition_point(|row| is_not_past(pk, upto, row))
}

/// The rows of a range of a partition.
pub fn rows_within<'a>(rows: &'a [Row], pk: &Text, range: &Range) -> &'a [Row]
    requires { IsTrue (are_rising (entries rows.now)) }
    ensures { entries result.now ≡ filter (λ e. bytes_eq pk.now e.0.pk && is_within range.now e.0.rk) (entries rows.now) }
{
    let start = start_of(rows, pk, &range.from);
    let end = end_of(rows, pk, &range.upto);
    if start < end {
        &rows[start..end]
    } else {
        &rows[..0]
    }
}

/// The place of the first row of a partition at or after a place.
pub fn place_past(rows: &[Row], at: &PkFrom) -> usize
    requires { IsTrue (are_rising (entries rows.now)) }
    ensures { IsCut (is_passed at.now) (entries rows.now) result }
{
    rows.partition_point(|row| !at.admits(&row.0))
}
