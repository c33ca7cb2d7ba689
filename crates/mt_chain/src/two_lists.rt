//! Two lists of rows whose row keys rise, walked as one.
ghost use Rattle.std.specs.Prelude.{◌≡◌, option_copied, if◌then◌else◌};
ghost use Rattle.std.specs.Ordering.{nat_cmp, is_le};
ghost use Rattle.std.specs.Cmp.Lexicographic.{slice_cmp};
ghost use Rattle.mt_chain.specs.TwoLists.{first_key, first_row, rows_past};

use crate::row::StoredRow;
use mt_model::Text;

/// The lesser of two row keys.
fn lesser<'a>(a: &'a Text, b: &'a Text) -> &'a Text
    ensures { result.now ≡ (if is_le (slice_cmp nat_cmp a.now b.now) then a.now else b.now) }
{
    if a <= b { a } else { b }
}

/// The least key of two lists of rows whose keys rise, which is that of the first row of one of them.
pub fn first_key<'a>(rows: &'a [StoredRow], entries: &'a [StoredRow]) -> Option<&'a Text>
    ensures { option_copied result ≡ first_key rows.now entries.now }
{
    match (rows.first(), entries.first()) {
        (None, None) => None,
        (Some(row), None) => Some(&row.rk),
        (None, Some(entry)) => Some(&entry.rk),
        (Some(row), Some(entry)) => Some(lesser(&row.rk, &entry.rk)),
    }
}

/// The first row, where it has that key.
pub fn first_row<'a>(rows: &'a [StoredRow], rk: &Text) -> Option<&'a StoredRow>
    ensures { option_copied result ≡ first_row rk.now rows.now }
{
    match rows.first() {
        Some(row) if row.rk == *rk => Some(row),
        _ => None,
    }
}

/// The rows behind a key, where it is that of the first.
pub fn rows_past<'a>(rows: &'a [StoredRow], rk: &Text) -> &'a [StoredRow]
    ensures { result.now ≡ rows_past rk.now rows.now }
{
    match rows.split_first() {
        Some((row, rest)) if row.rk == *rk => rest,
        _ => rows,
    }
}
