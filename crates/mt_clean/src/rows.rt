//! Rows that a cleaner read, and where a reading ends.
ghost use Rattle.std.specs.Prelude.{◌≡◌, IfOk, filter, option_copied};
ghost use Rattle.mt_chain.specs.Rows.{read_end};
ghost use Rattle.mt_clean.specs.Cleanings.{is_data, is_tomb, is_tombstone, data_rows, tombs_of};

use mt_chain::{StoredRow, StoredRows};
use mt_meta::{MARKER_KEY, Mark, mark_of};
use mt_model::{NoMemory, Text};
use std::alloc::Global;

/// Where a reading ends: at its last row key where its range has more rows, else nowhere.
fn read_end(rows: &StoredRows, more: bool) -> Option<&Text>
    ensures { option_copied result ≡ read_end rows.now more }
{
    if more { rows.last_key() } else { None }
}

/// A copy of the row key where a reading ends. The one error is want of memory.
pub(crate) fn copy_read_end(
    alloc: Global,
    rows: &StoredRows,
    more: bool,
) -> Result<Option<Text>, NoMemory>
    ensures { IfOk result (λ end. end ≡ read_end rows.now more) }
{
    match read_end(rows, more) {
        None => Ok(None),
        Some(rk) => Ok(Some(rk.copy(alloc)?)),
    }
}

/// Whether the row is not the marker.
fn is_data(row: &StoredRow) -> bool
    ensures { result ≡ is_data row.now }
{
    row.rk.as_str() != MARKER_KEY
}

/// Whether the row is a tombstone.
fn is_tombstone(row: &StoredRow) -> bool
    ensures { result ≡ is_tombstone row.now }
{
    is_data(row) && matches!(mark_of(row), Some(Mark::Tomb))
}

fn keep_data(items: &mut Vec<StoredRow>)
    ensures { items.new.items ≡ filter is_data items.old.items }
{
    items.retain(|row| is_data(row));
}

fn keep_tombs(items: &mut Vec<StoredRow>)
    ensures { items.new.items ≡ filter is_tombstone items.old.items }
{
    items.retain(|row| is_tombstone(row));
}

/// The rows but for the marker, without taking memory.
pub(crate) fn data_rows(rows: StoredRows) -> StoredRows
    ensures { result ≡ data_rows rows }
{
    let mut items = rows.into_items();
    keep_data(&mut items);
    StoredRows::of(items)
}

/// The tombstones among the rows, without taking memory.
pub(crate) fn tombs_of(rows: StoredRows) -> StoredRows
    ensures { result ≡ tombs_of rows }
{
    let mut items = rows.into_items();
    keep_tombs(&mut items);
    StoredRows::of(items)
}
