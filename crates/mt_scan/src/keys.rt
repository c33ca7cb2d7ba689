//! Keys of rows that were read, which meet the rules of keys.
ghost use Rattle.std.specs.Prelude.{◌≡◌, IfOk, not, is_some, option_copied};
ghost use Rattle.std.specs.List.{list_all};
ghost use Rattle.mt_model.specs.Key.{key_fault};
ghost use Rattle.mt_scan.specs.Chunks.{is_row_key, is_partition_key, is_readable, ends_at_row, is_fair, is_fair_next};

use crate::chunk::end_of_read;
use mt_chain::{Found, StoredRow};
use mt_meta::MARKER_KEY;
use mt_model::{Key, KeyFault, NoMemory, Text};
use std::alloc::Global;

/// Whether two texts are a key.
fn is_key(alloc: Global, pk: &str, rk: &str) -> Result<bool, NoMemory>
    ensures { IfOk result (λ b. b ≡ not (is_some (key_fault pk.now rk.now))) }
{
    match Key::read(alloc, pk, rk) {
        Ok(_) => Ok(true),
        Err(KeyFault::NoMemory) => Err(NoMemory),
        Err(_) => Ok(false),
    }
}

fn is_row_key(alloc: Global, rk: &Text) -> Result<bool, NoMemory>
    ensures { IfOk result (λ b. b ≡ is_row_key rk.now) }
{
    is_key(alloc, "", rk.as_str())
}

fn is_partition_key(alloc: Global, pk: &Text) -> Result<bool, NoMemory>
    ensures { IfOk result (λ b. b ≡ is_partition_key pk.now) }
{
    is_key(alloc, pk.as_str(), "")
}

fn is_readable(alloc: Global, row: &StoredRow) -> Result<bool, NoMemory>
    ensures { IfOk result (λ b. b ≡ is_readable row.now) }
{
    if row.rk.as_str() == MARKER_KEY {
        return Ok(true);
    }
    is_row_key(alloc, &row.rk)
}

fn are_readable(alloc: Global, rows: &[StoredRow]) -> Result<bool, NoMemory>
    ensures { IfOk result (λ b. b ≡ list_all is_readable rows.now) }
{
    for row in rows {
        if !is_readable(alloc, row)? {
            return Ok(false);
        }
    }
    Ok(true)
}

fn ends_at_row(alloc: Global, more: bool, end: Option<&Text>) -> Result<bool, NoMemory>
    ensures { IfOk result (λ b. b ≡ ends_at_row more (option_copied end.entry)) }
{
    if !more {
        return Ok(true);
    }
    match end {
        None => Ok(false),
        Some(rk) => is_row_key(alloc, rk),
    }
}

/// Whether the keys of all rows that were read meet the rules, but for the marker's, and where there
/// is more, the last row is no marker. The one error is want of memory.
pub(crate) fn is_fair(alloc: Global, found: &Found) -> Result<bool, NoMemory>
    ensures { IfOk result (λ b. b ≡ is_fair found.now) }
{
    if !are_readable(alloc, found.rows.as_slice())? {
        return Ok(false);
    }
    ends_at_row(alloc, found.more, end_of_read(found))
}

/// Whether a partition key that was found, if there is one, meets the rules. The one error is want of
/// memory.
pub(crate) fn is_fair_next(alloc: Global, pk: &Option<Text>) -> Result<bool, NoMemory>
    ensures { IfOk result (λ b. b ≡ is_fair_next pk.now) }
{
    match pk {
        None => Ok(true),
        Some(pk) => is_partition_key(alloc, pk),
    }
}
