//! Whether puts hold on the rows of a store.
ghost use Rattle.std.specs.Prelude.{◌≡◌, ◌≤◌, IsTrue, length, option_copied, option_map};
ghost use Rattle.mt_chain.specs.Rows.{are_rising};
ghost use Rattle.mt_chain.specs.Puts.{row_key, has_tag, holds, unmet_from};
ghost use Rattle.mt_mem.specs.Entries.{entries, stored};

use crate::lookup::{Row, row_at};
use mt_chain::{Put, StoredRow};
use mt_model::{Tag, Text};

/// The row key that a put names.
pub fn row_key(put: &Put) -> &Text
    ensures { result.now ≡ row_key put.now }
{
    match put {
        Put::Check { rk, .. }
        | Put::Insert { rk, .. }
        | Put::Replace { rk, .. }
        | Put::Delete { rk, .. } => rk,
    }
}

/// Whether a row is there with a tag.
fn has_tag(tag: Tag, row: Option<&StoredRow>) -> bool
    ensures { result ≡ has_tag tag (option_map stored (option_copied row.entry)) }
{
    match row {
        None => false,
        Some(row) => tag == row.tag,
    }
}

/// Whether a put holds on the row at its key.
pub fn holds(put: &Put, row: Option<&StoredRow>) -> bool
    ensures { result ≡ holds put.now (option_map stored (option_copied row.entry)) }
{
    match put {
        Put::Insert { .. } => row.is_none(),
        Put::Check { tag, .. } | Put::Replace { tag, .. } | Put::Delete { tag, .. } => has_tag(
            *tag, row,
        ),
    }
}

/// The least of at most 101 puts that does not hold, counted from 0.
pub fn unmet(rows: &[Row], pk: &Text, puts: &[Put]) -> Option<u32>
    requires rising { IsTrue (are_rising (entries rows.now)) }
    requires few { length puts.now ≤ 101 }
    ensures { result ≡ unmet_from 0 (entries rows.now) pk.now puts.now }
{
    for (index, put) in puts.iter().enumerate() {
        if !holds(put, row_at(rows, pk, row_key(put))) {
            return Some(index as u32);
        }
    }
    None
}
