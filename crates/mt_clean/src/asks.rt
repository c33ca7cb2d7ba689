//! The store calls of a cleaner.
ghost use Rattle.std.specs.Prelude.{◌≡◌, ◌++◌, ◌∷◌, IfOk, Some};
ghost use Rattle.mt_chain.specs.Asks.{CanAsk};
ghost use Rattle.mt_meta.specs.ReadRows.{reads_marked};
ghost use Rattle.mt_clean.specs.Cleanings.{past, next_rows, delete_of, deletes_of, marker_put, writes, Asks, ArePurged, AreDropped};
ghost use Rattle.mt_clean.specs.declared.state.State.TheVariants as at;

use mt_chain::{Ask, PkFrom, Put, Puts, Range, RkFrom, Side, StoreAsk, StoredRow, StoredRows};
use mt_meta::{MARKER_KEY, check_marker, read_marked};
use mt_model::{NoMemory, Tag, Text};
use std::alloc::Global;

/// Rows in a chunk, the marker among them, at most.
const CHUNK: u32 = 100;

/// The question for old's first partition, which takes no memory.
pub(crate) fn first_of_old(alloc: Global) -> StoreAsk
    ensures asks { Asks at.Walk result }
    ensures can { CanAsk result.ask }
{
    StoreAsk {
        side: Side::Old,
        ask: Ask::Next(PkFrom::From(Text::from_string(String::new(alloc)))),
    }
}

fn past(alloc: Global, after: &Option<Text>) -> Result<RkFrom, NoMemory>
    ensures { IfOk result (λ from. from ≡ past after.now) }
{
    match after {
        None => Ok(RkFrom::Start),
        Some(rk) => Ok(RkFrom::After(rk.copy(alloc)?)),
    }
}

/// A read of a partition's marker and of its next rows. The one error is want of memory.
pub(crate) fn read_rows(
    alloc: Global,
    side: Side,
    pk: &Text,
    after: &Option<Text>,
) -> Result<StoreAsk, NoMemory>
    ensures asks { IfOk result (λ a. a ≡ reads_marked side pk.now (Some (next_rows after.now))) }
    ensures can { IfOk result (λ a. CanAsk a.ask) }
{
    let range = Range {
        from: past(alloc, after)?,
        upto: None,
        limit: Some(CHUNK),
    };
    read_marked(alloc, side, pk, Some(range))
}

/// The delete of a row. The one error is want of memory.
fn delete_of(alloc: Global, row: &StoredRow) -> Result<Put, NoMemory>
    ensures { IfOk result (λ p. p ≡ delete_of row.now) }
{
    let rk = row.rk.copy(alloc)?;
    Ok(Put::Delete { rk, tag: row.tag })
}

/// Deletes rows behind other puts. The one error is want of memory.
fn push_deletes(alloc: Global, puts: &mut Vec<Put>, rows: &[StoredRow]) -> Result<(), NoMemory>
    ensures { IfOk result (λ u. puts.new.items ≡ puts.old.items ++ deletes_of rows.now) }
{
    for row in rows {
        puts.push(delete_of(alloc, row)?)?;
    }
    Ok(())
}

/// The marker's put where rows of old are dropped: a check where there are more, else a delete. The
/// one error is want of memory.
fn marker_put(alloc: Global, marker: Tag, more: bool) -> Result<Put, NoMemory>
    ensures { IfOk result (λ p. p ≡ marker_put marker more) }
{
    if more {
        check_marker(alloc, marker)
    } else {
        let rk = Text::of(alloc, MARKER_KEY)?;
        Ok(Put::Delete { rk, tag: marker })
    }
}

/// The deletes of tombstones of new. The one error is want of memory.
pub(crate) fn purge(alloc: Global, pk: &Text, tombs: &StoredRows) -> Result<StoreAsk, NoMemory>
    requires { ArePurged tombs.now }
    ensures asks { IfOk result (λ a. a ≡ writes Side.New pk.now (deletes_of tombs.now)) }
    ensures can { IfOk result (λ a. CanAsk a.ask) }
{
    let pk = pk.copy(alloc)?;
    let tombs = tombs.as_slice();
    let mut puts = Vec::with_capacity(alloc, tombs.len())?;
    push_deletes(alloc, &mut puts, tombs)?;
    Ok(StoreAsk {
        side: Side::New,
        ask: Ask::Apply {
            pk,
            puts: Puts::of(puts),
        },
    })
}

/// The deletes of rows of old under a put of its marker. The one error is want of memory.
pub(crate) fn drop_rows(
    alloc: Global,
    pk: &Text,
    marker: Tag,
    rows: &StoredRows,
    more: bool,
) -> Result<StoreAsk, NoMemory>
    requires { AreDropped rows.now }
    ensures asks { IfOk result (λ a. a ≡ writes Side.Old pk.now (marker_put marker more ∷ deletes_of rows.now)) }
    ensures can { IfOk result (λ a. CanAsk a.ask) }
{
    let pk = pk.copy(alloc)?;
    let rows = rows.as_slice();
    let mut puts = Vec::with_capacity(alloc, rows.len() + 1)?;
    puts.push(marker_put(alloc, marker, more)?)?;
    push_deletes(alloc, &mut puts, rows)?;
    Ok(StoreAsk {
        side: Side::Old,
        ask: Ask::Apply {
            pk,
            puts: Puts::of(puts),
        },
    })
}
