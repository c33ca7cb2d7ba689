//! What a page asks of a store.
ghost use Rattle.std.specs.Prelude.{◌≡◌, Some, IfOk};
ghost use Rattle.mt_chain.specs.Asks.{CanAsk};
ghost use Rattle.mt_chain.specs.Rows.{is_from};
ghost use Rattle.mt_scan.specs.Units.{from_row};
ghost use Rattle.mt_scan.specs.Chunks.{asked_from};
ghost use Rattle.mt_scan.specs.Pages.{range_at, asks_at};
ghost use Rattle.mt_scan.specs.declared.unit.Place.TheVariants as at;

use crate::chunk::copy_end;
use mt_chain::{Ask, PkFrom, Range, RkFrom, Side, StoreAsk};
use mt_match::Bounds;
use mt_meta::read_marked;
use mt_model::{NoMemory, Text};
use std::alloc::Global;

/// Rows in a chunk of one store, the marker among them, at most.
const CHUNK: u32 = 100;

/// Past a row, or from the start of its partition. The one error is want of memory.
pub(crate) fn from_row(alloc: Global, row: &Option<Text>) -> Result<RkFrom, NoMemory>
    ensures { IfOk result (λ from. from ≡ from_row row.now) }
{
    match row {
        None => Ok(RkFrom::Start),
        Some(rk) => Ok(RkFrom::After(rk.copy(alloc)?)),
    }
}

/// Whether a row key lies past a row.
fn is_past_row(row: &Option<Text>, rk: &Text) -> bool
    ensures { result ≡ is_from (from_row row.now) rk.now }
{
    match row {
        None => true,
        Some(last) => last < rk,
    }
}

fn asked_from(alloc: Global, low: &Text, row: &Option<Text>) -> Result<RkFrom, NoMemory>
    ensures { IfOk result (λ from. from ≡ asked_from low.now (from_row row.now)) }
{
    if low.as_str() != "" && is_past_row(row, low) {
        return Ok(RkFrom::From(low.copy(alloc)?));
    }
    from_row(alloc, row)
}

/// A read of a partition's marker, and of the rows past a row within the row bounds, at most 100. The
/// one error is want of memory.
pub(crate) fn read_rows(
    alloc: Global,
    side: Side,
    bounds: &Bounds,
    pk: &Text,
    row: &Option<Text>,
) -> Result<StoreAsk, NoMemory>
    ensures asks { IfOk result (λ a. a ≡ asks_at bounds.now (at.Rows pk.now row.now) side) }
    ensures can { IfOk result (λ a. CanAsk a.ask) }
{
    let range = Range {
        from: asked_from(alloc, &bounds.rk_low, row)?,
        upto: copy_end(alloc, bounds.rk_high.as_ref())?,
        limit: Some(CHUNK),
    };
    read_marked(alloc, side, pk, Some(range))
}

/// The same place among partitions. The one error is want of memory.
pub(crate) fn copy_from(alloc: Global, from: &PkFrom) -> Result<PkFrom, NoMemory>
    ensures { IfOk result (λ copy. copy ≡ from.now) }
{
    match from {
        PkFrom::From(pk) => Ok(PkFrom::From(pk.copy(alloc)?)),
        PkFrom::After(pk) => Ok(PkFrom::After(pk.copy(alloc)?)),
    }
}

/// The question for the next partition.
pub(crate) fn next_partition(side: Side, from: PkFrom) -> StoreAsk
    ensures { result ≡ record { side = side; ask = Ask.Next from } }
{
    StoreAsk {
        side,
        ask: Ask::Next(from),
    }
}
