//! The store calls of a migrator.
ghost use Rattle.std.specs.Prelude.{◌≡◌, ◌≤◌, ◌∷◌, [], IfOk, length, Some, None, option_copied};
ghost use Rattle.mt_chain.specs.Asks.{CanAsk};
ghost use Rattle.mt_chain.specs.Puts.{row_key};
ghost use Rattle.mt_meta.specs.Markers.{marker_key, marker_props, old_kind, new_kind};
ghost use Rattle.mt_migrate.specs.Chunks.{end_of};
ghost use Rattle.mt_meta.specs.ReadRows.{reads_marked};
ghost use Rattle.mt_migrate.specs.Moves.{past, next_rows, writes, replaces, Asks, AreNext};
ghost use Rattle.mt_migrate.specs.declared.state.State.TheVariants as at;

use crate::chunk::{copy_end, end_of};
use crate::puts::puts_of;
use crate::state::{Copying, Reading};
use mt_chain::{Ask, PkFrom, Put, Puts, Range, RkFrom, Side, StoreAsk, StoredRows};
use mt_meta::{
    NewPhase, Phase, bear_marker, check_marker, new_marker, old_marker, read_marked, turn_marker,
};
use mt_model::{NoMemory, Tag, Text};
use std::alloc::Global;

/// Rows in a chunk of one store, the marker among them, at most.
const CHUNK: u32 = 50;

/// The question for old's next partition. The one error is want of memory.
pub(crate) fn next_of(alloc: Global, from: &PkFrom) -> Result<StoreAsk, NoMemory>
    ensures { IfOk result (λ a. a ≡ record { side = Side.Old; ask = Ask.Next from.now }) }
{
    let from = match from {
        PkFrom::From(pk) => PkFrom::From(pk.copy(alloc)?),
        PkFrom::After(pk) => PkFrom::After(pk.copy(alloc)?),
    };
    Ok(StoreAsk {
        side: Side::Old,
        ask: Ask::Next(from),
    })
}

fn past(alloc: Global, done: &Option<Text>) -> Result<RkFrom, NoMemory>
    ensures { IfOk result (λ from. from ≡ past done.now) }
{
    match done {
        None => Ok(RkFrom::Start),
        Some(rk) => Ok(RkFrom::After(rk.copy(alloc)?)),
    }
}

fn read_rows(
    alloc: Global,
    side: Side,
    copying: &Copying,
    upto: Option<&Text>,
) -> Result<StoreAsk, NoMemory>
    ensures asks { IfOk result (λ a. a ≡ reads_marked side copying.now.part.pk (Some (next_rows copying.now.done (option_copied upto.entry)))) }
    ensures can { IfOk result (λ a. CanAsk a.ask) }
{
    let range = Range {
        from: past(alloc, &copying.done)?,
        upto: copy_end(alloc, upto)?,
        limit: Some(CHUNK),
    };
    read_marked(alloc, side, &copying.part.pk, Some(range))
}

/// A read of old's next rows. The one error is want of memory.
pub(crate) fn read_old(alloc: Global, copying: &Copying) -> Result<StoreAsk, NoMemory>
    ensures asks { IfOk result (Asks (at.ReadOld copying.now)) }
    ensures can { IfOk result (λ a. CanAsk a.ask) }
{
    read_rows(alloc, Side::Old, copying, None)
}

/// A read of new's entries of the range that was read in old. The one error is want of memory.
pub(crate) fn read_new(
    alloc: Global,
    copying: &Copying,
    old: &Reading,
) -> Result<StoreAsk, NoMemory>
    ensures asks { IfOk result (Asks (at.ReadNew copying.now old.now)) }
    ensures can { IfOk result (λ a. CanAsk a.ask) }
{
    read_rows(alloc, Side::New, copying, end_of(&old.rows, old.more))
}

/// A write of one put. The one error is want of memory.
fn write_one(alloc: Global, side: Side, pk: &Text, put: Put) -> Result<StoreAsk, NoMemory>
    ensures asks { IfOk result (λ a. a ≡ writes side pk.now (put ∷ [])) }
    ensures can { IfOk result (λ a. CanAsk a.ask) }
{
    let pk = pk.copy(alloc)?;
    let mut puts = Vec::new(alloc);
    puts.push(put)?;
    Ok(StoreAsk {
        side,
        ask: Ask::Apply {
            pk,
            puts: Puts::of(puts),
        },
    })
}

/// Old's marker of that phase in the place of the one of that tag. The one error is want of memory.
pub(crate) fn turn_old(
    alloc: Global,
    pk: &Text,
    phase: Phase,
    tag: Tag,
) -> Result<StoreAsk, NoMemory>
    ensures asks { IfOk result (λ a. a ≡ writes Side.Old pk.now (replaces (old_kind phase) tag ∷ [])) }
    ensures can { IfOk result (λ a. CanAsk a.ask) }
{
    let props = old_marker(alloc, phase)?;
    write_one(alloc, Side::Old, pk, turn_marker(alloc, props, tag)?)
}

/// New's marker of that phase in the place of the one of that tag. The one error is want of memory.
pub(crate) fn turn_new(
    alloc: Global,
    pk: &Text,
    phase: NewPhase,
    tag: Tag,
) -> Result<StoreAsk, NoMemory>
    ensures asks { IfOk result (λ a. a ≡ writes Side.New pk.now (replaces (new_kind phase) tag ∷ [])) }
    ensures can { IfOk result (λ a. CanAsk a.ask) }
{
    let props = new_marker(alloc, phase)?;
    write_one(alloc, Side::New, pk, turn_marker(alloc, props, tag)?)
}

/// New's first marker of a partition. The one error is want of memory.
pub(crate) fn bear_new(alloc: Global, pk: &Text) -> Result<StoreAsk, NoMemory>
    ensures asks { IfOk result (λ a. a ≡ writes Side.New pk.now (Put.Insert marker_key (marker_props (new_kind NewPhase.Filling)) ∷ [])) }
    ensures can { IfOk result (λ a. CanAsk a.ask) }
{
    let props = new_marker(alloc, NewPhase::Filling)?;
    write_one(alloc, Side::New, pk, bear_marker(alloc, props)?)
}

/// The write of a chunk's copies, under a check of the epoch. The one error is want of memory.
pub(crate) fn write_copies(
    alloc: Global,
    copying: &Copying,
    upto: &Option<Text>,
    rows: &StoredRows,
    entries: &StoredRows,
) -> Result<StoreAsk, NoMemory>
    requires { AreNext copying.now.done rows.now × AreNext copying.now.done entries.now }
    ensures asks { IfOk result (Asks (at.Write copying.now upto.now rows.now entries.now)) }
    ensures can { IfOk result (λ a. CanAsk a.ask) }
{
    let pk = copying.part.pk.copy(alloc)?;
    let check = check_marker(alloc, copying.epoch)?;
    let puts = puts_of(alloc, upto, rows, entries, check)?;
    Ok(StoreAsk {
        side: Side::New,
        ask: Ask::Apply {
            pk,
            puts: Puts::of(puts),
        },
    })
}
