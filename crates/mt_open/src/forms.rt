//! The forms of stored rows, and the rules of their keys.
ghost use Rattle.std.specs.Prelude.{◌≡◌, ◌≢◌, ◌↔◌, ◌<◌, IsTrue, IfOk, Some, None, filter, length};
ghost use Rattle.std.specs.List.{list_all};
ghost use Rattle.mt_model.specs.Key.{key_fault, part_fault};
ghost use Rattle.mt_model.specs.declared.key.KeyPart.{KeyPart};
ghost use Rattle.mt_meta.specs.declared.mark.Mark.{Mark};
ghost use Rattle.mt_meta.specs.Marks.{mark_of};
ghost use Rattle.mt_model.specs.Props.{is_visible};
ghost use Rattle.mt_meta.specs.Markers.{marker_key};
ghost use Rattle.mt_meta.specs.Sound.{IsOldMarker, IsNewMarker, IsOldRow, IsEntry};
ghost use Rattle.mt_open.specs.Damage.{HasForm, IsMarkerIn, IsRowIn};
ghost use Rattle.mt_open.specs.Holdings.{pair_in};

use crate::holdings::Holdings;
use mt_chain::Side;
use mt_meta::{MARKER_KEY, Mark, mark_of_props, new_phase_of_props, old_phase_of_props, stored};
use mt_model::{Key, KeyFault, NoMemory, Props, Text};
use std::alloc::Global;

/// Whether a row key is that of a marker.
pub fn is_marker_key(rk: &Text) -> bool
    ensures { IsTrue result ↔ (rk.now ≡ marker_key) }
{
    rk.as_str() == MARKER_KEY
}

fn is_single(props: &Props) -> bool
    ensures { IsTrue result ↔ (length props.now ≡ 1) }
{
    props.as_slice().len() == 1
}

fn is_old_marker(number: u32, props: &Props) -> bool
    ensures { IsTrue result ↔ IsOldMarker number props.now }
{
    is_single(props) && old_phase_of_props(number, props).is_some()
}

fn is_new_marker(props: &Props) -> bool
    ensures { IsTrue result ↔ IsNewMarker props.now }
{
    is_single(props) && new_phase_of_props(props).is_some()
}

fn is_entry(alloc: Global, props: &Props) -> Result<bool, NoMemory>
    ensures { IfOk result (λ b. IsTrue b ↔ IsEntry props.now) }
{
    match mark_of_props(props) {
        None => Ok(false),
        Some(mark) => {
            let again = stored(alloc, mark, props)?;
            Ok(again.same(props))
        }
    }
}

fn are_visible(props: &Props) -> bool
    ensures { result ≡ list_all is_visible props.now }
{
    props.as_slice().iter().all(|p| p.is_visible())
}

/// Whether the row is of a store that an earlier migration filled, and no tombstone.
fn is_left_over(number: u32, props: &Props) -> bool
    ensures { IsTrue result ↔ ((0 < number) × (mark_of props.now ≢ Some Mark.Tomb)) }
{
    number > 0 && mark_of_props(props) != Some(Mark::Tomb)
}

fn is_old_row(alloc: Global, number: u32, props: &Props) -> Result<bool, NoMemory>
    ensures { IfOk result (λ b. IsTrue b ↔ IsOldRow number props.now) }
{
    if are_visible(props) {
        return Ok(true);
    }
    if !is_left_over(number, props) {
        return Ok(false);
    }
    is_entry(alloc, props)
}

/// Whether two texts are a key of a client.
fn is_key(alloc: Global, pk: &Text, rk: &str) -> Result<bool, NoMemory>
    ensures { IfOk result (λ b. IsTrue b ↔ (key_fault pk.now rk.now ≡ None)) }
{
    match Key::read(alloc, pk.as_str(), rk) {
        Ok(_) => Ok(true),
        Err(KeyFault::NoMemory) => Err(NoMemory),
        Err(_) => Ok(false),
    }
}

/// Whether a text is a partition key of a client.
fn is_partition_key(alloc: Global, pk: &Text) -> Result<bool, NoMemory>
    ensures { IfOk result (λ b. IsTrue b ↔ (part_fault KeyPart.Partition pk.now ≡ None)) }
{
    is_key(alloc, pk, "")
}

fn is_marker_in(stores: &Holdings, side: Side, props: &Props) -> bool
    ensures { IsTrue result ↔ IsMarkerIn (pair_in stores.now) side props.now }
{
    match side {
        Side::Old => is_old_marker(stores.old.number(), props),
        Side::New => is_new_marker(props),
    }
}

fn is_row_in(alloc: Global, stores: &Holdings, side: Side, props: &Props) -> Result<bool, NoMemory>
    ensures { IfOk result (λ b. IsTrue b ↔ IsRowIn (pair_in stores.now) side props.now) }
{
    match side {
        Side::Old => is_old_row(alloc, stores.old.number(), props),
        Side::New => is_entry(alloc, props),
    }
}

fn is_marker_form(
    alloc: Global,
    stores: &Holdings,
    side: Side,
    pk: &Text,
    props: &Props,
) -> Result<bool, NoMemory>
    ensures { IfOk result (λ b. IsTrue b ↔ (IsMarkerIn (pair_in stores.now) side props.now × (part_fault KeyPart.Partition pk.now ≡ None))) }
{
    let keeps = is_partition_key(alloc, pk)?;
    Ok(keeps && is_marker_in(stores, side, props))
}

fn is_row_form(
    alloc: Global,
    stores: &Holdings,
    side: Side,
    key: &Key,
    props: &Props,
) -> Result<bool, NoMemory>
    ensures { IfOk result (λ b. IsTrue b ↔ (IsRowIn (pair_in stores.now) side props.now × (key_fault key.now.pk key.now.rk ≡ None))) }
{
    let keeps = is_key(alloc, &key.pk, key.rk.as_str())?;
    let row = is_row_in(alloc, stores, side, props)?;
    Ok(keeps && row)
}

/// Whether a row of that store has its form there, and its key keeps the rules.
pub fn has_form(
    alloc: Global,
    stores: &Holdings,
    side: Side,
    key: &Key,
    props: &Props,
) -> Result<bool, NoMemory>
    ensures { IfOk result (λ b. IsTrue b ↔ HasForm (pair_in stores.now) side key.now props.now) }
{
    if is_marker_key(&key.rk) {
        is_marker_form(alloc, stores, side, &key.pk, props)
    } else {
        is_row_form(alloc, stores, side, key, props)
    }
}
