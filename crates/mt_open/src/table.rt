//! The logical table of two stores.
ghost use Rattle.std.specs.Prelude.{◌≡◌, IfOk, Some, option_copied};
ghost use Rattle.mt_meta.specs.Logical.{shown_as, from_old, from_new, from_both, old_at, new_at, old_state_at, new_state_at};
ghost use Rattle.mt_open.specs.Holdings.{pair_in};
ghost use Rattle.mt_open.specs.Table.{entity_by, entity_at, old_phase_in, new_phase_in, row_by_phases};

use crate::forms::is_marker_key;
use crate::holdings::Holdings;
use mt_chain::Stored;
use mt_meta::{
    Mark, NewPhase, Phase, mark_of_props, new_phase_of_props, old_phase_of_props, seen_tag_of_props,
};
use mt_model::{Entities, Entity, Key, NoMemory, Props, Tag};
use std::alloc::Global;

/// The row with a key and that tag, as clients see it.
fn shown_as(alloc: Global, key: &Key, props: &Props, tag: Tag) -> Result<Option<Entity>, NoMemory>
    ensures { IfOk result (λ e. e ≡ entity_by key.now (Some (shown_as props.now tag))) }
{
    let key = key.copy(alloc)?;
    let props = props.visible(alloc)?;
    Ok(Some(Entity { key, props, tag }))
}

fn from_old(alloc: Global, key: &Key, row: Option<&Stored>) -> Result<Option<Entity>, NoMemory>
    ensures { IfOk result (λ e. e ≡ entity_by key.now (from_old (option_copied row.entry))) }
{
    let Some(row) = row else {
        return Ok(None);
    };
    match seen_tag_of_props(&row.props, row.tag) {
        None => Ok(None),
        Some(tag) => shown_as(alloc, key, &row.props, tag),
    }
}

fn from_new(alloc: Global, key: &Key, entry: Option<&Stored>) -> Result<Option<Entity>, NoMemory>
    ensures { IfOk result (λ e. e ≡ entity_by key.now (from_new (option_copied entry.entry))) }
{
    let Some(entry) = entry else {
        return Ok(None);
    };
    match mark_of_props(&entry.props) {
        Some(Mark::Live) => shown_as(alloc, key, &entry.props, entry.tag),
        Some(Mark::Copy(kept)) => shown_as(alloc, key, &entry.props, kept),
        Some(Mark::Tomb) => Ok(None),
        None => Ok(None),
    }
}

fn from_both(
    alloc: Global,
    key: &Key,
    row: Option<&Stored>,
    entry: Option<&Stored>,
) -> Result<Option<Entity>, NoMemory>
    ensures { IfOk result (λ e. e ≡ entity_by key.now (from_both (option_copied row.entry) (option_copied entry.entry))) }
{
    let Some(entry) = entry else {
        return from_old(alloc, key, row);
    };
    match mark_of_props(&entry.props) {
        Some(Mark::Live) => shown_as(alloc, key, &entry.props, entry.tag),
        Some(Mark::Copy(_)) => from_old(alloc, key, row),
        Some(Mark::Tomb) => Ok(None),
        None => Ok(None),
    }
}

fn old_phase_at(stores: &Holdings, key: &Key) -> Option<Phase>
    ensures { result ≡ old_phase_in (old_state_at (pair_in stores.now) key.now.pk) }
{
    match stores.old.marker(&key.pk) {
        None => None,
        Some(row) => old_phase_of_props(row.tag.store, &row.props),
    }
}

fn new_phase_at(stores: &Holdings, key: &Key) -> Option<NewPhase>
    ensures { result ≡ new_phase_in (new_state_at (pair_in stores.now) key.now.pk) }
{
    match stores.new.marker(&key.pk) {
        None => None,
        Some(row) => new_phase_of_props(&row.props),
    }
}

/// What both markers' phases make of the rows at a key.
fn by_phases(
    alloc: Global,
    stores: &Holdings,
    old: Option<Phase>,
    new: Option<NewPhase>,
    key: &Key,
) -> Result<Option<Entity>, NoMemory>
    ensures { IfOk result (λ e. e ≡ entity_by key.now (row_by_phases old new
        (old_at (pair_in stores.now) key.now.pk key.now.rk) (new_at (pair_in stores.now) key.now.pk key.now.rk))) }
{
    let row = stores.old.row(&key.pk, key.rk.as_str());
    let entry = stores.new.row(&key.pk, key.rk.as_str());
    match (old, new) {
        (Some(Phase::UseOld), _) => from_old(alloc, key, row),
        (Some(Phase::PreferOld), _) => from_old(alloc, key, row),
        (Some(Phase::PreferNew), Some(NewPhase::Filling)) => from_both(alloc, key, row, entry),
        (_, Some(NewPhase::UseNew)) => from_new(alloc, key, entry),
        _ => Ok(None),
    }
}

/// The row that clients see at a key: that of the logical table, and `None` exactly where it has none.
/// The one error is want of memory.
pub fn entity_at(alloc: Global, stores: &Holdings, key: &Key) -> Result<Option<Entity>, NoMemory>
    ensures { IfOk result (λ e. e ≡ entity_at (pair_in stores.now) key.now) }
{
    if is_marker_key(&key.rk) {
        return Ok(None);
    }
    by_phases(
        alloc,
        stores,
        old_phase_at(stores, key),
        new_phase_at(stores, key),
        key,
    )
}
