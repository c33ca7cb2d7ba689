//! The rows that a query is answered.
ghost use Rattle.std.specs.Prelude.{◌≡◌, IfOk, option_copied, option_map, filter as keep};
ghost use Rattle.mt_model.specs.Props.{is_visible};
ghost use Rattle.mt_chain.specs.Rows.{key_at};
ghost use Rattle.mt_history.specs.Replies as says;
ghost use Rattle.mt_meta.specs.ReadRows.{sight_row};
ghost use Rattle.mt_query_plan.specs.Answers.{seen_over, wanted_over, with_key, with_one, IsAnswer};

use mt_chain::{StoredRow, StoredRows, first_key, first_row, rows_past};
use mt_filter::Filter;
use mt_match::matches_row;
use mt_meta::{MARKER_KEY, NewPhase, Sight, sight_over};
use mt_model::{Entities, Entity, Key, NoMemory, Props, Text};
use std::alloc::Global;

/// Whether the filter matches what clients see of a row's properties, or there is no filter.
fn is_matched(filter: &Option<Filter>, pk: &Text, rk: &Text, props: &Props) -> bool
    ensures { result ≡ says.is_matched filter.now (key_at pk.now rk.now) (keep is_visible props.now) }
{
    match filter {
        None => true,
        Some(filter) => matches_row(filter, pk, rk, props),
    }
}

/// What clients see at a row key by a row of old and an entry of new. The marker is no row.
fn seen_at<'a>(
    phase: NewPhase,
    rk: &Text,
    row: Option<&'a StoredRow>,
    entry: Option<&'a StoredRow>,
) -> Option<Sight<'a>>
    ensures { option_map sight_row result ≡ seen_over phase rk.now (option_copied row.entry) (option_copied entry.entry) }
{
    if rk.as_str() == MARKER_KEY {
        None
    } else {
        sight_over(phase, row, entry)
    }
}

/// What clients see, if the filter matches it.
fn kept<'a>(
    filter: &Option<Filter>,
    pk: &Text,
    rk: &Text,
    seen: Option<Sight<'a>>,
) -> Option<Sight<'a>>
    ensures { option_map sight_row result ≡ says.kept_if (λ s. says.is_matched filter.now (key_at pk.now rk.now) s.props) (option_map sight_row seen.entry) }
{
    match seen {
        Some(sight) if is_matched(filter, pk, rk, sight.props) => Some(sight),
        _ => None,
    }
}

/// A copy of what clients see, with its key.
fn copy_of(alloc: Global, pk: &Text, rk: &Text, sight: Sight<'_>) -> Result<Entity, NoMemory>
    ensures { IfOk result (λ e. e ≡ with_key pk.now rk.now (sight_row sight.entry)) }
{
    let pk = pk.copy(alloc)?;
    let rk = rk.copy(alloc)?;
    let props = sight.props.visible(alloc)?;
    Ok(Entity {
        key: Key { pk, rk },
        props,
        tag: sight.tag,
    })
}

/// The row that a client is answered at a key of a partition by a row of old and an entry of new there:
/// what clients see, where the filter matches it. It alone is copied. The one error is want of memory.
pub fn wanted(
    alloc: Global,
    pk: &Text,
    filter: &Option<Filter>,
    phase: NewPhase,
    rk: &Text,
    row: Option<&StoredRow>,
    entry: Option<&StoredRow>,
) -> Result<Option<Entity>, NoMemory>
    ensures { IfOk result (λ e. e ≡ option_map (with_key pk.now rk.now) (wanted_over pk.now filter.now phase rk.now (option_copied row.entry) (option_copied entry.entry))) }
{
    let seen = seen_at(phase, rk, row, entry);
    match kept(filter, pk, rk, seen) {
        None => Ok(None),
        Some(sight) => Ok(Some(copy_of(alloc, pk, rk, sight)?)),
    }
}

/// Adds the row, if there is one. The one error is want of memory.
pub fn push_one(found: &mut Vec<Entity>, wanted: Option<Entity>) -> Result<(), NoMemory>
    ensures { IfOk result (λ u. found.new.items ≡ with_one found.old.items wanted) }
{
    if let Some(entity) = wanted {
        found.push(entity)?;
    }
    Ok(())
}

/// The rows of a partition that a query is answered, by the rows of old and the entries of new that
/// were read: one walk over both. The one error is want of memory.
pub(crate) fn answer(
    alloc: Global,
    pk: &Text,
    filter: &Option<Filter>,
    phase: NewPhase,
    rows: &StoredRows,
    entries: &StoredRows,
) -> Result<Entities, NoMemory>
    ensures { IfOk result (IsAnswer pk.now filter.now phase rows.now entries.now) }
{
    let mut found = Vec::new(alloc);
    let mut old = rows.as_slice();
    let mut new = entries.as_slice();
    while let Some(rk) = first_key(old, new) {
        let row = first_row(old, rk);
        let entry = first_row(new, rk);
        let one = wanted(alloc, pk, filter, phase, rk, row, entry)?;
        push_one(&mut found, one)?;
        old = rows_past(old, rk);
        new = rows_past(new, rk);
    }
    Ok(Entities::of(found))
}
