//! The logical table as a list: one walk over the keys of both stores, in their order.
ghost use Rattle.std.specs.Prelude.{◌≡◌, ◌≤◌, ◌<◌, ◌+◌, IsTrue, IfOk, IfSome, if◌then◌else◌, length, option_copied};
ghost use Rattle.std.specs.Ordering.{is_le};
ghost use Rattle.mt_model.specs.Key.{key_cmp};
ghost use Rattle.mt_chain.specs.Rows.{are_rising};
ghost use Rattle.mt_open.specs.Holdings.{pair_in};
ghost use Rattle.mt_chain.specs.Table.{IsListing};
ghost use Rattle.mt_meta.specs.Steps.{logical_table};
ghost use Rattle.mt_open.specs.Table.{entity_at, with_one};
ghost use Rattle.mt_open.specs.Walk.{IsFirstKey, IsAtMost, rows_past};

use crate::holdings::Holdings;
use crate::table::entity_at;
use mt_chain::Row;
use mt_model::{Entities, Entity, Key, NoMemory};
use std::alloc::Global;
use std::cmp::Ordering;

/// The lesser of two keys.
fn lesser<'a>(a: &'a Key, b: &'a Key) -> &'a Key
    ensures { result.now ≡ (if is_le (key_cmp a.now b.now) then a.now else b.now) }
{
    match a.order(b) {
        Ordering::Greater => b,
        _ => a,
    }
}

/// The least key of rows of both stores.
fn first_key<'a>(old: &'a [Row], new: &'a [Row]) -> Option<&'a Key>
    requires { IsTrue (are_rising old.now) × IsTrue (are_rising new.now) }
    ensures { IsFirstKey old.now new.now (option_copied result) }
{
    match (old.first(), new.first()) {
        (None, None) => None,
        (Some(row), None) => Some(&row.0),
        (None, Some(row)) => Some(&row.0),
        (Some(row), Some(other)) => Some(lesser(&row.0, &other.0)),
    }
}

/// The rows past a key, below which there are none.
fn rows_past<'a>(rows: &'a [Row], key: &Key) -> &'a [Row]
    requires { IsTrue (are_rising rows.now) × IsAtMost key.now rows.now }
    ensures { result.now ≡ rows_past key.now rows.now }
{
    match rows.split_first() {
        None => rows,
        Some((row, rest)) => match row.0.order(key) {
            Ordering::Equal => rest,
            _ => rows,
        },
    }
}

/// Puts the row that clients see at a key after others, if they see one.
fn push_entity(
    alloc: Global,
    stores: &Holdings,
    key: &Key,
    items: &mut Vec<Entity>,
) -> Result<(), NoMemory>
    ensures { IfOk result (λ u. items.new.items ≡ with_one items.old.items (entity_at (pair_in stores.now) key.now)) }
{
    if let Some(entity) = entity_at(alloc, stores, key)? {
        items.push(entity)?;
    }
    Ok(())
}

/// The logical table of two stores that were read whole: the rows that clients see, in the order of
/// their keys. The one error is want of memory.
pub fn logical_table(alloc: Global, stores: &Holdings) -> Result<Entities, NoMemory>
    ensures { IfOk result (λ es. IsListing es (logical_table (pair_in stores.now))) }
{
    let mut items = Vec::new(alloc);
    let mut old = stores.old.rows();
    let mut new = stores.new.rows();
    while let Some(key) = first_key(old, new) {
        push_entity(alloc, stores, key, &mut items)?;
        old = rows_past(old, key);
        new = rows_past(new, key);
    }
    Ok(Entities::of(items))
}
