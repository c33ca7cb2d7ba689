//! The puts of a chunk, in the order of their keys.
ghost use Rattle.std.specs.Prelude.{◌≡◌, ◌≤◌, ◌+◌, ◌∷◌, List, IfOk, length, option_copied};
ghost use Rattle.mt_meta.specs.Marks.{stored};
ghost use Rattle.mt_chain.specs.declared.row.Put.{Put};
ghost use Rattle.mt_migrate.specs.Chunks.{props_of, put_by, want_at, put_at, KeepsTag, ArePuts, with_put};

use crate::chunk::{Want, want_at};
use mt_chain::{Put, StoredRow, StoredRows, first_key, rows_past};
use mt_meta::{Mark, stored};
use mt_model::{NoMemory, Props, Tag, Text};
use std::alloc::Global;

/// The copy of old's row that new keeps. The one error is want of memory.
fn copy_of(alloc: Global, seen: Tag, row: Option<&StoredRow>) -> Result<Props, NoMemory>
    ensures { IfOk result (λ p. p ≡ stored (Mark.Copy seen) (props_of (option_copied row.entry))) }
{
    match row {
        Some(row) => stored(alloc, Mark::Copy(seen), &row.props),
        None => {
            let Ok(none) = Props::build(alloc, Vec::new(alloc)) else {
                return Err(NoMemory);
            };
            stored(alloc, Mark::Copy(seen), &none)
        }
    }
}

/// The put that a key wants, if it wants one. The one error is want of memory.
fn put_by(
    alloc: Global,
    rk: &Text,
    row: Option<&StoredRow>,
    want: Want,
) -> Result<Option<Put>, NoMemory>
    ensures put { IfOk result (λ put. put ≡ put_by rk.now (props_of (option_copied row.entry)) want) }
    ensures tag { IfOk result (λ put. KeepsTag want) }
{
    let rk = rk.copy(alloc)?;
    match want {
        Want::Nothing => Ok(None),
        Want::Insert { seen } => {
            let props = copy_of(alloc, seen, row)?;
            Ok(Some(Put::Insert { rk, props }))
        }
        Want::Replace { seen, own } => {
            let props = copy_of(alloc, seen, row)?;
            Ok(Some(Put::Replace {
                rk,
                props,
                tag: own,
            }))
        }
        Want::Delete { own } => Ok(Some(Put::Delete { rk, tag: own })),
    }
}

/// Puts what a key wants behind other puts. The one error is want of memory.
fn push_put(
    alloc: Global,
    upto: &Option<Text>,
    rows: &StoredRows,
    entries: &StoredRows,
    rk: &Text,
    puts: &mut Vec<Put>,
) -> Result<(), NoMemory>
    ensures puts { IfOk result (λ u. puts.new.items ≡ with_put puts.old.items (put_at upto.now rows.now entries.now rk.now)) }
    ensures tag { IfOk result (λ u. KeepsTag (want_at upto.now rows.now entries.now rk.now)) }
{
    let want = want_at(upto, rows, entries, rk);
    if let Some(put) = put_by(alloc, rk, rows.get(rk.as_str()), want)? {
        puts.push(put)?;
    }
    Ok(())
}

/// The puts of a chunk behind a first put. The one error is want of memory.
pub(crate) fn puts_of(
    alloc: Global,
    upto: &Option<Text>,
    rows: &StoredRows,
    entries: &StoredRows,
    first: Put,
) -> Result<Vec<Put>, NoMemory>
    ensures { IfOk result (λ v. (puts : List Put) × (v.items ≡ first ∷ puts) × ArePuts upto.now rows.now entries.now puts × (length puts ≤ length rows.now + length entries.now)) }
{
    let mut puts = Vec::new(alloc);
    puts.push(first)?;
    let mut old = rows.as_slice();
    let mut new = entries.as_slice();
    while let Some(rk) = first_key(old, new) {
        push_put(alloc, upto, rows, entries, rk, &mut puts)?;
        old = rows_past(old, rk);
        new = rows_past(new, rk);
    }
    Ok(puts)
}
