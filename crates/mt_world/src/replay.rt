//! A reference program: the rows that a history makes of those before it. It is not made to be fast.
ghost use Rattle.std.specs.Prelude.{◌≡◌, ◌∷◌, [], IsTrue, IfOk};
ghost use Rattle.mt_chain.specs.Rows.{are_rising};
ghost use Rattle.mt_chain.specs.Table.{rows_of};
ghost use Rattle.mt_world.specs.Logs.{IsTagged};
ghost use Rattle.mt_world.specs.Replays.{IsAfter, IsReplay, LeavesRows};

use crate::log::Log;
use mt_chain::model::{ApplyFault, apply_batch};
use mt_chain::{Row, Rows, Stored};
use mt_history::What;
use mt_model::{Entities, Entity, NoMemory};
use std::alloc::Global;

fn row_of(alloc: Global, entity: &Entity) -> Result<Row, NoMemory>
    ensures { IfOk result (λ row. row ≡ (entity.now.key, record { props = entity.now.props; tag = entity.now.tag })) }
{
    let key = entity.key.copy(alloc)?;
    let props = entity.props.copy(alloc)?;
    let tag = entity.tag;
    Ok((key, Stored { props, tag }))
}

/// Copies of these rows.
fn copies_of(alloc: Global, entities: &[Entity]) -> Result<Vec<Row>, NoMemory>
    ensures { IfOk result (λ rows. rows.items ≡ rows_of entities.now) }
{
    let mut rows = Vec::with_capacity(alloc, entities.len())?;
    for entity in entities {
        rows.push(row_of(alloc, entity)?)?;
    }
    Ok(rows)
}

/// Copies of rows whose keys rise.
fn copy_rows(alloc: Global, entities: &Entities) -> Result<Rows, NoMemory>
    requires { IsTrue (are_rising (rows_of entities.now)) }
    ensures { IfOk result (λ rows. rows ≡ rows_of entities.now) }
{
    let rows = copies_of(alloc, entities.as_slice())?;
    Ok(Rows::of(rows))
}

/// The rows after an entry.
fn after(alloc: Global, rows: Rows, what: &What) -> Result<Rows, NoMemory>
    requires { IsTagged what.now }
    ensures { IfOk result (λ after. IsAfter rows what.now after) }
{
    let What::Batch { batch, tags } = what else {
        return Ok(rows);
    };
    match apply_batch(alloc, rows, batch.ops(), tags.as_slice()) {
        Ok(applied) => Ok(applied.rows),
        Err(ApplyFault::Refused { .. }) => Ok(Rows::of(Vec::new(alloc))),
        Err(ApplyFault::NoMemory) => Err(NoMemory),
    }
}

/// The rows after the entries of a log. A batch that the rows before it refuse leaves none: no history
/// of stores that tell what they hold has one.
fn replayed(alloc: Global, mut rows: Rows, log: &Log) -> Result<Rows, NoMemory>
    ensures { IfOk result (λ after. IsReplay rows log.now.history.entries after) }
{
    for at in 0..log.len() {
        let Some(entry) = log.get(at) else {
            unreachable!();
        };
        rows = after(alloc, rows, &entry.what)?;
    }
    Ok(rows)
}

/// How many rows the entries of a log leave of those before them.
pub fn count_rows(alloc: Global, base: &Entities, log: &Log) -> Result<u64, NoMemory>
    requires { IsTrue (are_rising (rows_of base.now)) }
    ensures { IfOk result (λ n. LeavesRows (rows_of base.now) log.now.history.entries n) }
{
    let rows = copy_rows(alloc, base)?;
    let rows = replayed(alloc, rows, log)?;
    Ok(rows.as_slice().len() as u64)
}
