//! A reference program for the replies of entries, with which others are compared.
//!
//! It is given a whole table as one list, and is not made to be fast.
ghost use Rattle.std.specs.Prelude.{◌≡◌, ◌<◌, ◌^◌, IfOk, length, Option, Some, None, if◌then◌else◌};
ghost use Rattle.mt_chain.specs.Table.{table_of, entity_of};
ghost use Rattle.mt_chain.specs.Batch.{refusal_of};
ghost use Rattle.mt_history.specs.Replies as says;

use crate::entry::What;
use mt_chain::{Op, Refusal, RkFrom, Row, Rows, Tags, is_upto};
use mt_filter::Filter;
use mt_match::matches;
use mt_model::{Entities, Entity, Key, NoMemory, Text};
use mt_rules::Batch;
use std::alloc::Global;

/// What an entry is answered.
#[derive(Drop)]
pub enum Reply {
    /// A batch was applied, and these are its tags, one for each operation.
    Written(Tags),

    /// A batch was refused.
    Refused(Refusal),

    /// These rows were found.
    Rows(Entities),

    /// There is no reply.
    NoReply,
}

/// The first operation that is refused on these rows, and why.
fn refusal_of(rows: &Rows, ops: &[Op]) -> Option<Refusal>
    requires { length ops.now < 2 ^ 32 }
    ensures { result ≡ refusal_of ops.now (table_of rows.now) }
{
    for (index, op) in ops.iter().enumerate() {
        if let Some(cause) = op.cause_on(rows.get(op.key())) {
            let index = index as u32;
            return Some(Refusal { index, cause });
        }
    }
    None
}

/// A copy of a row.
fn entity_of(alloc: Global, row: &Row) -> Result<Entity, NoMemory>
    ensures { IfOk result (λ e. e ≡ entity_of row.now) }
{
    Ok(Entity {
        key: row.0.copy(alloc)?,
        props: row.1.props.copy(alloc)?,
        tag: row.1.tag,
    })
}

/// Whether the filter matches the row, or there is none.
fn is_matched(filter: &Option<Filter>, entity: &Entity) -> bool
    ensures { result ≡ says.is_matched filter.now entity.now.key entity.now.props }
{
    match filter {
        None => true,
        Some(filter) => matches(filter, entity),
    }
}

/// Whether a key lies in a range of a partition.
fn in_range(pk: &Text, from: &RkFrom, upto: &Option<Text>, key: &Key) -> bool
    ensures { result ≡ says.in_range pk.now from.now upto.now key.now }
{
    *pk == key.pk && from.admits(&key.rk) && is_upto(upto, &key.rk)
}

/// A copy of the row, if the filter matches it.
fn matched(alloc: Global, row: &Row, filter: &Option<Filter>) -> Result<Option<Entity>, NoMemory>
    ensures { IfOk result (λ e. e ≡ (if says.is_matched filter.now row.now.0 row.now.1.props then Some (entity_of row.now) else None)) }
{
    let entity = entity_of(alloc, row)?;
    if is_matched(filter, &entity) {
        Ok(Some(entity))
    } else {
        Ok(None)
    }
}

/// Copies of the rows of a range of a partition that the filter matches.
fn picked(
    alloc: Global,
    rows: &[Row],
    pk: &Text,
    from: &RkFrom,
    upto: &Option<Text>,
    filter: &Option<Filter>,
) -> Result<Vec<Entity>, NoMemory>
    ensures { IfOk result (λ v. v.items ≡ says.picked (says.in_range pk.now from.now upto.now) filter.now rows.now) }
{
    let mut found = Vec::new(alloc);
    for row in rows {
        if in_range(pk, from, upto, &row.0) {
            match matched(alloc, row, filter)? {
                Some(entity) => found.push(entity)?,
                None => {}
            }
        }
    }
    Ok(found)
}

/// The reply of the rows of a range of a partition that the filter matches.
fn rows_reply(
    alloc: Global,
    rows: &Rows,
    pk: &Text,
    from: &RkFrom,
    upto: &Option<Text>,
    filter: &Option<Filter>,
) -> Result<Reply, NoMemory>
    ensures { IfOk result (λ r. says.ShowsRows r (says.selected (says.in_range pk.now from.now upto.now) filter.now (table_of rows.now))) }
{
    let found = picked(alloc, rows.as_slice(), pk, from, upto, filter)?;
    Ok(Reply::Rows(Entities::of(found)))
}

/// The reply of a batch that is refused on these rows.
fn refusal_reply(rows: &Rows, batch: &Batch) -> Reply
    ensures { result ≡ says.refusal_reply (refusal_of batch.now (table_of rows.now)) }
{
    match refusal_of(rows, batch.ops()) {
        Some(refusal) => Reply::Refused(refusal),
        None => Reply::NoReply,
    }
}

/// What an entry is answered at the table of these rows: a batch its tags, a refused batch the refusal,
/// a query and a scan the rows of their region that the filter matches, in the
/// order of their keys, and a gap no rows. There is no reply to a fault, and none to a refused batch
/// that nothing refuses on this table. The one error is want of memory.
pub fn reply_of(alloc: Global, rows: &Rows, what: &What) -> Result<Reply, NoMemory>
    ensures { IfOk result (λ r. says.Replies what.now (table_of rows.now) r) }
{
    match what {
        What::Batch { tags, .. } => {
            let tags = Vec::from_slice(alloc, tags.as_slice())?;
            Ok(Reply::Written(Tags::of(tags)))
        }
        What::Refused { batch } => Ok(refusal_reply(rows, batch)),
        What::Query { pk, filter } => rows_reply(alloc, rows, pk, &RkFrom::Start, &None, filter),
        What::Scan {
            pk,
            from,
            upto,
            filter,
        } => rows_reply(alloc, rows, pk, from, upto, filter),
        What::Gap { .. } => Ok(Reply::Rows(Entities::of(Vec::new(alloc)))),
        What::Fault => Ok(Reply::NoReply),
    }
}
