//! Changes of rows: prepared while memory can still be wanting, and then made without any.
ghost use Rattle.std.specs.Prelude.{◌≡◌, ◌+◌, ◌<◌, ◌≤◌, ◌^◌, IsTrue, IfOk, IsPermutation, length, [], ◌∷◌};
ghost use Rattle.std.specs.List.Sorted.{IsSortedBy};
ghost use Rattle.mt_chain.specs.Rows.{are_rising, key_at};
ghost use Rattle.mt_chain.specs.Puts.{CanApply, counter_after, tag_of};
ghost use Rattle.mt_mem.specs.Entries.{entries};
ghost use Rattle.mt_mem.specs.Changes.{changed_key, is_before, edit_of, edits_of, edited, AreEdits, IsChange, IsPlan, ReadsTo, Makes};

use crate::lookup::{Row, place_of};
use crate::rewrite::Rewrite;
use mt_chain::{Put, StoredRow};
use mt_model::{NoMemory, Props, Tag, Text};
use std::alloc::Global;

/// A change of the rows of one partition.
#[derive(Drop)]
pub enum Change<'a> {
    /// This row stands at its key, in the place of any other.
    Write(Row),
    /// No row stands at this row key.
    Remove(&'a Text),
}

/// The row key of a change.
fn row_key<'a>(change: &'a Change<'_>) -> &'a Text
    ensures { result.now ≡ changed_key change.now }
{
    match change {
        Change::Write(row) => &row.1.rk,
        Change::Remove(rk) => rk,
    }
}

/// What puts do once they all hold.
#[derive(Drop)]
pub struct Plan<'a> {
    pub changes: Vec<Change<'a>>,
    pub tags: Vec<Tag>,
    pub counter: u64,
}

/// The tag that a store of this number and counter gives next.
fn next_tag(store: u32, counter: u64) -> Tag
    requires { counter < 2 ^ 62 }
    ensures { (result.store ≡ store) × (result.n ≡ counter + 1) }
{
    Tag {
        store,
        n: counter + 1,
    }
}

/// The counter after a put.
fn counter_after(counter: u64, put: &Put) -> u64
    requires { counter < 2 ^ 62 }
    ensures { result ≡ counter_after counter put.now }
{
    match put {
        Put::Check { .. } | Put::Delete { .. } => counter,
        Put::Insert { .. } | Put::Replace { .. } => counter + 1,
    }
}

/// The tag that answers a put.
fn tag_of(store: u32, counter: u64, put: &Put) -> Tag
    requires { counter < 2 ^ 62 }
    ensures { result ≡ tag_of store counter put.now }
{
    match put {
        Put::Check { tag, .. } | Put::Delete { tag, .. } => *tag,
        Put::Insert { .. } | Put::Replace { .. } => next_tag(store, counter),
    }
}

/// The change that writes the row of these texts, properties and tag.
fn written<'a>(
    alloc: Global,
    pk: &Text,
    rk: &Text,
    props: &Props,
    tag: Tag,
) -> Result<Change<'a>, NoMemory>
    ensures { IfOk result (λ c. c ≡ Change.Write (pk.now, record { rk = rk.now; props = props.now; tag = tag })) }
{
    let row = StoredRow {
        rk: rk.copy(alloc)?,
        props: props.copy(alloc)?,
        tag,
    };
    Ok(Change::Write((pk.copy(alloc)?, row)))
}

/// The change that a put makes.
fn change_of<'a>(
    alloc: Global,
    store: u32,
    counter: u64,
    pk: &Text,
    put: &'a Put,
) -> Result<Option<Change<'a>>, NoMemory>
    requires { counter < 2 ^ 62 }
    ensures { IfOk result (IsChange store counter pk.now put.now) }
{
    match put {
        Put::Check { .. } => Ok(None),
        Put::Insert { rk, props } | Put::Replace { rk, props, .. } => {
            let change = written(alloc, pk, rk, props, next_tag(store, counter))?;
            Ok(Some(change))
        }
        Put::Delete { rk, .. } => Ok(Some(Change::Remove(rk))),
    }
}

/// The plan of puts of a partition.
pub fn prepare<'a>(
    alloc: Global,
    store: u32,
    counter: u64,
    pk: &Text,
    puts: &'a [Put],
) -> Result<Plan<'a>, NoMemory>
    requires can { CanApply puts.now }
    requires room { counter + length puts.now ≤ 2 ^ 62 }
    ensures { IfOk result (λ p. IsPlan store counter pk.now puts.now p) }
{
    let mut changes = Vec::with_capacity(alloc, puts.len())?;
    let mut tags = Vec::with_capacity(alloc, puts.len())?;
    let mut counter = counter;
    for put in puts {
        match change_of(alloc, store, counter, pk, put)? {
            Some(change) => changes.push(change)?,
            None => {}
        }
        tags.push(tag_of(store, counter, put))?;
        counter = counter_after(counter, put);
    }
    Ok(Plan {
        changes,
        tags,
        counter,
    })
}

/// Changes in the order of their row keys.
fn sorted<'a>(mut changes: Vec<Change<'a>>) -> Vec<Change<'a>>
    ensures permutation { IsPermutation changes.entry.items result.items }
    ensures sorted { IsSortedBy is_before result.items }
{
    changes.sort_unstable_by(|a, b| row_key(a).cmp(row_key(b)));
    changes
}

/// Reads the rows below a key and writes them, and reads the row at the key, if there is one.
fn read_to(pass: &mut Rewrite, pk: &Text, rk: &Text)
    requires { IsTrue (are_rising (entries pass.old.left)) }
    ensures { ReadsTo (key_at pk.now rk.now) pass.old pass.new }
{
    match place_of(pass.left(), pk, rk) {
        Ok(at) => {
            pass.keep(at);
            pass.skip();
        }
        Err(at) => pass.keep(at),
    }
}

/// Makes a change of a partition in the rows left to read, and writes them up to its key.
fn make(pass: &mut Rewrite, pk: &Text, change: Change<'_>)
    requires rising { IsTrue (are_rising (entries pass.old.left)) }
    requires spare { 0 < pass.old.spare }
    requires own { (edit_of pk.now change).0.pk ≡ pk.now }
    ensures { Makes (edit_of pk.now change.entry) pass.old pass.new }
{
    read_to(pass, pk, row_key(&change));
    match change {
        Change::Write(row) => pass.put(row),
        Change::Remove(_) => {}
    }
}

/// The rows after changes of a partition, which are made in one pass over them.
pub fn make_all(mut pass: Rewrite, pk: &Text, changes: Vec<Change<'_>>) -> Vec<Row>
    requires begin { pass.written ≡ [] }
    requires rising { IsTrue (are_rising (entries pass.left)) }
    requires edits { AreEdits pk.now (edits_of pk.now changes.items) }
    requires room { length changes.items ≤ pass.spare }
    ensures { entries result.items ≡ edited (edits_of pk.now changes.entry.items) (entries pass.left) }
{
    for change in sorted(changes) {
        make(&mut pass, pk, change);
    }
    pass.finish()
}
