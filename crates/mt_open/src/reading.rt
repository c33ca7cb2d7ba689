//! A store read whole, a partition at a time, in chunks of rows.
ghost use Rattle.std.specs.Prelude.{◌≡◌, ◌++◌, IfOk, map, None};
ghost use Rattle.std.specs.List.Sorted.{IsStrictlySortedBy};
ghost use Rattle.std.specs.Ordering.{nat_cmp};
ghost use Rattle.std.specs.Cmp.Lexicographic.{slice_cmp};
ghost use Rattle.mt_chain.specs.Places.{is_before};
ghost use Rattle.mt_chain.specs.StoreCall.{CanQuery};
ghost use Rattle.mt_open.specs.Reading.{Passed, has_failed, ReadsStore, keyed_row, keyed, chunk_query, place_after, ReadsChunk, QueryShows, AllPass, ReadsPartition, without_value, AsksNext};

use mt_chain::{
    Found, KeepFault, Keeper, Next, PkFrom, Range, RangeQuery, RkFrom, Row, Rows, Stored, StoredRow,
};
use mt_model::{Key, NoMemory, Text, Texts};
use std::alloc::Global;

/// All that a store holds, as it was read.
#[derive(Drop)]
pub struct Loaded {
    /// Every row.
    pub rows: Rows,
    /// Whether the store is sealed.
    pub sealed: bool,
}

/// Why a store could not be read.
#[derive(Clone, Copy, Debug, PartialEq, Eq)]
pub enum ReadFault {
    /// The store failed; its count of faults rose.
    Failed,
    /// The allocator had no memory.
    NoMemory,
}

impl From<NoMemory> for ReadFault {
    ghost use Rattle.mt_open.specs.declared.reading.ReadFault.TheVariants.{NoMemory};

    ghost from_gives = { λ _ e. e ≡ NoMemory };

    fn from(_e: NoMemory) -> ReadFault {
        ReadFault::NoMemory
    }
}

/// Rows in a chunk, at most.
const CHUNK: u32 = 100;

/// What is asked for a chunk of a partition.
fn chunk_query(alloc: Global, pk: &Text, from: RkFrom) -> Result<RangeQuery, NoMemory>
    ensures { IfOk result (λ q. q ≡ chunk_query pk.now from) }
{
    let pk = pk.copy(alloc)?;
    Ok(RangeQuery {
        pk,
        named: Texts::of(Vec::new(alloc)),
        range: Some(Range {
            from,
            upto: None,
            limit: Some(CHUNK),
        }),
    })
}

/// The answer to a query.
fn ask<K: Keeper>(alloc: Global, keeper: &mut K, query: &RangeQuery) -> Result<Found, ReadFault>
    requires { CanQuery query.now }
    ensures passed { Passed (has_failed result) (K.state keeper.old) (K.state keeper.new) }
    ensures shows { QueryShows query.now result (K.state keeper.old) (K.state keeper.new) }
{
    match keeper.query(alloc, query) {
        Ok(found) => Ok(found),
        Err(KeepFault::Failed) => Err(ReadFault::Failed),
        Err(KeepFault::NoMemory) => Err(ReadFault::NoMemory),
        Err(KeepFault::Unmet { .. } | KeepFault::Sealed) => unreachable!(),
    }
}

/// A row of a partition, with its key.
fn row_of(alloc: Global, pk: &Text, row: StoredRow) -> Result<Row, NoMemory>
    ensures { IfOk result (λ r. r ≡ keyed_row pk.now row) }
{
    let pk = pk.copy(alloc)?;
    let key = Key { pk, rk: row.rk };
    let stored = Stored {
        props: row.props,
        tag: row.tag,
    };
    Ok((key, stored))
}

/// Puts rows of a partition after others.
fn push_rows(
    alloc: Global,
    rows: &mut Vec<Row>,
    pk: &Text,
    found: Vec<StoredRow>,
) -> Result<(), NoMemory>
    ensures { IfOk result (λ u. rows.new.items ≡ rows.old.items ++ keyed pk.now found.items) }
{
    for row in found {
        rows.push(row_of(alloc, pk, row)?)?;
    }
    Ok(())
}

/// Where the rows after a chunk begin, if there may be any.
fn place_after(alloc: Global, found: &Found) -> Result<Option<RkFrom>, NoMemory>
    ensures { IfOk result (λ place. place ≡ place_after found.now) }
{
    if !found.more {
        return Ok(None);
    }
    match found.rows.last_key() {
        None => Ok(None),
        Some(rk) => Ok(Some(RkFrom::After(rk.copy(alloc)?))),
    }
}

/// Reads a chunk of a partition; answers where the next one begins.
fn read_chunk<K: Keeper>(
    alloc: Global,
    keeper: &mut K,
    pk: &Text,
    from: RkFrom,
    rows: &mut Vec<Row>,
) -> Result<Option<RkFrom>, ReadFault>
    ensures { ReadsChunk (K.state keeper.old) pk.now from rows.old.items result rows.new.items (K.state keeper.new) }
{
    let query = chunk_query(alloc, pk, from)?;
    let found = ask(alloc, keeper, &query)?;
    let place = place_after(alloc, &found)?;
    push_rows(alloc, rows, pk, found.rows.into_items())?;
    Ok(place)
}

/// Reads a partition whole, in chunks, after rows of lesser partitions.
fn read_partition<K: Keeper>(
    alloc: Global,
    keeper: &mut K,
    pk: &Text,
    rows: &mut Vec<Row>,
) -> Result<(), ReadFault>
    requires { AllPass (is_before pk.now RkFrom.Start) rows.old.items }
    ensures { ReadsPartition (K.state keeper.old) pk.now rows.old.items result rows.new.items (K.state keeper.new) }
{
    let mut from = RkFrom::Start;
    loop {
        match read_chunk(alloc, keeper, pk, from, rows) {
            Ok(Some(place)) => from = place,
            Ok(None) => return Ok(()),
            Err(fault) => return Err(fault),
        }
    }
}

/// Reads a partition whole; answers the place past it.
fn read_next<K: Keeper>(
    alloc: Global,
    keeper: &mut K,
    pk: Text,
    rows: &mut Vec<Row>,
) -> Result<PkFrom, ReadFault>
    requires { AllPass (is_before pk RkFrom.Start) rows.old.items }
    ensures place { IfOk result (λ place. place ≡ PkFrom.After pk) }
    ensures reads { ReadsPartition (K.state keeper.old) pk rows.old.items (without_value result) rows.new.items (K.state keeper.new) }
{
    match read_partition(alloc, keeper, &pk, rows) {
        Ok(()) => Ok(PkFrom::After(pk)),
        Err(fault) => Err(fault),
    }
}

/// The next partition at or after a place, and whether the store is sealed.
fn next_partition<K: Keeper>(alloc: Global, keeper: &mut K, at: &PkFrom) -> Result<Next, ReadFault>
    ensures { AsksNext (K.state keeper.old) at.now result (K.state keeper.new) }
{
    match keeper.next_partition(alloc, at) {
        Ok(next) => Ok(next),
        Err(KeepFault::Failed) => Err(ReadFault::Failed),
        Err(KeepFault::NoMemory) => Err(ReadFault::NoMemory),
        Err(KeepFault::Unmet { .. } | KeepFault::Sealed) => unreachable!(),
    }
}

/// Reads all rows of a store, and whether it is sealed. The store's contents stay as they were.
///
/// Where the store tells its contents they are all of its rows. Only a call that failed raises the count
/// of faults.
pub fn read_store<K: Keeper>(alloc: Global, keeper: &mut K) -> Result<Loaded, ReadFault>
    ensures { ReadsStore (K.state keeper.old) result (K.state keeper.new) }
{
    let mut rows = Vec::new(alloc);
    let mut at = PkFrom::From(Text::of(alloc, "")?);
    loop {
        let next = match next_partition(alloc, keeper, &at) {
            Ok(next) => next,
            Err(fault) => return Err(fault),
        };
        match next.pk {
            None => {
                return Ok(Loaded {
                    rows: Rows::of(rows),
                    sealed: next.sealed,
                });
            }
            Some(pk) => match read_next(alloc, keeper, pk, &mut rows) {
                Ok(place) => at = place,
                Err(fault) => return Err(fault),
            },
        }
    }
}
