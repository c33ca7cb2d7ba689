//! Connections one after the other on a world of two stores in memory, and what is counted of it.
ghost use Rattle.std.specs.Prelude.{◌≡◌, ◌≤◌};

use mt_front::session;
use mt_history::{History, What};
use mt_io::{MemSink, MemSource};
use mt_mem::MemKeeper;
use mt_model::Text;
use mt_test_stores::{Past, failing_store, store_of};
use mt_world::World;
use std::alloc::Global;
use std::test::Fail;

/// How many entries a history may have.
#[derive(Clone, Copy)]
pub enum Room {
    One,
    Three,
    Ten,
}

/// A world as it begins.
#[derive(Clone, Copy)]
pub struct Plan {
    pub old: &'static [Past],
    pub new: &'static [Past],

    /// The call of old that fails, or 0. Call 1 opens the store.
    pub failing_old: u64,

    pub room: Room,
}

/// Two stores without rows, of which no call fails.
pub const FRESH: Plan = Plan {
    old: &[],
    new: &[],
    failing_old: 0,
    room: Room::Ten,
};

fn entries_of(room: Room) -> u64
    ensures some { 1 ≤ result }
    ensures bounded { result ≤ 1048576 }
{
    match room {
        Room::One => 1,
        Room::Three => 3,
        Room::Ten => 10,
    }
}

fn opened(
    alloc: Global,
    old: MemKeeper,
    new: MemKeeper,
    room: Room,
) -> Result<World<MemKeeper>, Fail>
    requires old { old.store ≡ 0 }
    requires new { new.store ≡ 1 }
{
    match World::open_world(alloc, old, new, entries_of(room)) {
        Ok(world) => Ok(world),
        Err(_) => Err(Fail::new("two stores were not opened")),
    }
}

pub fn world_of(alloc: Global, plan: Plan) -> Result<World<MemKeeper>, Fail> {
    let old = failing_store(alloc, 0, plan.old, plan.failing_old)?;
    let new = store_of(alloc, 1, plan.new)?;
    opened(alloc, old, new, plan.room)
}

/// What a connection on the table `Orders` writes that has this input.
pub fn written(alloc: Global, world: &mut World<MemKeeper>, input: &str) -> Result<String, Fail> {
    let table = Text::of(alloc, "Orders")?;
    let bytes = Vec::from_slice(alloc, input.as_bytes())?;
    let pieces = Vec::from_slice(alloc, &[65_536])?;
    let mut source = MemSource::new(bytes, pieces, Vec::new(alloc));
    let mut sink = MemSink::new(alloc, Vec::new(alloc));
    match session(alloc, world, &table, &mut source, &mut sink) {
        Ok(_) => Ok(String::from_utf8_lossy(alloc, sink.held())?),
        Err(_) => Err(Fail::new("a connection broke off")),
    }
}

/// The kind of an entry.
fn kind(what: &What) -> &'static str {
    match what {
        What::Batch { .. } => "batch",
        What::Refused { .. } => "refused",
        What::Query { .. } => "query",
        What::Scan { .. } => "scan",
        What::Gap { .. } => "gap",
        What::Fault => "fault",
    }
}

fn kinds(alloc: Global, history: &History) -> Result<String, Fail> {
    let mut text = String::new(alloc);
    for at in 0..history.len() {
        let Some(entry) = history.get(at) else {
            return Err(Fail::new("an entry is not kept"));
        };
        text.push_str(" ")?;
        text.push_str(kind(&entry.what))?;
    }
    Ok(text)
}

/// How many store calls were made, how many rows there are, and the kinds of the entries.
pub fn counts(alloc: Global, world: &World<MemKeeper>) -> Result<String, Fail> {
    let (calls, rows) = (world.calls(), world.rows(alloc)?);
    let kinds = kinds(alloc, world.history())?;
    Ok(format!(in alloc; "calls {calls} rows {rows}:{kinds}")?)
}

/// Whether the connection's first reply begins with this line, and so much is counted behind it.
pub fn comes_to(
    alloc: Global,
    world: &mut World<MemKeeper>,
    input: &str,
    line: &str,
    counted: &str,
) -> Result<bool, Fail> {
    let got = written(alloc, world, input)?;
    let counts = counts(alloc, world)?;
    Ok(got.as_str().starts_with(line) && counts.as_str() == counted)
}

pub const INSERT: &str =
    "POST /Orders HTTP/1.1\r\nContent-Length: 41\r\n\r\n{\"PartitionKey\":\"p\",\"RowKey\":\"r\",\"A\":\"x\"}";

pub const CREATED: &str = "HTTP/1.1 201 Created\r\n";
