//! Worlds over two stores with a past, and what their calls are answered, as texts.
ghost use Rattle.std.specs.Prelude.{◌≡◌};
ghost use Rattle.mt_world.specs.Moves.{MayRequest};

use mt_chain::PkFrom;
use mt_history::{History, What};
use mt_mem::MemKeeper;
use mt_model::Entity;
use mt_scan::{Page, Token};
use mt_test_stores::{Past, rows_text, store_of, tag_text};
use mt_world::{Answer, Request, TurnFault, World};
use std::alloc::Global;
use std::test::Fail;

/// The rows of an answer, as row key and tag.
fn answered_rows(alloc: Global, rows: &[Entity]) -> Result<String, Fail> {
    let mut text = String::new(alloc);
    text.push_str("[")?;
    for row in rows {
        let rk = row.key.rk.as_str();
        let (store, n) = (row.tag.store, row.tag.n);
        text.push_str(format!(in alloc; "{rk} {store}.{n};")?.as_str())?;
    }
    text.push_str("] ")?;
    Ok(text)
}

/// Where the page after another one begins.
fn token_text(alloc: Global, token: &Option<Token>) -> Result<String, Fail> {
    match token {
        None => Ok(format!(in alloc; "end ")?),
        Some(Token::Row(key)) => {
            let (pk, rk) = (key.pk.as_str(), key.rk.as_str());
            Ok(format!(in alloc; "row {pk} {rk} ")?)
        }
        Some(Token::Part(PkFrom::From(pk))) => {
            let pk = pk.as_str();
            Ok(format!(in alloc; "from {pk} ")?)
        }
        Some(Token::Part(PkFrom::After(pk))) => {
            let pk = pk.as_str();
            Ok(format!(in alloc; "after {pk} ")?)
        }
    }
}

fn page_text(alloc: Global, page: &Page) -> Result<String, Fail> {
    let rows = answered_rows(alloc, page.rows.as_slice())?;
    let token = token_text(alloc, &page.token)?;
    Ok(format!(in alloc; "{rows}{token}")?)
}

/// What an actor was answered.
pub fn answer_text(alloc: Global, answer: &Answer) -> Result<String, Fail> {
    match answer {
        Answer::Written(tags) => tag_text(alloc, tags.as_slice()),
        Answer::Rows(rows) => answered_rows(alloc, rows.as_slice()),
        Answer::Page(page) => page_text(alloc, page),
        Answer::Moved => Ok(format!(in alloc; "moved ")?),
        Answer::Cleaned => Ok(format!(in alloc; "cleaned ")?),
        Answer::NotSealed => Ok(format!(in alloc; "not sealed ")?),
        Answer::NotMigrated { pk } => {
            let pk = pk.as_str();
            Ok(format!(in alloc; "not migrated: {pk} ")?)
        }
        Answer::Refused(refusal) => {
            let (index, cause) = (refusal.index, refusal.cause);
            Ok(format!(in alloc; "{cause:?} at {index} ")?)
        }
    }
}

/// What a call came to: an answer or a fault.
pub fn outcome_text(alloc: Global, outcome: &Result<Answer, TurnFault>) -> Result<String, Fail> {
    match outcome {
        Ok(answer) => answer_text(alloc, answer),
        Err(fault) => {
            let fault = *fault;
            Ok(format!(in alloc; "{fault:?} ")?)
        }
    }
}

/// The kind of an entry.
fn kind(what: &What) -> &'static str {
    match what {
        What::Batch { .. } => "batch",
        What::Refused { .. } => "refused",
        What::Query { filter: None, .. } => "query",
        What::Query { .. } => "filtered",
        What::Scan { filter: None, .. } => "scan",
        What::Scan { .. } => "filtered scan",
        What::Gap { .. } => "gap",
        What::Fault => "fault",
    }
}

/// The entries, as kind, caller and number.
pub fn entry_text(alloc: Global, history: &History) -> Result<String, Fail> {
    let mut text = String::new(alloc);
    for at in 0..history.len() {
        let Some(entry) = history.get(at) else {
            return Err(Fail::new("an entry is not kept"));
        };
        let kind = kind(&entry.what);
        let (caller, number) = (entry.caller, entry.number);
        text.push_str(format!(in alloc; "{kind} {caller}.{number} ")?.as_str())?;
    }
    Ok(text)
}

/// The world of two stores, whose history may have so many entries.
pub fn opened(
    alloc: Global,
    old: MemKeeper,
    new: MemKeeper,
    entries: u64,
) -> Result<World<MemKeeper>, Fail>
    requires old { old.store ≡ 0 }
    requires new { new.store ≡ 1 }
{
    let entries = match entries {
        1 => 1,
        3 => 3,
        _ => 10,
    };
    match World::open_world(alloc, old, new, entries) {
        Ok(world) => Ok(world),
        Err(_) => Err(Fail::new("two stores were not opened")),
    }
}

/// The world of two stores with these pasts.
pub fn world_of(alloc: Global, old: &[Past], new: &[Past]) -> Result<World<MemKeeper>, Fail> {
    let old = store_of(alloc, 0, old)?;
    let new = store_of(alloc, 1, new)?;
    opened(alloc, old, new, 10)
}

/// What a caller's call came to, how many store calls were made by then, and how many rows there are.
fn told(
    alloc: Global,
    world: &World<MemKeeper>,
    outcome: &Result<Answer, TurnFault>,
) -> Result<String, Fail> {
    let text = outcome_text(alloc, outcome)?;
    let (calls, rows) = (world.calls(), world.rows(alloc)?);
    Ok(format!(in alloc; "{text}calls {calls} rows {rows}; ")?)
}

/// What a caller's call is answered, how many store calls were made by then, and how many rows there are.
pub fn asked(
    alloc: Global,
    world: &mut World<MemKeeper>,
    caller: u32,
    request: Request,
) -> Result<String, Fail>
    requires { MayRequest request }
{
    let call = world.call_of(alloc, request)?;
    let outcome = world.finish(alloc, caller, call);
    told(alloc, world, &outcome)
}

/// What each store holds of a partition.
pub fn stores_text(alloc: Global, world: World<MemKeeper>, pk: &str) -> Result<String, Fail> {
    let mut stores = world.into_stores();
    let old = rows_text(alloc, &mut stores.old, pk)?;
    let new = rows_text(alloc, &mut stores.new, pk)?;
    Ok(format!(in alloc; "old {old}new {new}")?)
}
