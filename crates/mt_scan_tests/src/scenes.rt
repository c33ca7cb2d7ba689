//! Two stores, and what the pages of their table are told to be.
ghost use Rattle.std.specs.Prelude.{◌≡◌, ◌≤◌, IfOk, false, [], None};
ghost use Rattle.mt_chain.specs.Asks.{CanAsk, FitsAsk};
ghost use Rattle.mt_chain.specs.Puts.{CanApply};
ghost use Rattle.mt_scan.specs.Pages.{is_over};

use mt_chain::{Keeper, PkFrom, Put, Puts, RkFrom, Side, StoreAsk, StoreReply};
use mt_match::Bounds;
use mt_mem::MemKeeper;
use mt_meta::{MARKER_KEY, Mark, NewPhase, Phase, new_marker, old_marker, stored};
use mt_model::{Name, Prop, Props, Tag, Text, Value};
use mt_scan::{PageCall, PageProgress, Token, Unit};
use std::alloc::Global;
use std::test::Fail;

/// What a put of a store leaves: each put gets the next tag.
#[derive(Clone, Copy)]
pub enum Row {
    Old(Phase),
    New(NewPhase),

    /// A row without a mark, with the property `Age`.
    Data(i32),

    /// The same with a mark.
    Kept(Mark, i32),

    /// The same in the place of the row of this tag.
    Again(Mark, i32, u64),

    /// The marker of this tag turns to new.
    Turn(u64),
}

fn props(alloc: Global, age: i32) -> Result<Props, Fail> {
    let mut list = Vec::new(alloc);
    list.push(Prop {
        name: Name::read(alloc, "Age")?,
        value: Value::Int32(age),
    })?;
    Ok(Props::build(alloc, list)?)
}

fn kept(alloc: Global, mark: Mark, age: i32) -> Result<Props, Fail> {
    let props = props(alloc, age)?;
    Ok(stored(alloc, mark, &props)?)
}

fn props_of(alloc: Global, row: Row) -> Result<Props, Fail> {
    match row {
        Row::Old(phase) => Ok(old_marker(alloc, phase)?),
        Row::New(phase) => Ok(new_marker(alloc, phase)?),
        Row::Data(age) => props(alloc, age),
        Row::Kept(mark, age) => kept(alloc, mark, age),
        Row::Again(mark, age, _) => kept(alloc, mark, age),
        Row::Turn(_) => Ok(old_marker(alloc, Phase::PreferNew)?),
    }
}

fn put_of(alloc: Global, store: u32, rk: &str, row: Row) -> Result<Put, Fail> {
    let rk = Text::of(alloc, rk)?;
    let props = props_of(alloc, row)?;
    Ok(match row {
        Row::Turn(n) | Row::Again(_, _, n) => Put::Replace {
            rk,
            props,
            tag: Tag { store, n },
        },
        _ => Put::Insert { rk, props },
    })
}

fn single(alloc: Global, put: Put) -> Result<Puts, Fail>
    ensures { IfOk result CanApply }
{
    let mut list = Vec::new(alloc);
    list.push(put)?;
    Ok(Puts::of(list))
}

/// Makes a row of a partition in a store of that number.
pub fn put(
    alloc: Global,
    keeper: &mut MemKeeper,
    store: u32,
    pk: &str,
    rk: &str,
    row: Row,
) -> Result<(), Fail> {
    let pk = Text::of(alloc, pk)?;
    let puts = single(alloc, put_of(alloc, store, rk, row)?)?;
    match keeper.apply(alloc, &pk, &puts) {
        Ok(_) => Ok(()),
        Err(_) => Err(Fail::new("a put does not hold")),
    }
}

/// Makes the marker of a partition.
pub fn mark(
    alloc: Global,
    keeper: &mut MemKeeper,
    store: u32,
    pk: &str,
    row: Row,
) -> Result<(), Fail> {
    put(alloc, keeper, store, pk, MARKER_KEY, row)
}

/// A store of that number that has nothing.
pub fn empty(alloc: Global, store: u32) -> MemKeeper {
    MemKeeper::new(alloc, store, Vec::new(alloc))
}

fn reply_to(
    alloc: Global,
    ask: &StoreAsk,
    old: &mut MemKeeper,
    new: &mut MemKeeper,
) -> Result<StoreReply, Fail>
    requires { CanAsk ask.now.ask }
    ensures { IfOk result (FitsAsk ask.now.ask) }
{
    let reply = match ask.side {
        Side::Old => ask.ask.call(alloc, old),
        Side::New => ask.ask.call(alloc, new),
    };
    match reply {
        Ok(reply) => Ok(reply),
        Err(_) => Err(Fail::new("the store failed")),
    }
}

fn step(
    alloc: Global,
    call: &mut PageCall,
    old: &mut MemKeeper,
    new: &mut MemKeeper,
) -> Result<PageProgress, Fail>
    requires { is_over call.old ≡ false }
{
    let ask = call.next(alloc)?;
    let reply = reply_to(alloc, &ask, old, new)?;
    Ok(call.absorb(alloc, reply)?)
}

/// The end of a range, with a bar where there is none.
fn end_of(end: &Option<Text>) -> &str {
    match end {
        None => "|",
        Some(text) => text.as_str(),
    }
}

fn tell_scan(
    alloc: Global,
    told: &mut String,
    pk: &Text,
    from: &RkFrom,
    upto: &Option<Text>,
) -> Result<(), Fail> {
    let start = match from {
        RkFrom::Start => "^",
        RkFrom::From(low) | RkFrom::After(low) => low.as_str(),
    };
    let (pk, end) = (pk.as_str(), end_of(upto));
    told.push_str(format!(in alloc; "scan {pk} {start} {end};")?.as_str())?;
    Ok(())
}

fn tell_gap(
    alloc: Global,
    told: &mut String,
    from: &PkFrom,
    to: &Option<Text>,
) -> Result<(), Fail> {
    let (way, pk) = match from {
        PkFrom::From(pk) => ("from", pk.as_str()),
        PkFrom::After(pk) => ("after", pk.as_str()),
    };
    let end = end_of(to);
    told.push_str(format!(in alloc; "gap {way} {pk} {end};")?.as_str())?;
    Ok(())
}

fn tell(alloc: Global, told: &mut String, unit: &Unit) -> Result<(), Fail> {
    match unit {
        Unit::Scan { pk, from, upto } => tell_scan(alloc, told, pk, from, upto),
        Unit::Gap { from, to } => tell_gap(alloc, told, from, to),
    }
}

fn tell_token(alloc: Global, told: &mut String, token: &Option<Token>) -> Result<(), Fail> {
    let text = match token {
        None => format!(in alloc; "end")?,
        Some(Token::Row(key)) => {
            let (pk, rk) = (key.pk.as_str(), key.rk.as_str());
            format!(in alloc; "row {pk} {rk}")?
        }
        Some(Token::Part(PkFrom::From(pk))) => {
            let pk = pk.as_str();
            format!(in alloc; "from {pk}")?
        }
        Some(Token::Part(PkFrom::After(pk))) => {
            let pk = pk.as_str();
            format!(in alloc; "after {pk}")?
        }
    };
    told.push_str(text.as_str())?;
    Ok(())
}

/// What a page came to.
#[derive(Drop)]
pub struct Came {
    pub calls: u32,
    pub units: u32,
    pub rows: usize,

    /// Its units, and its token.
    pub told: String,
}

/// A page of all rows, at most so many, without a token.
pub fn page(alloc: Global, top: u32) -> Result<PageCall, Fail>
    requires { (1 ≤ top) × (top ≤ 1000) }
{
    let bounds = whole(alloc)?;
    Ok(PageCall::new(alloc, None, bounds, top, None))
}

fn whole(alloc: Global) -> Result<Bounds, Fail>
    ensures { IfOk result (λ b. b ≡ record { pk_low = []; pk_high = None; rk_low = []; rk_high = None }) }
{
    Ok(Bounds {
        pk_low: Text::of(alloc, "")?,
        pk_high: None,
        rk_low: Text::of(alloc, "")?,
        rk_high: None,
    })
}

/// Calls of a page, at most.
const CALLS: u32 = 600;

fn came_of(
    alloc: Global,
    call: PageCall,
    mut told: String,
    calls: u32,
    units: u32,
) -> Result<Came, Fail> {
    let page = call.into_page();
    tell_token(alloc, &mut told, &page.token)?;
    Ok(Came {
        calls,
        units,
        rows: page.rows.as_slice().len(),
        told,
    })
}

/// Reads a page without a filter.
pub fn read(
    alloc: Global,
    call: PageCall,
    old: &mut MemKeeper,
    new: &mut MemKeeper,
) -> Result<Came, Fail> {
    let mut call = call;
    let mut told = String::new(alloc);
    let mut units = 0_u32;
    for calls in 0..CALLS {
        if call.is_over() {
            return came_of(alloc, call, told, calls, units);
        }
        match step(alloc, &mut call, old, new)? {
            PageProgress::More => {}
            PageProgress::Unit(unit) | PageProgress::Last(unit) => {
                units = units.saturating_add(1);
                tell(alloc, &mut told, &unit)?;
            }
        }
    }
    Err(Fail::new("the page does not end"))
}
