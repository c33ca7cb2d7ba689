//! Stores in memory, as earlier puts in the partition `p` left them.
ghost use Rattle.std.specs.Prelude.{◌≡◌, IfOk};
ghost use Rattle.mt_chain.specs.Asks.{CanAsk, FitsAsk};
ghost use Rattle.mt_chain.specs.Puts.{CanApply};

use mt_chain::{
    Keeper, Put, Puts, Range, RangeQuery, RkFrom, Side, StoreAsk, StoreReply, StoredRow,
};
use mt_mem::MemKeeper;
use mt_meta::{MARKER_KEY, Mark, NewPhase, Phase, new_marker, old_marker, stored};
use mt_model::{Hidden, Name, Prop, Props, Tag, Text, Texts, Value};
use std::alloc::Global;
use std::test::Fail;

/// What was done to a store. Each put gets the next tag.
#[derive(Clone, Copy)]
pub enum Past {
    /// The marker of old, and that of new.
    Old(Phase),
    New(NewPhase),

    /// The marker of old, of this tag, turned to that phase.
    Turned(Phase, u64),

    /// A row of that key with the property `Age`.
    Row(&'static str, i32),

    /// The same with a mark.
    Kept(&'static str, Mark, i32),

    /// The same in the place of the row of this tag.
    Again(&'static str, Mark, i32, u64),

    /// The store was sealed.
    Sealed,
}

/// The tag of old's row `r` in `TURNED`.
pub const SEEN: Tag = Tag { store: 0, n: 2 };

/// Old's row `r` of the tag 0.2, and its marker turned.
pub const TURNED: [Past; 3] = [
    Past::Old(Phase::UseOld),
    Past::Row("r", 40),
    Past::Turned(Phase::PreferNew, 1),
];

pub const FILLING: Past = Past::New(NewPhase::Filling);

/// One property.
pub fn one(alloc: Global, name: &str, value: i32) -> Result<Props, Fail> {
    let mut list = Vec::new(alloc);
    list.push(Prop {
        name: Name::read(alloc, name)?,
        value: Value::Int32(value),
    })?;
    Ok(Props::build(alloc, list)?)
}

fn kept(alloc: Global, mark: Mark, age: i32) -> Result<Props, Fail> {
    let props = one(alloc, "Age", age)?;
    Ok(stored(alloc, mark, &props)?)
}

fn single(alloc: Global, put: Put) -> Result<Puts, Fail>
    ensures { IfOk result CanApply }
{
    let mut list = Vec::new(alloc);
    list.push(put)?;
    Ok(Puts::of(list))
}

fn make(alloc: Global, keeper: &mut MemKeeper, put: Put) -> Result<(), Fail>
    ensures store { keeper.new.store ≡ keeper.old.store }
    ensures clean { IfOk result (λ _. keeper.new.faults ≡ keeper.old.faults) }
{
    let pk = Text::of(alloc, "p")?;
    let puts = single(alloc, put)?;
    match keeper.apply(alloc, &pk, &puts) {
        Ok(_) => Ok(()),
        Err(_) => Err(Fail::new("a put does not hold")),
    }
}

/// Inserts a row of the partition `p`.
pub fn insert(alloc: Global, keeper: &mut MemKeeper, rk: &str, props: Props) -> Result<(), Fail>
    ensures store { keeper.new.store ≡ keeper.old.store }
    ensures clean { IfOk result (λ _. keeper.new.faults ≡ keeper.old.faults) }
{
    let rk = Text::of(alloc, rk)?;
    make(alloc, keeper, Put::Insert { rk, props })
}

/// Replaces the row of that tag.
pub fn replace(
    alloc: Global,
    keeper: &mut MemKeeper,
    rk: &str,
    props: Props,
    n: u64,
) -> Result<(), Fail>
    ensures store { keeper.new.store ≡ keeper.old.store }
    ensures clean { IfOk result (λ _. keeper.new.faults ≡ keeper.old.faults) }
{
    let rk = Text::of(alloc, rk)?;
    let store = keeper.number();
    let tag = Tag { store, n };
    make(alloc, keeper, Put::Replace { rk, props, tag })
}

fn seal(alloc: Global, keeper: &mut MemKeeper) -> Result<(), Fail>
    ensures store { keeper.new.store ≡ keeper.old.store }
    ensures clean { IfOk result (λ _. keeper.new.faults ≡ keeper.old.faults) }
{
    match keeper.seal(alloc) {
        Ok(()) => Ok(()),
        Err(_) => Err(Fail::new("a store is not sealed")),
    }
}

/// Does to the store what the past says.
fn undergo(alloc: Global, keeper: &mut MemKeeper, past: Past) -> Result<(), Fail>
    ensures store { keeper.new.store ≡ keeper.old.store }
    ensures clean { IfOk result (λ _. keeper.new.faults ≡ keeper.old.faults) }
{
    match past {
        Past::Old(phase) => insert(alloc, keeper, MARKER_KEY, old_marker(alloc, phase)?),
        Past::New(phase) => insert(alloc, keeper, MARKER_KEY, new_marker(alloc, phase)?),
        Past::Turned(phase, n) => {
            let marker = old_marker(alloc, phase)?;
            replace(alloc, keeper, MARKER_KEY, marker, n)
        }
        Past::Row(rk, age) => insert(alloc, keeper, rk, one(alloc, "Age", age)?),
        Past::Kept(rk, mark, age) => insert(alloc, keeper, rk, kept(alloc, mark, age)?),
        Past::Again(rk, mark, age, n) => { replace(alloc, keeper, rk, kept(alloc, mark, age)?, n) }
        Past::Sealed => seal(alloc, keeper),
    }
}

/// A store of that number with this past, which fails at this call, or at none where it is 0.
pub fn failing_store(
    alloc: Global,
    number: u32,
    pasts: &[Past],
    failing: u64,
) -> Result<MemKeeper, Fail>
    ensures store { IfOk result (λ k. k.store ≡ number) }
    ensures clean { IfOk result (λ k. k.faults ≡ 0) }
{
    let failing = Vec::from_slice(alloc, &[failing])?;
    let mut keeper = MemKeeper::new(alloc, number, failing);
    for past in pasts {
        undergo(alloc, &mut keeper, *past)?;
    }
    Ok(keeper)
}

/// A store of that number with this past, which does not fail.
pub fn store_of(alloc: Global, number: u32, pasts: &[Past]) -> Result<MemKeeper, Fail>
    ensures store { IfOk result (λ k. k.store ≡ number) }
    ensures clean { IfOk result (λ k. k.faults ≡ 0) }
{
    failing_store(alloc, number, pasts, 0)
}

/// The store's reply to what a machine asks.
pub fn reply_to(
    alloc: Global,
    ask: &StoreAsk,
    old: &mut MemKeeper,
    new: &mut MemKeeper,
) -> Result<StoreReply, Fail>
    requires { CanAsk ask.now.ask }
    ensures { IfOk result (FitsAsk ask.now.ask) }
{
    let reply = match ask.side {
        Side::Old => ask.ask.call(alloc, old),
        Side::New => ask.ask.call(alloc, new),
    };
    match reply {
        Ok(reply) => Ok(reply),
        Err(_) => Err(Fail::new("a store failed")),
    }
}

/// Tags, as store and number.
pub fn tag_text(alloc: Global, tags: &[Tag]) -> Result<String, Fail> {
    let mut text = String::new(alloc);
    for tag in tags {
        let (store, n) = (tag.store, tag.n);
        text.push_str(format!(in alloc; "{store}.{n} ")?.as_str())?;
    }
    Ok(text)
}

/// What a stored row says that it is: the phase of a marker, or the mark of a row of new.
pub fn kind_of(props: &Props) -> &str {
    match props.hidden(Hidden::Kind) {
        Some(kind) => kind.as_str(),
        None => "",
    }
}

fn row_text(alloc: Global, row: &StoredRow) -> Result<String, Fail> {
    let (rk, kind) = (row.rk.as_str(), kind_of(&row.props));
    let (store, n) = (row.tag.store, row.tag.n);
    Ok(format!(in alloc; "{rk} {store}.{n} {kind};")?)
}

/// The rows of a partition in a store: key, tag and kind of each.
pub fn rows_text(alloc: Global, keeper: &mut MemKeeper, pk: &str) -> Result<String, Fail> {
    let query = RangeQuery {
        pk: Text::of(alloc, pk)?,
        named: Texts::of(Vec::new(alloc)),
        range: Some(Range {
            from: RkFrom::Start,
            upto: None,
            limit: None,
        }),
    };
    let Ok(found) = keeper.query(alloc, &query) else {
        return Err(Fail::new("a store failed"));
    };
    let mut text = String::new(alloc);
    for row in found.rows.as_slice() {
        text.push_str(row_text(alloc, row)?.as_str())?;
    }
    Ok(text)
}
