ghost use Rattle.std.specs.Prelude.{◌≡◌, All, IfOk, None};
ghost use Rattle.mt_model.specs.Key.{key_fault};
ghost use Rattle.mt_rules.specs.Batches.{MayAsk};

use mt_chain::model::apply_batch;
use mt_chain::{Op, PkFrom, RkFrom, Rows, Tags};
use mt_filter::{Filter, read_filter};
use mt_history::model::{Reply, reply_of};
use mt_history::{Entry, History, MOVE_NEED, What, page_need, query_need};
use mt_model::{Entity, Key, Name, Prop, Props, Tag, Text, Value};
use mt_rules::{Batch, check_batch};
use std::alloc::Global;
use std::test::Fail;

/// A row as its two keys and a number.
type Sample = (&'static str, &'static str, i32);

fn tag(n: u64) -> Tag {
    Tag { store: 0, n }
}

/// A number as the property `A`.
fn number(alloc: Global, n: i32) -> Result<Props, Fail> {
    let mut list = Vec::new(alloc);
    let name = Name::read(alloc, "A")?;
    list.push(Prop {
        name,
        value: Value::Int32(n),
    })?;
    Ok(Props::build(alloc, list)?)
}

fn key(alloc: Global, pk: &str, rk: &str) -> Result<Key, Fail>
    ensures { IfOk result (λ k. key_fault k.pk k.rk ≡ None) }
{
    Ok(Key::read(alloc, pk, rk)?)
}

/// The insert of those of the properties that clients see.
fn insert(alloc: Global, pk: &str, rk: &str, props: &Props) -> Result<Op, Fail>
    ensures { IfOk result MayAsk }
{
    let key = key(alloc, pk, rk)?;
    let props = props.visible(alloc)?;
    Ok(Op::Insert { key, props })
}

/// The inserts of rows with numbers as their property `A`.
fn inserts(alloc: Global, rows: &[Sample]) -> Result<Vec<Op>, Fail>
    ensures { IfOk result (λ v. All MayAsk v.items) }
{
    let mut ops = Vec::new(alloc);
    for row in rows {
        let (pk, rk, n) = *row;
        let props = number(alloc, n)?;
        ops.push(insert(alloc, pk, rk, &props)?)?;
    }
    Ok(ops)
}

/// A batch that inserts the row (p, r).
fn batch(alloc: Global) -> Result<Batch, Fail> {
    let ops = inserts(alloc, &[("p", "r", 1)])?;
    match check_batch(alloc, ops) {
        Ok(batch) => Ok(batch),
        Err(_) => Err(Fail::new("one insert is no batch")),
    }
}

fn filter(alloc: Global, text: &str) -> Result<Option<Filter>, Fail> {
    if text.is_empty() {
        return Ok(None);
    }
    match read_filter(alloc, text) {
        Ok(filter) => Ok(Some(filter)),
        Err(_) => Err(Fail::new("the text is no filter")),
    }
}

/// What an entry says. Texts are keys, and the last of them the text of a filter, or empty.
#[derive(Clone, Copy)]
enum Ask {
    Inserted(u64),
    Refused,
    Query(&'static str, &'static str),
    ScanFrom(&'static str, &'static str, &'static str),
    ScanAfter(&'static str, &'static str, &'static str, &'static str),
    ScanUpto(&'static str, &'static str, &'static str),
    GapFrom(&'static str, &'static str),
    GapAfter(&'static str),
    Fault,
}

fn inserted(alloc: Global, n: u64) -> Result<What, Fail> {
    let batch = batch(alloc)?;
    let tags = Vec::from_slice(alloc, &[tag(n)])?;
    Ok(What::Batch {
        batch,
        tags: Tags::of(tags),
    })
}

fn refused(alloc: Global) -> Result<What, Fail> {
    let batch = batch(alloc)?;
    Ok(What::Refused { batch })
}

fn query(alloc: Global, pk: &str, text: &str) -> Result<What, Fail> {
    let filter = filter(alloc, text)?;
    let pk = Text::of(alloc, pk)?;
    Ok(What::Query { pk, filter })
}

/// A text, or none where it is empty.
fn end(alloc: Global, text: &str) -> Result<Option<Text>, Fail> {
    if text.is_empty() {
        return Ok(None);
    }
    Ok(Some(Text::of(alloc, text)?))
}

fn scan(alloc: Global, pk: &str, from: RkFrom, upto: &str, text: &str) -> Result<What, Fail> {
    let filter = filter(alloc, text)?;
    let upto = end(alloc, upto)?;
    let pk = Text::of(alloc, pk)?;
    Ok(What::Scan {
        pk,
        from,
        upto,
        filter,
    })
}

fn scan_from(alloc: Global, pk: &str, low: &str, text: &str) -> Result<What, Fail> {
    let from = RkFrom::From(Text::of(alloc, low)?);
    scan(alloc, pk, from, "", text)
}

fn scan_after(alloc: Global, pk: &str, low: &str, high: &str, text: &str) -> Result<What, Fail> {
    let from = RkFrom::After(Text::of(alloc, low)?);
    scan(alloc, pk, from, high, text)
}

fn gap_from(alloc: Global, low: &str, high: &str) -> Result<What, Fail> {
    let from = PkFrom::From(Text::of(alloc, low)?);
    let to = end(alloc, high)?;
    Ok(What::Gap { from, to })
}

fn gap_after(alloc: Global, low: &str) -> Result<What, Fail> {
    let from = PkFrom::After(Text::of(alloc, low)?);
    Ok(What::Gap { from, to: None })
}

fn what(alloc: Global, ask: Ask) -> Result<What, Fail> {
    match ask {
        Ask::Inserted(n) => inserted(alloc, n),
        Ask::Refused => refused(alloc),
        Ask::Query(pk, text) => query(alloc, pk, text),
        Ask::ScanFrom(pk, low, text) => scan_from(alloc, pk, low, text),
        Ask::ScanAfter(pk, low, high, text) => scan_after(alloc, pk, low, high, text),
        Ask::ScanUpto(pk, high, text) => scan(alloc, pk, RkFrom::Start, high, text),
        Ask::GapFrom(low, high) => gap_from(alloc, low, high),
        Ask::GapAfter(low) => gap_after(alloc, low),
        Ask::Fault => Ok(What::Fault),
    }
}

#[test]
fn weighs_entries(rt: HostRuntime) -> Result<(), Fail> {
    let alloc = rt.alloc();
    for (ask, weight) in [
        (Ask::Inserted(1), 71),
        (Ask::Refused, 71),
        (Ask::Query("p", ""), 65),
        (Ask::Query("p", "A ge 2"), 86),
        (
            Ask::Query("p", "PartitionKey eq 'p' and not (A eq true)"),
            148,
        ),
        (Ask::Query("", "RowKey lt 'ab' or Name ne 5000000000"), 142),
        (Ask::ScanFrom("pq", "abc", ""), 69),
        (Ask::ScanAfter("pq", "abc", "x", "A ge 2"), 91),
        (Ask::ScanUpto("p", "xyz", ""), 68),
        (Ask::GapFrom("p", "qq"), 67),
        (Ask::GapAfter("pp"), 66),
        (Ask::Fault, 64),
    ] {
        let got = what(alloc, ask)?.weight();
        assert!(rt; got == weight, "{got} for {weight}");
    }
    Ok(())
}

#[test]
fn weighs_turns(rt: HostRuntime) -> Result<(), Fail> {
    let alloc = rt.alloc();
    let pk = Text::of(alloc, "pq")?;
    for (text, query, page) in [("", 66, 4160), ("A ge 2", 87, 4181)] {
        let filter = filter(alloc, text)?;
        assert!(rt; query_need(&pk, &filter) == query);
        assert!(rt; page_need(&filter) == page);
    }
    assert!(rt; MOVE_NEED == 64);
    Ok(())
}

/// Adds an entry if there is room, and says whether it did.
fn add(history: &mut History, entry: Entry) -> Result<bool, Fail> {
    if !history.room_for(entry.what.weight()) {
        return Ok(false);
    }
    history.reserve()?;
    history.push(entry);
    Ok(true)
}

#[test]
fn keeps_entries_in_order(rt: HostRuntime) -> Result<(), Fail> {
    let mut history = History::new(rt.alloc(), 2);
    for (number, is_kept) in [(7, true), (8, true), (9, false)] {
        let entry = Entry {
            caller: 3,
            number,
            what: What::Fault,
        };
        assert!(rt; add(&mut history, entry)? == is_kept);
    }
    assert!(rt; history.len() == 2);
    for (at, number) in [(0, Some(7)), (1, Some(8)), (2, None)] {
        assert!(rt; history.get(at).map(|entry| entry.number) == number);
    }
    Ok(())
}

#[test]
fn keeps_entries_behind_full_blocks(rt: HostRuntime) -> Result<(), Fail> {
    let mut history = History::new(rt.alloc(), 4096);
    for number in 0..2049 {
        let entry = Entry {
            caller: 3,
            number,
            what: What::Fault,
        };
        assert!(rt; add(&mut history, entry)?);
    }
    assert!(rt; history.len() == 2049);
    for (at, number) in [
        (0, Some(0)),
        (1023, Some(1023)),
        (1024, Some(1024)),
        (2048, Some(2048)),
        (2049, None),
        (u64::MAX, None),
    ] {
        assert!(rt; history.get(at).map(|entry| entry.number) == number);
    }
    Ok(())
}

#[test]
fn keeps_its_limits(rt: HostRuntime) -> Result<(), Fail> {
    let mut history = History::new(rt.alloc(), 2);
    assert!(rt; history.room_for(1_073_741_824));
    assert!(rt; !history.room_for(1_073_741_825));
    assert!(rt; !history.room_for(u64::MAX));
    let entry = Entry {
        caller: 0,
        number: 0,
        what: What::Fault,
    };
    assert!(rt; add(&mut history, entry)?);
    assert!(rt; history.room_for(1_073_741_760));
    assert!(rt; !history.room_for(1_073_741_761));
    Ok(())
}

/// The rows after inserts that have these tags.
fn after(alloc: Global, rows: &[Sample], tags: &[Tag]) -> Result<Rows, Fail> {
    let ops = inserts(alloc, rows)?;
    if ops.len() != tags.len() || ops.len() > 100 {
        return Err(Fail::new("not one tag for each of some rows"));
    }
    match apply_batch(alloc, Rows::of(Vec::new(alloc)), &ops, tags) {
        Ok(applied) => Ok(applied.rows),
        Err(_) => Err(Fail::new("inserts were refused")),
    }
}

/// The rows (p, a), (p, b), (p, c) and (q, a) with the tags 1 to 4 and A = 1, 2, 3, 1.
fn four_rows(alloc: Global) -> Result<Rows, Fail> {
    after(
        alloc,
        &[("q", "a", 1), ("p", "c", 3), ("p", "a", 1), ("p", "b", 2)],
        &[tag(4), tag(3), tag(1), tag(2)],
    )
}

/// A reply: its tags, its refusal, its row keys with their tags, or `none`.
fn words(alloc: Global, reply: &Reply) -> Result<String, Fail> {
    match reply {
        Reply::Written(tags) => tag_words(alloc, tags.as_slice()),
        Reply::Refused(refusal) => {
            let refusal = *refusal;
            Ok(format!(in alloc; "{refusal:?}")?)
        }
        Reply::Rows(rows) => row_words(alloc, rows.as_slice()),
        Reply::NoReply => Ok(String::from_str(alloc, "none")?),
    }
}

fn tag_words(alloc: Global, tags: &[Tag]) -> Result<String, Fail> {
    let mut text = String::new(alloc);
    for tag in tags {
        let n = tag.n;
        text.push_str(format!(in alloc; "{n} ")?.as_str())?;
    }
    Ok(text)
}

fn row_words(alloc: Global, rows: &[Entity]) -> Result<String, Fail> {
    let mut text = String::new(alloc);
    for row in rows {
        let n = row.tag.n;
        text.push_str(row.key.rk.as_str())?;
        text.push_str(format!(in alloc; "@{n} ")?.as_str())?;
    }
    Ok(text)
}

/// The words of what an entry is answered at the table of these rows.
fn answer(alloc: Global, rows: &Rows, ask: Ask) -> Result<String, Fail> {
    let what = what(alloc, ask)?;
    let reply = reply_of(alloc, rows, &what)?;
    words(alloc, &reply)
}

#[test]
fn replies_to_entries(rt: HostRuntime) -> Result<(), Fail> {
    let alloc = rt.alloc();
    let empty = after(alloc, &[], &[])?;
    let filled = four_rows(alloc)?;
    for (ask, at_none, at_rows) in [
        (Ask::Inserted(7), "7 ", "7 "),
        (Ask::Refused, "none", "none"),
        (Ask::Query("p", ""), "", "a@1 b@2 c@3 "),
        (Ask::Query("p", "A ge 2"), "", "b@2 c@3 "),
        (Ask::Query("q", "A ge 2"), "", ""),
        (Ask::Query("q", ""), "", "a@4 "),
        (Ask::Query("", ""), "", ""),
        (Ask::ScanFrom("p", "b", ""), "", "b@2 c@3 "),
        (Ask::ScanFrom("p", "b", "A eq 3"), "", "c@3 "),
        (Ask::ScanAfter("p", "a", "b", ""), "", "b@2 "),
        (Ask::ScanAfter("p", "a", "c", "not (A eq 2)"), "", "c@3 "),
        (Ask::ScanUpto("p", "b", ""), "", "a@1 b@2 "),
        (Ask::GapAfter("q"), "", ""),
        (Ask::GapFrom("a", "p"), "", ""),
        (Ask::Fault, "none", "none"),
    ] {
        let got = answer(alloc, &empty, ask)?;
        assert!(rt; got.as_str() == at_none, "{got}");
        let got = answer(alloc, &filled, ask)?;
        assert!(rt; got.as_str() == at_rows, "{got}");
    }
    Ok(())
}

#[test]
fn refuses_a_second_insert(rt: HostRuntime) -> Result<(), Fail> {
    let alloc = rt.alloc();
    let rows = after(alloc, &[("p", "r", 1)], &[tag(5)])?;
    for (ask, want) in [
        (Ask::Refused, "Refusal { index: 0, cause: Exists }"),
        (Ask::Query("p", ""), "r@5 "),
    ] {
        let got = answer(alloc, &rows, ask)?;
        assert!(rt; got.as_str() == want, "{got} for {want}");
    }
    Ok(())
}
