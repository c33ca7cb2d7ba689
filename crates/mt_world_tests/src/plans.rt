//! The call of a batch over two stores, one store call after the other.
use mt_batch_plan::{BatchCall, BatchProgress};
use mt_chain::{Ask, Cause, Cond, Keeper, Put, Refusal, Side, StoreAsk};
use mt_mem::MemKeeper;
use mt_meta::{MARKER_KEY, Mark, NewPhase, Phase};
use mt_model::{Props, Tag, Text, Texts};
use mt_test_stores::{FILLING, Past, SEEN, TURNED, kind_of, one, replace, reply_to, store_of};
use mt_test_worlds::{Do, Sample, batch};
use std::alloc::Global;
use std::test::Fail;

/// Another tag.
const OTHER: Tag = Tag { store: 1, n: 2 };

/// A put of a batch: what `$kind` says, how many properties there are, and the number of the tag.
#[derive(Clone, Copy)]
enum Did {
    Check(u64),
    Insert(&'static str, usize),
    Replace(&'static str, usize, u64),
    Delete(u64),
}

/// What happens in a scene.
#[derive(Clone, Copy)]
enum Act<'a> {
    /// A client asks for a batch.
    Call(&'a [Sample<'static>]),

    /// Its call reads the store, and goes on.
    Reads(Side),

    /// It reads the store, and is refused.
    Refused(Side, u32, Cause),

    /// It makes these puts, and is answered these tags.
    Writes(Side, &'a [(&'static str, Did)], &'a [(u32, u64)]),

    /// It asks for so many puts, in vain.
    Races(Side, usize),

    /// Another actor replaces a row of that tag.
    Replace(Side, &'static str, u64),

    /// Old is sealed.
    Seal,
}

fn is_so(rk: &Text, props: &Props, want: &str, kind: &str, count: usize) -> bool {
    rk.as_str() == want && kind_of(props) == kind && props.as_slice().len() == count
}

fn is_put(put: &Put, want: (&str, Did)) -> bool {
    let (at, did) = want;
    match (put, did) {
        (Put::Check { rk, tag }, Did::Check(n)) | (Put::Delete { rk, tag }, Did::Delete(n)) => {
            rk.as_str() == at && tag.n == n
        }
        (Put::Insert { rk, props }, Did::Insert(kind, count)) => is_so(rk, props, at, kind, count),
        (Put::Replace { rk, props, tag }, Did::Replace(kind, count, n)) => {
            is_so(rk, props, at, kind, count) && tag.n == n
        }
        _ => false,
    }
}

fn are_puts(puts: &[Put], want: &[(&str, Did)]) -> bool {
    if puts.len() != want.len() {
        return false;
    }
    for (at, put) in puts.iter().enumerate() {
        if !is_put(put, want[at]) {
            return false;
        }
    }
    true
}

fn are_tags(tags: &[Tag], want: &[(u32, u64)]) -> bool {
    if tags.len() != want.len() {
        return false;
    }
    for (at, tag) in tags.iter().enumerate() {
        if (tag.store, tag.n) != want[at] {
            return false;
        }
    }
    true
}

/// A read names the marker, among the rows of the batch.
fn names_marker(names: &Texts) -> bool {
    for name in names.as_slice() {
        if name.as_str() == MARKER_KEY {
            return true;
        }
    }
    false
}

/// The call asks for what the scene says.
fn is_asked(ask: &StoreAsk, act: Act<'_>) -> bool {
    match (&ask.ask, act) {
        (Ask::Query(query), Act::Reads(side) | Act::Refused(side, ..)) => {
            ask.side == side && names_marker(&query.named)
        }
        (Ask::Apply { puts, .. }, Act::Writes(side, want, _)) => {
            ask.side == side && are_puts(puts.as_slice(), want)
        }
        (Ask::Apply { puts, .. }, Act::Races(side, count)) => {
            ask.side == side && puts.as_slice().len() == count
        }
        _ => false,
    }
}

/// The call comes to what the scene says.
fn has_come(progress: &BatchProgress, act: Act<'_>) -> bool {
    match (progress, act) {
        (BatchProgress::More, Act::Reads(_) | Act::Races(..)) => true,
        (BatchProgress::Refused(refusal), Act::Refused(_, index, cause)) => {
            *refusal == Refusal { index, cause }
        }
        (BatchProgress::Written(tags), Act::Writes(_, _, want)) => {
            are_tags(tags.as_slice(), want)
        }
        _ => false,
    }
}

/// One step of a call, which is as the scene says, or not.
fn step(
    alloc: Global,
    call: &mut BatchCall,
    old: &mut MemKeeper,
    new: &mut MemKeeper,
    act: Act<'_>,
) -> Result<bool, Fail> {
    let ask = call.next(alloc)?;
    let asked = is_asked(&ask, act);
    let reply = reply_to(alloc, &ask, old, new)?;
    let progress = call.absorb(alloc, reply)?;
    Ok(asked && has_come(&progress, act))
}

/// Another actor replaces a row of that tag.
fn interfere(alloc: Global, keeper: &mut MemKeeper, rk: &str, n: u64) -> Result<bool, Fail> {
    replace(alloc, keeper, rk, one(alloc, "C", 1)?, n)?;
    Ok(true)
}

fn happens(
    alloc: Global,
    call: &mut BatchCall,
    old: &mut MemKeeper,
    new: &mut MemKeeper,
    act: Act<'_>,
) -> Result<bool, Fail> {
    match act {
        Act::Call(samples) => {
            *call = BatchCall::new(alloc, batch(alloc, "p", samples)?);
            Ok(true)
        }
        Act::Replace(Side::Old, rk, n) => interfere(alloc, old, rk, n),
        Act::Replace(Side::New, rk, n) => interfere(alloc, new, rk, n),
        Act::Seal => Ok(old.seal(alloc).is_ok()),
        act => step(alloc, call, old, new, act),
    }
}

/// Plays a scene, which has to be as it says; else the index of the first act that is not is the fault.
fn play(alloc: Global, old: &[Past], new: &[Past], script: &[Act<'_>]) -> Result<(), Fail> {
    let mut old = store_of(alloc, 0, old)?;
    let mut new = store_of(alloc, 1, new)?;
    let mut call = BatchCall::new(alloc, batch(alloc, "p", &[("r", Do::Insert)])?);
    for (at, act) in script.iter().enumerate() {
        if !happens(alloc, &mut call, &mut old, &mut new, *act)? {
            return Err(Fail::new(at));
        }
    }
    Ok(())
}

#[test]
fn old_bears_a_partition(rt: HostRuntime) -> Result<(), Fail> {
    let ops = [
        ("c", Do::Insert),
        ("", Do::InsertOrMerge),
        ("b", Do::InsertOrReplace),
    ];
    let puts = [
        (MARKER_KEY, Did::Insert("use-old", 1)),
        ("", Did::Insert("", 1)),
        ("b", Did::Insert("", 1)),
        ("c", Did::Insert("", 1)),
    ];
    let script = [
        Act::Call(&ops),
        Act::Reads(Side::Old),
        Act::Writes(Side::Old, &puts, &[(0, 4), (0, 2), (0, 3)]),
    ];
    play(rt.alloc(), &[], &[], &script)
}

#[test]
fn writes_old_under_a_check(rt: HostRuntime) -> Result<(), Fail> {
    let ops = [
        ("b", Do::Merge(Cond::Is(Tag { store: 0, n: 3 }))),
        ("r", Do::Delete(Cond::Is(SEEN))),
        ("c", Do::Insert),
    ];
    let puts = [
        (MARKER_KEY, Did::Check(1)),
        ("b", Did::Replace("", 2, 3)),
        ("c", Did::Insert("", 1)),
        ("r", Did::Delete(2)),
    ];
    let script = [
        Act::Call(&ops),
        Act::Reads(Side::Old),
        Act::Writes(Side::Old, &puts, &[(0, 4), (0, 2), (0, 5)]),
    ];
    for phase in [Phase::UseOld, Phase::PreferOld] {
        let old = [Past::Old(phase), Past::Row("r", 1), Past::Row("b", 1)];
        play(rt.alloc(), &old, &[], &script)?;
    }
    Ok(())
}

#[test]
fn names_the_least_refusal(rt: HostRuntime) -> Result<(), Fail> {
    let old = [Past::Old(Phase::UseOld), Past::Row("r", 1)];
    for (ops, index, cause) in [
        (
            [
                ("a", Do::Insert),
                ("r", Do::Replace(Cond::Is(OTHER))),
                ("b", Do::Merge(Cond::Any)),
            ],
            1,
            Cause::ConditionFailed,
        ),
        (
            [
                ("r", Do::InsertOrReplace),
                ("a", Do::Delete(Cond::Any)),
                ("b", Do::Merge(Cond::Any)),
            ],
            1,
            Cause::NotFound,
        ),
        (
            [
                ("r", Do::Insert),
                ("b", Do::Insert),
                ("a", Do::Merge(Cond::Any)),
            ],
            0,
            Cause::Exists,
        ),
    ] {
        let script = [Act::Call(&ops), Act::Refused(Side::Old, index, cause)];
        play(rt.alloc(), &old, &[], &script)?;
    }
    Ok(())
}

#[test]
fn begins_again_after_a_race_in_old(rt: HostRuntime) -> Result<(), Fail> {
    let old = [Past::Old(Phase::UseOld), Past::Row("r", 1)];
    let ops = [("b", Do::Insert), ("r", Do::Replace(Cond::Any))];
    for (rk, n) in [(MARKER_KEY, 1), ("r", 2)] {
        let script = [
            Act::Call(&ops),
            Act::Reads(Side::Old),
            Act::Replace(Side::Old, rk, n),
            Act::Races(Side::Old, 3),
            Act::Reads(Side::Old),
        ];
        play(rt.alloc(), &old, &[], &script)?;
    }
    let sealed = [
        Act::Call(&ops[..1]),
        Act::Reads(Side::Old),
        Act::Seal,
        Act::Races(Side::Old, 2),
        Act::Reads(Side::Old),
        Act::Reads(Side::New),
    ];
    play(rt.alloc(), &[], &[], &sealed)
}

/// A delete under that condition while new fills, again in vain, and then an insert.
fn delete_while_new_fills(alloc: Global, cond: Cond) -> Result<(), Fail> {
    let delete = [("r", Do::Delete(cond))];
    let insert = [("r", Do::Insert)];
    let gone = [(MARKER_KEY, Did::Check(1)), ("r", Did::Insert("tomb", 1))];
    let back = [
        (MARKER_KEY, Did::Check(1)),
        ("r", Did::Replace("live", 2, 2)),
    ];
    let script = [
        Act::Call(&delete),
        Act::Reads(Side::Old),
        Act::Reads(Side::New),
        Act::Writes(Side::New, &gone, &[(0, 2)]),
        Act::Call(&delete),
        Act::Reads(Side::Old),
        Act::Refused(Side::New, 0, Cause::NotFound),
        Act::Call(&insert),
        Act::Reads(Side::Old),
        Act::Reads(Side::New),
        Act::Writes(Side::New, &back, &[(1, 3)]),
    ];
    play(alloc, &TURNED, &[FILLING], &script)
}

#[test]
fn a_delete_leaves_a_tombstone_while_new_fills(rt: HostRuntime) -> Result<(), Fail> {
    delete_while_new_fills(rt.alloc(), Cond::Any)?;
    delete_while_new_fills(rt.alloc(), Cond::Is(SEEN))
}

#[test]
fn merges_old_through_a_copy_while_new_fills(rt: HostRuntime) -> Result<(), Fail> {
    let new = [
        FILLING,
        Past::Kept("r", Mark::Copy(OTHER), 1),
        Past::Kept("a", Mark::Live, 1),
        Past::Kept("b", Mark::Tomb, 1),
    ];
    let ops = [
        ("r", Do::Merge(Cond::Is(SEEN))),
        ("a", Do::Replace(Cond::Is(Tag { store: 1, n: 3 }))),
        ("b", Do::InsertOrMerge),
        ("d", Do::Insert),
    ];
    let puts = [
        (MARKER_KEY, Did::Check(1)),
        ("a", Did::Replace("live", 2, 3)),
        ("b", Did::Replace("live", 2, 4)),
        ("d", Did::Insert("live", 2)),
        ("r", Did::Replace("live", 3, 2)),
    ];
    let script = [
        Act::Call(&ops),
        Act::Reads(Side::Old),
        Act::Reads(Side::New),
        Act::Writes(Side::New, &puts, &[(1, 8), (1, 5), (1, 6), (1, 7)]),
    ];
    play(rt.alloc(), &TURNED, &new, &script)
}

#[test]
fn a_copy_keeps_its_tag_at_use_new(rt: HostRuntime) -> Result<(), Fail> {
    let new = [
        Past::New(NewPhase::UseNew),
        Past::Kept("r", Mark::Copy(SEEN), 1),
    ];
    let replaced = [
        (MARKER_KEY, Did::Check(1)),
        ("r", Did::Replace("live", 2, 2)),
    ];
    let deleted = [(MARKER_KEY, Did::Check(1)), ("r", Did::Delete(2))];
    let own = [
        Act::Call(&[("r", Do::Replace(Cond::Is(OTHER)))]),
        Act::Reads(Side::Old),
        Act::Refused(Side::New, 0, Cause::ConditionFailed),
        Act::Call(&[("r", Do::Replace(Cond::Is(SEEN)))]),
        Act::Reads(Side::Old),
        Act::Reads(Side::New),
        Act::Writes(Side::New, &replaced, &[(1, 3)]),
    ];
    play(rt.alloc(), &TURNED, &new, &own)?;
    let gone = [
        Act::Call(&[("r", Do::Delete(Cond::Any))]),
        Act::Reads(Side::Old),
        Act::Reads(Side::New),
        Act::Writes(Side::New, &deleted, &[(0, 2)]),
        Act::Call(&[("r", Do::Replace(Cond::Any))]),
        Act::Reads(Side::Old),
        Act::Refused(Side::New, 0, Cause::NotFound),
    ];
    play(rt.alloc(), &TURNED, &new, &gone)
}

#[test]
fn new_bears_a_partition_after_the_seal(rt: HostRuntime) -> Result<(), Fail> {
    let born = [
        (MARKER_KEY, Did::Insert("use-new", 1)),
        ("1", Did::Insert("live", 2)),
    ];
    let more = [(MARKER_KEY, Did::Check(1)), ("2", Did::Insert("live", 2))];
    let script = [
        Act::Seal,
        Act::Call(&[("1", Do::Replace(Cond::Any))]),
        Act::Reads(Side::Old),
        Act::Refused(Side::New, 0, Cause::NotFound),
        Act::Call(&[("1", Do::Insert)]),
        Act::Reads(Side::Old),
        Act::Reads(Side::New),
        Act::Writes(Side::New, &born, &[(1, 2)]),
        Act::Call(&[("2", Do::Insert)]),
        Act::Reads(Side::Old),
        Act::Reads(Side::New),
        Act::Writes(Side::New, &more, &[(1, 3)]),
    ];
    play(rt.alloc(), &[], &[], &script)
}

#[test]
fn begins_again_after_a_race_in_new(rt: HostRuntime) -> Result<(), Fail> {
    for phase in [NewPhase::Filling, NewPhase::UseNew] {
        let new = [Past::New(phase), Past::Kept("r", Mark::Live, 1)];
        for (rk, n) in [(MARKER_KEY, 1), ("r", 2)] {
            let script = [
                Act::Call(&[("r", Do::InsertOrReplace)]),
                Act::Reads(Side::Old),
                Act::Reads(Side::New),
                Act::Replace(Side::New, rk, n),
                Act::Races(Side::New, 2),
                Act::Reads(Side::Old),
            ];
            play(rt.alloc(), &TURNED, &new, &script)?;
        }
    }
    Ok(())
}

#[test]
fn begins_again_where_no_line_fits(rt: HostRuntime) -> Result<(), Fail> {
    let ops = [("r", Do::Replace(Cond::Any))];
    let again = [
        Act::Call(&ops),
        Act::Reads(Side::Old),
        Act::Reads(Side::New),
        Act::Reads(Side::Old),
    ];
    play(rt.alloc(), &TURNED, &[], &again)?;
    play(rt.alloc(), &TURNED, &[Past::Old(Phase::UseOld)], &again)?;
    let sealed = [
        Act::Seal,
        Act::Call(&ops),
        Act::Reads(Side::Old),
        Act::Reads(Side::New),
        Act::Reads(Side::Old),
    ];
    play(rt.alloc(), &[], &[FILLING], &sealed)?;
    let odd = [
        Act::Call(&ops),
        Act::Reads(Side::Old),
        Act::Reads(Side::Old),
    ];
    play(rt.alloc(), &[Past::New(NewPhase::UseNew)], &[], &odd)
}
