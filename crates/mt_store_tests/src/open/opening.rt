ghost use Rattle.std.specs.Prelude.{IfOk};
ghost use Rattle.mt_chain.specs.Puts.{CanApply};

use crate::open::lines::Line::{self, Copy, Live, Marker, Plain, Tomb};
use crate::open::lines::row_of;
use crate::stores::with_two;
use mt_chain::{Keeper, Put, Puts};
use mt_mem::MemKeeper;
use mt_meta::MARKER_KEY as MARKER;
use mt_model::{Entities, Entity, Tag};
use mt_open::{OpenFault, open_pair};
use std::alloc::Global;
use std::test::Fail;

/// A row that clients see: its keys, and its tag as store and number.
type Seen = (&'static str, &'static str, u32, u64);

/// What opening two stores comes to.
#[derive(Clone, Copy)]
enum Answer {
    Table(&'static [Seen]),
    /// The rule, the store and the key.
    Damaged(u8, u32, &'static str, &'static str),
    Failed,
}

use Answer::{Damaged, Failed, Table};

fn is_seen(entity: &Entity, seen: Seen) -> bool {
    let (pk, rk, store, n) = seen;
    entity.key.pk.as_str() == pk && entity.key.rk.as_str() == rk && entity.tag == Tag { store, n }
}

fn is_table(entities: &[Entity], rows: &[Seen]) -> bool {
    if entities.len() != rows.len() {
        return false;
    }
    for (entity, seen) in entities.iter().zip(rows) {
        if !is_seen(entity, *seen) {
            return false;
        }
    }
    true
}

fn is_answer(opened: &Result<Entities, OpenFault>, answer: Answer) -> bool {
    match (opened, answer) {
        (Ok(entities), Table(rows)) => is_table(entities.as_slice(), rows),
        (Err(OpenFault::Damaged { store, key, rule }), Damaged(number, of, pk, rk)) => {
            *rule == number && *store == of && key.pk.as_str() == pk && key.rk.as_str() == rk
        }
        (Err(OpenFault::StoreFault), Failed) => true,
        _ => false,
    }
}

/// One change.
pub fn one(alloc: Global, put: Put) -> Result<Puts, Fail>
    ensures { IfOk result CanApply }
{
    let mut list = Vec::new(alloc);
    list.push(put)?;
    Ok(Puts::of(list))
}

/// Puts a row into a store, which gives it the next tag.
fn insert(alloc: Global, keeper: &mut MemKeeper, line: Line) -> Result<(), Fail> {
    let (key, stored) = row_of(alloc, line)?;
    let put = Put::Insert {
        rk: key.rk,
        props: stored.props,
    };
    let puts = one(alloc, put)?;
    let _ = keeper.apply(alloc, &key.pk, &puts)?;
    Ok(())
}

/// A store that took these rows, one at a time, and fails at one call.
fn filled(alloc: Global, number: u32, lines: &[Line], failing: u64) -> Result<MemKeeper, Fail> {
    let mut keeper = MemKeeper::new(alloc, number, vec![in alloc; failing]?);
    for line in lines {
        insert(alloc, &mut keeper, *line)?;
    }
    Ok(keeper)
}

/// No call of these tests.
const LATE: u64 = 1 << 32;

/// Rows of the stores 0 and 1, whether new is sealed, and what opening them comes to.
#[derive(Clone, Copy)]
struct Case {
    old: &'static [Line],
    new: &'static [Line],
    sealed: bool,
    answer: Answer,
}

const CASES: [Case; 6] = [
    Case {
        old: &[Marker("p", 0, 1, "use-old")],
        new: &[],
        sealed: false,
        answer: Table(&[]),
    },
    Case {
        old: &[Marker("p", 0, 1, "use-old")],
        new: &[
            Marker("p", 1, 1, "filling"),
            Copy("p", "r", 1, 2, "W/\"0.1\""),
        ],
        sealed: false,
        answer: Damaged(3, 1, "p", MARKER),
    },
    Case {
        old: &[Marker("p", 0, 1, "prefer-new")],
        new: &[],
        sealed: false,
        answer: Damaged(5, 0, "p", MARKER),
    },
    Case {
        old: &[],
        new: &[],
        sealed: true,
        answer: Damaged(8, 1, "", ""),
    },
    Case {
        old: &[
            Marker("p", 0, 1, "use-old"),
            Plain("p", "r", 0, 2),
            Plain("p", "a", 0, 3),
            Marker("a", 0, 4, "use-old"),
            Plain("a", "z", 0, 5),
        ],
        new: &[],
        sealed: false,
        answer: Table(&[("a", "z", 0, 5), ("p", "a", 0, 3), ("p", "r", 0, 2)]),
    },
    Case {
        old: &[
            Marker("p", 0, 1, "prefer-new"),
            Plain("p", "a", 0, 2),
            Plain("p", "b", 0, 3),
            Plain("p", "c", 0, 4),
        ],
        new: &[
            Marker("p", 1, 1, "filling"),
            Copy("p", "a", 1, 2, "W/\"0.2\""),
            Tomb("p", "b", 1, 3),
            Live("p", "d", 1, 4),
        ],
        sealed: false,
        answer: Table(&[("p", "a", 0, 2), ("p", "c", 0, 4), ("p", "d", 1, 4)]),
    },
];

/// Whether opening comes to what is said.
fn opens(alloc: Global, case: Case) -> Result<bool, Fail> {
    let mut old = filled(alloc, 0, case.old, LATE)?;
    let mut new = filled(alloc, 1, case.new, LATE)?;
    if case.sealed {
        new.seal(alloc)?;
    }
    Ok(is_answer(&open_pair(alloc, &mut old, &mut new), case.answer))
}

#[test]
fn opens_sound_pairs_alone(rt: HostRuntime) -> Result<(), Fail> {
    let alloc = rt.alloc();
    for case in CASES {
        assert!(rt; opens(alloc, case)?);
    }
    Ok(())
}

/// Whether the first of two openings fails and the second does not, where one call of old, and one of
/// new, fails.
fn fails_once(alloc: Global, old_call: u64, new_call: u64) -> Result<bool, Fail> {
    let rows = [Marker("p", 0, 1, "use-old"), Plain("p", "r", 0, 2)];
    let mut old = filled(alloc, 0, &rows, old_call)?;
    let mut new = filled(alloc, 1, &[], new_call)?;
    let failed = is_answer(&open_pair(alloc, &mut old, &mut new), Failed);
    let opened = is_answer(
        &open_pair(alloc, &mut old, &mut new),
        Table(&[("p", "r", 0, 2)]),
    );
    Ok(failed && opened)
}

#[test]
fn fails_where_a_store_fails(rt: HostRuntime) -> Result<(), Fail> {
    let alloc = rt.alloc();
    for (old_call, new_call) in [(3u64, LATE), (4, LATE), (5, LATE), (LATE, 1)] {
        assert!(rt; fails_once(alloc, old_call, new_call)?);
    }
    Ok(())
}

/// Whether a store that has these rows, of the numbers up to 3, and an empty store of the next number
/// open as is said.
fn opens_as(alloc: Global, number: u32, lines: [Line; 2], answer: Answer) -> Result<bool, Fail> {
    let first = row_of(alloc, lines[0])?;
    let second = row_of(alloc, lines[1])?;
    let mut old = with_two(alloc, number, 3, first, second, Vec::new(alloc))?;
    let mut new = MemKeeper::new(alloc, number.saturating_add(1), Vec::new(alloc));
    Ok(is_answer(&open_pair(alloc, &mut old, &mut new), answer))
}

/// What an earlier migration left in store 1.
const LEFT: [Line; 2] = [
    Marker("p", 1, 3, "use-new"),
    Copy("p", "r", 1, 2, "W/\"0.2\""),
];

/// The same rows, which store 0 cannot have.
const NEVER: [Line; 2] = [
    Marker("p", 0, 3, "use-new"),
    Copy("p", "r", 0, 2, "W/\"0.2\""),
];

#[test]
fn opens_what_an_earlier_migration_left(rt: HostRuntime) -> Result<(), Fail> {
    let alloc = rt.alloc();
    assert!(rt; opens_as(alloc, 1, LEFT, Table(&[("p", "r", 0, 2)]))?);
    assert!(rt; opens_as(alloc, 0, NEVER, Damaged(1, 0, "p", MARKER))?);
    Ok(())
}
