use crate::open::lines::Line::{self, Copy, Live, Marker, OddMarker, OddTomb, Plain, Tomb};
use crate::open::lines::row_of;
use mt_chain::Rows;
use mt_meta::MARKER_KEY as MARKER;
use mt_open::{Damage, Holding, Holdings, first_damage};
use std::alloc::Global;
use std::test::Fail;

fn holding(
    alloc: Global,
    number: u32,
    lines: &[Line],
    sealed: bool,
    counter: u64,
) -> Result<Holding, Fail> {
    let mut rows = Rows::of(Vec::new(alloc));
    for line in lines {
        rows.put(row_of(alloc, *line)?)?;
    }
    Ok(Holding::of(number, rows, sealed, counter))
}

/// What is said of two stores: the number of the first rule that fails, and the store and the key where
/// it does.
#[derive(Clone, Copy)]
struct Case {
    old: (u32, &'static [Line], bool, u64),
    new: (u32, &'static [Line], bool, u64),
    damage: Option<(u8, u32, &'static str, &'static str)>,
}

fn stores_of(alloc: Global, case: Case) -> Result<Holdings, Fail> {
    let (number, lines, sealed, counter) = case.old;
    let old = holding(alloc, number, lines, sealed, counter)?;
    let (number, lines, sealed, counter) = case.new;
    let new = holding(alloc, number, lines, sealed, counter)?;
    Ok(Holdings { old, new })
}

fn is_as_said(
    damage: Option<&Damage>,
    said: Option<(u8, u32, &'static str, &'static str)>,
) -> bool {
    match (damage, said) {
        (None, None) => true,
        (Some(damage), Some((rule, store, pk, rk))) => {
            damage.rule.number() == rule
                && damage.store == store
                && damage.key.pk.as_str() == pk
                && damage.key.rk.as_str() == rk
        }
        _ => false,
    }
}

fn check_cases(alloc: Global, cases: &[Case]) -> Result<bool, Fail> {
    for case in cases {
        let stores = stores_of(alloc, *case)?;
        let damage = first_damage(alloc, &stores)?;
        if !is_as_said(damage.as_ref(), case.damage) {
            return Ok(false);
        }
    }
    Ok(true)
}

const EMPTY: (u32, &[Line], bool, u64) = (1, &[], false, 0);

const SOUND: [Case; 7] = [
    Case {
        old: (0, &[], false, 0),
        new: EMPTY,
        damage: None,
    },
    Case {
        old: (0, &[Marker("p", 0, 1, "use-old")], false, 1),
        new: EMPTY,
        damage: None,
    },
    // A store that an earlier migration filled, with a copy of a row of store 0.
    Case {
        old: (
            1,
            &[
                Marker("p", 1, 3, "use-new"),
                Copy("p", "r", 1, 2, "W/\"0.2\""),
            ],
            false,
            3,
        ),
        new: (2, &[], false, 0),
        damage: None,
    },
    // Copies are written while clients still write old.
    Case {
        old: (
            0,
            &[Marker("p", 0, 3, "prefer-old"), Plain("p", "r", 0, 2)],
            false,
            3,
        ),
        new: (
            1,
            &[
                Marker("p", 1, 1, "filling"),
                Copy("p", "r", 1, 2, "W/\"0.2\""),
            ],
            false,
            2,
        ),
        damage: None,
    },
    // Clients write new over old.
    Case {
        old: (
            0,
            &[Marker("p", 0, 3, "prefer-new"), Plain("p", "r", 0, 2)],
            false,
            3,
        ),
        new: (
            1,
            &[
                Marker("p", 1, 1, "filling"),
                Tomb("p", "r", 1, 3),
                Live("p", "s", 1, 2),
            ],
            false,
            3,
        ),
        damage: None,
    },
    // Old's rows are left over.
    Case {
        old: (
            0,
            &[Marker("p", 0, 3, "prefer-new"), Plain("p", "r", 0, 2)],
            false,
            3,
        ),
        new: (1, &[Marker("p", 1, 1, "use-new")], false, 1),
        damage: None,
    },
    // The partition is in new alone.
    Case {
        old: (0, &[], true, 0),
        new: (
            1,
            &[Marker("p", 1, 1, "use-new"), Live("p", "r", 1, 2)],
            false,
            2,
        ),
        damage: None,
    },
];

#[test]
fn finds_no_damage(rt: HostRuntime) -> Result<(), Fail> {
    let found = check_cases(rt.alloc(), &SOUND)?;
    assert!(rt; found);
    Ok(())
}

const PREFER_OLD: Line = Marker("p", 0, 1, "prefer-old");

const USE_NEW: Line = Marker("p", 1, 1, "use-new");

const DAMAGED: [Case; 25] = [
    Case {
        old: (0, &[Marker("p", 0, 1, "use-old")], false, 1),
        new: (
            1,
            &[
                Marker("p", 1, 1, "filling"),
                Copy("p", "r", 1, 2, "W/\"0.2\""),
            ],
            false,
            2,
        ),
        damage: Some((3, 1, "p", MARKER)),
    },
    Case {
        old: (0, &[], false, 0),
        new: (1, &[], true, 0),
        damage: Some((8, 1, "", "")),
    },
    Case {
        old: (0, &[Marker("p", 0, 1, "prefer-new")], false, 1),
        new: EMPTY,
        damage: Some((5, 0, "p", MARKER)),
    },
    // What only a store above 0 may have.
    Case {
        old: (
            0,
            &[
                Marker("p", 0, 3, "use-new"),
                Copy("p", "r", 0, 2, "W/\"0.2\""),
            ],
            false,
            3,
        ),
        new: EMPTY,
        damage: Some((1, 0, "p", MARKER)),
    },
    Case {
        old: (
            0,
            &[Marker("p", 0, 1, "use-old"), Live("p", "r", 0, 2)],
            false,
            2,
        ),
        new: EMPTY,
        damage: Some((1, 0, "p", "r")),
    },
    // A marker with a client's property, and a row of new without a mark.
    Case {
        old: (0, &[OddMarker("p", 0, 1, "use-old")], false, 1),
        new: EMPTY,
        damage: Some((1, 0, "p", MARKER)),
    },
    Case {
        old: (0, &[], true, 0),
        new: (1, &[USE_NEW, Plain("p", "r", 1, 2)], false, 2),
        damage: Some((1, 1, "p", "r")),
    },
    Case {
        old: (0, &[], true, 0),
        new: (1, &[USE_NEW, OddTomb("p", "r", 1, 2)], false, 2),
        damage: Some((1, 1, "p", "r")),
    },
    // Keys that no client can have.
    Case {
        old: (0, &[Marker("a/b", 0, 1, "use-old")], false, 1),
        new: EMPTY,
        damage: Some((1, 0, "a/b", MARKER)),
    },
    Case {
        old: (
            0,
            &[Marker("p", 0, 1, "use-old"), Plain("p", "r#", 0, 2)],
            false,
            2,
        ),
        new: EMPTY,
        damage: Some((1, 0, "p", "r#")),
    },
    // No marker: at equal keys old's row, else the least.
    Case {
        old: (0, &[Plain("p", "r", 0, 1)], false, 1),
        new: (1, &[Live("p", "r", 1, 1)], false, 1),
        damage: Some((2, 0, "p", "r")),
    },
    Case {
        old: (0, &[Plain("p", "s", 0, 1), Plain("q", "r", 0, 2)], false, 2),
        new: (1, &[Live("p", "r", 1, 1)], false, 1),
        damage: Some((2, 1, "p", "r")),
    },
    Case {
        old: (0, &[Plain("p", "s", 0, 1), Plain("p", "t", 0, 2)], false, 2),
        new: EMPTY,
        damage: Some((2, 0, "p", "s")),
    },
    Case {
        old: (0, &[PREFER_OLD], false, 1),
        new: (1, &[USE_NEW], false, 1),
        damage: Some((4, 1, "p", MARKER)),
    },
    Case {
        old: (0, &[PREFER_OLD], false, 1),
        new: (
            1,
            &[Marker("p", 1, 1, "filling"), Live("p", "s", 1, 2)],
            false,
            2,
        ),
        damage: Some((4, 1, "p", "s")),
    },
    Case {
        old: (0, &[], false, 0),
        new: (1, &[USE_NEW], false, 1),
        damage: Some((6, 1, "p", MARKER)),
    },
    Case {
        old: (0, &[], true, 0),
        new: (1, &[Marker("p", 1, 1, "filling")], false, 1),
        damage: Some((6, 1, "p", MARKER)),
    },
    Case {
        old: (0, &[], true, 0),
        new: (1, &[USE_NEW, Tomb("p", "r", 1, 2)], false, 2),
        damage: Some((6, 1, "p", "r")),
    },
    // Tags of another store, of n 0, above the counter, and of two rows.
    Case {
        old: (0, &[Marker("p", 1, 1, "use-old")], false, 1),
        new: EMPTY,
        damage: Some((7, 0, "p", MARKER)),
    },
    Case {
        old: (0, &[Marker("p", 0, 0, "use-old")], false, 1),
        new: EMPTY,
        damage: Some((7, 0, "p", MARKER)),
    },
    Case {
        old: (0, &[Marker("p", 0, 2, "use-old")], false, 1),
        new: EMPTY,
        damage: Some((7, 0, "p", MARKER)),
    },
    Case {
        old: (
            0,
            &[
                Marker("p", 0, 1, "use-old"),
                Plain("p", "r", 0, 2),
                Plain("p", "s", 0, 2),
            ],
            false,
            2,
        ),
        new: EMPTY,
        damage: Some((7, 0, "p", "r")),
    },
    // Kept tags of the row's own store, of n 0, and above old's counter.
    Case {
        old: (0, &[PREFER_OLD], false, 1),
        new: (
            1,
            &[
                Marker("p", 1, 1, "filling"),
                Copy("p", "r", 1, 2, "W/\"1.1\""),
            ],
            false,
            2,
        ),
        damage: Some((7, 1, "p", "r")),
    },
    Case {
        old: (0, &[PREFER_OLD], false, 1),
        new: (
            1,
            &[
                Marker("p", 1, 1, "filling"),
                Copy("p", "r", 1, 2, "W/\"0.0\""),
            ],
            false,
            2,
        ),
        damage: Some((7, 1, "p", "r")),
    },
    Case {
        old: (0, &[PREFER_OLD], false, 1),
        new: (
            1,
            &[
                Marker("p", 1, 1, "filling"),
                Copy("p", "r", 1, 2, "W/\"0.2\""),
            ],
            false,
            2,
        ),
        damage: Some((7, 1, "p", "r")),
    },
];

#[test]
fn finds_the_first_damage(rt: HostRuntime) -> Result<(), Fail> {
    let found = check_cases(rt.alloc(), &DAMAGED)?;
    assert!(rt; found);
    Ok(())
}
