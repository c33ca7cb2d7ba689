use mt_chain::StoredRow;
use mt_meta::{
    Choice, Mark, NewPhase, Phase, mark_of, new_marker, new_phase, old_marker, old_phase, overlay,
    seen_tag, stored,
};
use mt_model::{Hidden, Name, Prop, Props, Tag, Text, Value};
use std::alloc::Global;
use std::test::Fail;

/// A row with that tag, and with these texts of `$kind` and `$tag`.
fn row(alloc: Global, tag: Tag, kind: Option<&str>, kept: Option<&str>) -> Result<StoredRow, Fail> {
    let mut props = Props::build(alloc, Vec::new(alloc))?;
    if let Some(kind) = kind {
        props.add_hidden(alloc, Hidden::Kind, kind)?;
    }
    if let Some(kept) = kept {
        props.add_hidden(alloc, Hidden::Tag, kept)?;
    }
    Ok(StoredRow {
        rk: Text::of(alloc, "r")?,
        props,
        tag,
    })
}

#[test]
fn stores_marks(rt: HostRuntime) -> Result<(), Fail> {
    let alloc = rt.alloc();
    let kept = Tag { store: 0, n: 2 };
    let mut list = Vec::new(alloc);
    list.push(Prop {
        name: Name::read(alloc, "a")?,
        value: Value::Bool(true),
    })?;
    let mut props = Props::build(alloc, list)?;
    props.add_hidden(alloc, Hidden::Tag, "left over")?;
    for (mark, count) in [(Mark::Live, 2), (Mark::Copy(kept), 3), (Mark::Tomb, 1)] {
        let row = StoredRow {
            rk: Text::of(alloc, "r")?,
            props: stored(alloc, mark, &props)?,
            tag: kept,
        };
        assert!(rt; row.props.as_slice().len() == count);
        assert!(rt; mark_of(&row) == Some(mark));
    }
    assert!(rt; old_marker(alloc, Phase::PreferOld)?.as_slice().len() == 1);
    assert!(rt; new_marker(alloc, NewPhase::Filling)?.as_slice().len() == 1);
    Ok(())
}

/// What a row is read as, by the texts of its `$kind` and `$tag`.
#[derive(Clone, Copy)]
struct Reading {
    kind: Option<&'static str>,
    kept: Option<&'static str>,
    mark: Option<Mark>,
    /// As a marker of an old store of number 0, and of one above.
    old: (Option<Phase>, Option<Phase>),
    new: Option<NewPhase>,
    /// Over a plain row of old while new fills, and once new is used alone.
    shown: (Choice, Choice),
    /// The tag that clients see.
    seen: Option<Tag>,
}

const OWN: Tag = Tag { store: 1, n: 5 };

const KEPT: Tag = Tag { store: 0, n: 2 };

const BELOW: Tag = Tag { store: 0, n: 3 };

/// A row that says nothing.
const MALFORMED: Reading = Reading {
    kind: None,
    kept: None,
    mark: None,
    old: (None, None),
    new: None,
    shown: (Choice::Nothing, Choice::Nothing),
    seen: None,
};

const READINGS: [Reading; 11] = [
    Reading {
        kind: Some("live"),
        mark: Some(Mark::Live),
        shown: (Choice::NewRow(OWN), Choice::NewRow(OWN)),
        seen: Some(OWN),
        ..MALFORMED
    },
    Reading {
        kind: Some("copy"),
        kept: Some("W/\"0.2\""),
        mark: Some(Mark::Copy(KEPT)),
        shown: (Choice::OldRow(BELOW), Choice::NewRow(KEPT)),
        seen: Some(KEPT),
        ..MALFORMED
    },
    Reading {
        kind: Some("tomb"),
        mark: Some(Mark::Tomb),
        ..MALFORMED
    },
    Reading {
        seen: Some(OWN),
        ..MALFORMED
    },
    Reading {
        kind: Some("use-old"),
        old: (Some(Phase::UseOld), Some(Phase::UseOld)),
        ..MALFORMED
    },
    Reading {
        kind: Some("prefer-old"),
        old: (Some(Phase::PreferOld), Some(Phase::PreferOld)),
        ..MALFORMED
    },
    Reading {
        kind: Some("prefer-new"),
        old: (Some(Phase::PreferNew), Some(Phase::PreferNew)),
        ..MALFORMED
    },
    Reading {
        kind: Some("filling"),
        new: Some(NewPhase::Filling),
        ..MALFORMED
    },
    Reading {
        kind: Some("use-new"),
        old: (None, Some(Phase::UseOld)),
        new: Some(NewPhase::UseNew),
        ..MALFORMED
    },
    Reading {
        kept: Some("W/\"0.2\""),
        seen: Some(OWN),
        ..MALFORMED
    },
    Reading {
        kind: Some("live"),
        kept: Some("W/\"0.2\""),
        seen: Some(OWN),
        ..MALFORMED
    },
];

/// Texts of `$kind` and `$tag` that together have no form.
const FORMLESS: [(&str, Option<&str>); 17] = [
    ("copy", None),
    ("copy", Some("")),
    ("copy", Some("0.2")),
    ("copy", Some("W/\"0.2")),
    ("copy", Some("W/\"0.02\"")),
    ("copy", Some("W/\"4294967296.2\"")),
    ("copy", Some("W/\"0.18446744073709551616\"")),
    ("copy", Some("W/\"0.+2\"")),
    ("tomb", Some("W/\"0.2\"")),
    ("use-old", Some("W/\"0.2\"")),
    ("use-new", Some("")),
    ("use-new", Some("W/\"0.2\"")),
    ("filling", Some("W/\"0.2\"")),
    ("prefer-old ", None),
    ("Use-Old", None),
    ("Live", None),
    ("", None),
];

/// What is chosen of a row of old, with no entry in new, while new fills.
fn through(seen: Option<Tag>) -> Choice {
    match seen {
        Some(tag) => Choice::OldRow(tag),
        None => Choice::Nothing,
    }
}

fn is_marked(reading: Reading, entry: &StoredRow, below: &StoredRow) -> bool {
    let (in_store_0, above) = reading.old;
    mark_of(entry) == reading.mark
        && seen_tag(entry) == reading.seen
        && new_phase(entry) == reading.new
        && new_phase(below) == reading.new
        && old_phase(below) == in_store_0
        && old_phase(entry) == above
}

fn is_shown(reading: Reading, plain: &StoredRow, entry: &StoredRow) -> bool {
    let (filling, use_new) = reading.shown;
    overlay(NewPhase::Filling, Some(plain), Some(entry)) == filling
        && overlay(NewPhase::UseNew, Some(plain), Some(entry)) == use_new
        && overlay(NewPhase::Filling, Some(entry), None) == through(reading.seen)
        && overlay(NewPhase::UseNew, Some(entry), None) == Choice::Nothing
}

fn reads_as(alloc: Global, reading: Reading) -> Result<bool, Fail> {
    let entry = row(alloc, OWN, reading.kind, reading.kept)?;
    let below = row(alloc, BELOW, reading.kind, reading.kept)?;
    let plain = row(alloc, BELOW, None, None)?;
    Ok(is_marked(reading, &entry, &below) && is_shown(reading, &plain, &entry))
}

#[test]
fn reads_every_form(rt: HostRuntime) -> Result<(), Fail> {
    let alloc = rt.alloc();
    for reading in READINGS {
        assert!(rt; reads_as(alloc, reading)?);
    }
    Ok(())
}

#[test]
fn reads_malformed_rows(rt: HostRuntime) -> Result<(), Fail> {
    let alloc = rt.alloc();
    for (kind, kept) in FORMLESS {
        let reading = Reading {
            kind: Some(kind),
            kept,
            ..MALFORMED
        };
        assert!(rt; reads_as(alloc, reading)?, "{kind}");
    }
    Ok(())
}

#[test]
fn shows_rows_that_old_lacks(rt: HostRuntime) -> Result<(), Fail> {
    let alloc = rt.alloc();
    assert!(rt; overlay(NewPhase::Filling, None, None) == Choice::Nothing);
    assert!(rt; overlay(NewPhase::UseNew, None, None) == Choice::Nothing);
    let copy = row(alloc, OWN, Some("copy"), Some("W/\"0.2\""))?;
    assert!(rt; overlay(NewPhase::Filling, None, Some(&copy)) == Choice::Nothing);
    assert!(rt; overlay(NewPhase::UseNew, None, Some(&copy)) == Choice::NewRow(KEPT));
    Ok(())
}
