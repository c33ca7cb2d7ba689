use mt_model::{
    Blob, Entities, Entity, Hidden, Key, KeyFault, KeyPart, Name, NameFault, Prop, Props,
    PropsFault, Tag, Text, Texts, Value, is_same_table, is_table_name,
};
use std::alloc::Global;
use std::test::Fail;

/// A text of as many copies of another.
fn repeated(alloc: Global, piece: &str, times: usize) -> Result<String, Fail> {
    let mut text = String::new(alloc);
    for _ in 0..times {
        text.push_str(piece)?;
    }
    Ok(text)
}

fn prop(alloc: Global, name: &str, value: Value) -> Result<Prop, Fail> {
    Ok(Prop {
        name: Name::read(alloc, name)?,
        value,
    })
}

/// As many properties, `p0` and so on.
fn numbered(alloc: Global, count: usize) -> Result<Vec<Prop>, Fail> {
    let mut list = Vec::new(alloc);
    for n in 0..count {
        let name = format!(in alloc; "p{n}")?;
        list.push(prop(alloc, name.as_str(), Value::Bool(true))?)?;
    }
    Ok(list)
}

/// A list of one property.
fn one(alloc: Global, name: &str, value: Value) -> Result<Vec<Prop>, Fail> {
    let mut list = Vec::new(alloc);
    list.push(prop(alloc, name, value)?)?;
    Ok(list)
}

/// Numbers as properties of these names.
fn numbers(alloc: Global, items: &[(&str, i32)]) -> Result<Props, Fail> {
    let mut list = Vec::new(alloc);
    for (name, number) in items {
        list.push(prop(alloc, name, Value::Int32(*number))?)?;
    }
    Ok(Props::build(alloc, list)?)
}

/// What `build` says of a list of one property.
fn built(alloc: Global, value: Value) -> Result<Option<PropsFault>, Fail> {
    match Props::build(alloc, one(alloc, "A", value)?) {
        Ok(_) => Ok(None),
        Err(fault) => Ok(Some(fault)),
    }
}

#[test]
fn reads_keys(rt: HostRuntime) -> Result<(), Fail> {
    let alloc = rt.alloc();
    let long = repeated(alloc, "k", 1024)?;
    let longer = repeated(alloc, "k", 1025)?;
    let partition = KeyPart::Partition;
    let row = KeyPart::Row;
    for (pk, rk, want) in [
        ("p", "é√", None),
        ("", "", None),
        (long.as_str(), long.as_str(), None),
        (
            "p",
            longer.as_str(),
            Some(KeyFault::KeyTooLong { part: row }),
        ),
        (
            "a/b",
            longer.as_str(),
            Some(KeyFault::KeyChar {
                part: partition,
                at: 1,
            }),
        ),
        ("p", "é\u{85}", Some(KeyFault::KeyChar { part: row, at: 2 })),
    ] {
        let fault = match Key::read(alloc, pk, rk) {
            Ok(_) => None,
            Err(fault) => Some(fault),
        };
        assert!(rt; fault == want, "{rk}");
    }
    Ok(())
}

#[test]
fn reads_names(rt: HostRuntime) -> Result<(), Fail> {
    let alloc = rt.alloc();
    let long = repeated(alloc, "n", 255)?;
    let wide = repeated(alloc, "é", 255)?;
    let longer = repeated(alloc, "n", 256)?;
    let bad = Some(NameFault::BadName);
    for (text, want) in [
        ("_x", None),
        ("Ünïcode_1", None),
        (long.as_str(), None),
        (wide.as_str(), None),
        (longer.as_str(), bad),
        ("", bad),
        ("9a", bad),
        ("a-b", bad),
        ("$kind", bad),
        ("Timestamp", bad),
        ("PartitionKey", bad),
        ("RowKey", bad),
        ("timestamp", None),
    ] {
        let fault = match Name::read(alloc, text) {
            Ok(_) => None,
            Err(fault) => Some(fault),
        };
        assert!(rt; fault == want, "{text}");
    }
    Ok(())
}

#[test]
fn reads_and_prints_tags(rt: HostRuntime) -> Result<(), Fail> {
    let alloc = rt.alloc();
    let tag = Tag { store: 0, n: 2 };
    let text = tag.print(alloc)?;
    assert!(rt; text.as_str() == "W/\"0.2\"");
    assert!(rt; Tag::read(text.as_str().as_bytes()) == Some(tag));
    for bad in [
        "W/\"7.00\"",
        "W/\"+7.0\"",
        "W/\"4294967296.0\"",
        "W/\"7\"",
        "w/\"7.0\"",
        "W/\"7.0.0\"",
    ] {
        assert!(rt; Tag::read(bad.as_bytes()).is_none(), "{bad}");
    }
    Ok(())
}

#[test]
fn judges_values(rt: HostRuntime) -> Result<(), Fail> {
    let alloc = rt.alloc();
    let long = repeated(alloc, "b", 65_536)?;
    let longer = repeated(alloc, "b", 65_537)?;
    let too_large = Some(PropsFault::ValueTooLarge { at: 0 });
    let accepted = Value::Binary(Blob::of(alloc, long.as_bytes())?);
    assert!(rt; built(alloc, accepted)? == None);
    let refused = Value::Binary(Blob::of(alloc, longer.as_bytes())?);
    assert!(rt; built(alloc, refused)? == too_large);
    let text = Value::Str(Text::of(alloc, longer.as_str())?);
    assert!(rt; built(alloc, text)? == too_large);
    for (ticks, want) in [
        (0, None),
        (2_650_467_743_999_999_999, None),
        (2_650_467_744_000_000_000, too_large),
        (-1, too_large),
    ] {
        assert!(rt; built(alloc, Value::Moment(ticks))? == want);
    }
    Ok(())
}

#[test]
fn counts_properties(rt: HostRuntime) -> Result<(), Fail> {
    let alloc = rt.alloc();
    let full = Props::build(alloc, numbered(alloc, 252)?)?;
    assert!(rt; full.as_slice().len() == 252);
    match Props::build(alloc, numbered(alloc, 253)?) {
        Ok(_) => {
            assert!(rt; false);
        }
        Err(fault) => {
            assert!(rt; fault == PropsFault::TooManyProperties);
        }
    }
    let mut twice = numbered(alloc, 3)?;
    twice.push(prop(alloc, "p1", Value::Bool(false))?)?;
    match Props::build(alloc, twice) {
        Ok(_) => {
            assert!(rt; false);
        }
        Err(fault) => {
            assert!(rt; fault == PropsFault::DuplicateName { at: 3 });
        }
    }
    Ok(())
}

#[test]
fn hides_properties(rt: HostRuntime) -> Result<(), Fail> {
    let alloc = rt.alloc();
    let mut props = numbers(alloc, &[("b", 1), ("a", 2), ("_é", 3)])?;
    assert!(rt; props.size() == 17);
    assert!(rt; props.hidden(Hidden::Kind).is_none());
    props.add_hidden(alloc, Hidden::Kind, "x")?;
    props.add_hidden(alloc, Hidden::Kind, "copy")?;
    assert!(rt; props.as_slice().len() == 4 && props.size() == 17);
    match props.hidden(Hidden::Kind) {
        Some(text) => {
            assert!(rt; text.as_str() == "copy");
        }
        None => {
            assert!(rt; false);
        }
    }
    let seen = props.visible(alloc)?;
    assert!(rt; seen.as_slice().len() == 3 && !seen.same(&props));
    Ok(())
}

/// What clients see of three numbers, with one of them replaced.
fn merged(alloc: Global) -> Result<Props, Fail> {
    let props = numbers(alloc, &[("b", 1), ("a", 2), ("_é", 3)])?;
    let over = Props::build(alloc, one(alloc, "b", Value::Bool(true))?)?;
    Ok(props.visible(alloc)?.merge(alloc, &over)?)
}

#[test]
fn merges_properties(rt: HostRuntime) -> Result<(), Fail> {
    let alloc = rt.alloc();
    let both = merged(alloc)?;
    assert!(rt; both.size() == 14 && both == both.copy(alloc)?);
    let name = Name::read(alloc, "a")?;
    match both.get(&name) {
        Some(value) => {
            assert!(rt; *value == Value::Int32(2) && value.size() == 4);
        }
        None => {
            assert!(rt; false);
        }
    }
    Ok(())
}

/// An entity with one property.
fn entity(alloc: Global) -> Result<Entity, Fail> {
    let bytes = Blob::of(alloc, b"\x00\xff")?;
    let props = Props::build(alloc, one(alloc, "B", Value::Binary(bytes))?)?;
    Ok(Entity {
        key: Key::read(alloc, "p", "r")?,
        props,
        tag: Tag { store: 1, n: 7 },
    })
}

#[test]
fn copies_entities(rt: HostRuntime) -> Result<(), Fail> {
    let alloc = rt.alloc();
    let entity = entity(alloc)?;
    let copy = entity.copy(alloc)?;
    assert!(rt; copy == entity);
    Ok(())
}

#[test]
#[tactic(auto, using(mt_model::proofs::Rows::rows_empty))]
fn keeps_lists(rt: HostRuntime) -> Result<(), Fail> {
    let alloc = rt.alloc();
    let mut items = Vec::new(alloc);
    items.push(Text::of(alloc, "x")?)?;
    let texts = Texts::of(items);
    assert!(rt; texts.as_slice().len() == 1);
    let rows = Entities::of(Vec::new(alloc));
    assert!(rt; rows.as_slice().is_empty());
    Ok(())
}

#[test]
fn names_tables(rt: HostRuntime) -> Result<(), Fail> {
    let alloc = rt.alloc();
    let long = repeated(alloc, "t", 63)?;
    let longer = repeated(alloc, "t", 64)?;
    for (text, want) in [
        ("Orders", true),
        ("a01", true),
        (long.as_str(), true),
        (longer.as_str(), false),
        ("ab", false),
        ("1ab", false),
        ("a_b", false),
        ("tabé", false),
        ("Tables", false),
        ("tABLES", false),
        ("Tables1", true),
    ] {
        assert!(rt; is_table_name(text) == want, "{text}");
    }
    assert!(rt; is_same_table("Orders", "oRDERS") && !is_same_table("Orders", "Order"));
    Ok(())
}
