//! Rows of a store, made of short descriptions.
use mt_chain::{Row, Stored};
use mt_meta::MARKER_KEY;
use mt_model::{Hidden, Key, Name, Prop, Props, Tag, Text, Value};
use std::alloc::Global;
use std::test::Fail;

/// A row of a store, by its form: its key, and its tag as store and number.
#[derive(Clone, Copy)]
pub enum Line {
    /// Partition key, tag, and the text of `$kind`.
    Marker(&'static str, u32, u64, &'static str),
    /// A marker that has a client's property too.
    OddMarker(&'static str, u32, u64, &'static str),
    Plain(&'static str, &'static str, u32, u64),
    Live(&'static str, &'static str, u32, u64),
    /// The last is the text of `$tag`.
    Copy(&'static str, &'static str, u32, u64, &'static str),
    Tomb(&'static str, &'static str, u32, u64),
    /// A tombstone that has a client's property.
    OddTomb(&'static str, &'static str, u32, u64),
}

use Line::{Copy, Live, Marker, OddMarker, OddTomb, Plain, Tomb};

/// The texts of `$kind` and `$tag`, if there are any, and whether there is a client's property.
fn texts_of(line: Line) -> (Option<&'static str>, Option<&'static str>, bool) {
    match line {
        Marker(_, _, _, kind) => (Some(kind), None, false),
        OddMarker(_, _, _, kind) => (Some(kind), None, true),
        Plain(_, _, _, _) => (None, None, true),
        Live(_, _, _, _) => (Some("live"), None, true),
        Copy(_, _, _, _, kept) => (Some("copy"), Some(kept), true),
        Tomb(_, _, _, _) => (Some("tomb"), None, false),
        OddTomb(_, _, _, _) => (Some("tomb"), None, true),
    }
}

/// The key, and the tag.
fn place_of(line: Line) -> (&'static str, &'static str, Tag) {
    match line {
        Marker(pk, store, n, _) => (pk, MARKER_KEY, Tag { store, n }),
        OddMarker(pk, store, n, _) => (pk, MARKER_KEY, Tag { store, n }),
        Plain(pk, rk, store, n) => (pk, rk, Tag { store, n }),
        Live(pk, rk, store, n) => (pk, rk, Tag { store, n }),
        Copy(pk, rk, store, n, _) => (pk, rk, Tag { store, n }),
        Tomb(pk, rk, store, n) => (pk, rk, Tag { store, n }),
        OddTomb(pk, rk, store, n) => (pk, rk, Tag { store, n }),
    }
}

fn props_of(alloc: Global, line: Line) -> Result<Props, Fail> {
    let (kind, kept, has_value) = texts_of(line);
    let mut list = Vec::new(alloc);
    if has_value {
        list.push(Prop {
            name: Name::read(alloc, "a")?,
            value: Value::Bool(true),
        })?;
    }
    let mut props = Props::build(alloc, list)?;
    if let Some(kind) = kind {
        props.add_hidden(alloc, Hidden::Kind, kind)?;
    }
    if let Some(kept) = kept {
        props.add_hidden(alloc, Hidden::Tag, kept)?;
    }
    Ok(props)
}

/// The row of a line, with its key.
pub fn row_of(alloc: Global, line: Line) -> Result<Row, Fail> {
    let (pk, rk, tag) = place_of(line);
    let props = props_of(alloc, line)?;
    let pk = Text::of(alloc, pk)?;
    let rk = Text::of(alloc, rk)?;
    Ok((Key { pk, rk }, Stored { props, tag }))
}
