use mt_chain::model::{Applied, ApplyFault, EffectFault, apply_batch, effect};
use mt_chain::{Cause, Cond, Op, Row, Rows, Stored};
use mt_model::{Key, Name, Prop, Props, Tag, Text, Value};
use std::alloc::Global;
use std::test::Fail;

fn tag(n: u64) -> Tag {
    Tag { store: 0, n }
}

/// One number as a property of that name.
fn props(alloc: Global, name: &str, n: i32) -> Result<Props, Fail> {
    let mut list = Vec::new(alloc);
    let name = Name::read(alloc, name)?;
    list.push(Prop {
        name,
        value: Value::Int32(n),
    })?;
    Ok(Props::build(alloc, list)?)
}

/// An operation on a row of partition `p`: its row key, a property, and the number of the tag that
/// is wanted, or 0 for any.
#[derive(Clone, Copy)]
enum Ask {
    Insert(&'static str, i32),
    Replace(&'static str, i32, u64),
    Merge(&'static str, i32, u64),
    Delete(&'static str, u64),
    InsertOrReplace(&'static str, i32),
    InsertOrMerge(&'static str, i32),
}

fn cond(n: u64) -> Cond {
    if n == 0 { Cond::Any } else { Cond::Is(tag(n)) }
}

/// The operation. Merges bring a property `B`, all others `A`.
fn op_of(alloc: Global, ask: Ask) -> Result<Op, Fail> {
    match ask {
        Ask::Insert(rk, n) => Ok(Op::Insert {
            key: Key::read(alloc, "p", rk)?,
            props: props(alloc, "A", n)?,
        }),
        Ask::Replace(rk, n, wanted) => Ok(Op::Replace {
            key: Key::read(alloc, "p", rk)?,
            props: props(alloc, "A", n)?,
            cond: cond(wanted),
        }),
        Ask::Merge(rk, n, wanted) => Ok(Op::Merge {
            key: Key::read(alloc, "p", rk)?,
            props: props(alloc, "B", n)?,
            cond: cond(wanted),
        }),
        Ask::Delete(rk, wanted) => Ok(Op::Delete {
            key: Key::read(alloc, "p", rk)?,
            cond: cond(wanted),
        }),
        Ask::InsertOrReplace(rk, n) => Ok(Op::InsertOrReplace {
            key: Key::read(alloc, "p", rk)?,
            props: props(alloc, "A", n)?,
        }),
        Ask::InsertOrMerge(rk, n) => Ok(Op::InsertOrMerge {
            key: Key::read(alloc, "p", rk)?,
            props: props(alloc, "B", n)?,
        }),
    }
}

/// A batch of one or two operations, with these tags.
fn run(
    alloc: Global,
    rows: Rows,
    first: Ask,
    second: Option<Ask>,
    tags: [Tag; 2],
) -> Result<Result<Applied, ApplyFault>, Fail> {
    let mut ops = Vec::new(alloc);
    ops.push(op_of(alloc, first)?)?;
    if let Some(second) = second {
        ops.push(op_of(alloc, second)?)?;
    }
    let count = ops.len();
    if count > 2 {
        return Err(Fail::new("more than two operations"));
    }
    Ok(apply_batch(alloc, rows, &ops, &tags[..count]))
}

/// The rows `m` and `r` with the tags 1 and 2, or none.
fn start(alloc: Global, filled: bool) -> Result<Rows, Fail> {
    let none = Rows::of(Vec::new(alloc));
    if !filled {
        return Ok(none);
    }
    let first = Ask::Insert("m", 1);
    let second = Ask::Insert("r", 2);
    match run(alloc, none, first, Some(second), [tag(1), tag(2)])? {
        Ok(applied) => Ok(applied.rows),
        Err(_) => Err(Fail::new("two rows were refused")),
    }
}

/// A row as its key, its properties and its tag.
fn row_words(alloc: Global, row: &Row) -> Result<String, Fail> {
    let mut text = String::from_str(alloc, row.0.rk.as_str())?;
    for prop in row.1.props.as_slice() {
        if let Value::Int32(value) = prop.value {
            let name = prop.name.as_str();
            text.push_str(format!(in alloc; " {name}={value}")?.as_str())?;
        }
    }
    let n = row.1.tag.n;
    text.push_str(format!(in alloc; "@{n}, ")?.as_str())?;
    Ok(text)
}

/// The rows and the tags, or the refusal.
fn words(alloc: Global, answer: &Result<Applied, ApplyFault>) -> Result<String, Fail> {
    let mut text = String::new(alloc);
    match answer {
        Err(fault) => {
            let fault = *fault;
            text.push_str(format!(in alloc; "{fault:?}")?.as_str())?;
        }
        Ok(applied) => {
            for row in applied.rows.as_slice() {
                text.push_str(row_words(alloc, row)?.as_str())?;
            }
            for tag in &applied.tags {
                let n = tag.n;
                text.push_str(format!(in alloc; "{n} ")?.as_str())?;
            }
        }
    }
    Ok(text)
}

/// The words of a refusal.
fn refused(alloc: Global, index: u32, cause: Cause) -> Result<String, Fail> {
    Ok(format!(in alloc; "Refused {{ refusal: Refusal {{ index: {index}, cause: {cause:?} }} }}")?)
}

#[test]
fn refuses_batches(rt: HostRuntime) -> Result<(), Fail> {
    let alloc = rt.alloc();
    for (filled, first, second, index, cause) in [
        (
            false,
            Ask::Insert("a", 1),
            Some(Ask::Delete("b", 0)),
            1,
            Cause::NotFound,
        ),
        (true, Ask::Insert("m", 9), None, 0, Cause::Exists),
        (
            true,
            Ask::Replace("m", 9, 1),
            Some(Ask::Replace("r", 8, 1)),
            1,
            Cause::ConditionFailed,
        ),
        (
            true,
            Ask::Delete("z", 0),
            Some(Ask::Insert("m", 1)),
            0,
            Cause::NotFound,
        ),
        (true, Ask::Merge("z", 1, 0), None, 0, Cause::NotFound),
        (
            true,
            Ask::InsertOrReplace("z", 1),
            Some(Ask::Merge("m", 1, 2)),
            1,
            Cause::ConditionFailed,
        ),
    ] {
        let rows = start(alloc, filled)?;
        let got = words(alloc, &run(alloc, rows, first, second, [tag(8), tag(9)])?)?;
        let want = refused(alloc, index, cause)?;
        assert!(rt; got == want, "{got} for {want}");
    }
    Ok(())
}

#[test]
fn applies_batches(rt: HostRuntime) -> Result<(), Fail> {
    let alloc = rt.alloc();
    for (filled, first, second, want) in [
        (
            true,
            Ask::Replace("m", 9, 1),
            Some(Ask::Delete("r", 2)),
            "m A=9@8, 8 2 ",
        ),
        (
            true,
            Ask::Merge("m", 5, 0),
            Some(Ask::InsertOrMerge("x", 6)),
            "m A=1 B=5@8, r A=2@2, x B=6@9, 8 9 ",
        ),
        (
            true,
            Ask::InsertOrReplace("r", 2),
            Some(Ask::InsertOrMerge("m", 3)),
            "m A=1 B=3@9, r A=2@8, 8 9 ",
        ),
        (
            false,
            Ask::InsertOrReplace("b", 2),
            Some(Ask::Insert("a", 1)),
            "a A=1@9, b A=2@8, 8 9 ",
        ),
        (true, Ask::Delete("m", 1), None, "r A=2@2, 1 "),
    ] {
        let rows = start(alloc, filled)?;
        let got = words(alloc, &run(alloc, rows, first, second, [tag(8), tag(9)])?)?;
        assert!(rt; got.as_str() == want, "{got} for {want}");
    }
    Ok(())
}

/// As many texts of so many bytes, from property `p` and that number on.
fn texts(alloc: Global, from: usize, count: usize, bytes: usize) -> Result<Props, Fail> {
    let mut list = Vec::new(alloc);
    for n in 0..count {
        let number = from.saturating_add(n);
        let name = format!(in alloc; "p{number}")?;
        let mut text = String::new(alloc);
        for _ in 0..bytes {
            text.push_str("x")?;
        }
        list.push(Prop {
            name: Name::read(alloc, name.as_str())?,
            value: Value::Str(Text::from_string(text)),
        })?;
    }
    Ok(Props::build(alloc, list)?)
}

#[test]
fn merges_within_limits(rt: HostRuntime) -> Result<(), Fail> {
    let alloc = rt.alloc();
    for (own, bytes, from, count, want) in [
        (252, 1, 251, 1, None),
        (252, 1, 251, 2, Some(Cause::TooManyProperties)),
        (14, 65_536, 14, 1, None),
        (14, 65_536, 14, 2, Some(Cause::EntityTooLarge)),
    ] {
        let row = Stored {
            props: texts(alloc, 0, own, bytes)?,
            tag: tag(1),
        };
        let op = Op::Merge {
            key: Key::read(alloc, "p", "r")?,
            props: texts(alloc, from, count, bytes)?,
            cond: Cond::Is(tag(1)),
        };
        let got = match effect(alloc, &op, Some(&row), tag(2)) {
            Err(EffectFault::Refused { cause }) => Some(cause),
            _ => None,
        };
        assert!(rt; got == want, "{own} and {count} of {bytes}");
    }
    Ok(())
}
