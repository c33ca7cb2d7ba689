ghost use Rattle.std.specs.Prelude.{All, IfOk};
ghost use Rattle.mt_rules.specs.Batches.{MayAsk};

use mt_chain::{Cond, Op};
use mt_model::{Key, Name, Prop, Props, Text, Value};
use mt_rules::{BatchFault, check_batch};
use std::alloc::Global;
use std::test::Fail;

/// As many deletes, on the rows `0`, `1` and so on of a partition.
fn deletes(alloc: Global, count: usize) -> Result<Vec<Op>, Fail>
    ensures { IfOk result (λ v. All MayAsk v.items) }
{
    let mut ops = Vec::new(alloc);
    for n in 0..count {
        let rk = format!(in alloc; "{n}")?;
        ops.push(delete(alloc, "p", rk.as_str())?)?;
    }
    Ok(ops)
}

fn delete(alloc: Global, pk: &str, rk: &str) -> Result<Op, Fail>
    ensures { IfOk result MayAsk }
{
    let key = Key::read(alloc, pk, rk)?;
    Ok(Op::Delete {
        key,
        cond: Cond::Any,
    })
}

/// As many texts of 65,536 bytes, and one of so many.
fn texts(alloc: Global, count: usize, last: usize) -> Result<Props, Fail> {
    let mut list = Vec::new(alloc);
    for n in 0..count {
        list.push(text(alloc, n, 65_536)?)?;
    }
    list.push(text(alloc, count, last)?)?;
    Ok(Props::build(alloc, list)?)
}

/// A property `p` and a number, with a text of so many bytes.
fn text(alloc: Global, number: usize, bytes: usize) -> Result<Prop, Fail> {
    let name = format!(in alloc; "p{number}")?;
    let mut text = String::new(alloc);
    for _ in 0..bytes {
        text.push_str("x")?;
    }
    Ok(Prop {
        name: Name::read(alloc, name.as_str())?,
        value: Value::Str(Text::from_string(text)),
    })
}

/// The insert of those of the properties that clients see.
fn insert(alloc: Global, rk: &str, props: &Props) -> Result<Op, Fail>
    ensures { IfOk result MayAsk }
{
    let key = Key::read(alloc, "p", rk)?;
    let props = props.visible(alloc)?;
    Ok(Op::Insert { key, props })
}

/// As many inserts of 15 texts of 65,536 bytes and one of so many.
fn inserts(alloc: Global, count: usize, last: usize) -> Result<Vec<Op>, Fail>
    ensures { IfOk result (λ v. All MayAsk v.items) }
{
    let props = texts(alloc, 15, last)?;
    let mut ops = Vec::new(alloc);
    for n in 0..count {
        let rk = format!(in alloc; "{n}")?;
        ops.push(insert(alloc, rk.as_str(), &props)?)?;
    }
    Ok(ops)
}

/// Why the operations are no batch.
fn fault(alloc: Global, ops: Vec<Op>) -> Option<BatchFault>
    requires { All MayAsk ops.items }
{
    match check_batch(alloc, ops) {
        Ok(_) => None,
        Err(fault) => Some(fault),
    }
}

#[test]
fn counts_operations(rt: HostRuntime) -> Result<(), Fail> {
    let alloc = rt.alloc();
    for (count, want) in [
        (0, Some(BatchFault::Empty)),
        (1, None),
        (100, None),
        (101, Some(BatchFault::TooMany)),
    ] {
        let ops = deletes(alloc, count)?;
        assert!(rt; fault(alloc, ops) == want, "{count}");
    }
    Ok(())
}

#[test]
fn adds_up_sizes(rt: HostRuntime) -> Result<(), Fail> {
    let alloc = rt.alloc();
    for (count, last, want) in [
        (4, 65_496, None),
        (4, 65_497, Some(BatchFault::TooLarge)),
        (4, 16_920, None),
        (5, 16_920, Some(BatchFault::TooLarge)),
    ] {
        let ops = inserts(alloc, count, last)?;
        assert!(rt; fault(alloc, ops) == want, "{count} with {last}");
    }
    Ok(())
}

/// Deletes of the rows of these keys.
fn deletes_at(alloc: Global, keys: [(&'static str, &'static str); 3]) -> Result<Vec<Op>, Fail>
    ensures { IfOk result (λ v. All MayAsk v.items) }
{
    let mut ops = Vec::new(alloc);
    for (pk, rk) in keys {
        ops.push(delete(alloc, pk, rk)?)?;
    }
    Ok(ops)
}

#[test]
fn looks_at_places(rt: HostRuntime) -> Result<(), Fail> {
    let alloc = rt.alloc();
    for (keys, want) in [
        ([("p", "a"), ("p", "b"), ("p", "c")], None),
        (
            [("p", "a"), ("p", "b"), ("q", "a")],
            Some(BatchFault::OtherPartition { index: 2 }),
        ),
        (
            [("p", "a"), ("p", "a"), ("q", "b")],
            Some(BatchFault::Twice { index: 1 }),
        ),
        (
            [("p", "a"), ("q", "a"), ("p", "a")],
            Some(BatchFault::OtherPartition { index: 1 }),
        ),
        (
            [("p", "a"), ("p", "b"), ("p", "a")],
            Some(BatchFault::Twice { index: 2 }),
        ),
    ] {
        let ops = deletes_at(alloc, keys)?;
        assert!(rt; fault(alloc, ops) == want, "{keys:?}");
    }
    Ok(())
}
