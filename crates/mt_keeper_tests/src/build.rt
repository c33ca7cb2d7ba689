//! Keys, properties, puts and queries, made of numbers.
ghost use Rattle.std.specs.Prelude.{◌≤◌, IfOk};
ghost use Rattle.mt_chain.specs.Puts.{CanApply};
ghost use Rattle.mt_chain.specs.StoreCall.{CanQuery};

use mt_chain::{Put, Puts, Range, RangeQuery, RkFrom};
use mt_model::{Name, Prop, Props, Tag, Text, Texts, Value};
use std::alloc::Global;
use std::test::Fail;

/// The partition key of a character.
pub fn partition(alloc: Global, key: char) -> Result<Text, Fail> {
    let mut text = String::new(alloc);
    text.push(key)?;
    Ok(Text::from_string(text))
}

/// The row key of a number below 9,000, in the order of numbers.
pub fn numbered(alloc: Global, n: u64) -> Result<Text, Fail> {
    let n = n.saturating_add(1000);
    Ok(Text::from_string(format!(in alloc; "{n}")?))
}

/// One number as a property.
pub fn props(alloc: Global, n: i32) -> Result<Props, Fail> {
    let mut list = Vec::new(alloc);
    list.push(Prop {
        name: Name::read(alloc, "n")?,
        value: Value::Int32(n),
    })?;
    Ok(Props::build(alloc, list)?)
}

/// The insert of the row of a number.
pub fn insert(alloc: Global, row: u64) -> Result<Put, Fail> {
    Ok(Put::Insert {
        rk: numbered(alloc, row)?,
        props: props(alloc, 1)?,
    })
}

/// The delete of the row of a number, which has this tag.
pub fn delete(alloc: Global, row: u64, tag: Tag) -> Result<Put, Fail> {
    Ok(Put::Delete {
        rk: numbered(alloc, row)?,
        tag,
    })
}

/// The write over the row of a number, which has this tag.
pub fn replace(alloc: Global, row: u64, tag: Tag) -> Result<Put, Fail> {
    Ok(Put::Replace {
        rk: numbered(alloc, row)?,
        props: props(alloc, 2)?,
        tag,
    })
}

/// The one put of a call.
pub fn one(alloc: Global, put: Put) -> Result<Puts, Fail>
    ensures { IfOk result CanApply }
{
    let mut puts = Vec::new(alloc);
    puts.push(put)?;
    Ok(Puts::of(puts))
}

/// Asks for one row, and for the first rows behind the one bound up to the other.
pub fn query(
    alloc: Global,
    pk: char,
    row: u64,
    bounds: (u64, u64),
    limit: u32,
) -> Result<RangeQuery, Fail>
    requires { 1 ≤ limit }
    ensures { IfOk result CanQuery }
{
    let (after, upto) = bounds;
    let mut names = Vec::new(alloc);
    names.push(numbered(alloc, row)?)?;
    Ok(RangeQuery {
        pk: partition(alloc, pk)?,
        named: Texts::of(names),
        range: Some(Range {
            from: RkFrom::After(numbered(alloc, after)?),
            upto: Some(numbered(alloc, upto)?),
            limit: Some(limit),
        }),
    })
}
