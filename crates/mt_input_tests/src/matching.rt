use mt_filter::{Compare, Field, Filter};
use mt_match::{Bounds, atomic_partition, key_bounds, matches};
use mt_model::{Blob, Entity, Hidden, Key, Name, Prop, Props, Tag, Text, Value};
use std::alloc::Global;
use std::cmp::Ordering;
use std::test::Fail;

/// A value of a table.
#[derive(Clone, Copy)]
enum Sample {
    Str(&'static str),
    Binary(&'static str),
    Bool(bool),
    Int32(i32),
    Int64(i64),
    Guid([u8; 16]),
    /// A guid with that first and last byte, and 7 between.
    Ends(u8, u8),
    Moment(i64),
}

fn value(alloc: Global, sample: Sample) -> Result<Value, Fail> {
    Ok(match sample {
        Sample::Str(text) => Value::Str(Text::of(alloc, text)?),
        Sample::Binary(text) => Value::Binary(Blob::of(alloc, text.as_bytes())?),
        Sample::Bool(b) => Value::Bool(b),
        Sample::Int32(n) => Value::Int32(n),
        Sample::Int64(n) => Value::Int64(n),
        Sample::Guid(bytes) => Value::Guid(bytes),
        Sample::Ends(first, last) => Value::Guid([
            first, 7, 7, 7, 7, 7, 7, 7, 7, 7, 7, 7, 7, 7, 7, last,
        ]),
        Sample::Moment(ticks) => Value::Moment(ticks),
    })
}

/// A row of the key (p, r) with the property A, if it is given.
fn row(alloc: Global, sample: Option<Sample>) -> Result<Entity, Fail> {
    let mut list = Vec::new(alloc);
    if let Some(sample) = sample {
        list.push(Prop {
            name: Name::read(alloc, "A")?,
            value: value(alloc, sample)?,
        })?;
    }
    Ok(Entity {
        key: Key::read(alloc, "p", "r")?,
        props: Props::build(alloc, list)?,
        tag: Tag { store: 0, n: 1 },
    })
}

/// A part of the key, or a property.
fn field(alloc: Global, name: &str) -> Result<Field, Fail> {
    match name {
        "PartitionKey" => Ok(Field::PartitionKey),
        "RowKey" => Ok(Field::RowKey),
        _ => Ok(Field::Property(Name::read(alloc, name)?)),
    }
}

fn test(alloc: Global, name: &str, compare: Compare, literal: Sample) -> Result<Filter, Fail> {
    Ok(Filter::Test {
        field: field(alloc, name)?,
        compare,
        literal: value(alloc, literal)?,
    })
}

fn not(alloc: Global, inner: Filter) -> Result<Filter, Fail> {
    Ok(Filter::Not(Box::new(alloc, inner)?))
}

fn and(alloc: Global, left: Filter, right: Filter) -> Result<Filter, Fail> {
    Ok(Filter::And(Box::new(alloc, left)?, Box::new(alloc, right)?))
}

fn or(alloc: Global, left: Filter, right: Filter) -> Result<Filter, Fail> {
    Ok(Filter::Or(Box::new(alloc, left)?, Box::new(alloc, right)?))
}

const COMPARES: [Compare; 6] = [
    Compare::Eq,
    Compare::Ne,
    Compare::Gt,
    Compare::Ge,
    Compare::Lt,
    Compare::Le,
];

/// What eq, ne, gt, ge, lt and le are of values in that order, or of two types.
fn answers(order: Option<Ordering>) -> [bool; 6] {
    match order {
        Some(Ordering::Equal) => [true, false, false, true, false, true],
        Some(Ordering::Greater) => [false, true, true, true, false, false],
        Some(Ordering::Less) => [false, true, false, false, true, true],
        None => [false, false, false, false, false, false],
    }
}

/// Whether each comparison of a stored value and a literal answers as it is to in that order.
fn answers_by(
    alloc: Global,
    stored: Sample,
    literal: Sample,
    order: Option<Ordering>,
) -> Result<bool, Fail> {
    let entity = row(alloc, Some(stored))?;
    let mut is_right = true;
    for (compare, answer) in COMPARES.into_iter().zip(answers(order)) {
        let filter = test(alloc, "A", compare, literal)?;
        is_right &= matches(&filter, &entity) == answer;
    }
    Ok(is_right)
}

/// A stored value, a literal, and how they are ordered.
const ONE_TYPE: [(Sample, Sample, Ordering); 28] = [
    (Sample::Str("a"), Sample::Str("ab"), Ordering::Less),
    (Sample::Str("a"), Sample::Str("a"), Ordering::Equal),
    (Sample::Str("a"), Sample::Str("B"), Ordering::Greater),
    (
        Sample::Str("\u{10000}"),
        Sample::Str("\u{ffff}"),
        Ordering::Greater,
    ),
    (Sample::Binary(""), Sample::Binary("\0"), Ordering::Less),
    (Sample::Binary("ab"), Sample::Binary("ab"), Ordering::Equal),
    (Sample::Binary("b"), Sample::Binary("ab"), Ordering::Greater),
    (Sample::Bool(false), Sample::Bool(true), Ordering::Less),
    (Sample::Bool(false), Sample::Bool(false), Ordering::Equal),
    (Sample::Bool(true), Sample::Bool(false), Ordering::Greater),
    (Sample::Int32(-2), Sample::Int32(1), Ordering::Less),
    (Sample::Int32(9), Sample::Int32(9), Ordering::Equal),
    (Sample::Int32(10), Sample::Int32(9), Ordering::Greater),
    (
        Sample::Int32(1),
        Sample::Int64(4_294_967_297),
        Ordering::Less,
    ),
    (Sample::Int32(1), Sample::Int64(1), Ordering::Equal),
    (
        Sample::Int32(-1),
        Sample::Int64(i64::MIN),
        Ordering::Greater,
    ),
    (
        Sample::Int64(i64::MIN),
        Sample::Int32(i32::MIN),
        Ordering::Less,
    ),
    (Sample::Int64(1), Sample::Int32(1), Ordering::Equal),
    (
        Sample::Int64(4_294_967_297),
        Sample::Int32(1),
        Ordering::Greater,
    ),
    (Sample::Int64(-1), Sample::Int64(0), Ordering::Less),
    (
        Sample::Int64(i64::MAX),
        Sample::Int64(i64::MAX),
        Ordering::Equal,
    ),
    (Sample::Int64(10), Sample::Int64(9), Ordering::Greater),
    (Sample::Ends(1, 9), Sample::Ends(2, 1), Ordering::Less),
    (Sample::Ends(1, 9), Sample::Ends(1, 9), Ordering::Equal),
    (Sample::Ends(1, 10), Sample::Ends(1, 9), Ordering::Greater),
    (Sample::Moment(0), Sample::Moment(1), Ordering::Less),
    (Sample::Moment(5), Sample::Moment(5), Ordering::Equal),
    (Sample::Moment(10), Sample::Moment(9), Ordering::Greater),
];

#[test]
fn compares_values_of_one_type(rt: HostRuntime) -> Result<(), Fail> {
    for (stored, literal, order) in ONE_TYPE {
        assert!(rt; answers_by(rt.alloc(), stored, literal, Some(order))?);
    }
    Ok(())
}

/// A stored value and a literal of another type.
const TWO_TYPES: [(Sample, Sample); 10] = [
    (Sample::Int32(1), Sample::Str("x")),
    (Sample::Str("1"), Sample::Int32(1)),
    (Sample::Str("a"), Sample::Binary("a")),
    (Sample::Binary("a"), Sample::Str("a")),
    (Sample::Bool(true), Sample::Int32(1)),
    (Sample::Int64(1), Sample::Bool(true)),
    (Sample::Int64(5), Sample::Moment(5)),
    (Sample::Moment(5), Sample::Int64(5)),
    (Sample::Binary("7777777777777777"), Sample::Guid([55; 16])),
    (Sample::Guid([55; 16]), Sample::Binary("7777777777777777")),
];

#[test]
fn fails_on_two_types(rt: HostRuntime) -> Result<(), Fail> {
    for (stored, literal) in TWO_TYPES {
        assert!(rt; answers_by(rt.alloc(), stored, literal, None)?);
    }
    Ok(())
}

#[test]
fn fails_on_what_clients_do_not_see(rt: HostRuntime) -> Result<(), Fail> {
    let alloc = rt.alloc();
    let mut entity = row(alloc, None)?;
    entity.props.add_hidden(alloc, Hidden::Kind, "live")?;
    for compare in COMPARES {
        let absent = test(alloc, "A", compare, Sample::Str("live"))?;
        assert!(rt; !matches(&absent, &entity));
    }
    for prop in entity.props.as_slice() {
        let filter = Filter::Test {
            field: Field::Property(prop.name.copy(alloc)?),
            compare: Compare::Eq,
            literal: prop.value.copy(alloc)?,
        };
        assert!(rt; !matches(&filter, &entity));
    }
    Ok(())
}

/// How two tests are joined.
#[derive(Clone, Copy)]
enum Joint {
    Both,
    Either,
    Neither,
}

/// The tests whether A is the one number and the other, joined.
fn joined(alloc: Global, joint: Joint, a: i64, b: i64) -> Result<Filter, Fail> {
    let left = test(alloc, "A", Compare::Eq, Sample::Int64(a))?;
    let right = test(alloc, "A", Compare::Eq, Sample::Int64(b))?;
    match joint {
        Joint::Both => and(alloc, left, right),
        Joint::Either => or(alloc, left, right),
        Joint::Neither => not(alloc, or(alloc, left, right)?),
    }
}

/// What the joined tests answer of A = 1 where they are of 1 and 1, 1 and 2, 2 and 1, and 2 and 2.
const JOINED: [(Joint, [bool; 4]); 3] = [
    (Joint::Both, [true, false, false, false]),
    (Joint::Either, [true, true, true, false]),
    (Joint::Neither, [false, false, false, true]),
];

#[test]
fn joins_tests(rt: HostRuntime) -> Result<(), Fail> {
    let alloc = rt.alloc();
    let entity = row(alloc, Some(Sample::Int32(1)))?;
    for (joint, answers) in JOINED {
        for ((a, b), answer) in [(1, 1), (1, 2), (2, 1), (2, 2)].into_iter().zip(answers) {
            let filter = joined(alloc, joint, a, b)?;
            assert!(rt; matches(&filter, &entity) == answer, "{a} and {b}");
        }
    }
    Ok(())
}

#[test]
fn negates_tests_of_absent_properties(rt: HostRuntime) -> Result<(), Fail> {
    let alloc = rt.alloc();
    let left = test(alloc, "A", Compare::Eq, Sample::Int32(1))?;
    let right = test(alloc, "B", Compare::Ne, Sample::Int64(2))?;
    let filter = not(alloc, or(alloc, left, right)?)?;
    let empty = row(alloc, None)?;
    assert!(rt; matches(&filter, &empty));
    Ok(())
}

/// Tests of the key (p, r), and their answers.
const KEYS: [(&str, Compare, Sample, bool); 6] = [
    ("PartitionKey", Compare::Eq, Sample::Str("p"), true),
    ("PartitionKey", Compare::Lt, Sample::Str("p"), false),
    ("PartitionKey", Compare::Gt, Sample::Str("Q"), true),
    ("RowKey", Compare::Ge, Sample::Str("p"), true),
    ("RowKey", Compare::Ne, Sample::Str("r"), false),
    ("RowKey", Compare::Ne, Sample::Int32(5), false),
];

#[test]
fn compares_keys(rt: HostRuntime) -> Result<(), Fail> {
    let alloc = rt.alloc();
    let entity = row(alloc, None)?;
    for (name, compare, literal, answer) in KEYS {
        let filter = test(alloc, name, compare, literal)?;
        assert!(rt; matches(&filter, &entity) == answer, "{name} {compare:?}");
    }
    Ok(())
}

/// How a test stands in a conjunct.
#[derive(Clone, Copy)]
enum Part {
    Test(&'static str, Compare, Sample),
    /// On the partition key.
    Partition(Compare, &'static str),
    /// On the row key.
    Row(Compare, &'static str),
    Negated(&'static str, Compare, Sample),
    Either(&'static str, Compare, Sample),
}

fn conjunct(alloc: Global, part: Part) -> Result<Filter, Fail> {
    match part {
        Part::Test(name, compare, literal) => test(alloc, name, compare, literal),
        Part::Partition(compare, text) => test(alloc, "PartitionKey", compare, Sample::Str(text)),
        Part::Row(compare, text) => test(alloc, "RowKey", compare, Sample::Str(text)),
        Part::Negated(name, compare, literal) => {
            let inner = test(alloc, name, compare, literal)?;
            not(alloc, inner)
        }
        Part::Either(name, compare, literal) => {
            let left = test(alloc, name, compare, literal)?;
            let right = test(alloc, name, compare, literal)?;
            or(alloc, left, right)
        }
    }
}

/// A test that bounds no key.
const OTHER: Part = Part::Test("A", Compare::Eq, Sample::Int32(1));

/// The two parts and a third, joined by `and` from the left or from the right.
fn conjunction(alloc: Global, parts: [Part; 2], is_left: bool) -> Result<Filter, Fail> {
    let [first, second] = parts;
    let first = conjunct(alloc, first)?;
    let second = conjunct(alloc, second)?;
    let third = conjunct(alloc, OTHER)?;
    if is_left {
        and(alloc, and(alloc, first, second)?, third)
    } else {
        and(alloc, first, and(alloc, second, third)?)
    }
}

/// Bounds of texts.
type Expected = (
    &'static str,
    Option<&'static str>,
    &'static str,
    Option<&'static str>,
);

fn is_text(text: &Option<Text>, expected: Option<&str>) -> bool {
    match (text, expected) {
        (None, None) => true,
        (Some(text), Some(expected)) => text.as_str() == expected,
        _ => false,
    }
}

fn are_bounds(bounds: &Bounds, expected: Expected) -> bool {
    let (pk_low, pk_high, rk_low, rk_high) = expected;
    bounds.pk_low.as_str() == pk_low
        && is_text(&bounds.pk_high, pk_high)
        && bounds.rk_low.as_str() == rk_low
        && is_text(&bounds.rk_high, rk_high)
}

/// No bounds.
const FREE: Expected = ("", None, "", None);

/// Two conjuncts, and the bounds of the keys that they leave.
const BOUNDS: [([Part; 2], Expected); 11] = [
    (
        [
            Part::Partition(Compare::Eq, "p"),
            Part::Row(Compare::Ge, "b"),
        ],
        ("p", Some("p"), "b", None),
    ),
    ([OTHER, OTHER], FREE),
    (
        [
            Part::Partition(Compare::Gt, "a"),
            Part::Partition(Compare::Ge, "b"),
        ],
        ("b", None, "", None),
    ),
    (
        [
            Part::Partition(Compare::Gt, "b"),
            Part::Partition(Compare::Ge, "a"),
        ],
        ("b", None, "", None),
    ),
    (
        [Part::Row(Compare::Lt, "x"), Part::Row(Compare::Le, "y")],
        ("", None, "", Some("x")),
    ),
    (
        [Part::Row(Compare::Le, "y"), Part::Row(Compare::Lt, "x")],
        ("", None, "", Some("x")),
    ),
    (
        [
            Part::Partition(Compare::Gt, "b"),
            Part::Partition(Compare::Lt, "a"),
        ],
        ("b", Some("a"), "", None),
    ),
    (
        [
            Part::Partition(Compare::Eq, "p"),
            Part::Partition(Compare::Eq, "q"),
        ],
        ("q", Some("p"), "", None),
    ),
    (
        [
            Part::Partition(Compare::Ne, "p"),
            Part::Row(Compare::Ne, "r"),
        ],
        FREE,
    ),
    (
        [
            Part::Test("PartitionKey", Compare::Ge, Sample::Int32(5)),
            Part::Test("RowKey", Compare::Eq, Sample::Bool(true)),
        ],
        FREE,
    ),
    (
        [
            Part::Negated("PartitionKey", Compare::Eq, Sample::Str("p")),
            Part::Either("RowKey", Compare::Le, Sample::Str("r")),
        ],
        FREE,
    ),
];

#[test]
fn bounds_keys(rt: HostRuntime) -> Result<(), Fail> {
    let alloc = rt.alloc();
    for (parts, expected) in BOUNDS {
        for is_left in [true, false] {
            let filter = conjunction(alloc, parts, is_left)?;
            assert!(rt; are_bounds(&key_bounds(alloc, &filter)?, expected));
        }
    }
    Ok(())
}

/// Two conjuncts, and the partition that they name.
const PARTITIONS: [([Part; 2], Option<&str>); 6] = [
    (
        [
            Part::Partition(Compare::Eq, "p"),
            Part::Row(Compare::Ge, "b"),
        ],
        Some("p"),
    ),
    (
        [
            Part::Partition(Compare::Eq, "p"),
            Part::Partition(Compare::Eq, "q"),
        ],
        Some("p"),
    ),
    ([OTHER, Part::Partition(Compare::Eq, "q")], Some("q")),
    (
        [
            Part::Partition(Compare::Ge, "p"),
            Part::Row(Compare::Eq, "r"),
        ],
        None,
    ),
    (
        [
            Part::Test("PartitionKey", Compare::Eq, Sample::Int32(5)),
            Part::Either("PartitionKey", Compare::Eq, Sample::Str("p")),
        ],
        None,
    ),
    (
        [
            Part::Negated("PartitionKey", Compare::Eq, Sample::Str("p")),
            Part::Partition(Compare::Eq, "q"),
        ],
        Some("q"),
    ),
];

#[test]
fn names_the_first_partition(rt: HostRuntime) -> Result<(), Fail> {
    let alloc = rt.alloc();
    for (parts, expected) in PARTITIONS {
        for is_left in [true, false] {
            let filter = conjunction(alloc, parts, is_left)?;
            let found = atomic_partition(&filter).map(|text| text.as_str());
            assert!(rt; found == expected);
        }
    }
    Ok(())
}
