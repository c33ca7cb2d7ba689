use mt_filter::{Compare, Field, Filter, FilterFault, read_filter};
use mt_model::{Name, Value};
use std::alloc::Global;
use std::test::Fail;

fn field_word(field: &Field) -> &str {
    match field {
        Field::PartitionKey => "PartitionKey",
        Field::RowKey => "RowKey",
        Field::Property(name) => name.as_str(),
    }
}

fn compare_word(compare: Compare) -> &'static str {
    match compare {
        Compare::Eq => " eq ",
        Compare::Ne => " ne ",
        Compare::Gt => " gt ",
        Compare::Ge => " ge ",
        Compare::Lt => " lt ",
        Compare::Le => " le ",
    }
}

fn literal_text(alloc: Global, literal: &Value) -> Result<String, Fail> {
    match literal {
        Value::Str(text) => Ok(format!(in alloc; "'{}'", text.as_str())?),
        Value::Binary(bytes) => Ok(format!(in alloc; "X{:?}", bytes.as_slice())?),
        Value::Bool(b) => Ok(format!(in alloc; "{b}")?),
        Value::Int32(n) => Ok(format!(in alloc; "{n}")?),
        Value::Int64(n) => Ok(format!(in alloc; "{n}L")?),
        Value::Guid(bytes) => Ok(format!(in alloc; "guid{bytes:?}")?),
        Value::Moment(ticks) => Ok(format!(in alloc; "datetime {ticks}")?),
    }
}

fn test_text(
    alloc: Global,
    field: &Field,
    compare: Compare,
    literal: &Value,
) -> Result<String, Fail> {
    let field = field_word(field);
    let compare = compare_word(compare);
    let literal = literal_text(alloc, literal)?;
    Ok(format!(in alloc; "{field}{compare}{literal}")?)
}

fn joint_word(filter: &Filter) -> &'static str {
    match filter {
        Filter::And(_, _) => "and(",
        _ => "or(",
    }
}

/// Writes the filter as a text in which each `not`, `and` and `or` stands before what it joins.
fn show(alloc: Global, filter: &Filter, out: &mut String) -> Result<(), Fail> {
    match filter {
        Filter::Test {
            field,
            compare,
            literal,
        } => {
            let text = test_text(alloc, field, *compare, literal)?;
            out.push_str(text.as_str())?;
            return Ok(());
        }
        Filter::Not(inner) => {
            out.push_str("not(")?;
            show(alloc, inner, out)?;
        }
        Filter::And(left, right) | Filter::Or(left, right) => {
            out.push_str(joint_word(filter))?;
            show(alloc, left, out)?;
            out.push_str(", ")?;
            show(alloc, right, out)?;
        }
    }
    out.push_str(")")?;
    Ok(())
}

fn outcome(alloc: Global, text: &str) -> Result<String, Fail> {
    match read_filter(alloc, text) {
        Ok(filter) => {
            let mut out = String::new(alloc);
            show(alloc, &filter, &mut out)?;
            Ok(out)
        }
        Err(FilterFault::Bad { at, kind }) => Ok(format!(in alloc; "{kind:?} at {at}")?),
        Err(FilterFault::NoMemory) => Ok(format!(in alloc; "NoMemory")?),
    }
}

/// The pieces, each so many times.
fn joined(alloc: Global, pieces: [(&str, usize); 5]) -> Result<String, Fail> {
    let mut text = String::new(alloc);
    for (piece, count) in pieces {
        for _ in 0..count {
            text.push_str(piece)?;
        }
    }
    Ok(text)
}

/// Texts, and the trees that they are read as.
const READ: [(&str, &str); 30] = [
    ("A eq 1", "A eq 1"),
    ("  A   eq   1  ", "A eq 1"),
    ("Name eq 'it''s'", "Name eq 'it's'"),
    ("A eq''", "A eq ''"),
    ("A eq '\u{e4}'''''", "A eq '\u{e4}'''"),
    ("A eq -007or B eq 7L", "or(A eq -7, B eq 7L)"),
    (
        "A eq 1 or B eq 2 and C eq 3",
        "or(A eq 1, and(B eq 2, C eq 3))",
    ),
    (
        "A eq 1 and B eq 2 or C eq 3",
        "or(and(A eq 1, B eq 2), C eq 3)",
    ),
    (
        "A eq 1 or B eq 2 or C eq 3",
        "or(or(A eq 1, B eq 2), C eq 3)",
    ),
    (
        "A eq 1 and B eq 2 and C eq 3",
        "and(and(A eq 1, B eq 2), C eq 3)",
    ),
    ("not A eq 1 and B eq 2", "and(not(A eq 1), B eq 2)"),
    ("not(A eq 1 and B eq 2)", "not(and(A eq 1, B eq 2))"),
    ("not not A eq 1", "not(not(A eq 1))"),
    (
        "(A eq 1 or B eq 2)and(C eq 3)",
        "and(or(A eq 1, B eq 2), C eq 3)",
    ),
    (
        "A eq 1 and ( B eq 2 and C eq 3 ) ",
        "and(A eq 1, and(B eq 2, C eq 3))",
    ),
    ("andy eq 1", "andy eq 1"),
    ("nothing ne true", "nothing ne true"),
    ("orB gt false", "orB gt false"),
    ("eqx ge 1", "eqx ge 1"),
    ("\u{e4}rger1 le '\u{f6}'", "\u{e4}rger1 le '\u{f6}'"),
    (
        "PartitionKey lt 'p' and RowKey ge 'r'",
        "and(PartitionKey lt 'p', RowKey ge 'r')",
    ),
    ("(A eq 2147483647)", "A eq 2147483647"),
    ("_1 eq 2147483648", "_1 eq 2147483648L"),
    ("A eq -2147483648", "A eq -2147483648"),
    ("A eq -9223372036854775808", "A eq -9223372036854775808L"),
    ("A eq datetime'1601-01-01T00:00:00Z'", "A eq datetime 0"),
    (
        "A eq datetime'1970-01-01T00:00:00Z' ",
        "A eq datetime 116444736000000000",
    ),
    (
        "A eq X'0aF1' or B eq binary''",
        "or(A eq X[10, 241], B eq X[])",
    ),
    ("(A eq binary'00')", "A eq X[0]"),
    (
        "A eq guid'00112233-4455-6677-8899-aabbccddEEFF'",
        "A eq guid[0, 17, 34, 51, 68, 85, 102, 119, 136, 153, 170, 187, 204, 221, 238, 255]",
    ),
];

#[test]
fn reads(rt: HostRuntime) -> Result<(), Fail> {
    for (text, want) in READ {
        let got = outcome(rt.alloc(), text)?;
        assert!(rt; got.as_str() == want, "{text}: {got}");
    }
    Ok(())
}

/// Texts that are no filters, and what is told of them.
const REFUSED: [(&str, &str); 55] = [
    ("", "Expected at 0"),
    ("   ", "Expected at 3"),
    ("A", "Expected at 1"),
    ("A ", "Expected at 2"),
    ("A eq", "Expected at 4"),
    ("A eq  ", "Expected at 6"),
    ("A eq 1 and", "Expected at 10"),
    ("A eq 1 or ", "Expected at 10"),
    ("A eq 1 xor B eq 1", "Expected at 7"),
    ("A eq 1 AND B eq 1", "Expected at 7"),
    ("A eq 1 andy", "Expected at 7"),
    ("A eq 1 2", "Expected at 7"),
    ("A eq 1)", "Expected at 6"),
    ("A eq B", "Expected at 5"),
    ("A eq x'00'", "Expected at 5"),
    ("A eq 7Lx", "Expected at 7"),
    ("A eq (1)", "Expected at 5"),
    ("A eq datetime '1601-01-01T00:00:00Z'", "Expected at 5"),
    ("A 1", "Expected at 2"),
    ("A Eq 1", "Expected at 2"),
    ("Timestamp eq 1", "Expected at 0"),
    ("true eq 1", "Expected at 0"),
    ("false eq 1", "Expected at 0"),
    ("le eq 1", "Expected at 0"),
    ("1 eq A", "Expected at 0"),
    ("X'00' eq 1", "Expected at 0"),
    (") A eq 1", "Expected at 0"),
    ("()", "Expected at 1"),
    ("(A eq 1", "Expected at 7"),
    ("(A eq 1 2)", "Expected at 8"),
    ("not", "Expected at 3"),
    ("not and", "Expected at 4"),
    ("not(A eq 1", "Expected at 10"),
    ("A @ 1", "Token at 2"),
    ("A.B eq 1", "Token at 1"),
    ("A\teq 1", "Token at 1"),
    ("A eq 1\u{a0}", "Token at 6"),
    ("\u{e4}\u{e4} @", "Token at 5"),
    ("A eq 1 or @", "Token at 10"),
    ("(A eq 1 @", "Token at 8"),
    ("_a-b eq 1", "Token at 2"),
    ("A eq -", "Token at 5"),
    ("A eq -L", "Token at 5"),
    ("A eq 'open", "Token at 5"),
    ("A eq 'open''", "Token at 5"),
    ("A 'open", "Token at 2"),
    ("A eq X'0aF'", "Token at 5"),
    ("X''''", "Token at 0"),
    ("A eq datetime'1970-02-30T00:00:00Z'", "Token at 5"),
    ("A eq datetime'1970-01-32T00:00:00Z'", "Token at 5"),
    ("A eq guid'00112233445566778899aabbccddeeff'", "Token at 5"),
    ("A eq 1.5", "DoubleLiteral at 5"),
    ("A eq 99999999999999999999e1", "DoubleLiteral at 5"),
    ("A eq 9223372036854775808L", "OutOfRange at 5"),
    ("(A eq -9223372036854775809)", "OutOfRange at 6"),
];

#[test]
fn refuses(rt: HostRuntime) -> Result<(), Fail> {
    for (text, want) in REFUSED {
        let got = outcome(rt.alloc(), text)?;
        assert!(rt; got.as_str() == want, "{text}: {got}");
    }
    Ok(())
}

const NONE: (&str, usize) = ("", 0);

const TEST: (&str, usize) = ("A eq 1", 1);

const MORE: (&str, usize) = (" or A eq 1", 14);

const OPEN: (&str, usize) = ("(", 64);

const CLOSE: (&str, usize) = (")", 64);

#[test]
fn limits(rt: HostRuntime) -> Result<(), Fail> {
    for (pieces, want) in [
        (
            [TEST, (" or A eq 1", 2), NONE, NONE, NONE],
            "or(or(A eq 1, A eq 1), A eq 1)",
        ),
        ([TEST, MORE, (" or", 1), NONE, NONE], "Expected at 149"),
        (
            [TEST, MORE, (" or B eq 2", 1), NONE, NONE],
            "TooManyComparisons at 150",
        ),
        (
            [TEST, MORE, (" or B", 1), NONE, NONE],
            "TooManyComparisons at 150",
        ),
        (
            [TEST, MORE, (" or B @", 1), NONE, NONE],
            "TooManyComparisons at 150",
        ),
        ([TEST, MORE, (" or or", 1), NONE, NONE], "Expected at 150"),
        ([TEST, MORE, (" or true", 1), NONE, NONE], "Expected at 150"),
        (
            [TEST, MORE, (" and not (B", 1), NONE, NONE],
            "TooManyComparisons at 156",
        ),
        ([OPEN, TEST, CLOSE, NONE, NONE], "A eq 1"),
        (
            [OPEN, TEST, (")", 64), (" and ((B eq 2))", 1), NONE],
            "and(A eq 1, B eq 2)",
        ),
        ([("(", 65), TEST, (")", 65), NONE, NONE], "TooDeep at 64"),
        ([("(", 16_384), NONE, NONE, NONE, NONE], "TooDeep at 64"),
        ([("not ", 65), TEST, NONE, NONE, NONE], "TooDeep at 256"),
        (
            [("not (", 32), TEST, (")", 31), NONE, NONE],
            "Expected at 197",
        ),
        (
            [("not (", 32), ("not ", 1), TEST, NONE, NONE],
            "TooDeep at 160",
        ),
        (
            [("n", 256), (" eq 1", 1), NONE, NONE, NONE],
            "Expected at 0",
        ),
    ] {
        let text = joined(rt.alloc(), pieces)?;
        let got = outcome(rt.alloc(), text.as_str())?;
        assert!(rt; got.as_str() == want, "{text}: {got}");
    }
    Ok(())
}

#[test]
fn within_limits(rt: HostRuntime) -> Result<(), Fail> {
    for pieces in [
        [TEST, MORE, NONE, NONE, NONE],
        [("not ", 64), TEST, NONE, NONE, NONE],
        [("not (", 32), TEST, (")", 32), NONE, NONE],
        [OPEN, TEST, CLOSE, (" and ", 1), ("(B eq 2)", 1)],
        [("n", 255), (" eq 1", 1), NONE, NONE, NONE],
    ] {
        let text = joined(rt.alloc(), pieces)?;
        assert!(rt; read_filter(rt.alloc(), text.as_str()).is_ok(), "{text}");
    }
    Ok(())
}

/// A eq true
fn test(alloc: Global) -> Result<Filter, Fail> {
    Ok(Filter::Test {
        field: Field::Property(Name::read(alloc, "A")?),
        compare: Compare::Eq,
        literal: Value::Bool(true),
    })
}

fn joins_a_negation(filter: &Filter) -> bool {
    match filter {
        Filter::And(left, _) => matches!(&**left, Filter::Not(_)),
        _ => false,
    }
}

#[test]
fn copies(rt: HostRuntime) -> Result<(), Fail> {
    let alloc = rt.alloc();
    let left = Filter::Not(Box::new(alloc, test(alloc)?)?);
    let filter = Filter::And(Box::new(alloc, left)?, Box::new(alloc, test(alloc)?)?);
    let copied = filter.copy(alloc)?;
    assert!(rt; joins_a_negation(&copied));
    Ok(())
}
