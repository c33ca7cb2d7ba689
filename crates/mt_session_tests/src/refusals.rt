//! Inserts that are refused before anything is tried, and the limits of those that are not.
use crate::http::{CREATED, INSERT, error_of, insert_with};
use crate::runs::{PLAIN, Plan, ran};
use std::alloc::Global;
use std::test::Fail;

/// Whether an insert with this body is refused with this code and sentence, without a store call, and
/// the next request is answered.
fn is_refused(alloc: Global, body: &str, code: &str, sentence: &str) -> Result<bool, Fail> {
    let request = insert_with(alloc, body)?;
    let input = format!(in alloc; "{request}{INSERT}")?;
    let refusal = error_of(alloc, "400 Bad Request", code, sentence)?;
    let want = format!(in alloc; "{refusal}{CREATED}")?;
    let plan = Plan {
        failing_old: 4,
        ..PLAIN
    };
    let (status, got) = ran(alloc, plan, input.as_str())?;
    Ok(status == 0 && got.as_str() == want.as_str())
}

const JSON: &str = "The body is not a JSON object.";

const REFUSED: [(&str, &str, &str); 14] = [
    ("", "InvalidJson", JSON),
    ("{", "InvalidJson", JSON),
    ("[1]", "InvalidJson", JSON),
    (
        "{\"PartitionKey\":\"p\",\"RowKey\":\"r\",}",
        "InvalidJson",
        JSON,
    ),
    (
        "{\"PartitionKey\":\"p\"}",
        "MissingKey",
        "A key is missing.",
    ),
    (
        "{\"PartitionKey\":null,\"RowKey\":\"r\"}",
        "MissingKey",
        "A key is missing.",
    ),
    (
        "{\"PartitionKey\":\"p\",\"RowKey\":\"r\",\"D\":1.5}",
        "Double",
        "Edm.Double is not supported.",
    ),
    (
        "{\"PartitionKey\":\"p\",\"RowKey\":\"r\",\"9a\":\"\"}",
        "BadName",
        "A property name is not valid.",
    ),
    (
        "{\"N\":2147483648,\"PartitionKey\":\"p\",\"RowKey\":\"r\"}",
        "BadType",
        "A property value is not valid.",
    ),
    (
        "{\"PartitionKey\":1,\"RowKey\":\"r\"}",
        "BadType",
        "A property value is not valid.",
    ),
    (
        "{\"PartitionKey\":\"a/b\",\"RowKey\":\"r\"}",
        "KeyCharacter",
        "A key has a forbidden character.",
    ),
    (
        "{\"PartitionKey\":\"p\",\"RowKey\":\"a\\u0001\"}",
        "KeyCharacter",
        "A key has a forbidden character.",
    ),
    (
        "{\"PartitionKey\":\"a/b\",\"RowKey\":\"r\",\"D\":1.5}",
        "Double",
        "Edm.Double is not supported.",
    ),
    (
        "{\"PartitionKey\":\"a/b\"}",
        "MissingKey",
        "A key is missing.",
    ),
];

#[test]
fn refusals(rt: HostRuntime) -> Result<(), Fail> {
    let alloc = rt.alloc();
    for (body, code, sentence) in REFUSED {
        assert!(rt; is_refused(alloc, body, code, sentence)?);
    }
    Ok(())
}

/// A body with keys and properties of so many bytes.
fn body_of(alloc: Global, key: usize, props: usize, text: usize) -> Result<String, Fail> {
    let key = "k".repeat(alloc, key)?;
    let text = "t".repeat(alloc, text)?;
    let mut body = format!(in alloc; "{{\"PartitionKey\":\"{key}\",\"RowKey\":\"r\"")?;
    for n in 0..props {
        let member = format!(in alloc; ",\"p{n}\":\"{text}\"")?;
        body.push_str(member.as_str())?;
    }
    body.push_str("}")?;
    Ok(body)
}

#[test]
fn limits(rt: HostRuntime) -> Result<(), Fail> {
    let alloc = rt.alloc();
    for (key, props, text, code, sentence) in [
        (1025, 0, 0, "KeyTooLong", "A key is too long."),
        (
            1,
            253,
            0,
            "TooManyProperties",
            "The entity has too many properties.",
        ),
        (
            1,
            1,
            65_537,
            "PropertyTooLarge",
            "A property value is too large.",
        ),
        (1, 16, 65_536, "EntityTooLarge", "The entity is too large."),
    ] {
        let body = body_of(alloc, key, props, text)?;
        assert!(rt; is_refused(alloc, body.as_str(), code, sentence)?);
    }
    for (key, props, text) in [(1024, 0, 0), (1, 252, 0), (1, 1, 65_536)] {
        let body = body_of(alloc, key, props, text)?;
        let request = insert_with(alloc, body.as_str())?;
        let (status, got) = ran(alloc, PLAIN, request.as_str())?;
        assert!(rt; status == 0);
        assert!(rt; got.as_str().starts_with("HTTP/1.1 201 Created\r\n"));
    }
    Ok(())
}
