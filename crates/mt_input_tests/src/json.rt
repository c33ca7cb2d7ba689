use mt_json::{Draft, KeyUse, Level, read_entity, write_entity};
use mt_model::{Entity, Key, Tag, Text};
use std::alloc::Global;
use std::test::Fail;

/// The fault of a body with its keys, as `Debug` shows it.
fn fault_of(alloc: Global, body: &str) -> Result<String, Fail> {
    match read_entity(alloc, body.as_bytes(), KeyUse::InBody) {
        Ok(_) => Ok(String::from_str(alloc, "none")?),
        Err(fault) => Ok(format!(in alloc; "{fault:?}")?),
    }
}

/// The fault of a body with the keys `p` and `r` and these members.
fn fault_of_members(alloc: Global, members: &str) -> Result<String, Fail> {
    let body = format!(in alloc; "{{\"PartitionKey\":\"p\",\"RowKey\":\"r\",{members}}}")?;
    fault_of(alloc, body.as_str())
}

/// The fault of a body with one member of a type.
fn fault_of_type(alloc: Global, value: &str, kind: &str) -> Result<String, Fail> {
    let members = format!(in alloc; "\"V\":{value},\"V@odata.type\":\"{kind}\"")?;
    fault_of_members(alloc, members.as_str())
}

/// Bodies, and their faults.
const BODIES: [(&str, &str); 10] = [
    ("", "Syntax"),
    ("{", "Syntax"),
    ("[1]", "NotObject"),
    ("null", "NotObject"),
    (r#"{"A":1e999}"#, "Syntax"),
    (r#"{"A":"\ud800"}"#, "Syntax"),
    (r#"{"A":1.5}"#, "MissingKey { part: Partition }"),
    (
        r#"{"PartitionKey":"p","RowKey":null}"#,
        "MissingKey { part: Row }",
    ),
    (
        r#"{"PartitionKey":"p","RowKey":1.5}"#,
        "BadType { name: \"RowKey\" }",
    ),
    (
        r#"{"PartitionKey":[],"RowKey":"r","b":1.5}"#,
        "BadType { name: \"PartitionKey\" }",
    ),
];

#[test]
fn refuses_bodies(rt: HostRuntime) -> Result<(), Fail> {
    let alloc = rt.alloc();
    for (body, want) in BODIES {
        let found = fault_of(alloc, body)?;
        assert!(rt; found.as_str() == want, "{body}");
    }
    Ok(())
}

/// Members of a body, and their fault.
const MEMBERS: [(&str, &str); 26] = [
    (r#""D":1.5"#, "Double { name: \"D\" }"),
    (r#""D":1.0"#, "Double { name: \"D\" }"),
    (r#""D":1e2"#, "Double { name: \"D\" }"),
    (r#""D":-0"#, "Double { name: \"D\" }"),
    (r#""D":18446744073709551616"#, "Double { name: \"D\" }"),
    (r#""D":-9223372036854775809"#, "Double { name: \"D\" }"),
    (r#""D":9223372036854775808"#, "BadType { name: \"D\" }"),
    (r#""D":18446744073709551615"#, "BadType { name: \"D\" }"),
    (r#""D":2147483648"#, "BadType { name: \"D\" }"),
    (r#""D":-2147483649"#, "BadType { name: \"D\" }"),
    (r#""D":2147483647,"E":-2147483648"#, "none"),
    (r#""D":[1.5]"#, "BadType { name: \"D\" }"),
    (r#""D":{"E":"e"}"#, "BadType { name: \"D\" }"),
    (r#""b c":1.5"#, "Double { name: \"b c\" }"),
    (r#""b c":[]"#, "BadName { name: \"b c\" }"),
    (r#""b.c":1"#, "BadName { name: \"b.c\" }"),
    (r#""$kind":"live""#, "BadName { name: \"$kind\" }"),
    (r#""b c":null"#, "none"),
    (r#""b":1.5,"a":{}"#, "BadType { name: \"a\" }"),
    (r#""A":1.5,"A":1"#, "none"),
    (r#""A":1,"\u0041":1.5"#, "Double { name: \"A\" }"),
    (r#""A":"\ud83d\ude00""#, "none"),
    (r#""N":1,"N@odata.type":7"#, "BadType { name: \"N\" }"),
    (r#""N":1,"N@odata.type":null"#, "BadType { name: \"N\" }"),
    (r#""M@odata.type":7,"Timestamp":1.5"#, "none"),
    (
        r#""Timestamp@odata.type":[],"RowKey@odata.type":7,"odata.x":1.5"#,
        "none",
    ),
];

#[test]
fn tells_the_first_fault(rt: HostRuntime) -> Result<(), Fail> {
    let alloc = rt.alloc();
    for (members, want) in MEMBERS {
        let found = fault_of_members(alloc, members)?;
        assert!(rt; found.as_str() == want, "{members}");
    }
    Ok(())
}

const BAD: &str = "BadType { name: \"V\" }";

const DOUBLE: &str = "Double { name: \"V\" }";

/// Values, their types, and their fault.
const TYPED: [(&str, &str, &str); 23] = [
    (r#""x""#, "Edm.String", "none"),
    ("[]", "Edm.String", BAD),
    ("true", "Edm.Boolean", "none"),
    (r#""true""#, "Edm.Boolean", BAD),
    ("-5", "Edm.Int32", "none"),
    (r#""5""#, "Edm.Int32", BAD),
    ("5", "Edm.Int64", "none"),
    (r#""-007""#, "Edm.Int64", "none"),
    (r#""+1""#, "Edm.Int64", BAD),
    (r#""-""#, "Edm.Int64", BAD),
    (r#""9223372036854775808""#, "Edm.Int64", BAD),
    ("-0", "Edm.Int64", DOUBLE),
    ("null", "Edm.Double", "none"),
    (r#""1""#, "Edm.Double", DOUBLE),
    (
        r#""00112233-4455-6677-8899-AaBbCcDdEeFf""#,
        "Edm.Guid",
        "none",
    ),
    (r#""00112233445566778899aabbccddeeff""#, "Edm.Guid", BAD),
    (
        r#""{00112233-4455-6677-8899-aabbccddeeff}""#,
        "Edm.Guid",
        BAD,
    ),
    (r#""2026-02-29T00:00:00Z""#, "Edm.DateTime", BAD),
    (r#""2024-02-29T00:00:00Z""#, "Edm.DateTime", "none"),
    (r#""Zm8=""#, "Edm.Binary", "none"),
    (r#""Zm8""#, "Edm.Binary", BAD),
    (r#""Zm9=""#, "Edm.Binary", BAD),
    (r#""x""#, "Edm.Other", BAD),
];

#[test]
fn takes_values_of_a_type(rt: HostRuntime) -> Result<(), Fail> {
    let alloc = rt.alloc();
    for (value, kind, want) in TYPED {
        let found = fault_of_type(alloc, value, kind)?;
        assert!(rt; found.as_str() == want, "{value} {kind}");
    }
    Ok(())
}

#[test]
fn ignores_keys_beside_a_target(rt: HostRuntime) -> Result<(), Fail> {
    let alloc = rt.alloc();
    let body = r#"{"PartitionKey":1.5,"RowKey":[],"A":true}"#;
    let Ok(body) = read_entity(alloc, body.as_bytes(), KeyUse::InTarget) else {
        return Err(Fail::new("a body is refused"));
    };
    assert!(rt; body.pk.is_none());
    assert!(rt; body.rk.is_none());
    assert!(rt; body.props.as_slice().len() == 1);
    Ok(())
}

/// What is written with the tag 0.2 for the entity that a body names.
fn rewritten(
    alloc: Global,
    body: &str,
    level: Level,
    chosen: Option<&Vec<Text>>,
) -> Result<Text, Fail> {
    let Ok(body) = read_entity(alloc, body.as_bytes(), KeyUse::InBody) else {
        return Err(Fail::new("a body is refused"));
    };
    let (Some(pk), Some(rk)) = (body.pk, body.rk) else {
        return Err(Fail::new("a key is absent"));
    };
    let key = Key::read(alloc, pk.as_str(), rk.as_str())?;
    let tag = Tag { store: 0, n: 2 };
    let entity = Entity {
        key,
        props: body.props,
        tag,
    };
    let drafted = drafted(alloc, &entity, level, chosen)?;
    let text = write_entity(alloc, &entity, level, chosen)?;
    if drafted.as_slice() != text.as_str().as_bytes() {
        return Err(Fail::new("a draft has another text"));
    }
    Ok(text)
}

/// What an entity's draft writes, into no more room than it asked for.
fn drafted(
    alloc: Global,
    entity: &Entity,
    level: Level,
    chosen: Option<&Vec<Text>>,
) -> Result<Vec<u8>, Fail> {
    let draft = Draft::new(alloc, &entity.key, &entity.props, level, chosen)?;
    let mut room = Vec::with_capacity(alloc, draft.size(entity.tag))?;
    draft.write(entity.tag, &mut room);
    if room.len() > draft.room() {
        return Err(Fail::new("a draft has less room than it needs"));
    }
    Ok(room)
}

/// Bodies, and what is written of them.
const WRITTEN: [(&str, &str); 8] = [
    (
        r#"{"N":"5","N@odata.type":"Edm.Int64","PartitionKey":"p","RowKey":"r"}"#,
        r#"{"N":"5","N@odata.type":"Edm.Int64","PartitionKey":"p","RowKey":"r","odata.etag":"W/\"0.2\""}"#,
    ),
    (
        r#"{"RowKey":"r","PartitionKey":"p","z":true,"N":"-9223372036854775808","N@odata.type":"Edm.Int64"}"#,
        r#"{"N":"-9223372036854775808","N@odata.type":"Edm.Int64","PartitionKey":"p","RowKey":"r","odata.etag":"W/\"0.2\"","z":true}"#,
    ),
    (
        r#"{"PartitionKey":"p","RowKey":"r","G":"00112233-4455-6677-8899-AaBbCcDdEeFf","G@odata.type":"Edm.Guid"}"#,
        r#"{"G":"00112233-4455-6677-8899-aabbccddeeff","G@odata.type":"Edm.Guid","PartitionKey":"p","RowKey":"r","odata.etag":"W/\"0.2\""}"#,
    ),
    (
        r#"{"PartitionKey":"p","RowKey":"r","T":"1601-01-01T00:00:00Z","T@odata.type":"Edm.DateTime"}"#,
        r#"{"PartitionKey":"p","RowKey":"r","T":"1601-01-01T00:00:00.0000000Z","T@odata.type":"Edm.DateTime","odata.etag":"W/\"0.2\""}"#,
    ),
    (
        r#"{"PartitionKey":"p","RowKey":"r"}"#,
        r#"{"PartitionKey":"p","RowKey":"r","odata.etag":"W/\"0.2\""}"#,
    ),
    (
        r#"{"PartitionKey":"p\"q","RowKey":"","zz":"\ud83d\ude00\u0001\\/"}"#,
        r#"{"PartitionKey":"p\"q","RowKey":"","odata.etag":"W/\"0.2\"","zz":"😀\u0001\\/"}"#,
    ),
    (
        r#"{"PartitionKey":"p","RowKey":"r","B":"Zm8=","B@odata.type":"Edm.Binary"}"#,
        r#"{"B":"Zm8=","B@odata.type":"Edm.Binary","PartitionKey":"p","RowKey":"r","odata.etag":"W/\"0.2\""}"#,
    ),
    (
        r#"{"PartitionKey":"p","RowKey":"r","A":1,"A":"x\n\u00e9","n":null,"Timestamp":1.5,"odata.x":[]}"#,
        r#"{"A":"x\né","PartitionKey":"p","RowKey":"r","odata.etag":"W/\"0.2\""}"#,
    ),
];

#[test]
fn writes_what_it_read(rt: HostRuntime) -> Result<(), Fail> {
    let alloc = rt.alloc();
    for (body, want) in WRITTEN {
        let text = rewritten(alloc, body, Level::Minimal, None)?;
        assert!(rt; text.as_str() == want, "{body}");
    }
    let body = r#"{"N":"5","N@odata.type":"Edm.Int64","M":1,"PartitionKey":"p","RowKey":"r"}"#;
    let mut chosen = Vec::new(alloc);
    chosen.push(Text::of(alloc, "N")?)?;
    chosen.push(Text::of(alloc, "RowKey")?)?;
    let text = rewritten(alloc, body, Level::None, Some(&chosen))?;
    assert!(rt; text.as_str() == r#"{"N":"5","RowKey":"r"}"#);
    Ok(())
}
