//! What single requests ask for: the operation, the rows, a page, an order, or the first refusal.
use mt_chain::{Cond, Op, PkFrom};
use mt_front::{
    Admin, Asked, BadPart, BadRequest, Machine, PageRead, Resource, Shape, Writes, asked_by,
};
use mt_http_in::{Field, Fields, Incoming};
use mt_json::Level;
use mt_mime::Echo;
use mt_model::{Blob, Key, Name, Prop, Props, Tag, Text, Value};
use mt_scan::Token;
use mt_target::Service;
use std::alloc::Global;
use std::test::Fail;

/// A request on the table `Orders`: its method, its target, two fields, of which those without a name
/// are left out, and its body.
#[derive(Clone, Copy)]
struct Sent {
    method: &'static str,
    target: &'static str,
    first: (&'static str, &'static str),
    second: (&'static str, &'static str),
    body: &'static str,
}

/// What is asked for, in short.
#[derive(Clone, Copy, Debug, PartialEq, Eq)]
enum Got {
    Insert(Echo),
    Replace(Cond),
    Merge(Cond),
    Delete(Cond),
    InsertOrReplace,
    InsertOrMerge,

    /// So many operations of a change set.
    ChangeSet(usize),
    Read(Shape),
    Page,
    Admin(Admin),
    Refused(BadRequest),
    RefusedPart(BadPart),
}

const TAG: Tag = Tag { store: 1, n: 7 };

const NONE: (&str, &str) = ("", "");

/// The entity of the key `p`, `r`.
const ENTITY: &str = "/Orders(PartitionKey='p',RowKey='r')";

/// The keys `p` and `r`, and the property `A` of value `x`.
const BODY: &str = r#"{"PartitionKey":"p","RowKey":"r","A":"x"}"#;

/// Other keys, of which one is no text, and the property.
const OTHER_KEYS: &str = r#"{"PartitionKey":"/","RowKey":1,"A":"x"}"#;

const INSERT: Sent = Sent {
    method: "POST",
    target: "/Orders",
    first: NONE,
    second: NONE,
    body: BODY,
};

const PUT: Sent = Sent {
    method: "PUT",
    target: ENTITY,
    body: OTHER_KEYS,
    ..INSERT
};

fn field(alloc: Global, field: (&str, &str)) -> Result<Field, Fail> {
    Ok(Field {
        name: Text::of(alloc, field.0)?,
        value: Blob::of(alloc, field.1.as_bytes())?,
    })
}

fn fields_of(alloc: Global, sent: Sent) -> Result<Fields, Fail> {
    let mut fields = Vec::new(alloc);
    for named in [sent.first, sent.second] {
        if !named.0.is_empty() {
            fields.push(field(alloc, named)?)?;
        }
    }
    Ok(Fields::of(fields))
}

fn asked(alloc: Global, sent: Sent) -> Result<Asked, Fail> {
    let request = Incoming {
        method: Text::of(alloc, sent.method)?,
        target: Text::of(alloc, sent.target)?,
        fields: fields_of(alloc, sent)?,
        body: Blob::of(alloc, sent.body.as_bytes())?,
        keep: true,
    };
    let table = Text::of(alloc, "Orders")?;
    Ok(asked_by(alloc, &table, request)?)
}

fn op_shortly(op: &Op, echo: Echo) -> Got {
    match op {
        Op::Insert { .. } => Got::Insert(echo),
        Op::Replace { cond, .. } => Got::Replace(*cond),
        Op::Merge { cond, .. } => Got::Merge(*cond),
        Op::Delete { cond, .. } => Got::Delete(*cond),
        Op::InsertOrReplace { .. } => Got::InsertOrReplace,
        Op::InsertOrMerge { .. } => Got::InsertOrMerge,
    }
}

fn writes_shortly(writes: &Writes) -> Got {
    match (writes.is_change_set(), writes.ops(), writes.echoes()) {
        (false, [op], [echo]) => op_shortly(op, *echo),
        (_, ops, _) => Got::ChangeSet(ops.len()),
    }
}

fn shortly(asked: &Asked) -> Got {
    match asked {
        Asked::Write(writes) => writes_shortly(writes),
        Asked::Read(read) => Got::Read(read.shape),
        Asked::Page(_) => Got::Page,
        Asked::Admin(order) => Got::Admin(*order),
        Asked::Refused(refusal) => Got::Refused(*refusal),
        Asked::RefusedPart(bad) => Got::RefusedPart(*bad),
    }
}

fn asked_shortly(alloc: Global, sent: Sent) -> Result<Got, Fail> {
    let asked = asked(alloc, sent)?;
    Ok(shortly(&asked))
}

const UNMATCHED: Got = Got::Refused(BadRequest::MissingIfMatch);

const INVALID: Got = Got::Refused(BadRequest::InvalidUri);

const UNSUPPORTED: Got = Got::Refused(BadRequest::NotImplemented);

const NO_TABLE: Got = Got::Refused(BadRequest::TableNotFound);

const REPEATED: Got = Got::Refused(BadRequest::InvalidQuery);

const BAD_OPTION: Got = Got::Refused(BadRequest::InvalidQuery);

const INSERTED: Got = Got::Insert(Echo::Entity(Level::Minimal));

/// So many turns of the machine are asked for.
fn turns(machine: Machine, steps: u32) -> Got {
    Got::Admin(Admin::Steps { machine, steps })
}

/// The resource does not have the method.
fn refused_at(resource: Resource) -> Got {
    Got::Refused(BadRequest::MethodNotAllowed(resource))
}

#[test]
fn methods_of_resources(rt: HostRuntime) -> Result<(), Fail> {
    let alloc = rt.alloc();
    for (method, target, want) in [
        ("POST", "/Orders", INSERTED),
        ("PUT", ENTITY, Got::InsertOrReplace),
        ("MERGE", ENTITY, Got::InsertOrMerge),
        ("PATCH", ENTITY, Got::InsertOrMerge),
        ("DELETE", ENTITY, UNMATCHED),
        ("GET", "/Orders", Got::Page),
        ("GET", "/Orders()", Got::Page),
        ("GET", ENTITY, Got::Read(Shape::One)),
        ("DELETE", "/Tables('x')", UNSUPPORTED),
        ("HEAD", "/Orders", refused_at(Resource::Table)),
        ("post", "/Orders", refused_at(Resource::Table)),
        ("PUT", "/Orders", refused_at(Resource::Table)),
        ("POST", "/Orders()", refused_at(Resource::Entities)),
        ("POST", ENTITY, refused_at(Resource::Entity)),
    ] {
        let sent = Sent {
            method,
            target,
            ..INSERT
        };
        let got = asked_shortly(alloc, sent)?;
        assert!(rt; got == want, "{got:?} for {method} {target}");
    }
    Ok(())
}

#[test]
fn methods_of_services(rt: HostRuntime) -> Result<(), Fail> {
    let alloc = rt.alloc();
    for (method, target, want) in [
        ("POST", "/$batch", Got::Refused(BadRequest::InvalidBatch)),
        ("POST", "/$mt/migrate?steps=1", turns(Machine::Migrator, 1)),
        (
            "POST",
            "/$mt/clean?steps=1000000",
            turns(Machine::Cleaner, 1_000_000),
        ),
        ("POST", "/$mt/seal", Got::Admin(Admin::Seal)),
        ("GET", "/$mt/status", Got::Admin(Admin::Status)),
        (
            "GET",
            "/$batch",
            refused_at(Resource::Service(Service::Batch)),
        ),
        (
            "POST",
            "/$mt/status",
            refused_at(Resource::Service(Service::Status)),
        ),
    ] {
        let sent = Sent {
            method,
            target,
            ..INSERT
        };
        let got = asked_shortly(alloc, sent)?;
        assert!(rt; got == want, "{got:?} for {method} {target}");
    }
    Ok(())
}

/// What is not supported comes before a bad number of turns; an option without a dollar sign that is
/// not `steps` says nothing.
#[test]
fn numbers_of_turns(rt: HostRuntime) -> Result<(), Fail> {
    let alloc = rt.alloc();
    for (target, want) in [
        ("/$mt/migrate", BAD_OPTION),
        ("/$mt/migrate?steps", BAD_OPTION),
        ("/$mt/migrate?Steps=1", BAD_OPTION),
        ("/$mt/migrate?steps=0", BAD_OPTION),
        ("/$mt/migrate?steps=1000001", BAD_OPTION),
        ("/$mt/migrate?steps=01", BAD_OPTION),
        ("/$mt/migrate?steps=x", BAD_OPTION),
        ("/$mt/clean?steps=x", BAD_OPTION),
        ("/$mt/clean?steps=1&steps=2", REPEATED),
        ("/$mt/clean?steps=1&$top=1", UNSUPPORTED),
        ("/$mt/clean?steps=x&comp=acl", UNSUPPORTED),
        ("/$mt/clean?timeout=1&steps=2", turns(Machine::Cleaner, 2)),
        ("/$mt/migrate?%73teps=%37", turns(Machine::Migrator, 7)),
        ("/$mt/seal?steps=x", Got::Admin(Admin::Seal)),
    ] {
        let got = asked_shortly(alloc, Sent { target, ..INSERT })?;
        assert!(rt; got == want, "{got:?} for {target}");
    }
    Ok(())
}

#[test]
fn targets(rt: HostRuntime) -> Result<(), Fail> {
    let alloc = rt.alloc();
    for (target, want) in [
        ("/oRDERS", INSERTED),
        ("/Ord%65rs", INSERTED),
        ("http://host/Orders", INSERTED),
        ("/Orders?timeout=1", INSERTED),
        ("/Orders?Comp=acl&a+b=1&a%20b=2", INSERTED),
        ("/Order", NO_TABLE),
        ("/Orders2", NO_TABLE),
        ("/ab", INVALID),
        ("Orders", INVALID),
        ("http://host", INVALID),
        ("/Orders%FF", INVALID),
        ("/Orders?x=%FF", INVALID),
        ("/Orders(RowKey='r',PartitionKey='p')", INVALID),
        ("/Orders(PartitionKey='p', RowKey='r')", INVALID),
        ("/Orders?comp=acl", UNSUPPORTED),
        ("/Orders?%63omp", UNSUPPORTED),
        ("/Orders?restype=x", UNSUPPORTED),
        ("/Orders?$top=5", UNSUPPORTED),
        ("/Orders?a=1&%61=2", REPEATED),
        ("/Orders?a+b=1&a%2Bb=2", REPEATED),
    ] {
        let got = asked_shortly(alloc, Sent { target, ..INSERT })?;
        assert!(rt; got == want, "{got:?} for {target}");
    }
    Ok(())
}

#[test]
fn keys_in_targets(rt: HostRuntime) -> Result<(), Fail> {
    let alloc = rt.alloc();
    let character = Got::Refused(BadRequest::KeyCharacter);
    for (target, want) in [
        (
            "/ORDERS(PartitionKey='P0',RowKey='9r')",
            Got::InsertOrReplace,
        ),
        ("/Orders(PartitionKey='',RowKey='')", Got::InsertOrReplace),
        (
            "/Orders(PartitionKey='it''s',RowKey='%C3%A4')",
            Got::InsertOrReplace,
        ),
        (
            "/Orders(PartitionKey=%27p%27,RowKey='p-q')?x",
            Got::InsertOrReplace,
        ),
        ("/Orders(PartitionKey='it%27s',RowKey='r')", INVALID),
        ("/Orders(PartitionKey='a%2Fb',RowKey='r')", character),
        ("/Orders(PartitionKey='p',RowKey='a%00')", character),
    ] {
        let got = asked_shortly(alloc, Sent { target, ..PUT })?;
        assert!(rt; got == want, "{got:?} for {target}");
    }
    Ok(())
}

/// What is not supported comes before another table, that before the method, and that before a
/// repeated option; all of them before If-Match.
#[test]
fn the_route_refuses_in_order(rt: HostRuntime) -> Result<(), Fail> {
    let alloc = rt.alloc();
    for (method, target, want) in [
        ("HEAD", "/ab?comp=acl", INVALID),
        ("HEAD", "/Other?comp=acl&a&a", UNSUPPORTED),
        ("GET", "/Other", NO_TABLE),
        ("PUT", "/Orders?$top=5", UNSUPPORTED),
        ("HEAD", "/Other?a&a", NO_TABLE),
        ("HEAD", "/Orders?a&a", refused_at(Resource::Table)),
        (
            "DELETE",
            "/Orders(PartitionKey='/',RowKey='r')?a&a",
            REPEATED,
        ),
        ("DELETE", "/Orders(PartitionKey='/',RowKey='r')", UNMATCHED),
    ] {
        let sent = Sent {
            method,
            target,
            ..INSERT
        };
        let got = asked_shortly(alloc, sent)?;
        assert!(rt; got == want, "{got:?} for {method} {target}");
    }
    Ok(())
}

#[test]
fn levels_of_inserts(rt: HostRuntime) -> Result<(), Fail> {
    let alloc = rt.alloc();
    for (value, level) in [
        ("application/json", Level::Minimal),
        ("odata=nometadat", Level::Minimal),
        ("odata=nometadata", Level::None),
        ("application/json; OData=NoMetaData; q=1", Level::None),
    ] {
        let first = ("accept", value);
        let got = asked_shortly(alloc, Sent { first, ..INSERT })?;
        assert!(rt;
            got == Got::Insert(Echo::Entity(level)),
            "{got:?} for {value}"
        );
    }
    Ok(())
}

#[test]
fn conditions(rt: HostRuntime) -> Result<(), Fail> {
    let alloc = rt.alloc();
    let tagged = Got::Replace(Cond::Is(TAG));
    let bad = Got::Refused(BadRequest::BadETag);
    for (first, second, want) in [
        (NONE, NONE, Got::InsertOrReplace),
        (("If-Match", "*"), NONE, Got::Replace(Cond::Any)),
        (("iF-mATCH", "W/\"1.7\""), NONE, tagged),
        (("If-Match", "\"1.7\""), NONE, bad),
        (("If-Match", "W/\"01.7\""), NONE, bad),
        (("If-Match", "W/\"4294967296.7\""), NONE, bad),
        (("If-Match", "*, *"), NONE, bad),
        (("If-Match", ""), NONE, bad),
        (
            ("If-Match", "*"),
            ("If-Match", "W/\"1.7\""),
            Got::Replace(Cond::Any),
        ),
        (("If-Match", "W/\"1.7\""), ("if-match", "*"), tagged),
        (("If-None-Match", "*"), NONE, Got::InsertOrReplace),
        (("Prefer", "return-no-content"), ("If-Match", "x"), bad),
    ] {
        let sent = Sent {
            first,
            second,
            ..PUT
        };
        let got = asked_shortly(alloc, sent)?;
        let value = first.1;
        assert!(rt; got == want, "{got:?} for {value}");
    }
    Ok(())
}

#[test]
fn methods(rt: HostRuntime) -> Result<(), Fail> {
    let alloc = rt.alloc();
    for (method, value, want) in [
        ("MERGE", "*", Got::Merge(Cond::Any)),
        ("PATCH", "W/\"1.7\"", Got::Merge(Cond::Is(TAG))),
        ("MERGE", "x", Got::Refused(BadRequest::BadETag)),
        ("DELETE", "*", Got::Delete(Cond::Any)),
        ("DELETE", "W/\"1.7\"", Got::Delete(Cond::Is(TAG))),
        ("DELETE", "x", Got::Refused(BadRequest::BadETag)),
    ] {
        let sent = Sent {
            method,
            first: ("If-Match", value),
            ..PUT
        };
        let got = asked_shortly(alloc, sent)?;
        assert!(rt; got == want, "{got:?} for {method}");
    }
    Ok(())
}

#[test]
fn preferences(rt: HostRuntime) -> Result<(), Fail> {
    let alloc = rt.alloc();
    let wait = ("Prefer", "wait=1");
    let quiet = ("PREFER", "Return-No-Content");
    for (first, second, echo) in [
        (NONE, NONE, Echo::Entity(Level::Minimal)),
        (quiet, NONE, Echo::NoContent),
        (
            ("Prefer", "return-content"),
            NONE,
            Echo::Entity(Level::Minimal),
        ),
        (
            ("Prefer", "return-no-content, wait=1"),
            NONE,
            Echo::Entity(Level::Minimal),
        ),
        (wait, quiet, Echo::Entity(Level::Minimal)),
        (quiet, wait, Echo::NoContent),
        (("If-Match", "nonsense"), NONE, Echo::Entity(Level::Minimal)),
    ] {
        let sent = Sent {
            first,
            second,
            ..INSERT
        };
        let got = asked_shortly(alloc, sent)?;
        let value = first.1;
        assert!(rt; got == Got::Insert(echo), "{got:?} for {value}");
    }
    Ok(())
}

#[test]
fn bodies_of_inserts(rt: HostRuntime) -> Result<(), Fail> {
    let alloc = rt.alloc();
    for (body, refusal) in [
        ("{", BadRequest::InvalidJson),
        (r#"{"A":"x"}"#, BadRequest::MissingKey),
        (
            r#"{"PartitionKey":"p/","RowKey":"r"}"#,
            BadRequest::KeyCharacter,
        ),
        (
            r#"{"PartitionKey":"p/","RowKey":"r","9":1}"#,
            BadRequest::BadName,
        ),
    ] {
        let got = asked_shortly(alloc, Sent { body, ..INSERT })?;
        assert!(rt; got == Got::Refused(refusal), "{got:?}");
    }
    Ok(())
}

/// If-Match comes before the key in the target, and that before the body.
#[test]
fn refuses_in_order(rt: HostRuntime) -> Result<(), Fail> {
    let alloc = rt.alloc();
    for (method, value, want) in [
        ("PUT", "x", Got::Refused(BadRequest::BadETag)),
        ("PUT", "*", Got::Refused(BadRequest::InvalidJson)),
        ("MERGE", "*", Got::Refused(BadRequest::InvalidJson)),
        ("DELETE", "*", Got::Delete(Cond::Any)),
    ] {
        let sent = Sent {
            method,
            first: ("If-Match", value),
            body: "{",
            ..PUT
        };
        let got = asked_shortly(alloc, sent)?;
        assert!(rt; got == want, "{got:?} for {method}");
    }
    Ok(())
}

/// What a request asks whose partition key has 1,025 bytes, and whose body is no JSON.
fn asked_of_long_key(alloc: Global, method: &str, value: &'static str) -> Result<Got, Fail> {
    let key = "k".repeat(alloc, 1025)?;
    let target = format!(in alloc; "/Orders(PartitionKey='{key}',RowKey='r')")?;
    let sent = Sent {
        first: ("If-Match", value),
        ..PUT
    };
    let request = Incoming {
        method: Text::of(alloc, method)?,
        target: Text::from_string(target),
        fields: fields_of(alloc, sent)?,
        body: Blob::of(alloc, b"{")?,
        keep: true,
    };
    let table = Text::of(alloc, "Orders")?;
    let asked = asked_by(alloc, &table, request)?;
    Ok(shortly(&asked))
}

#[test]
fn long_keys(rt: HostRuntime) -> Result<(), Fail> {
    let alloc = rt.alloc();
    for (method, value, refusal) in [
        ("PUT", "x", BadRequest::BadETag),
        ("PUT", "*", BadRequest::KeyTooLong),
        ("MERGE", "*", BadRequest::KeyTooLong),
        ("DELETE", "*", BadRequest::KeyTooLong),
    ] {
        let got = asked_of_long_key(alloc, method, value)?;
        assert!(rt; got == Got::Refused(refusal), "{got:?} for {method}");
    }
    Ok(())
}

fn props(alloc: Global) -> Result<Props, Fail> {
    let mut list = Vec::new(alloc);
    list.push(Prop {
        name: Name::read(alloc, "A")?,
        value: Value::Str(Text::of(alloc, "x")?),
    })?;
    Ok(Props::build(alloc, list)?)
}

/// The properties that an operation brings; a delete brings none.
fn props_of(op: &Op) -> Option<&Props> {
    match op {
        Op::Insert { props, .. }
        | Op::Replace { props, .. }
        | Op::Merge { props, .. }
        | Op::InsertOrReplace { props, .. }
        | Op::InsertOrMerge { props, .. } => Some(props),
        Op::Delete { .. } => None,
    }
}

/// Whether an operation on the key `P`, `r` with the property `A` is asked for, or a delete there.
fn is_as_sent(alloc: Global, asked: &Asked) -> Result<bool, Fail> {
    let Asked::Write(writes) = asked else {
        return Ok(false);
    };
    let [op] = writes.ops() else {
        return Ok(false);
    };
    let want = Key::read(alloc, "P", "r")?;
    let sent = props(alloc)?;
    let is_sent = match props_of(op) {
        Some(props) => *props == sent,
        None => true,
    };
    Ok(is_sent && *op.key() == want)
}

#[test]
fn keeps_key_and_properties(rt: HostRuntime) -> Result<(), Fail> {
    let alloc = rt.alloc();
    let at = "/orders(PartitionKey='P',RowKey='r')";
    let own = r#"{"PartitionKey":"P","RowKey":"r","A":"x"}"#;
    for (method, target, first, body) in [
        ("POST", "/orders", NONE, own),
        ("PUT", at, NONE, OTHER_KEYS),
        ("PUT", at, ("If-Match", "*"), OTHER_KEYS),
        ("MERGE", at, NONE, OTHER_KEYS),
        ("MERGE", at, ("If-Match", "*"), OTHER_KEYS),
        ("DELETE", at, ("If-Match", "*"), "{"),
    ] {
        let sent = Sent {
            method,
            target,
            first,
            body,
            ..INSERT
        };
        let asked = asked(alloc, sent)?;
        let got = shortly(&asked);
        assert!(rt; is_as_sent(alloc, &asked)?, "{got:?}");
    }
    Ok(())
}

/// Where a page begins, in short.
#[derive(Clone, Copy, Debug, PartialEq, Eq)]
enum Begin<'a> {
    AtFirst,
    From(&'a str),
    AfterRow(&'a str, &'a str),
    Past(&'a str),
}

fn begin_of(page: &PageRead) -> Begin<'_> {
    match &page.token {
        None => Begin::AtFirst,
        Some(Token::Row(key)) => Begin::AfterRow(key.pk.as_str(), key.rk.as_str()),
        Some(Token::Part(PkFrom::From(pk))) => Begin::From(pk.as_str()),
        Some(Token::Part(PkFrom::After(pk))) => Begin::Past(pk.as_str()),
    }
}

/// Whether a page is asked for of at most so many rows, with a filter or not, that begins there.
fn is_page_from(asked: &Asked, top: u32, is_filtered: bool, begin: Begin<'_>) -> bool {
    let Asked::Page(page) = asked else {
        return false;
    };
    page.top == top && page.filter.is_some() == is_filtered && begin_of(page) == begin
}

fn asked_of_get(alloc: Global, target: &'static str) -> Result<Asked, Fail> {
    let method = "GET";
    asked(
        alloc,
        Sent {
            method,
            target,
            ..INSERT
        },
    )
}

#[test]
fn pages(rt: HostRuntime) -> Result<(), Fail> {
    let alloc = rt.alloc();
    for (target, top, is_filtered, begin) in [
        ("/Orders", 1_000, false, Begin::AtFirst),
        ("/Orders()?$top=1", 1, false, Begin::AtFirst),
        (
            "/Orders()?$top=1000&$filter=Age%20gt%2030",
            1_000,
            true,
            Begin::AtFirst,
        ),
        (
            "/Orders?NextPartitionKey=1!bQ",
            1_000,
            false,
            Begin::From("m"),
        ),
        (
            "/Orders?NextPartitionKey=1!bQ&NextRowKey=1!cg&$top=7",
            7,
            false,
            Begin::AfterRow("m", "r"),
        ),
        (
            "/Orders()?NextPartitionKey=2!cDEyNw&$filter=A%20eq%201",
            1_000,
            true,
            Begin::Past("p127"),
        ),
    ] {
        let asked = asked_of_get(alloc, target)?;
        assert!(rt; is_page_from(&asked, top, is_filtered, begin), "{target}");
    }
    Ok(())
}

/// A bad `$top` and a token that cannot be read come before a filter that cannot be read.
#[test]
fn pages_are_refused_in_order(rt: HostRuntime) -> Result<(), Fail> {
    let alloc = rt.alloc();
    let bad_filter = Got::Refused(BadRequest::InvalidFilter { at: 0 });
    for (target, want) in [
        ("/Orders()?$top=0", BAD_OPTION),
        ("/Orders()?$top=1001", BAD_OPTION),
        ("/Orders()?$top=01", BAD_OPTION),
        ("/Orders()?$top=", BAD_OPTION),
        ("/Orders()?NextRowKey=1!cg", BAD_OPTION),
        (
            "/Orders()?NextPartitionKey=2!bQ&NextRowKey=1!cg",
            BAD_OPTION,
        ),
        ("/Orders()?NextPartitionKey=1!bR&$filter=!", BAD_OPTION),
        ("/Orders()?$top=0&$filter=!", BAD_OPTION),
        ("/Orders()?$top=1&$top=1", REPEATED),
        ("/Orders()?$filter=!", bad_filter),
    ] {
        let asked = asked_of_get(alloc, target)?;
        let got = shortly(&asked);
        assert!(rt; got == want, "{got:?} for {target}");
    }
    Ok(())
}
