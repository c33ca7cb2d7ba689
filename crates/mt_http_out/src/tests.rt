ghost use Rattle.std.specs.Prelude.{◌≡◌, ◌∷◌, [], nat_eq, IsTrue, IfOk};
ghost use Rattle.std.specs.Set.{is_member};
ghost use Rattle.mt_http_out.specs.Rendering.{statuses, names_at, are_some_of};

use crate::{Reply, ReplyField, ReplyFields, render};
use mt_model::{Blob, Text};
use std::alloc::Global;
use std::test::Fail;

/// A name and a value.
#[derive(Clone, Copy)]
struct Line<'a>(&'a str, &'a str);

const JSON: Line<'static> = Line("Content-Type", "application/json");

const TAG: Line<'static> = Line("ETag", "W/\"0.2\"");

fn field(alloc: Global, line: Line<'_>) -> Result<ReplyField, Fail>
    ensures { IfOk result (λ f. f.name ≡ line.entry.0.now) }
{
    Ok(ReplyField {
        name: Text::of(alloc, line.0)?,
        value: Text::of(alloc, line.1)?,
    })
}

/// Adds a reply without fields.
fn bare(alloc: Global, status: u16, into: &mut Vec<u8>) -> Result<(), Fail>
    requires { IsTrue (is_member nat_eq statuses status) }
{
    let reply = Reply {
        status,
        fields: ReplyFields::of(Vec::new(alloc)),
        body: Blob::of(alloc, b"")?,
        close: false,
    };
    render(&reply, into)?;
    Ok(())
}

/// The reply with one field.
fn with_one(
    alloc: Global,
    status: u16,
    line: Line<'_>,
    body: &str,
    close: bool,
) -> Result<Vec<u8>, Fail>
    requires status { IsTrue (is_member nat_eq statuses status) }
    requires fields { IsTrue (are_some_of (names_at status) (line.0.now ∷ [])) }
    requires body { status ≡ 204 → body.now ≡ [] }
{
    let mut fields = Vec::new(alloc);
    fields.push(field(alloc, line)?)?;
    let fields = ReplyFields::of(fields);
    let body = Blob::of(alloc, body.as_bytes())?;
    let mut bytes = Vec::new(alloc);
    render(
        &Reply {
            status,
            fields,
            body,
            close,
        },
        &mut bytes,
    )?;
    Ok(bytes)
}

/// The reply with two fields, behind which the connection goes on.
fn with_two(
    alloc: Global,
    status: u16,
    first: Line<'_>,
    second: Line<'_>,
    body: &str,
) -> Result<Vec<u8>, Fail>
    requires status { IsTrue (is_member nat_eq statuses status) }
    requires fields { IsTrue (are_some_of (names_at status) (first.0.now ∷ second.0.now ∷ [])) }
    requires body { status ≡ 204 → body.now ≡ [] }
{
    let mut fields = Vec::new(alloc);
    fields.push(field(alloc, first)?)?;
    fields.push(field(alloc, second)?)?;
    let fields = ReplyFields::of(fields);
    let body = Blob::of(alloc, body.as_bytes())?;
    let close = false;
    let mut bytes = Vec::new(alloc);
    render(
        &Reply {
            status,
            fields,
            body,
            close,
        },
        &mut bytes,
    )?;
    Ok(bytes)
}

const ENTITY: &str =
    "{\"A\":\"x\",\"PartitionKey\":\"p\",\"RowKey\":\"r\",\"odata.etag\":\"W/\\\"0.2\\\"\"}";

const CREATED: &str =
    "HTTP/1.1 201 Created\r\nContent-Type: application/json\r\nETag: W/\"0.2\"\r\nContent-Length: 66\r\n\r\n{\"A\":\"x\",\"PartitionKey\":\"p\",\"RowKey\":\"r\",\"odata.etag\":\"W/\\\"0.2\\\"\"}";

const NO_CONTENT: &str =
    "HTTP/1.1 204 No Content\r\nETag: W/\"0.2\"\r\nPreference-Applied: return-no-content\r\n\r\n";

#[test]
fn writes_what_was_inserted(rt: HostRuntime) -> Result<(), Fail> {
    let alloc = rt.alloc();
    let created = with_two(alloc, 201, JSON, TAG, ENTITY)?;
    assert!(rt; created.as_slice() == CREATED.as_bytes(), "{created:?}");
    let applied = Line("Preference-Applied", "return-no-content");
    let told = with_two(alloc, 204, TAG, applied, "")?;
    assert!(rt; told.as_slice() == NO_CONTENT.as_bytes(), "{told:?}");
    Ok(())
}

const EXISTS: &str =
    "HTTP/1.1 409 Conflict\r\nContent-Type: application/json\r\nContent-Length: 120\r\n\r\n{\"odata.error\":{\"code\":\"EntityAlreadyExists\",\"message\":{\"lang\":\"en-US\",\"value\":\"The specified entity already exists.\"}}}";

const STARVED: &str =
    "HTTP/1.1 503 Service Unavailable\r\nContent-Type: application/json\r\nContent-Length: 91\r\nConnection: close\r\n\r\n{\"odata.error\":{\"code\":\"NoMemory\",\"message\":{\"lang\":\"en-US\",\"value\":\"Not enough memory.\"}}}";

#[test]
fn writes_refusals(rt: HostRuntime) -> Result<(), Fail> {
    let alloc = rt.alloc();
    let body =
        "{\"odata.error\":{\"code\":\"EntityAlreadyExists\",\"message\":{\"lang\":\"en-US\",\"value\":\"The specified entity already exists.\"}}}";
    let exists = with_one(alloc, 409, JSON, body, false)?;
    assert!(rt; exists.as_slice() == EXISTS.as_bytes(), "{exists:?}");
    let body =
        "{\"odata.error\":{\"code\":\"NoMemory\",\"message\":{\"lang\":\"en-US\",\"value\":\"Not enough memory.\"}}}";
    let starved = with_one(alloc, 503, JSON, body, true)?;
    assert!(rt; starved.as_slice() == STARVED.as_bytes(), "{starved:?}");
    Ok(())
}

const NOT_ALLOWED: &str =
    "HTTP/1.1 405 Method Not Allowed\r\nContent-Type: application/json\r\nAllow: POST, GET\r\nContent-Length: 107\r\n\r\n{\"odata.error\":{\"code\":\"MethodNotAllowed\",\"message\":{\"lang\":\"en-US\",\"value\":\"The method is not allowed.\"}}}";

const PAGE: &str =
    "HTTP/1.1 200 OK\r\nContent-Type: application/json\r\nx-ms-continuation-NextPartitionKey: 1!cA\r\nContent-Length: 12\r\n\r\n{\"value\":[]}";

#[test]
fn writes_fields_of_their_own(rt: HostRuntime) -> Result<(), Fail> {
    let alloc = rt.alloc();
    let body =
        "{\"odata.error\":{\"code\":\"MethodNotAllowed\",\"message\":{\"lang\":\"en-US\",\"value\":\"The method is not allowed.\"}}}";
    let methods = Line("Allow", "POST, GET");
    let not_allowed = with_two(alloc, 405, JSON, methods, body)?;
    assert!(rt;
        not_allowed.as_slice() == NOT_ALLOWED.as_bytes(),
        "{not_allowed:?}"
    );
    let next = Line("x-ms-continuation-NextPartitionKey", "1!cA");
    let page = with_two(alloc, 200, JSON, next, "{\"value\":[]}")?;
    assert!(rt; page.as_slice() == PAGE.as_bytes(), "{page:?}");
    Ok(())
}

const GONE_TWICE: &str = "HTTP/1.1 204 No Content\r\n\r\nHTTP/1.1 204 No Content\r\n\r\n";

#[test]
fn writes_behind_what_stands_there(rt: HostRuntime) -> Result<(), Fail> {
    let alloc = rt.alloc();
    let mut bytes = Vec::new(alloc);
    bare(alloc, 204, &mut bytes)?;
    bare(alloc, 204, &mut bytes)?;
    assert!(rt; bytes.as_slice() == GONE_TWICE.as_bytes(), "{bytes:?}");
    Ok(())
}
