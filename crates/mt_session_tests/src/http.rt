//! Requests and replies as texts.
use std::alloc::Global;
use std::test::Fail;

pub const INSERT: &str =
    "POST /Orders HTTP/1.1\r\nHost: x\r\nContent-Length: 41\r\n\r\n{\"PartitionKey\":\"p\",\"RowKey\":\"r\",\"A\":\"x\"}";

pub const CREATED: &str =
    "HTTP/1.1 201 Created\r\nContent-Type: application/json\r\nETag: W/\"0.2\"\r\nContent-Length: 66\r\n\r\n{\"A\":\"x\",\"PartitionKey\":\"p\",\"RowKey\":\"r\",\"odata.etag\":\"W/\\\"0.2\\\"\"}";

/// What the field If-Match says.
#[derive(Clone, Copy)]
pub enum Match {
    Absent,
    Any,

    /// This text.
    Says(&'static str),
}

/// A request on a row of the partition `p`, whose row key is given.
#[derive(Clone, Copy)]
pub enum Ask {
    /// With the property `A`.
    Insert(&'static str),

    /// The same, where no content is preferred.
    QuietInsert(&'static str),

    /// With the property `A`.
    Put(&'static str, Match),

    /// With the property `B`.
    Merge(&'static str, Match),
    Delete(&'static str, Match),

    /// `GET` on the list of tables, which is not supported.
    Tables,
}

/// A reply, with the number in the row's tag.
#[derive(Clone, Copy)]
pub enum Reply {
    /// 201 with the row of this key and the property `A`.
    Created(&'static str, u64),
    Quiet(u64),
    Tagged(u64),
    Gone,
    BadETag,
    MissingIfMatch,
    NotFound,
    Exists,
    ConditionFailed,
    StoreFault,
    HistoryFull,
    NotImplemented,
}

fn match_of(alloc: Global, says: Match) -> Result<String, Fail> {
    Ok(match says {
        Match::Absent => String::new(alloc),
        Match::Any => String::from_str(alloc, "If-Match: *\r\n")?,
        Match::Says(text) => format!(in alloc; "If-Match: {text}\r\n")?,
    })
}

/// An insert of the row with the property `A`, after these fields.
fn insert_of(alloc: Global, row: &str, fields: &str) -> Result<String, Fail> {
    let body = format!(in alloc; "{{\"PartitionKey\":\"p\",\"RowKey\":\"{row}\",\"A\":\"x\"}}")?;
    let size = body.len();
    Ok(format!(in alloc; "POST /Orders HTTP/1.1\r\n{fields}Content-Length: {size}\r\n\r\n{body}")?)
}

/// A request on the entity of the row.
fn entity_of(
    alloc: Global,
    method: &str,
    row: &str,
    says: Match,
    body: &str,
) -> Result<String, Fail> {
    let fields = match_of(alloc, says)?;
    let size = body.len();
    Ok(format!(in alloc;
        "{method} /Orders(PartitionKey='p',RowKey='{row}') HTTP/1.1\r\n{fields}Content-Length: {size}\r\n\r\n{body}"
    )?)
}

pub fn request_of(alloc: Global, ask: Ask) -> Result<String, Fail> {
    match ask {
        Ask::Insert(row) => insert_of(alloc, row, "Host: x\r\n"),
        Ask::QuietInsert(row) => insert_of(alloc, row, "Prefer: return-no-content\r\n"),
        Ask::Put(row, says) => entity_of(alloc, "PUT", row, says, "{\"A\":\"x\"}"),
        Ask::Merge(row, says) => entity_of(alloc, "MERGE", row, says, "{\"B\":\"y\"}"),
        Ask::Delete(row, says) => entity_of(alloc, "DELETE", row, says, ""),
        Ask::Tables => Ok(String::from_str(alloc, "GET /Tables HTTP/1.1\r\nHost: x\r\n\r\n")?),
    }
}

/// The reply that says why nothing was done, with this code and sentence.
pub fn error_of(alloc: Global, status: &str, code: &str, sentence: &str) -> Result<String, Fail> {
    let body = format!(in alloc;
        "{{\"odata.error\":{{\"code\":\"{code}\",\"message\":{{\"lang\":\"en-US\",\"value\":\"{sentence}\"}}}}}}"
    )?;
    let size = body.len();
    Ok(format!(in alloc;
        "HTTP/1.1 {status}\r\nContent-Type: application/json\r\nContent-Length: {size}\r\n\r\n{body}"
    )?)
}

/// The reply to an insert of the row, whose tag has that number.
fn created_of(alloc: Global, row: &str, n: u64) -> Result<String, Fail> {
    let text = format!(in alloc;
        "{{\"A\":\"x\",\"PartitionKey\":\"p\",\"RowKey\":\"{row}\",\"odata.etag\":\"W/\\\"0.{n}\\\"\"}}"
    )?;
    let size = text.len();
    Ok(format!(in alloc;
        "HTTP/1.1 201 Created\r\nContent-Type: application/json\r\nETag: W/\"0.{n}\"\r\nContent-Length: {size}\r\n\r\n{text}"
    )?)
}

fn done_of(alloc: Global, fields: &str) -> Result<String, Fail> {
    Ok(format!(in alloc; "HTTP/1.1 204 No Content\r\n{fields}\r\n")?)
}

/// The reply to a row that was written.
fn written_of(alloc: Global, reply: Reply) -> Result<String, Fail> {
    match reply {
        Reply::Created(row, n) => created_of(alloc, row, n),
        Reply::Quiet(n) => {
            let fields = format!(in alloc;
                "ETag: W/\"0.{n}\"\r\nPreference-Applied: return-no-content\r\n"
            )?;
            done_of(alloc, fields.as_str())
        }
        Reply::Tagged(n) => {
            let fields = format!(in alloc; "ETag: W/\"0.{n}\"\r\n")?;
            done_of(alloc, fields.as_str())
        }
        _ => done_of(alloc, ""),
    }
}

pub fn reply_of(alloc: Global, reply: Reply) -> Result<String, Fail> {
    let (status, code, sentence) = match reply {
        Reply::BadETag => ("400 Bad Request", "BadETag", "The ETag is not valid."),
        Reply::MissingIfMatch => ("400 Bad Request", "MissingIfMatch", "If-Match is required."),
        Reply::NotFound => (
            "404 Not Found",
            "ResourceNotFound",
            "The specified resource does not exist.",
        ),
        Reply::Exists => (
            "409 Conflict",
            "EntityAlreadyExists",
            "The specified entity already exists.",
        ),
        Reply::ConditionFailed => (
            "412 Precondition Failed",
            "UpdateConditionNotSatisfied",
            "The update condition was not satisfied.",
        ),
        Reply::StoreFault => ("500 Internal Server Error", "StoreFault", "A store failed."),
        Reply::HistoryFull => (
            "507 Insufficient Storage",
            "HistoryFull",
            "The history is full.",
        ),
        Reply::NotImplemented => (
            "501 Not Implemented",
            "NotImplemented",
            "The request is not supported.",
        ),
        _ => return written_of(alloc, reply),
    };
    error_of(alloc, status, code, sentence)
}

/// These requests, one after the other.
pub fn requests_of(alloc: Global, asks: &[Ask]) -> Result<String, Fail> {
    let mut text = String::new(alloc);
    for ask in asks {
        text.push_str(request_of(alloc, *ask)?.as_str())?;
    }
    Ok(text)
}

/// These replies, one after the other.
pub fn replies_of(alloc: Global, replies: &[Reply]) -> Result<String, Fail> {
    let mut text = String::new(alloc);
    for reply in replies {
        text.push_str(reply_of(alloc, *reply)?.as_str())?;
    }
    Ok(text)
}

/// An insert with this body.
pub fn insert_with(alloc: Global, body: &str) -> Result<String, Fail> {
    let size = body.len();
    Ok(format!(in alloc; "POST /orders HTTP/1.1\r\nContent-Length: {size}\r\n\r\n{body}")?)
}
