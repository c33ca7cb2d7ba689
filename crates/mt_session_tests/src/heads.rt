//! Heads, framing and bodies: what is a whole request, what is refused, and what goes on.
use crate::http::{CREATED, INSERT};
use crate::runs::{PLAIN, Plan, ran};
use std::alloc::Global;
use std::test::Fail;

/// What is written.
#[derive(Clone, Copy)]
enum Output {
    Nothing,

    /// The first insert's reply.
    Created,

    /// The same, and the connection ends.
    CreatedLast,

    /// 100 Continue, and then that.
    Continue,
    ContinueAndCreated,
    ContinueAndLarge,

    /// A refusal that ends the connection.
    Head,
    Framing,
    Large,
    Body,

    /// A refusal, and then the first insert's reply.
    PackedAndCreated,
    OtherAndCreated,
    UnallowedAndCreated,
}

const CONTINUE: &str = "HTTP/1.1 100 Continue\r\n\r\n";

const CREATED_LAST: &str =
    "HTTP/1.1 201 Created\r\nContent-Type: application/json\r\nETag: W/\"0.2\"\r\nContent-Length: 66\r\nConnection: close\r\n\r\n{\"A\":\"x\",\"PartitionKey\":\"p\",\"RowKey\":\"r\",\"odata.etag\":\"W/\\\"0.2\\\"\"}";

const HEAD: &str =
    "HTTP/1.1 400 Bad Request\r\nContent-Type: application/json\r\nContent-Length: 106\r\nConnection: close\r\n\r\n{\"odata.error\":{\"code\":\"InvalidHead\",\"message\":{\"lang\":\"en-US\",\"value\":\"The request head is not valid.\"}}}";

const FRAMING: &str =
    "HTTP/1.1 400 Bad Request\r\nContent-Type: application/json\r\nContent-Length: 108\r\nConnection: close\r\n\r\n{\"odata.error\":{\"code\":\"InvalidFraming\",\"message\":{\"lang\":\"en-US\",\"value\":\"The body length is not valid.\"}}}";

const LARGE: &str =
    "HTTP/1.1 413 Payload Too Large\r\nContent-Type: application/json\r\nContent-Length: 114\r\nConnection: close\r\n\r\n{\"odata.error\":{\"code\":\"RequestBodyTooLarge\",\"message\":{\"lang\":\"en-US\",\"value\":\"The request body is too large.\"}}}";

const BODY: &str =
    "HTTP/1.1 400 Bad Request\r\nContent-Type: application/json\r\nContent-Length: 109\r\nConnection: close\r\n\r\n{\"odata.error\":{\"code\":\"InvalidBody\",\"message\":{\"lang\":\"en-US\",\"value\":\"The request body is not complete.\"}}}";

const PACKED: &str =
    "HTTP/1.1 501 Not Implemented\r\nContent-Type: application/json\r\nContent-Length: 115\r\n\r\n{\"odata.error\":{\"code\":\"CompressedBody\",\"message\":{\"lang\":\"en-US\",\"value\":\"Compressed bodies are not supported.\"}}}";

const OTHER: &str =
    "HTTP/1.1 501 Not Implemented\r\nContent-Type: application/json\r\nContent-Length: 108\r\n\r\n{\"odata.error\":{\"code\":\"NotImplemented\",\"message\":{\"lang\":\"en-US\",\"value\":\"The request is not supported.\"}}}";

const UNALLOWED: &str =
    "HTTP/1.1 405 Method Not Allowed\r\nContent-Type: application/json\r\nAllow: POST, GET\r\nContent-Length: 107\r\n\r\n{\"odata.error\":{\"code\":\"MethodNotAllowed\",\"message\":{\"lang\":\"en-US\",\"value\":\"The method is not allowed.\"}}}";

fn texts_of(output: Output) -> (&'static str, &'static str) {
    match output {
        Output::Nothing => ("", ""),
        Output::Created => (CREATED, ""),
        Output::CreatedLast => (CREATED_LAST, ""),
        Output::Continue => (CONTINUE, ""),
        Output::ContinueAndCreated => (CONTINUE, CREATED),
        Output::ContinueAndLarge => (CONTINUE, LARGE),
        Output::Head => (HEAD, ""),
        Output::Framing => (FRAMING, ""),
        Output::Large => (LARGE, ""),
        Output::Body => (BODY, ""),
        Output::PackedAndCreated => (PACKED, CREATED),
        Output::OtherAndCreated => (OTHER, CREATED),
        Output::UnallowedAndCreated => (UNALLOWED, CREATED),
    }
}

/// Whether a run over this input ends with the status and writes that.
fn ends(alloc: Global, plan: Plan, input: &str, status: u8, output: Output) -> Result<bool, Fail> {
    let (front, back) = texts_of(output);
    let want = format!(in alloc; "{front}{back}")?;
    let (found, got) = ran(alloc, plan, input)?;
    Ok(found == status && got.as_str() == want.as_str())
}

/// The first insert behind a request line of this version, these fields, and this framing.
fn insert(alloc: Global, version: &str, fields: &str, framed: &str) -> Result<String, Fail> {
    Ok(format!(in alloc; "POST /Orders HTTP/{version}\r\n{fields}{framed}")?)
}

const SIZED: &str =
    "Content-Length: 41\r\n\r\n{\"PartitionKey\":\"p\",\"RowKey\":\"r\",\"A\":\"x\"}";

const CHUNKED: &str =
    "Transfer-Encoding: chunked\r\n\r\n5\r\n{\"Par\r\n24\r\ntitionKey\":\"p\",\"RowKey\":\"r\",\"A\":\"x\"}\r\n0\r\n\r\n";

#[test]
fn the_first_insert(rt: HostRuntime) -> Result<(), Fail> {
    let alloc = rt.alloc();
    for (version, fields, framed, output) in [
        ("1.1", "", CHUNKED, Output::Created),
        (
            "1.1",
            "Expect: 100-continue\r\n",
            SIZED,
            Output::ContinueAndCreated,
        ),
        (
            "1.1",
            "Expect: 100-continue\r\n",
            CHUNKED,
            Output::ContinueAndCreated,
        ),
        ("1.0", "", SIZED, Output::CreatedLast),
        (
            "1.1",
            "Connection: Foo, CLOSE\r\n",
            CHUNKED,
            Output::CreatedLast,
        ),
    ] {
        let request = insert(alloc, version, fields, framed)?;
        assert!(rt;
            ends(alloc, PLAIN, request.as_str(), 0, output)?,
            "{request}"
        );
    }
    Ok(())
}

#[test]
fn nothing_is_read_behind_a_close(rt: HostRuntime) -> Result<(), Fail> {
    let alloc = rt.alloc();
    let request = insert(alloc, "1.1", "Connection: close\r\n", SIZED)?;
    let input = format!(in alloc; "{request}{INSERT}")?;
    assert!(rt; ends(alloc, PLAIN, input.as_str(), 0, Output::CreatedLast)?);
    let plan = Plan {
        failing_read: 2,
        ..PLAIN
    };
    assert!(rt; ends(alloc, plan, request.as_str(), 0, Output::CreatedLast)?);
    Ok(())
}

#[test]
fn chunks_in_pieces_of_every_size(rt: HostRuntime) -> Result<(), Fail> {
    let alloc = rt.alloc();
    let request = insert(alloc, "1.1", "", CHUNKED)?;
    for piece in 1..120 {
        let plan = Plan { piece, ..PLAIN };
        assert!(rt;
            ends(alloc, plan, request.as_str(), 0, Output::Created)?,
            "{piece}"
        );
    }
    Ok(())
}

const REFUSED: [(&str, u8, Output); 10] = [
    ("POST /Ord", 7, Output::Head),
    (
        "POST /Orders HTTP/1.1\r\nContent-Length: 5,5\r\n\r\n",
        7,
        Output::Framing,
    ),
    (
        "POST /Orders HTTP/1.1\r\nContent-Length: 4194305\r\n\r\n",
        7,
        Output::Large,
    ),
    (
        "POST /Orders HTTP/1.1\r\nTransfer-Encoding: chunked\r\n\r\nFFFFFFFFF\r\n",
        7,
        Output::Large,
    ),
    (
        "POST /Orders HTTP/1.1\r\nExpect: 100-continue\r\nTransfer-Encoding: chunked\r\n\r\nFFFFFFFFF\r\n",
        7,
        Output::ContinueAndLarge,
    ),
    (
        "POST /Orders HTTP/1.1\r\nContent-Length: 3\r\n\r\n{}",
        7,
        Output::Body,
    ),
    (
        "POST /Orders HTTP/1.0\r\nContent-Length: 3\r\n\r\n{}",
        7,
        Output::Body,
    ),
    ("GET /Orders HTTP/2.0\r\n\r\n", 7, Output::Head),
    ("\r\n", 7, Output::Head),
    ("", 0, Output::Nothing),
];

#[test]
fn what_is_no_whole_request(rt: HostRuntime) -> Result<(), Fail> {
    let alloc = rt.alloc();
    for (input, status, output) in REFUSED {
        assert!(rt; ends(alloc, PLAIN, input, status, output)?, "{input}");
    }
    Ok(())
}

#[test]
fn refusals_that_go_on(rt: HostRuntime) -> Result<(), Fail> {
    let alloc = rt.alloc();
    for (before, output) in [
        ("GET /Tables HTTP/1.1\r\n\r\n", Output::OtherAndCreated),
        ("HEAD /Orders HTTP/1.1\r\n\r\n", Output::UnallowedAndCreated),
        (
            "POST /Orders HTTP/1.1\r\nContent-Encoding: gzip\r\nContent-Length: 2\r\n\r\n{}",
            Output::PackedAndCreated,
        ),
    ] {
        let input = format!(in alloc; "{before}{INSERT}")?;
        assert!(rt; ends(alloc, PLAIN, input.as_str(), 0, output)?, "{before}");
    }
    Ok(())
}

#[test]
fn reads_and_writes_that_fail(rt: HostRuntime) -> Result<(), Fail> {
    let alloc = rt.alloc();
    let expecting = insert(alloc, "1.1", "Expect: 100-continue\r\n", SIZED)?;
    for (piece, failing_read, failing_write, status, output) in [
        (4096, 1, 0, 3, Output::Nothing),
        (4096, 0, 1, 4, Output::Nothing),
        (4096, 0, 2, 4, Output::Continue),
        (4096, 2, 0, 3, Output::ContinueAndCreated),
        (66, 2, 0, 3, Output::Nothing),
        (67, 2, 0, 3, Output::Continue),
    ] {
        let plan = Plan {
            piece,
            failing_read,
            failing_write,
            ..PLAIN
        };
        assert!(rt;
            ends(alloc, plan, expecting.as_str(), status, output)?,
            "{piece} {status}"
        );
    }
    Ok(())
}
