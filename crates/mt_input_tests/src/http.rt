use mt_http_in::{Code, InFault, Incoming, Reader, read_request};
use mt_io::{MemSink, MemSource};
use std::alloc::Global;
use std::test::Fail;

const BODY: &str = "{\"PartitionKey\":\"p\",\"RowKey\":\"r\",\"A\":\"x\"}";

/// The same body in chunks of 5 and 36 bytes.
const CHUNKED: &str =
    "5\r\n{\"Par\r\n24\r\ntitionKey\":\"p\",\"RowKey\":\"r\",\"A\":\"x\"}\r\n0\r\n\r\n";

/// What was read.
#[derive(Clone, Copy, Debug, PartialEq, Eq)]
enum Got {
    Whole,
    Last,
    End,
    ReadFault,
    WriteFault,
    NoMemory,
    Refused(u16, Code, bool),
}

const HEAD: Got = Got::Refused(400, Code::InvalidHead, true);

const FRAMING: Got = Got::Refused(400, Code::InvalidFraming, true);

const LARGE: Got = Got::Refused(413, Code::RequestBodyTooLarge, true);

const CUT: Got = Got::Refused(400, Code::InvalidBody, true);

/// A connection over memory.
#[derive(Drop)]
struct Connection {
    reader: Reader,
    source: MemSource,
    sink: MemSink,
}

impl Connection {
    /// The bytes in pieces of these sizes, where the reads and writes of these numbers fail.
    fn new(
        alloc: Global,
        text: &str,
        pieces: &[usize],
        reads: &[u64],
        writes: &[u64],
    ) -> Result<Connection, Fail> {
        let bytes = Vec::from_slice(alloc, text.as_bytes())?;
        let pieces = Vec::from_slice(alloc, pieces)?;
        let reads = Vec::from_slice(alloc, reads)?;
        let writes = Vec::from_slice(alloc, writes)?;
        Ok(Connection {
            reader: Reader::new(alloc)?,
            source: MemSource::new(bytes, pieces, reads),
            sink: MemSink::new(alloc, writes),
        })
    }

    fn read(&mut self, alloc: Global) -> Result<Option<Incoming>, InFault> {
        read_request(alloc, &mut self.reader, &mut self.source, &mut self.sink)
    }

    fn next(&mut self, alloc: Global) -> Got {
        match self.read(alloc) {
            Ok(Some(request)) => { if request.keep { Got::Whole } else { Got::Last } }
            Ok(None) => Got::End,
            Err(fault) => fault_got(fault),
        }
    }
}

fn fault_got(fault: InFault) -> Got {
    match fault {
        InFault::ReadFault => Got::ReadFault,
        InFault::WriteFault => Got::WriteFault,
        InFault::NoMemory => Got::NoMemory,
        InFault::Refused {
            status,
            code,
            close,
        } => Got::Refused(status, code, close),
    }
}

/// What stands at the front of the bytes.
fn first(alloc: Global, text: &str) -> Result<Got, Fail> {
    let mut connection = Connection::new(alloc, text, &[], &[], &[])?;
    Ok(connection.next(alloc))
}

fn repeated(alloc: Global, piece: &str, times: usize) -> Result<String, Fail> {
    let mut text = String::new(alloc);
    for _ in 0..times {
        text.push_str(piece)?;
    }
    Ok(text)
}

/// Fields that frame a body, and what is read.
const LENGTHS: [(&str, Got); 23] = [
    ("Content-Length: 5", Got::Whole),
    ("Content-Length: 0005", Got::Whole),
    ("Transfer-Encoding: chunked", CUT),
    ("Content-Length: 5\r\nTransfer-Encoding: chunked", FRAMING),
    ("Transfer-Encoding: chunked\r\nContent-Length: 5", FRAMING),
    ("Content-Length: 5\r\ncontent-length: 5", FRAMING),
    ("Content-Length: +5", FRAMING),
    ("Content-Length: -5", FRAMING),
    ("Content-Length: 5,5", FRAMING),
    ("Content-Length: 5 5", FRAMING),
    ("Content-Length: 0x5", FRAMING),
    ("Content-Length:", FRAMING),
    ("Transfer-Encoding: xchunked", FRAMING),
    ("Transfer-Encoding: chunked, chunked", FRAMING),
    (
        "Transfer-Encoding: chunked\r\nTransfer-Encoding: chunked",
        FRAMING,
    ),
    ("Transfer-Encoding: identity", FRAMING),
    ("Content-Length : 5", HEAD),
    ("Content-Length: 5\r\n 5", HEAD),
    ("A: b\rContent-Length: 5", HEAD),
    ("Content-Length: 6", CUT),
    ("Content-Length: 4194304", CUT),
    ("Content-Length: 4194305", LARGE),
    ("Content-Length: 18446744073709551621", LARGE),
];

#[test]
fn smuggled_lengths(rt: HostRuntime) -> Result<(), Fail> {
    let alloc = rt.alloc();
    for (fields, want) in LENGTHS {
        let text = format!(in alloc; "POST /Orders HTTP/1.1\r\n{fields}\r\n\r\nabcde")?;
        let got = first(alloc, text.as_str())?;
        assert!(rt; got == want, "{got:?} for {fields}");
    }
    Ok(())
}

/// Bodies in chunks, and what is read.
const CHUNKS: [(&str, Got); 19] = [
    ("5\r\nabcde\r\n0\r\n\r\n", Got::Whole),
    ("5 ;a=b\r\nabcde\r\n00\r\n\r\n", Got::Whole),
    ("0\r\nA: b\r\nContent-Length: 9\r\n\r\n", Got::Whole),
    ("0\r\n\n", Got::Whole),
    ("5\r\nabcdeX\r\n0\r\n\r\n", CUT),
    ("5\r\nabcd\r\n0\r\n\r\n", CUT),
    ("5\r\nabcde\n0\r\n\r\n", CUT),
    ("5\nabcde\r\n0\r\n\r\n", CUT),
    ("+5\r\nabcde\r\n0\r\n\r\n", CUT),
    ("0x5\r\nabcde\r\n0\r\n\r\n", CUT),
    ("00000000000000005\r\nabcde\r\n0\r\n\r\n", CUT),
    ("5\r\nabc", CUT),
    ("5\r\nabcde\r\n", CUT),
    ("0\r\n", CUT),
    ("0\r\nA: b\r\n", CUT),
    ("0\r\nGET /Orders HTTP/1.1\r\n\r\n", CUT),
    ("FFFFFFFFF\r\n", LARGE),
    ("400001\r\n", LARGE),
    ("1\r\na\r\n400000\r\n", LARGE),
];

#[test]
fn smuggled_chunks(rt: HostRuntime) -> Result<(), Fail> {
    let alloc = rt.alloc();
    for (body, want) in CHUNKS {
        let text = format!(in alloc;
            "POST /Orders HTTP/1.1\r\nTransfer-Encoding: Chunked\r\n\r\n{body}"
        )?;
        let got = first(alloc, text.as_str())?;
        assert!(rt; got == want, "{got:?} for {body}");
    }
    Ok(())
}

/// Bytes, and what is read.
const HEADS: [(&str, Got); 13] = [
    ("", Got::End),
    ("\r\n", HEAD),
    ("POST /Ord", HEAD),
    ("\r\nGET / HTTP/1.1\r\n\r\n", Got::Whole),
    ("GET / HTTP/1.1\n\n", Got::Whole),
    (
        "GET / HTTP/1.0\r\nConnection: keep-alive\r\n\r\n",
        Got::Last,
    ),
    ("GET / HTTP/2.0\r\n\r\n", HEAD),
    ("GET  / HTTP/1.1\r\n\r\n", HEAD),
    (
        "GET / HTTP/1.1\r\nConnection: x\r\nConnection: a,\t Close ,b\r\n\r\n",
        Got::Last,
    ),
    ("GET / HTTP/1.1\r\nConnection: closed\r\n\r\n", Got::Whole),
    (
        "GET / HTTP/1.1\r\nContent-Encoding: identity\r\n\r\n",
        Got::Whole,
    ),
    (
        "GET / HTTP/1.1\r\nContent-Encoding: gzip\r\n\r\n",
        Got::Refused(501, Code::CompressedBody, false),
    ),
    (
        "GET / HTTP/1.0\r\nContent-Encoding: gzip\r\n\r\n",
        Got::Refused(501, Code::CompressedBody, true),
    ),
];

#[test]
fn heads(rt: HostRuntime) -> Result<(), Fail> {
    let alloc = rt.alloc();
    for (text, want) in HEADS {
        let got = first(alloc, text)?;
        assert!(rt; got == want, "{got:?} for {text}");
    }
    Ok(())
}

#[test]
fn limits(rt: HostRuntime) -> Result<(), Fail> {
    let alloc = rt.alloc();
    let plain = "POST / HTTP/1.1\r\n";
    let chunked = "POST / HTTP/1.1\r\nTransfer-Encoding: chunked\r\n\r\n0\r\n";
    for (before, piece, times, after, want) in [
        (plain, "A: b\r\n", 64, "\r\n", Got::Whole),
        (plain, "A: b\r\n", 65, "\r\n", HEAD),
        (plain, "AA", 8181, ":\r\n\r\n", Got::Whole),
        (plain, "AA", 8181, ": \r\n\r\n", HEAD),
        (chunked, "A: b\r\n", 64, "\r\n", Got::Whole),
        (chunked, "A: b\r\n", 65, "\r\n", HEAD),
        (chunked, "AA", 8167, ":\t\r\n\r\n", HEAD),
        (chunked, "AA", 8167, ":\r\n\r\n", Got::Whole),
        (chunked, "AA", 8170, "", HEAD),
    ] {
        let many = repeated(alloc, piece, times)?;
        let text = format!(in alloc; "{before}{many}{after}")?;
        let got = first(alloc, text.as_str())?;
        assert!(rt; got == want, "{got:?} with {times} times {piece}");
    }
    Ok(())
}

/// Whether the request that the bytes spell, in pieces of that size, is an insert of the body, the
/// last of its connection.
fn is_insert(alloc: Global, text: &str, size: usize) -> Result<bool, Fail> {
    let mut connection = Connection::new(alloc, text, &[size], &[], &[])?;
    match connection.read(alloc) {
        Ok(Some(request)) => {
            let target = request.target.as_str();
            let method = request.method.as_str();
            Ok(
                method == "POST"
                    && target == "/Orders"
                    && request.body.as_slice() == BODY.as_bytes()
                    && request.fields.as_slice().len() == 2
                    && !request.keep,
            )
        }
        _ => Ok(false),
    }
}

#[test]
fn requests_in_pieces(rt: HostRuntime) -> Result<(), Fail> {
    let alloc = rt.alloc();
    let head = "POST /Orders HTTP/1.1\r\nConnection: close\r\n";
    let text = format!(in alloc; "{head}Transfer-Encoding: chunked\r\n\r\n{CHUNKED}GET")?;
    for size in 1..150 {
        assert!(rt;
            is_insert(alloc, text.as_str(), size)?,
            "in pieces of {size}"
        );
    }
    let text = format!(in alloc; "{head}Content-Length: 41\r\n\r\n{BODY}GET")?;
    for size in 1..150 {
        assert!(rt;
            is_insert(alloc, text.as_str(), size)?,
            "in pieces of {size}"
        );
    }
    Ok(())
}

#[test]
fn requests_one_after_another(rt: HostRuntime) -> Result<(), Fail> {
    let alloc = rt.alloc();
    let post = "POST / HTTP/1.1\r\nContent-Length: 4\r\n\r\n";
    let text = format!(in alloc; "{post}abcd{post}abcd{post}abcde")?;
    for size in [1, 40, 43, 100, 1000] {
        let mut connection = Connection::new(alloc, text.as_str(), &[size], &[], &[])?;
        for want in [Got::Whole, Got::Whole, Got::Whole, HEAD] {
            let got = connection.next(alloc);
            assert!(rt; got == want, "{got:?} in pieces of {size}");
        }
    }
    Ok(())
}

/// A client that waits for its reply gets it: no read is made behind a whole request.
#[test]
fn no_read_behind_a_request(rt: HostRuntime) -> Result<(), Fail> {
    let alloc = rt.alloc();
    for (fields, body) in [
        ("A: b", ""),
        ("Content-Length: 4", "abcd"),
        ("Transfer-Encoding: chunked", "4\r\nabcd\r\n0\r\n\r\n"),
        ("Transfer-Encoding: chunked", "0\r\nA: b\r\n\r\n"),
    ] {
        let text = format!(in alloc; "POST / HTTP/1.1\r\n{fields}\r\n\r\n{body}")?;
        let mut connection = Connection::new(alloc, text.as_str(), &[], &[2], &[])?;
        for want in [Got::Whole, Got::ReadFault, Got::End] {
            let got = connection.next(alloc);
            assert!(rt; got == want, "{got:?} for {body}");
        }
    }
    Ok(())
}

const CONTINUE: &str = "HTTP/1.1 100 Continue\r\n\r\n";

/// Fields, the write that fails, what is read, and what is written.
const EXPECTING: [(&str, u64, Got, &str); 10] = [
    (
        "Expect: 100-Continue\r\nContent-Length: 4",
        9,
        Got::Whole,
        CONTINUE,
    ),
    (
        "Expect: 100-Continue\r\nTransfer-Encoding: chunked",
        9,
        CUT,
        CONTINUE,
    ),
    (
        "Expect: 100-Continue\r\nContent-Length: 5",
        9,
        CUT,
        CONTINUE,
    ),
    (
        "Expect: 100-Continue\r\nContent-Length: 4\r\nContent-Encoding: x",
        9,
        Got::Refused(501, Code::CompressedBody, false),
        CONTINUE,
    ),
    (
        "Expect: 100-Continue\r\nContent-Length: 0",
        9,
        Got::Whole,
        "",
    ),
    (
        "Expect: 100-Continue\r\nContent-Length: 4194305",
        9,
        LARGE,
        "",
    ),
    ("Expect: 100-Continue\r\nContent-Length: x", 9, FRAMING, ""),
    (
        "Expect: 100-Continue\r\nContent-Length: 4",
        1,
        Got::WriteFault,
        "",
    ),
    (
        "Expect: 100-Continue\r\nContent-Length: 0",
        1,
        Got::Whole,
        "",
    ),
    (
        "Expect: x\r\nExpect: 100-continue\r\nContent-Length: 4",
        9,
        Got::Whole,
        "",
    ),
];

#[test]
fn continues(rt: HostRuntime) -> Result<(), Fail> {
    let alloc = rt.alloc();
    for (fields, write, want, held) in EXPECTING {
        let text = format!(in alloc; "POST / HTTP/1.1\r\n{fields}\r\n\r\nabcd")?;
        let mut connection = Connection::new(alloc, text.as_str(), &[], &[], &[write])?;
        let got = connection.next(alloc);
        assert!(rt; got == want, "{got:?} for {fields}");
        assert!(rt; connection.sink.held() == held.as_bytes(), "{fields}");
    }
    Ok(())
}

#[test]
fn broken_off(rt: HostRuntime) -> Result<(), Fail> {
    let alloc = rt.alloc();
    let text = format!(in alloc; "POST / HTTP/1.1\r\nTransfer-Encoding: chunked\r\n\r\n{CHUNKED}")?;
    for read in 1..11 {
        let mut connection = Connection::new(alloc, text.as_str(), &[10], &[read], &[])?;
        let got = connection.next(alloc);
        assert!(rt; got == Got::ReadFault, "{got:?} at read {read}");
    }
    Ok(())
}
