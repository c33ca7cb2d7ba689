//! The bytes of a reply, written once into room that was taken before.
ghost use Rattle.std.specs.Prelude.{◌≡◌, ◌≤◌, ◌++◌, Bool, length, decimal, IfSome, OnOk, OnErr};
ghost use Rattle.http.specs.StatusCode.{IsStatusCode};
ghost use Rattle.mt_json.specs.Draft.{HasRoom, Appends};
ghost use Rattle.mt_http_out.specs.Rendering.{IsReply, phrase_of, status_line, line_of, field_lines, length_line, close_line, head_bytes, bytes_closing, bytes_of, inner_bytes};

use crate::reply::{Reply, ReplyField};
use http::StatusCode;
use itoa::Buffer;
use mt_model::NoMemory;

/// The bytes of a field's line beside its name and its value.
const LINE_BYTES: usize = 4;

/// The bytes of a reply beside its given fields and its body, at most: the status line, Content-Length,
/// Connection and the empty line.
const FRAME_BYTES: usize = 128;

/// Writes the bytes behind what stands there. Neither this nor any of the writers below takes memory.
pub fn put(room: &mut Vec<u8>, bytes: &[u8])
    requires { HasRoom room.old bytes.now }
    ensures { Appends room.old bytes.now room.new }
{
    if room.extend_from_slice(bytes).is_err() {
        unreachable!()
    }
}

/// The reason phrase of a status, or nothing where it has none.
fn phrase(status: u16) -> &'static str
    requires { IsStatusCode status }
    ensures { result.now ≡ phrase_of status }
{
    match StatusCode::from_u16(status) {
        Ok(code) => code.canonical_reason().unwrap_or(""),
        Err(_) => unreachable!(),
    }
}

/// Writes the status line.
pub fn put_status(room: &mut Vec<u8>, status: u16)
    requires code { IsStatusCode status }
    requires room { HasRoom room.old (status_line status) }
    ensures { Appends room.old (status_line status) room.new }
{
    let mut digits = Buffer::new();
    put(room, b"HTTP/1.1 ");
    put(room, digits.format(status).as_bytes());
    put(room, b" ");
    put(room, phrase(status).as_bytes());
    put(room, b"\r\n");
}

/// Writes the line of a field.
pub fn put_line(room: &mut Vec<u8>, name: &str, value: &str)
    requires { HasRoom room.old (line_of name.now value.now) }
    ensures { Appends room.old (line_of name.now value.now) room.new }
{
    put(room, name.as_bytes());
    put(room, b": ");
    put(room, value.as_bytes());
    put(room, b"\r\n");
}

fn put_fields(room: &mut Vec<u8>, fields: &[ReplyField])
    requires { HasRoom room.old (field_lines fields.now) }
    ensures { Appends room.old (field_lines fields.now) room.new }
{
    if let [first, rest @ ..] = fields {
        put_line(room, first.name.as_str(), first.value.as_str());
        put_fields(room, rest);
    }
}

/// Writes Content-Length of a body of that many bytes, but for a 204.
pub fn put_length(room: &mut Vec<u8>, status: u16, size: usize)
    requires { HasRoom room.old (length_line status size) }
    ensures { Appends room.old (length_line status size) room.new }
{
    if status != 204 {
        let mut digits = Buffer::new();
        put_line(room, "Content-Length", digits.format(size));
    }
}

/// Writes `Connection: close`, where the connection ends.
pub fn put_close(room: &mut Vec<u8>, close: bool)
    requires { HasRoom room.old (close_line close) }
    ensures { Appends room.old (close_line close) room.new }
{
    if close {
        put_line(room, "Connection", "close");
    }
}

/// Writes the head of a reply whose body has that many bytes, and the empty line behind it.
fn put_head(room: &mut Vec<u8>, status: u16, fields: &[ReplyField], size: usize, close: bool)
    requires code { IsStatusCode status }
    requires room { HasRoom room.old (head_bytes status fields.now size close) }
    ensures { Appends room.old (head_bytes status fields.now size close) room.new }
{
    put_status(room, status);
    put_fields(room, fields);
    put_length(room, status, size);
    put_close(room, close);
    put(room, b"\r\n");
}

/// Writes the reply, with this in place of its `close`.
fn put_reply(room: &mut Vec<u8>, reply: &Reply, close: bool)
    requires code { IsStatusCode reply.now.status }
    requires room { HasRoom room.old (bytes_closing close reply.now) }
    ensures { Appends room.old (bytes_closing close reply.now) room.new }
{
    let body = reply.body.as_slice();
    let fields = reply.fields.as_slice();
    put_head(room, reply.status, fields, body.len(), close);
    put(room, body);
}

/// The bytes of a field's line, where their number is one that memory is counted in.
fn line_size(field: &ReplyField) -> Option<usize>
    ensures { IfSome result (λ n. n ≡ length (line_of field.now.name field.now.value)) }
{
    let name = field.name.as_str().len();
    let value = field.value.as_str().len();
    name.checked_add(value)?.checked_add(LINE_BYTES)
}

fn fields_size(fields: &[ReplyField]) -> Option<usize>
    ensures { IfSome result (λ n. n ≡ length (field_lines fields.now)) }
{
    match fields {
        [] => Some(0),
        [first, rest @ ..] => line_size(first)?.checked_add(fields_size(rest)?),
    }
}

/// Room for the reply, whether the connection ends or not, where its size is one that memory is counted
/// in.
fn room_for(reply: &Reply) -> Option<usize>
    requires { IsReply reply.now }
    ensures { IfSome result (λ n. (close : Bool) → length (bytes_closing close reply.now) ≤ n) }
{
    let fields = fields_size(reply.fields.as_slice())?;
    fields
        .checked_add(reply.body.as_slice().len())?
        .checked_add(FRAME_BYTES)
}

/// Adds the reply, with this in place of its `close`.
fn add(reply: &Reply, close: bool, into: &mut Vec<u8>) -> Result<(), NoMemory>
    requires { IsReply reply.now }
    ensures ok { OnOk result (into.new.items ≡ into.old.items ++ bytes_closing close reply.now) }
    ensures err { OnErr result (into.new.items ≡ into.old.items) }
{
    let Some(size) = room_for(reply) else {
        return Err(NoMemory);
    };
    into.reserve(size)?;
    put_reply(into, reply, close);
    Ok(())
}

/// Adds the bytes of a reply behind what stands there: the status line with the reason phrase of the
/// status, the fields, Content-Length but for a 204, `Connection: close` where the connection ends, an
/// empty line and the body. Room is taken once. The one error is want of memory, which leaves the
/// bytes as they were.
pub fn render(reply: &Reply, into: &mut Vec<u8>) -> Result<(), NoMemory>
    requires { IsReply reply.now }
    ensures ok { OnOk result (into.new.items ≡ into.old.items ++ bytes_of reply.now) }
    ensures err { OnErr result (into.new.items ≡ into.old.items) }
{
    add(reply, reply.close, into)
}

/// The same without Connection, as a reply stands in a multipart body; its `close` is not looked at.
pub fn render_inner(reply: &Reply, into: &mut Vec<u8>) -> Result<(), NoMemory>
    requires { IsReply reply.now }
    ensures ok { OnOk result (into.new.items ≡ into.old.items ++ inner_bytes reply.now) }
    ensures err { OnErr result (into.new.items ≡ into.old.items) }
{
    add(reply, false, into)
}
