//! The members of an entity's object, written into room that is there.
ghost use Rattle.std.specs.Prelude.{◌≡◌, ◌≤◌, ◌^◌, ◌-◌, ◌++◌, ◌∷◌, [], false, min, length};
ghost use Rattle.json.specs.Print.{escape, quoted};
ghost use Rattle.serde_json.specs.Find.{is_float};
ghost use Rattle.serde_json.specs.View.{view, number_view, members_view};
ghost use Rattle.serde_json.specs.Written.{members_text, comma_if, compact_text, number_text};
ghost use Rattle.mt_model.specs.Tag.{tag_text};
ghost use Rattle.mt_json.specs.Tagged.{with_tag, tagged, IsFlat, AreFlat};
ghost use Rattle.mt_json.specs.Draft.{escaped, quoted_digits, HasRoom, Appends};

use crate::quote::{put_bytes, put_quoted, quoted_size};
use itoa::Buffer;
use mt_model::Tag;
use serde_json::{Map, Number, Value as Json};

/// The bytes of a tag inside a JSON string, beside its digits.
const FRAME_BYTES: usize = 7;

/// Writes a tag of these digits, as the JSON string `"W/\"store.n\""`.
fn put_digits(room: &mut Vec<u8>, store: &str, n: &str)
    requires { HasRoom room.old (quoted_digits store.now n.now) }
    ensures { Appends room.old (quoted_digits store.now n.now) room.new }
{
    put_bytes(room, b"\"");
    put_escaped_digits(room, store, n);
    put_bytes(room, b"\"");
}

fn put_escaped_digits(room: &mut Vec<u8>, store: &str, n: &str)
    requires { HasRoom room.old (escaped store.now n.now) }
    ensures { Appends room.old (escaped store.now n.now) room.new }
{
    put_bytes(room, b"W/\\\"");
    put_bytes(room, store.as_bytes());
    put_bytes(room, b".");
    put_bytes(room, n.as_bytes());
    put_bytes(room, b"\\\"");
}

/// Writes the tag as a JSON string.
fn put_tag(room: &mut Vec<u8>, tag: Tag)
    requires { HasRoom room.old (quoted (tag_text tag)) }
    ensures { Appends room.old (quoted (tag_text tag)) room.new }
{
    let mut store = Buffer::new();
    let mut n = Buffer::new();
    put_digits(room, store.format(tag.store), n.format(tag.n));
}

/// The bytes of the tag inside a JSON string.
pub(crate) fn tag_size(tag: Tag) -> usize
    ensures exact { result ≡ length (escape (tag_text tag)) }
    ensures small { result ≤ 37 }
{
    let mut store = Buffer::new();
    let mut n = Buffer::new();
    FRAME_BYTES + store.format(tag.store).len() + n.format(tag.n).len()
}

/// The bytes of a whole number.
fn number_size(n: &Number) -> usize
    requires { is_float (number_view n.now) ≡ false }
    ensures { result ≡ length (number_text (number_view n.now)) }
{
    let mut buffer = Buffer::new();
    match (n.as_u64(), n.as_i64()) {
        (Some(natural), _) => buffer.format(natural).len(),
        (None, Some(whole)) => buffer.format(whole).len(),
        (None, None) => unreachable!(),
    }
}

/// Writes a whole number in decimal.
fn put_number(room: &mut Vec<u8>, n: &Number)
    requires whole { is_float (number_view n.now) ≡ false }
    requires room { HasRoom room.old (number_text (number_view n.now)) }
    ensures { Appends room.old (number_text (number_view n.now)) room.new }
{
    let mut buffer = Buffer::new();
    match (n.as_u64(), n.as_i64()) {
        (Some(natural), _) => put_bytes(room, buffer.format(natural).as_bytes()),
        (None, Some(whole)) => put_bytes(room, buffer.format(whole).as_bytes()),
        (None, None) => unreachable!(),
    }
}

/// The bytes of a value, with the empty text in the tag's place.
fn value_size(value: &Json) -> usize
    requires { IsFlat (view value.now) }
    ensures { result ≡ min (2 ^ 64 - 1) (length (compact_text (with_tag [] (view value.now)))) }
{
    match value {
        Json::Null => 2,
        Json::Bool(true) => 4,
        Json::Bool(false) => 5,
        Json::Number(n) => number_size(n),
        Json::String(text) => quoted_size(text.as_str()),
        Json::Array(_) | Json::Object(_) => unreachable!(),
    }
}

/// Writes a value, with the tag in its place.
fn put_value(room: &mut Vec<u8>, value: &Json, tag: Tag)
    requires flat { IsFlat (view value.now) }
    requires room { HasRoom room.old (compact_text (with_tag (tag_text tag) (view value.now))) }
    ensures { Appends room.old (compact_text (with_tag (tag_text tag) (view value.now))) room.new }
{
    match value {
        Json::Null => put_tag(room, tag),
        Json::Bool(true) => put_bytes(room, b"true"),
        Json::Bool(false) => put_bytes(room, b"false"),
        Json::Number(n) => put_number(room, n),
        Json::String(text) => put_quoted(room, text.as_str()),
        Json::Array(_) | Json::Object(_) => unreachable!(),
    }
}

/// The bytes of a member and, where it is not the first, of the comma before it.
fn member_size(later: bool, name: &str, value: &Json) -> usize
    requires { IsFlat (view value.now) }
    ensures { result ≡ min (2 ^ 64 - 1) (length (comma_if later ++ (quoted name.now ++ 58 ∷ compact_text (with_tag [] (view value.now))))) }
{
    let around = if later { 2 } else { 1 };
    quoted_size(name)
        .saturating_add(value_size(value))
        .saturating_add(around)
}

/// Writes a member and, where it is not the first, a comma before it.
fn put_member(room: &mut Vec<u8>, later: bool, name: &str, value: &Json, tag: Tag)
    requires flat { IsFlat (view value.now) }
    requires room { HasRoom room.old (comma_if later ++ (quoted name.now ++ 58 ∷ compact_text (with_tag (tag_text tag) (view value.now)))) }
    ensures { Appends room.old (comma_if later ++ (quoted name.now ++ 58 ∷ compact_text (with_tag (tag_text tag) (view value.now)))) room.new }
{
    put_bytes(room, if later { b"," } else { b"" });
    put_quoted(room, name);
    put_bytes(room, b":");
    put_value(room, value, tag);
}

/// The bytes of the members and the closing brace, with the empty text in the tag's place.
pub(crate) fn members_size(members: &Map<String, Json>) -> usize
    requires { AreFlat (members_view members.now.entries) }
    ensures { result ≡ min (2 ^ 64 - 1) (length (members_text false (tagged [] (members_view members.now.entries)))) }
{
    let mut size: usize = 0;
    let mut later = false;
    for (name, value) in members.iter() {
        size = size.saturating_add(member_size(later, name.as_str(), value));
        later = true;
    }
    size.saturating_add(1)
}

/// Writes the members in order, and the closing brace.
pub(crate) fn put_members(room: &mut Vec<u8>, members: &Map<String, Json>, tag: Tag)
    requires flat { AreFlat (members_view members.now.entries) }
    requires room { HasRoom room.old (members_text false (tagged (tag_text tag) (members_view members.now.entries))) }
    ensures { Appends room.old (members_text false (tagged (tag_text tag) (members_view members.now.entries))) room.new }
{
    let mut later = false;
    for (name, value) in members.iter() {
        put_member(room, later, name.as_str(), value, tag);
        later = true;
    }
    put_bytes(room, b"}");
}
