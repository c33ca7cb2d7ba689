//! Writing the replies to operations that were done, into room that is there.
ghost use Rattle.std.specs.Prelude.{◌≡◌, ◌++◌, ◌∷◌, ℕ, [], true, false, length, codes, decimal};
ghost use Rattle.std.specs.List.{flat_map};
ghost use Rattle.mt_model.specs.Tag.{framed, tag_text};
ghost use Rattle.mt_json.specs.Draft.{HasRoom, Appends};
ghost use Rattle.mt_http_out.specs.Rendering.{line_of, field_lines, head_bytes, bytes_of, bytes_closing};
ghost use Rattle.mt_mime.specs.Replies.{status_by, fields_by, text_by, reply_by, replies_by, part_bytes, changes_body, multipart_field, answer_by};

use crate::forms::Form;
use itoa::Buffer;
use mt_http_out::{put, put_close, put_length, put_line, put_status};
use mt_model::Tag;

/// What stands before the replies of a change set.
pub const OPENING: &[u8] =
    b"--batchresponse_1\r\nContent-Type: multipart/mixed; boundary=changesetresponse_1\r\n\r\n";

/// What stands before each of them.
pub const PART: &[u8] =
    b"--changesetresponse_1\r\nContent-Type: application/http\r\nContent-Transfer-Encoding: binary\r\n\r\n";

/// What stands behind each of them.
pub const PART_END: &[u8] = b"\r\n";

/// What stands behind the last one's end.
pub const CLOSING: &[u8] = b"--changesetresponse_1--\r\n--batchresponse_1--\r\n";

/// Writes the tag of these digits, `W/"store.n"`.
fn put_digits(room: &mut Vec<u8>, store: &str, n: &str)
    requires { HasRoom room.old (framed (store.now ++ 46 ∷ n.now)) }
    ensures { Appends room.old (framed (store.now ++ 46 ∷ n.now)) room.new }
{
    put(room, b"W/\"");
    put(room, store.as_bytes());
    put(room, b".");
    put(room, n.as_bytes());
    put(room, b"\"");
}

fn put_tag(room: &mut Vec<u8>, tag: Tag)
    requires { HasRoom room.old (tag_text tag) }
    ensures { Appends room.old (tag_text tag) room.new }
{
    let mut store = Buffer::new();
    let mut n = Buffer::new();
    put_digits(room, store.format(tag.store), n.format(tag.n));
}

/// Writes the line of the field ETag.
fn put_tag_line(room: &mut Vec<u8>, tag: Tag)
    requires { HasRoom room.old (line_of (codes "ETag") (tag_text tag)) }
    ensures { Appends room.old (line_of (codes "ETag") (tag_text tag)) room.new }
{
    put(room, b"ETag");
    put(room, b": ");
    put_tag(room, tag);
    put(room, b"\r\n");
}

/// Writes the fields of a reply with this tag.
fn put_fields(room: &mut Vec<u8>, form: &Form, tag: Tag)
    requires { HasRoom room.old (field_lines (fields_by form.now tag)) }
    ensures { Appends room.old (field_lines (fields_by form.now tag)) room.new }
{
    match form {
        Form::Created(_) => {
            put_line(room, "Content-Type", "application/json");
            put_tag_line(room, tag);
        }
        Form::NoContent => {
            put_tag_line(room, tag);
            put_line(room, "Preference-Applied", "return-no-content");
        }
        Form::Tagged => put_tag_line(room, tag),
        Form::Gone => {}
    }
}

fn status_by(form: &Form) -> u16
    ensures { result ≡ status_by form.now }
{
    match form {
        Form::Created(_) => 201,
        Form::NoContent | Form::Tagged | Form::Gone => 204,
    }
}

/// The bytes of a reply's body with this tag.
fn text_size(form: &Form, tag: Tag) -> usize
    ensures { result ≡ length (text_by form.now tag) }
{
    match form {
        Form::Created(entity) => entity.size(tag),
        Form::NoContent | Form::Tagged | Form::Gone => 0,
    }
}

/// Writes a reply's body with this tag.
fn put_text(room: &mut Vec<u8>, form: &Form, tag: Tag)
    requires { HasRoom room.old (text_by form.now tag) }
    ensures { Appends room.old (text_by form.now tag) room.new }
{
    match form {
        Form::Created(entity) => entity.write(tag, room),
        Form::NoContent | Form::Tagged | Form::Gone => {}
    }
}

/// Writes the head of a reply with this tag, whose body has that many bytes.
fn put_head(room: &mut Vec<u8>, form: &Form, tag: Tag, size: usize, close: bool)
    requires { HasRoom room.old (head_bytes (status_by form.now) (fields_by form.now tag) size close) }
    ensures { Appends room.old (head_bytes (status_by form.now) (fields_by form.now tag) size close) room.new }
{
    let status = status_by(form);
    put_status(room, status);
    put_fields(room, form, tag);
    put_length(room, status, size);
    put_close(room, close);
    put(room, b"\r\n");
}

/// Writes the reply of a form with this tag.
fn put_reply(room: &mut Vec<u8>, form: &Form, tag: Tag, close: bool)
    requires { HasRoom room.old (bytes_of (reply_by form.now tag close)) }
    ensures { Appends room.old (bytes_of (reply_by form.now tag close)) room.new }
{
    put_head(room, form, tag, text_size(form, tag), close);
    put_text(room, form, tag);
}

/// Writes a reply as part of a change set, without Connection.
fn put_part(room: &mut Vec<u8>, form: &Form, tag: Tag)
    requires { HasRoom room.old (part_bytes (reply_by form.now tag false)) }
    ensures { Appends room.old (part_bytes (reply_by form.now tag false)) room.new }
{
    put(room, PART);
    put_reply(room, form, tag, false);
    put(room, PART_END);
}

fn put_parts(room: &mut Vec<u8>, forms: &[Form], tags: &[Tag])
    requires count { length tags.now ≡ length forms.now }
    requires room { HasRoom room.old (flat_map part_bytes (replies_by forms.now tags.now)) }
    ensures { Appends room.old (flat_map part_bytes (replies_by forms.now tags.now)) room.new }
{
    for at in 0..forms.len() {
        put_part(room, &forms[at], tags[at]);
    }
}

/// Writes the body of a change set's reply.
fn put_body(room: &mut Vec<u8>, forms: &[Form], tags: &[Tag])
    requires count { length tags.now ≡ length forms.now }
    requires room { HasRoom room.old (changes_body (replies_by forms.now tags.now)) }
    ensures { Appends room.old (changes_body (replies_by forms.now tags.now)) room.new }
{
    put(room, OPENING);
    put_parts(room, forms, tags);
    put(room, CLOSING);
}

/// Writes the head of a change set's reply, whose body has that many bytes.
fn put_outer_head(room: &mut Vec<u8>, size: usize, close: bool)
    requires { HasRoom room.old (head_bytes 202 (multipart_field ∷ []) size close) }
    ensures { Appends room.old (head_bytes 202 (multipart_field ∷ []) size close) room.new }
{
    put_status(room, 202);
    put_line(
        room,
        "Content-Type",
        "multipart/mixed; boundary=batchresponse_1",
    );
    put_length(room, 202, size);
    put_close(room, close);
    put(room, b"\r\n");
}

/// Writes the reply to one operation alone.
pub fn put_one(room: &mut Vec<u8>, forms: &[Form], tags: &[Tag], close: bool)
    requires one { length forms.now ≡ 1 }
    requires count { length tags.now ≡ length forms.now }
    requires room { HasRoom room.old (answer_by false close forms.now tags.now) }
    ensures { Appends room.old (answer_by false close forms.now tags.now) room.new }
{
    if let [form, ..] = forms {
        if let [tag, ..] = tags {
            put_reply(room, form, *tag, close);
        }
    }
}

/// Writes the reply to a change set into an empty room: first the body, whose length the head says, and
/// then the head, which is moved to the front.
pub fn put_set(room: &mut Vec<u8>, forms: &[Form], tags: &[Tag], close: bool)
    requires count { length tags.now ≡ length forms.now }
    requires empty { room.old.items ≡ [] }
    requires room { HasRoom room.old (answer_by true close forms.now tags.now) }
    ensures { room.new.items ≡ answer_by true close forms.now tags.now }
{
    put_body(room, forms, tags);
    let size = room.len();
    put_outer_head(room, size, close);
    room.rotate_left(size);
}
