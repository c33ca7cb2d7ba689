//! The fields that requests on rows read: If-Match, Prefer, Accept and x-mt-atomic. Of each the first
//! counts.
ghost use Rattle.std.specs.Prelude.{◌≡◌, List, option_map};
ghost use Rattle.mt_chain.specs.declared.op.Op.TheVariants as op;
ghost use Rattle.mt_model.specs.declared.key.Key.{Key};
ghost use Rattle.mt_model.specs.declared.value.Prop.{Prop};
ghost use Rattle.mt_mime.specs.Replies.{HasEcho};
ghost use Rattle.mt_front.specs.Fields.{SaysMatch, IsMatch, FirstSays, prefers_no_content, is_atomic, insert_echo};

use mt_http_in::{Field, first_value, says};
use mt_mime::Echo;
use mt_model::Tag;
use mt_options::level_by;

/// What the field If-Match says (RFC 9110).
#[derive(Clone, Copy, Debug, PartialEq, Eq)]
pub enum IfMatch {
    /// There is no such field.
    Absent,

    /// `*`.
    Any,

    /// A tag as this server writes it.
    Is(Tag),

    /// Anything else.
    Unreadable,
}

fn match_of(value: &[u8]) -> IfMatch
    ensures { SaysMatch value.now result }
{
    if value == b"*".as_slice() {
        return IfMatch::Any;
    }
    match Tag::read(value) {
        Some(tag) => IfMatch::Is(tag),
        None => IfMatch::Unreadable,
    }
}

/// What the value of the first If-Match says.
fn first_match(value: Option<&[u8]>) -> IfMatch
    ensures { FirstSays (option_map (λ v. v.now) value.entry) result }
{
    match value {
        Some(value) => match_of(value),
        None => IfMatch::Absent,
    }
}

/// What the fields say in If-Match: the first one counts.
pub fn read_match(fields: &[Field]) -> IfMatch
    ensures { IsMatch fields.now result }
{
    first_match(first_value(fields, b"if-match"))
}

/// Whether the first Prefer is `return-no-content`, without regard to ASCII case.
fn prefers_no_content(fields: &[Field]) -> bool
    ensures { result ≡ prefers_no_content fields.now }
{
    says(first_value(fields, b"prefer"), b"return-no-content")
}

/// Whether the first x-mt-atomic is `true`, without regard to ASCII case. Any other value is as if the
/// field were not there.
pub fn is_atomic(fields: &[Field]) -> bool
    ensures { result ≡ is_atomic fields.now }
{
    says(first_value(fields, b"x-mt-atomic"), b"true")
}

/// What the reply to an insert shows.
pub fn insert_echo(fields: &[Field]) -> Echo
    ensures echo { result ≡ insert_echo fields.now }
    ensures shows { (key : Key) (props : List Prop) → HasEcho (op.Insert key props) result }
{
    if prefers_no_content(fields) {
        Echo::NoContent
    } else {
        Echo::Entity(level_by(None, first_value(fields, b"accept")))
    }
}
