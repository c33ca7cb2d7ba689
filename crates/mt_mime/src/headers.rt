//! Fields and heads inside a part.
ghost use Rattle.std.specs.Prelude.{◌≡◌, length, map, All, IfSome, option_map, MatchOption};
ghost use Rattle.httparse.specs.Spans.{IsHeaderWithin, IsSectionWithin};
ghost use Rattle.mt_http_in.specs.Fields.{first_value};
ghost use Rattle.mt_http_in.specs.Heads.{field_at};
ghost use Rattle.mt_mime.specs.Headers.{is_paired, starts_plain, is_strict, HasNoFields, HasFieldsAt, Peels};

use httparse::Status;
use httparse::spans::{EMPTY_HEADER_SPAN, HeaderSpan, parse_headers};
use mt_http_in::says;

/// The most bytes of a part's fields.
const MAX_BYTES: usize = 16_384;

/// The most fields of a part.
const MAX_FIELDS: usize = 64;

/// What is taken off the front of a part.
#[derive(Clone, Copy)]
pub struct Peeled<'a> {
    /// The value of the first Content-Type.
    pub content_type: Option<&'a [u8]>,

    /// What follows the empty line behind the fields.
    pub rest: &'a [u8],
}

/// Whether each line feed follows a carriage return.
fn is_paired(bytes: &[u8]) -> bool
    ensures { result ≡ is_paired 0 bytes.now }
{
    let mut last = 0u8;
    for byte in bytes {
        if *byte == b'\n' && last != b'\r' {
            return false;
        }
        last = *byte;
    }
    true
}

/// Whether no empty line stands first.
fn starts_plain(bytes: &[u8]) -> bool
    ensures { result ≡ starts_plain bytes.now }
{
    match bytes {
        [first, ..] => *first != b'\r' && *first != b'\n',
        [] => false,
    }
}

/// Whether the head has no empty line before it, and lines that end in both bytes.
pub fn is_strict(head: &[u8]) -> bool
    ensures { result ≡ is_strict head.now }
{
    starts_plain(head) && is_paired(head)
}

/// The value of the first field of that name.
fn value_named<'a>(text: &'a [u8], spans: &[HeaderSpan], name: &[u8]) -> Option<&'a [u8]>
    requires { All (IsHeaderWithin (length text.now)) spans.now }
    ensures { option_map (λ v. v.now) result ≡ first_value name.now (map (field_at text.now) spans.now) }
{
    match spans {
        [] => None,
        [first, rest @ ..] => {
            if says(Some(first.name.of(text)), name) {
                Some(first.value.of(text))
            } else {
                value_named(text, rest, name)
            }
        }
    }
}

/// Where the fields at the front end, and how many they are.
fn find_fields(text: &[u8], room: &mut [HeaderSpan]) -> Option<(usize, usize)>
    requires { length room.old ≡ 64 }
    ensures within { IfSome result (λ r. IsSectionWithin text.now room.new r.0 r.1) }
    ensures fields { MatchOption result (HasNoFields text.now) (λ r. HasFieldsAt text.now room.new r.0 r.1) }
{
    match parse_headers(text, room) {
        Ok(Status::Complete(found)) => {
            if found.0 <= MAX_BYTES && is_paired(&text[..found.0]) {
                Some(found)
            } else {
                None
            }
        }
        Ok(Status::Partial) => None,
        Err(_) => None,
    }
}

/// Takes the fields of a part off its front: at most 64 in at most 16,384 bytes, in the grammar of a
/// request's head (RFC 9112, section 5), in lines that end in both bytes.
pub fn peel_fields(text: &[u8]) -> Option<Peeled<'_>>
    ensures { MatchOption result (HasNoFields text.now) (Peels text.now) }
{
    let mut spans = [EMPTY_HEADER_SPAN; MAX_FIELDS];
    let Some((len, count)) = find_fields(text, &mut spans) else {
        return None;
    };
    let content_type = value_named(text, &spans[..count], b"content-type");
    Some(Peeled {
        content_type,
        rest: &text[len..],
    })
}
