//! Literals between quotes, and what may stand in them.
ghost use Rattle.std.specs.Prelude.{◌≡◌, ◌<◌, ℕ, List, MatchOption, IfSome, slice_index, length};
ghost use Rattle.std.specs.List.{list_all};
ghost use Rattle.std.specs.Char.{is_ascii_hexdigit};
ghost use Rattle.mt_filter.specs.Quoted.{doubled, Closes, quoted_by, is_hex};
ghost use Rattle.uuid.specs.Text.{parsed_hyphenated};

use uuid::Uuid;

/// What a literal between quotes is.
#[derive(Clone, Copy, Debug, PartialEq, Eq)]
pub enum Quoted {
    Text,
    Moment,
    Guid,
    Binary,
}

/// What a literal is whose quotes stand right after this word.
pub fn quoted_by(word: &str) -> Option<Quoted>
    ensures { result ≡ quoted_by word.now }
{
    if word == "datetime" {
        Some(Quoted::Moment)
    } else if word == "guid" {
        Some(Quoted::Guid)
    } else if (word == "X") | (word == "binary") {
        Some(Quoted::Binary)
    } else {
        None
    }
}

/// The place of the quote that ends the inside which begins at the front. A doubled quote is a
/// quote of the inside.
pub fn closing_quote(bytes: &[u8]) -> Option<usize>
    ensures value { MatchOption result ((text : List ℕ) → Closes bytes.now text → ⊥)
        (λ n. (text : List ℕ) × Closes bytes.now text × (n ≡ length (doubled text))) }
    ensures quote { IfSome result (λ n. (n < length bytes.now) × (slice_index bytes.now n ≡ 39)) }
{
    let mut at = 0;
    while at < bytes.len() {
        if bytes[at] != b'\'' {
            at += 1;
        } else if at + 1 < bytes.len() && bytes[at + 1] == b'\'' {
            at += 2;
        } else {
            return Some(at);
        }
    }
    None
}

fn are_hex_digits(inside: &[u8]) -> bool
    ensures { result ≡ list_all is_ascii_hexdigit inside.now }
{
    inside.iter().all(|b| b.is_ascii_hexdigit())
}

/// Whether all are hexadecimal digits of either case, two for each byte.
pub fn is_hex(inside: &[u8]) -> bool
    ensures { result ≡ is_hex inside.now }
{
    (inside.len() % 2 == 0) & are_hex_digits(inside)
}

/// The 16 bytes of a guid of 8-4-4-4-12 hexadecimal digits of either case, the textual form of RFC
/// 9562, in the order in which the text shows them.
pub fn guid_of(inside: &str) -> Option<[u8; 16]>
    ensures { result ≡ parsed_hyphenated inside.now }
{
    if inside.len() != 36 {
        return None;
    }
    match Uuid::parse_str(inside) {
        Ok(id) => Some(id.into_bytes()),
        Err(_) => None,
    }
}
