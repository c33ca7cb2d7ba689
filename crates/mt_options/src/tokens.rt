//! Tokens: where the page after another one begins.
ghost use Rattle.std.specs.Prelude.{◌≡◌, ◌≢◌, ◌++◌, List, ℕ, [], None, Some, IsUtf8, IfOk, MatchOption, codes, option_copied};
ghost use Rattle.base64.specs.Engines.{url_safe_no_pad};
ghost use Rattle.base64.specs.GeneralPurpose.{encode_of};
ghost use Rattle.mt_model.specs.Key.{key_fault};
ghost use Rattle.mt_target.specs.Quoted.{Found};
ghost use Rattle.mt_options.specs.Tokens.{marked, IsMarked, IsKey, partition_text, row_text, Spells, read_as, ReadsToken};

use base64::DecodeAllocError;
use base64::engine::general_purpose::URL_SAFE_NO_PAD;
use mt_model::{Key, KeyFault, NoMemory, Text};
use std::alloc::Global;

/// Where a page begins.
#[derive(Drop)]
pub enum Token {
    /// At the first row of the first partition from that key on.
    From { pk: Text },

    /// Past that row.
    After { pk: Text, rk: Text },

    /// Past that partition.
    Past { pk: Text },
}

/// What the values of `NextPartitionKey` and `NextRowKey` say.
#[derive(Drop)]
pub enum TokenRead {
    /// Neither is there.
    Absent,

    /// They are this token.
    Is(Token),

    /// They are no token.
    Unreadable,
}

/// The mark of a partition from which a page begins, and of a row.
const HERE: &str = "1!";

/// The mark of a partition past which a page begins.
const PAST: &str = "2!";

/// What follows the mark, where the text begins with it.
fn behind<'a>(text: &'a str, mark: &str) -> Option<&'a str>
    ensures { MatchOption result ((rest : List ℕ) → text.now ≢ mark.now ++ rest) (λ rest. text.now ≡ mark.now ++ rest.now) }
{
    text.strip_prefix(mark)
}

/// The bytes as a text, where they are one.
fn text_of(bytes: Vec<u8>) -> Option<Text>
    ensures { MatchOption result (IsUtf8 bytes.items → ⊥) (λ text. (text ≡ bytes.items) × IsUtf8 bytes.items) }
{
    match String::from_utf8(bytes) {
        Ok(text) => Some(Text::from_string(text)),
        Err(_) => None,
    }
}

/// The text that is encoded so.
fn decode(alloc: Global, encoded: &[u8]) -> Result<Option<Text>, NoMemory>
    ensures { Found (λ text. (encoded.now ≡ encode_of url_safe_no_pad text) × IsUtf8 text) result }
{
    match URL_SAFE_NO_PAD.decode(alloc, encoded) {
        Ok(bytes) => Ok(text_of(bytes)),
        Err(DecodeAllocError::DecodeError(_)) => Ok(None),
        Err(DecodeAllocError::OutOfMemory) => Err(NoMemory),
    }
}

/// The text that is encoded behind the mark.
fn read_marked(alloc: Global, text: &Text, mark: &str) -> Result<Option<Text>, NoMemory>
    ensures { Found (IsMarked mark.now text.now) result }
{
    match behind(text.as_str(), mark) {
        Some(encoded) => decode(alloc, encoded.as_bytes()),
        None => Ok(None),
    }
}

/// The key of the two texts, where they are one.
fn key_of(alloc: Global, pk: &str, rk: &str) -> Result<Option<Key>, NoMemory>
    ensures { Found (λ key. (key.pk ≡ pk.now) × (key.rk ≡ rk.now) × (key_fault pk.now rk.now ≡ None)) result }
{
    match Key::read(alloc, pk, rk) {
        Ok(key) => Ok(Some(key)),
        Err(KeyFault::NoMemory) => Err(NoMemory),
        Err(_) => Ok(None),
    }
}

/// The partition key that is encoded behind the mark.
fn read_partition(alloc: Global, text: &Text, mark: &str) -> Result<Option<Text>, NoMemory>
    ensures { Found (λ pk. (text.now ≡ marked mark.now pk) × IsKey pk []) result }
{
    let Some(pk) = read_marked(alloc, text, mark)? else {
        return Ok(None);
    };
    match key_of(alloc, pk.as_str(), "")? {
        Some(key) => Ok(Some(key.pk)),
        None => Ok(None),
    }
}

/// The token of one text: from a partition on, or past it.
fn read_place(alloc: Global, text: &Text) -> Result<Option<Token>, NoMemory>
    ensures { Found (Spells (Some text.now) None) result }
{
    if let Some(pk) = read_partition(alloc, text, HERE)? {
        return Ok(Some(Token::From { pk }));
    }
    match read_partition(alloc, text, PAST)? {
        Some(pk) => Ok(Some(Token::Past { pk })),
        None => Ok(None),
    }
}

/// The token of two texts: past a row.
fn read_row(alloc: Global, pk: &Text, rk: &Text) -> Result<Option<Token>, NoMemory>
    ensures { Found (Spells (Some pk.now) (Some rk.now)) result }
{
    let Some(pk) = read_marked(alloc, pk, HERE)? else {
        return Ok(None);
    };
    let Some(rk) = read_marked(alloc, rk, HERE)? else {
        return Ok(None);
    };
    match key_of(alloc, pk.as_str(), rk.as_str())? {
        Some(key) => Ok(Some(Token::After {
            pk: key.pk,
            rk: key.rk,
        })),
        None => Ok(None),
    }
}

fn read_as(token: Option<Token>) -> TokenRead
    ensures { result ≡ read_as token }
{
    match token {
        Some(token) => TokenRead::Is(token),
        None => TokenRead::Unreadable,
    }
}

/// What the values of `NextPartitionKey` and `NextRowKey` say. `1!` and a key in URL-safe base64
/// without padding (RFC 4648) is the partition from which the page begins, and with a row key in the
/// same form the row past which it begins; `2!` and a key is the partition past which it begins.
/// [`TokenRead::Unreadable`] comes exactly where there is a value and they are no token: without a
/// partition key, with other marks, with text that is not canonical base64, and where what is decoded
/// is not UTF-8 or breaks the rules of [`Key::read`]. The one error is want of memory.
pub fn read_token(
    alloc: Global,
    pk: Option<&Text>,
    rk: Option<&Text>,
) -> Result<TokenRead, NoMemory>
    ensures { ReadsToken (option_copied pk.entry) (option_copied rk.entry) result }
{
    match (pk, rk) {
        (None, None) => Ok(TokenRead::Absent),
        (None, Some(_)) => Ok(TokenRead::Unreadable),
        (Some(pk), None) => Ok(read_as(read_place(alloc, pk)?)),
        (Some(pk), Some(rk)) => Ok(read_as(read_row(alloc, pk, rk)?)),
    }
}

fn write_marked(alloc: Global, mark: &str, key: &Text) -> Result<Text, NoMemory>
    ensures { IfOk result (λ text. text ≡ marked mark.now key.now) }
{
    let mut text = String::from_str(alloc, mark)?;
    URL_SAFE_NO_PAD.encode_string(key.as_str().as_bytes(), &mut text)?;
    Ok(Text::from_string(text))
}

/// The values of `NextPartitionKey` and, where the token names a row, of `NextRowKey`, from which
/// [`read_token`] reads the token again. The one error is want of memory.
pub fn write_token(alloc: Global, token: &Token) -> Result<(Text, Option<Text>), NoMemory>
    ensures partition { IfOk result (λ texts. texts.0 ≡ partition_text token.now) }
    ensures row { IfOk result (λ texts. texts.1 ≡ row_text token.now) }
{
    match token {
        Token::From { pk } => Ok((write_marked(alloc, HERE, pk)?, None)),
        Token::After { pk, rk } => {
            let partition = write_marked(alloc, HERE, pk)?;
            let row = write_marked(alloc, HERE, rk)?;
            Ok((partition, Some(row)))
        }
        Token::Past { pk } => Ok((write_marked(alloc, PAST, pk)?, None)),
    }
}
