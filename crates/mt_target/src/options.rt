//! The options of a target.
ghost use Rattle.std.specs.Prelude.{◌≡◌, IfOk, map};
ghost use Rattle.std.specs.List.{slice_split};
ghost use Rattle.percent_encoding.specs.Percent as percent;
ghost use Rattle.mt_target.specs.Options.{is_ampersand, option_in, options_in, has_option, has_repeat, DecodedAs, OptionAs, OptionsAs, FirstPiece};

use crate::split::split_once;
use crate::target::{QueryOption, QueryOptions};
use mt_model::{NoMemory, Text};
use percent_encoding::{DecodeError, percent_decode};
use std::alloc::Global;
use std::collections::BTreeSet;

/// The text that percent-encoding spells in these bytes, where it is one.
pub fn decode(alloc: Global, bytes: &[u8]) -> Result<Option<Text>, NoMemory>
    ensures { DecodedAs (percent.percent_decode bytes.now) result }
{
    match percent_decode(bytes).decode_utf8(alloc) {
        Ok(text) => Ok(Some(Text::from_string(text.into_owned(alloc)?))),
        Err(DecodeError::Utf8(_)) => Ok(None),
        Err(DecodeError::OutOfMemory) => Err(NoMemory),
    }
}

/// The option of a name and a value that are not decoded yet.
fn decode_option(alloc: Global, name: &[u8], value: &[u8]) -> Result<Option<QueryOption>, NoMemory>
    ensures { OptionAs (record { name = percent.percent_decode name.now; value = percent.percent_decode value.now }) result }
{
    let Some(name) = decode(alloc, name)? else {
        return Ok(None);
    };
    let Some(value) = decode(alloc, value)? else {
        return Ok(None);
    };
    Ok(Some(QueryOption { name, value }))
}

/// The option that a piece between ampersands spells.
fn read_option(alloc: Global, piece: &[u8]) -> Result<Option<QueryOption>, NoMemory>
    ensures { OptionAs (option_in piece.now) result }
{
    match split_once(piece, b'=') {
        Some((name, value)) => decode_option(alloc, name, value),
        None => decode_option(alloc, piece, b""),
    }
}

/// The first piece between ampersands, and what follows it.
fn first_piece(text: &[u8]) -> (&[u8], Option<&[u8]>)
    ensures { FirstPiece text.now result.0.now result.1 }
{
    match split_once(text, b'&') {
        Some((piece, behind)) => (piece, Some(behind)),
        None => (text, None),
    }
}

/// The options between ampersands.
fn read_pieces(alloc: Global, text: &[u8]) -> Result<Option<QueryOptions>, NoMemory>
    ensures { OptionsAs (map option_in (slice_split is_ampersand text.now)) result }
{
    let mut options = Vec::new(alloc);
    let mut rest = text;
    'pieces: loop {
        let (piece, behind) = first_piece(rest);
        let Some(option) = read_option(alloc, piece)? else {
            return Ok(None);
        };
        options.push(option)?;
        match behind {
            Some(behind) => rest = behind,
            None => return Ok(Some(QueryOptions::of(options))),
        }
    }
}

/// The options of a path with its options.
pub fn read_options(alloc: Global, origin: &[u8]) -> Result<Option<QueryOptions>, NoMemory>
    ensures { OptionsAs (options_in origin.now) result }
{
    match split_once(origin, b'?') {
        Some((_, text)) => read_pieces(alloc, text),
        None => Ok(Some(QueryOptions::of(Vec::new(alloc)))),
    }
}

/// Whether some option has that name.
pub fn has_option(options: &[QueryOption], name: &str) -> bool
    ensures { result ≡ has_option name.now options.now }
{
    options.iter().any(|option| name == option.name.as_str())
}

/// Whether some name stands twice. The one error is want of memory.
pub fn has_repeat(alloc: Global, options: &[QueryOption]) -> Result<bool, NoMemory>
    ensures { IfOk result (λ r. r ≡ has_repeat options.now) }
{
    let mut seen = BTreeSet::new(alloc);
    for option in options {
        match seen.insert(option.name.as_str()) {
            Ok(true) => {}
            Ok(false) => return Ok(true),
            Err(_) => return Err(NoMemory),
        }
    }
    Ok(false)
}
