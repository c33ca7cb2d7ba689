//! The level that `$format` and Accept name.
ghost use Rattle.std.specs.Prelude.{◌≡◌, option_copied};
ghost use Rattle.mt_options.specs.Levels.{begins_with, stands_in, named_level, level_by};

use mt_json::Level;

/// Whether the word stands at the front of the value, without regard to ASCII case.
pub fn begins_with(value: &[u8], word: &[u8]) -> bool
    ensures { result ≡ begins_with word.now value.now }
{
    match word {
        [] => true,
        [letter, word @ ..] => match value {
            [] => false,
            [byte, value @ ..] => byte.eq_ignore_ascii_case(letter) && begins_with(value, word),
        },
    }
}

/// Whether the word stands somewhere in the value, without regard to ASCII case.
pub fn stands_in(value: &[u8], word: &[u8]) -> bool
    ensures { result ≡ stands_in word.now value.now }
{
    let mut rest = value;
    'places: loop {
        if begins_with(rest, word) {
            return true;
        }
        match rest {
            [] => return false,
            [_, behind @ ..] => rest = behind,
        }
    }
}

/// The level that a value of `$format` or Accept names: none where `odata=nometadata` stands somewhere
/// in it, without regard to ASCII case, and else minimal.
pub fn named_level(value: &[u8]) -> Level
    ensures { result ≡ named_level value.now }
{
    if stands_in(value, b"odata=nometadata") {
        Level::None
    } else {
        Level::Minimal
    }
}

/// The level of a read: what `$format` names where it is there, else what Accept names, else minimal.
pub fn level_by(format: Option<&[u8]>, accept: Option<&[u8]>) -> Level
    ensures { result ≡ level_by (option_copied format.entry) (option_copied accept.entry) }
{
    match (format, accept) {
        (Some(value), _) => named_level(value),
        (None, Some(value)) => named_level(value),
        (None, None) => Level::Minimal,
    }
}
