//! The targets of requests.
ghost use Rattle.std.specs.Prelude.{◌≡◌};
ghost use Rattle.mt_target.specs.Quoted.{Found};
ghost use Rattle.mt_target.specs.Options.{behind_authority, origin_of, path_in};
ghost use Rattle.mt_target.specs.Targets.{SpellsIt};

use crate::options::{decode, read_options};
use crate::paths::read_path;
use crate::split::{after, split_once};
use crate::target::Spelled;
use mt_model::NoMemory;
use std::alloc::Global;

/// What follows an authority.
fn after_authority(bytes: &[u8]) -> &[u8]
    ensures { result.now ≡ behind_authority bytes.now }
{
    match bytes.iter().position(|b| *b == b'/' || *b == b'?') {
        Some(at) => &bytes[at..],
        None => &[],
    }
}

/// The path with its options, without scheme and authority.
fn origin_of(target: &str) -> &[u8]
    ensures { result.now ≡ origin_of target.now }
{
    if let Some(rest) = after(target, "http://") {
        return after_authority(rest.as_bytes());
    }
    if let Some(rest) = after(target, "https://") {
        return after_authority(rest.as_bytes());
    }
    target.as_bytes()
}

/// What stands before the options.
fn path_of(origin: &[u8]) -> &[u8]
    ensures { result.now ≡ path_in origin.now }
{
    match split_once(origin, b'?') {
        Some((path, _)) => path,
        None => origin,
    }
}

/// What the target of a request spells (RFC 9112, section 3.2): a path, or an absolute URI with one,
/// whose scheme is `http` or `https` in lower case and whose authority is unread; and options. These
/// stand behind the first `?`, with `&` between them, and an option's name ends at its first `=`.
/// Then the path, each name and each value is decoded from percent-encoding (URL Standard, section
/// 1.3), where `+` stays, and is a text of UTF-8. `None` comes exactly where it spells nothing. The
/// one error is want of memory.
pub fn read_target(alloc: Global, target: &str) -> Result<Option<Spelled>, NoMemory>
    ensures { Found (SpellsIt target.now) result }
{
    let origin = origin_of(target);
    let Some(path) = decode(alloc, path_of(origin))? else {
        return Ok(None);
    };
    let Some(options) = read_options(alloc, origin)? else {
        return Ok(None);
    };
    match read_path(alloc, path.as_str())? {
        Some(target) => Ok(Some(Spelled { target, options })),
        None => Ok(None),
    }
}
