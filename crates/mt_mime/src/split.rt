//! The parts of a body.
ghost use Rattle.std.specs.Prelude.{◌≡◌, IfOk, IfErr};
ghost use Rattle.mt_mime.specs.Parts.{HasNoParts, Splits, without_end};

use crate::changes::MimeFault;
use crate::marks::{Mark, to_mark};
use std::alloc::Global;

/// The lines without the last line's end.
fn without_end(lines: &[u8]) -> &[u8]
    ensures { result.now ≡ without_end lines.now }
{
    &lines[..lines.len().saturating_sub(2)]
}

/// The bytes of the parts of a multipart body, between the delimiter lines of that boundary (RFC 2046,
/// section 5.1.1).
pub fn split_parts<'a>(
    alloc: Global,
    boundary: &[u8],
    body: &'a [u8],
) -> Result<Vec<&'a [u8]>, MimeFault>
    ensures parts { IfOk result (λ v. Splits boundary.now body.now v.items) }
    ensures bad { IfErr result (λ e. e ≡ MimeFault.Bad → HasNoParts boundary.now body.now) }
{
    let mut parts = Vec::new(alloc);
    let Some(first) = to_mark(body, boundary) else {
        return Err(MimeFault::Bad);
    };
    let mut mark = first;
    'parts: while !mark.closing {
        let Some(rest) = mark.rest else {
            return Err(MimeFault::Bad);
        };
        let Some(next) = to_mark(rest, boundary) else {
            return Err(MimeFault::Bad);
        };
        if parts.push(without_end(next.lines)).is_err() {
            return Err(MimeFault::NoMemory);
        }
        mark = next;
    }
    Ok(parts)
}
