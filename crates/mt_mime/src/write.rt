//! Writing given replies as the body of a change set's reply.
ghost use Rattle.std.specs.Prelude.{◌≡◌, ◌++◌, All, IfOk, OnOk};
ghost use Rattle.std.specs.List.{flat_map};
ghost use Rattle.mt_http_out.specs.Rendering.{IsReply};
ghost use Rattle.mt_mime.specs.Replies.{part_bytes, changes_body};

use crate::replying::{CLOSING, OPENING, PART, PART_END};
use mt_http_out::{Reply, render_inner};
use mt_model::{Blob, NoMemory};
use std::alloc::Global;

fn add(body: &mut Vec<u8>, bytes: &[u8]) -> Result<(), NoMemory>
    ensures { OnOk result (body.new.items ≡ body.old.items ++ bytes.now) }
{
    body.extend_from_slice(bytes)?;
    Ok(())
}

/// Adds a reply as a part.
fn add_part(body: &mut Vec<u8>, reply: &Reply) -> Result<(), NoMemory>
    requires { IsReply reply.now }
    ensures { OnOk result (body.new.items ≡ body.old.items ++ part_bytes reply.now) }
{
    add(body, PART)?;
    render_inner(reply, body)?;
    add(body, PART_END)
}

/// Adds the replies as parts, in their order.
fn add_parts(body: &mut Vec<u8>, replies: &[Reply]) -> Result<(), NoMemory>
    requires { All IsReply replies.now }
    ensures { OnOk result (body.new.items ≡ body.old.items ++ flat_map part_bytes replies.now) }
{
    for reply in replies {
        add_part(body, reply)?;
    }
    Ok(())
}

/// The body of the reply to a change set (multipart/mixed, RFC 2046, with the boundary
/// `batchresponse_1`), whose operations are answered so. Connection is left out of each. The one error
/// is want of memory.
pub fn write_changes(alloc: Global, parts: &Vec<Reply>) -> Result<Blob, NoMemory>
    requires { All IsReply parts.now.items }
    ensures { IfOk result (λ b. b ≡ changes_body parts.now.items) }
{
    let mut body = Vec::new(alloc);
    add(&mut body, OPENING)?;
    add_parts(&mut body, parts)?;
    add(&mut body, CLOSING)?;
    Blob::of(alloc, &body)
}
