//! The operations of a change set, read.
ghost use Rattle.std.specs.Prelude.{◌≡◌, ◌≤◌, ◌++◌, ◌∷◌, [], length, drop, map, IfOk, IfErr, MatchOption, ◌≢◌, option_map, if◌then◌else◌};
ghost use Rattle.httparse.specs.Grammar.{RequestHead, print_request};
ghost use Rattle.mt_http_in.specs.Heads.{HoldsHead};
ghost use Rattle.mt_mime.specs.Headers.{IsInnerHead, HasNoInnerHead};
ghost use Rattle.mt_mime.specs.Changes.{Operation, SpellsOperation, part_of, is_of, boundary_in, bytes_in, ReadsAll, SpellsNone, ChangeSet, SpellsSet, Batch, SpellsBatch, parts_of, HasNoBatch};

use crate::headers::{is_strict, peel_fields};
use crate::media::{boundary_of, has_type};
use crate::split::split_parts;
use mt_http_in::{Fields, Head, Parsed, parse_head};
use mt_model::{Blob, NoMemory, Text};
use std::alloc::Global;

/// One operation of a change set: a request of HTTP/1.1 (RFC 9112).
#[derive(Debug, Drop)]
pub struct Part {
    pub method: Text,

    /// The target, as it stands in the head.
    pub target: Text,

    /// The fields of the head; those of the part around it are left out.
    pub fields: Fields,

    /// What follows the head, up to the line end before the next delimiter.
    pub body: Blob,
}

/// Why there is no change set.
#[derive(Clone, Copy, Debug, PartialEq, Eq)]
pub enum MimeFault {
    /// The body does not spell one.
    Bad,

    /// The allocator had no memory.
    NoMemory,
}

/// Whether the value is there and of that media type.
fn is_of(value: Option<&[u8]>, name: &[u8]) -> bool
    ensures { result ≡ is_of name.now (option_map (λ v. v.now) value.entry) }
{
    match value {
        Some(value) => has_type(value, name),
        None => false,
    }
}

/// The boundary of a Content-Type that may be absent.
fn boundary_in(value: Option<&[u8]>) -> Option<&[u8]>
    ensures { option_map (λ w. w.now) result ≡ boundary_in (option_map (λ v. v.now) value.entry) }
{
    match value {
        Some(value) => boundary_of(value),
        None => None,
    }
}

/// Reads the head that the text begins with.
fn read_head(alloc: Global, text: &[u8]) -> Result<Head, MimeFault>
    ensures head { IfOk result (λ v. (h : RequestHead) × IsInnerHead h × HoldsHead v h × (text.now ≡ print_request h ++ drop v.size text.now) × (v.size ≤ length text.now)) }
    ensures bad { IfErr result (λ e. e ≡ MimeFault.Bad → HasNoInnerHead text.now) }
{
    match parse_head(alloc, text) {
        Ok(Parsed::Whole(head)) => {
            if is_strict(&text[..head.size]) {
                Ok(head)
            } else {
                Err(MimeFault::Bad)
            }
        }
        Ok(Parsed::More) => Err(MimeFault::Bad),
        Ok(Parsed::Bad) => Err(MimeFault::Bad),
        Err(NoMemory) => Err(MimeFault::NoMemory),
    }
}

/// The operation of a head that was read, with that body.
fn part_with(alloc: Global, head: Head, body: &[u8]) -> Result<Part, MimeFault>
    ensures part { IfOk result (λ p. (p.method ≡ head.method) × (p.target ≡ head.target) × (p.fields ≡ head.fields) × (p.body ≡ body.now)) }
    ensures memory { IfErr result (λ e. e ≡ MimeFault.NoMemory) }
{
    match Blob::of(alloc, body) {
        Ok(body) => Ok(Part {
            method: head.method,
            target: head.target,
            fields: head.fields,
            body,
        }),
        Err(NoMemory) => Err(MimeFault::NoMemory),
    }
}

/// Reads the operation in a part of the change set.
fn read_operation(alloc: Global, text: &[u8]) -> Result<Part, MimeFault>
    ensures operation { IfOk result (λ p. (o : Operation) × SpellsOperation text.now o × (p ≡ part_of o)) }
    ensures bad { IfErr result (λ e. e ≡ MimeFault.Bad → (o : Operation) → SpellsOperation text.now o → ⊥) }
{
    let Some(peeled) = peel_fields(text) else {
        return Err(MimeFault::Bad);
    };
    if !is_of(peeled.content_type, b"application/http") {
        return Err(MimeFault::Bad);
    }
    let head = match read_head(alloc, peeled.rest) {
        Ok(head) => head,
        Err(fault) => return Err(fault),
    };
    let size = head.size;
    part_with(alloc, head, &peeled.rest[size..])
}

/// Adds the operation, where there is memory.
fn add(parts: &mut Vec<Part>, part: Part) -> bool
    ensures { parts.new.items ≡ (if result then parts.old.items ++ part ∷ [] else parts.old.items) }
{
    parts.push(part).is_ok()
}

/// Reads the operations in these parts of the change set.
fn read_all(alloc: Global, texts: &[&[u8]]) -> Result<Vec<Part>, MimeFault>
    ensures operations { IfOk result (λ v. ReadsAll (bytes_in texts.now) v.items) }
    ensures bad { IfErr result (λ e. e ≡ MimeFault.Bad → SpellsNone (bytes_in texts.now)) }
{
    let mut parts = Vec::new(alloc);
    for text in texts {
        match read_operation(alloc, text) {
            Ok(part) => {
                if !add(&mut parts, part) {
                    return Err(MimeFault::NoMemory);
                }
            }
            Err(MimeFault::Bad) => return Err(MimeFault::Bad),
            Err(MimeFault::NoMemory) => return Err(MimeFault::NoMemory),
        }
    }
    Ok(parts)
}

/// Reads the change set in the one part of the outer body.
fn read_set(alloc: Global, text: &[u8]) -> Result<Vec<Part>, MimeFault>
    ensures changes { IfOk result (λ v. (s : ChangeSet) × SpellsSet text.now s × (v.items ≡ map part_of s.operations)) }
    ensures bad { IfErr result (λ e. e ≡ MimeFault.Bad → (s : ChangeSet) → SpellsSet text.now s → ⊥) }
{
    let Some(peeled) = peel_fields(text) else {
        return Err(MimeFault::Bad);
    };
    let Some(boundary) = boundary_in(peeled.content_type) else {
        return Err(MimeFault::Bad);
    };
    match split_parts(alloc, boundary, peeled.rest) {
        Ok(texts) => read_all(alloc, &texts),
        Err(fault) => Err(fault),
    }
}

/// The one text, where there is one alone.
fn only<'a>(texts: &[&'a [u8]]) -> Option<&'a [u8]>
    ensures { MatchOption result (length texts.now ≢ 1) (λ t. texts.now ≡ t ∷ []) }
{
    match texts {
        [text] => Some(text),
        _ => None,
    }
}

/// Reads the operations of a change set from the body of a request whose Content-Type has that boundary
/// (`boundary_of`).
///
/// The body is multipart/mixed (RFC 2046) and has one part, of the type multipart/mixed with a boundary
/// of its own. Each part of that is of the type application/http: its fields and an empty line, then a
/// request's head and its body, up to the line end before the next delimiter. Delimiter lines may end in
/// blanks and tabs; what stands before the first delimiter of a body and behind its closing one is not
/// read. The fields of a part, and each head, have at most 64 fields in at most 16,384 bytes; a head has
/// no empty line before it, and their lines end in both bytes. Nothing else of a request is looked at.
///
/// `Bad` comes exactly where the body does not spell one change set, unless memory is wanting. The time is linear in
/// the body's length.
pub fn read_changes(alloc: Global, boundary: &[u8], body: &[u8]) -> Result<Vec<Part>, MimeFault>
    ensures changes { IfOk result (λ v. (b : Batch) × SpellsBatch boundary.now body.now b × (v.items ≡ parts_of b)) }
    ensures bad { IfErr result (λ e. e ≡ MimeFault.Bad → HasNoBatch boundary.now body.now) }
{
    let texts = match split_parts(alloc, boundary, body) {
        Ok(texts) => texts,
        Err(fault) => return Err(fault),
    };
    match only(&texts) {
        Some(text) => read_set(alloc, text),
        None => Err(MimeFault::Bad),
    }
}
