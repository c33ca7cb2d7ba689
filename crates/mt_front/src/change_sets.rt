//! What a change set asks for: the operations of its requests together, or the first refusal.
ghost use Rattle.std.specs.Prelude.{◌≡◌, option_map, IfOk};
ghost use Rattle.mt_front.specs.Routes.{change_refusal, write_by};
ghost use Rattle.mt_front.specs.Changes.{CanTry};
ghost use Rattle.mt_front.specs.ChangeSets.{ChangeBy, AsksPart, AsksSet, boundary_by, AsksChanges, AsksWithin};

use crate::asks::Asked;
use crate::changes::{Change, change_by};
use crate::methods::{Method, read_method};
use crate::refusals::{BadPart, BadRequest};
use crate::routes::{change_refusal, write_by};
use crate::writes::write_together;
use mt_http_in::{Field, first_value};
use mt_mime::{MimeFault, Part, boundary_of, read_changes};
use mt_model::{NoMemory, Text};
use mt_target::{Spelled, read_target};
use std::alloc::Global;

/// What a request of a change set asks for whose target spells this: the route's refusals come first.
fn change_at(
    alloc: Global,
    table: &Text,
    spelled: Spelled,
    method: Option<Method>,
    fields: &[Field],
    bytes: &[u8],
) -> Result<Change, NoMemory>
    ensures asks { IfOk result (ChangeBy (change_refusal table.now spelled method) (write_by spelled.target method) fields.now bytes.now) }
    ensures may { IfOk result CanTry }
{
    if let Some(refusal) = change_refusal(alloc, table, &spelled, method)? {
        return Ok(Change::Refused(refusal));
    }
    match write_by(spelled.target, method) {
        Some(write) => change_by(alloc, write, fields, bytes),
        None => unreachable!(),
    }
}

/// What a request of a change set asks for.
fn change_of(alloc: Global, table: &Text, part: &Part) -> Result<Change, NoMemory>
    ensures asks { IfOk result (AsksPart table.now part.now) }
    ensures may { IfOk result CanTry }
{
    let method = read_method(part.method.as_str());
    match read_target(alloc, part.target.as_str())? {
        Some(spelled) => change_at(
            alloc,
            table,
            spelled,
            method,
            part.fields.as_slice(),
            part.body.as_slice(),
        ),
        None => Ok(Change::Refused(BadRequest::InvalidUri)),
    }
}

/// What the requests of a change set ask for together.
fn asked_together(alloc: Global, table: &Text, parts: &[Part]) -> Result<Asked, NoMemory>
    ensures { IfOk result (AsksSet table.now parts.now) }
{
    let mut ops = Vec::new(alloc);
    let mut echoes = Vec::new(alloc);
    for (index, part) in parts.iter().enumerate() {
        match change_of(alloc, table, part)? {
            Change::Write { op, echo } => {
                ops.push(op)?;
                echoes.push(echo)?;
            }
            Change::Refused(refusal) => {
                return Ok(Asked::RefusedPart(BadPart {
                    index: index as u64,
                    refusal,
                }));
            }
        }
    }
    write_together(alloc, ops, echoes)
}

/// What a body of that boundary asks for.
fn asked_within(
    alloc: Global,
    table: &Text,
    boundary: &[u8],
    body: &[u8],
) -> Result<Asked, NoMemory>
    ensures { IfOk result (AsksWithin table.now boundary.now body.now) }
{
    match read_changes(alloc, boundary, body) {
        Ok(parts) => asked_together(alloc, table, parts.as_slice()),
        Err(MimeFault::Bad) => Ok(Asked::Refused(BadRequest::InvalidBatch)),
        Err(MimeFault::NoMemory) => Err(NoMemory),
    }
}

/// The boundary that the fields tell.
fn boundary_by(fields: &[Field]) -> Option<&[u8]>
    ensures { option_map (λ b. b.now) result ≡ boundary_by fields.now }
{
    match first_value(fields, b"content-type") {
        Some(value) => boundary_of(value),
        None => None,
    }
}

/// What a `POST` on `/$batch` with those fields and that body asks for: that the operations of its
/// change set are tried together, or the first refusal. First comes that the body is no change set of
/// the boundary that Content-Type tells, which is refused as a whole; then the refusals of its
/// requests, each as if it stood alone, but that none may read or be on a service; then those of
/// `mt_rules::check_batch`. The one error is want of memory.
pub fn asked_of_changes(
    alloc: Global,
    table: &Text,
    fields: &[Field],
    body: &[u8],
) -> Result<Asked, NoMemory>
    ensures { IfOk result (AsksChanges table.now fields.now body.now) }
{
    match boundary_by(fields) {
        Some(boundary) => asked_within(alloc, table, boundary, body),
        None => Ok(Asked::Refused(BadRequest::InvalidBatch)),
    }
}
