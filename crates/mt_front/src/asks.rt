//! What a request asks for.
ghost use Rattle.std.specs.Prelude.{◌≡◌, IfOk};
ghost use Rattle.mt_front.specs.Fields.{is_atomic};
ghost use Rattle.mt_front.specs.Routes.{route_refusal, route_by};
ghost use Rattle.mt_front.specs.Changes.{CanTry};
ghost use Rattle.mt_front.specs.Asks.{asked_alone, AsksOn, AsksBy, RequestAsks, request_of};

use crate::change_sets::asked_of_changes;
use crate::changes::{Change, change_by};
use crate::fields::is_atomic;
use crate::methods::{Method, read_method};
use crate::pages::{PageRead, asked_of_page};
use crate::reads::{Read, asked_of_row, asked_of_rows};
use crate::refusals::{BadPart, BadRequest};
use crate::routes::{Route, route_by, route_refusal};
use crate::services::{Admin, asked_of_steps};
use crate::writes::{Writes, write_alone};
use mt_http_in::{Field, Incoming};
use mt_model::{NoMemory, Text};
use mt_target::{QueryOption, Spelled, read_target};
use std::alloc::Global;

/// What a request asks for.
#[derive(Drop)]
pub enum Asked {
    /// Operations that are tried together.
    Write(Writes),

    /// Rows of one partition at one time.
    Read(Read),

    /// A page of the table.
    Page(PageRead),

    /// An order to the service.
    Admin(Admin),

    /// Nothing that can be tried.
    Refused(BadRequest),

    /// A change set of which one request cannot be tried.
    RefusedPart(BadPart),
}

/// What a request asks for that stands alone and writes so.
fn asked_alone(alloc: Global, change: Change) -> Result<Asked, NoMemory>
    requires { CanTry change }
    ensures { IfOk result (λ a. a ≡ asked_alone change) }
{
    match change {
        Change::Write { op, echo } => write_alone(alloc, op, echo),
        Change::Refused(refusal) => Ok(Asked::Refused(refusal)),
    }
}

/// What a request of that route asks for.
fn asked_on(
    alloc: Global,
    table: &Text,
    at: Route,
    options: &[QueryOption],
    fields: &[Field],
    bytes: &[u8],
) -> Result<Asked, NoMemory>
    ensures { IfOk result (AsksOn table.now at options.now fields.now bytes.now) }
{
    match at {
        Route::Write(write) => {
            let change = change_by(alloc, write, fields, bytes)?;
            asked_alone(alloc, change)
        }
        Route::Row { pk, rk } => asked_of_row(alloc, pk.as_str(), rk.as_str(), options, fields),
        Route::Rows => asked_of_rows(alloc, options, fields),
        Route::Page => asked_of_page(alloc, options, fields),
        Route::Changes => asked_of_changes(alloc, table, fields, bytes),
        Route::Steps(machine) => Ok(asked_of_steps(machine, options)),
        Route::Seal => Ok(Asked::Admin(Admin::Seal)),
        Route::Status => Ok(Asked::Admin(Admin::Status)),
    }
}

/// What a request asks for whose target spells this: the route's refusals come first.
fn asked_at(
    alloc: Global,
    table: &Text,
    spelled: Spelled,
    method: Option<Method>,
    fields: &[Field],
    bytes: &[u8],
) -> Result<Asked, NoMemory>
    ensures { IfOk result (AsksBy table.now (route_refusal table.now spelled method) (route_by (is_atomic fields.now) spelled.target method) spelled.options fields.now bytes.now) }
{
    if let Some(refusal) = route_refusal(alloc, table, &spelled, method)? {
        return Ok(Asked::Refused(refusal));
    }
    let Spelled { target, options } = spelled;
    match route_by(is_atomic(fields), target, method) {
        Some(at) => asked_on(alloc, table, at, options.as_slice(), fields, bytes),
        None => unreachable!(),
    }
}

/// What a request on the table asks for: operations, rows, a page, an order, or the first refusal. First comes the
/// target: one that spells nothing is refused, then what is not supported, another table's name, a
/// method that the resource does not have, and an option's name that stands twice. Then come the
/// refusals of what the route asks for: of one operation as `change_by` has them, of a change set as
/// `asked_of_changes`, of a read as `asked_of_row`, `asked_of_rows` and `asked_of_page`, of turns of a
/// machine as `asked_of_steps`. The one error is want of memory.
pub fn asked_by(alloc: Global, table: &Text, request: Incoming) -> Result<Asked, NoMemory>
    ensures { IfOk result (RequestAsks table.now (request_of request)) }
{
    let method = read_method(request.method.as_str());
    match read_target(alloc, request.target.as_str())? {
        Some(spelled) => asked_at(
            alloc,
            table,
            spelled,
            method,
            request.fields.as_slice(),
            request.body.as_slice(),
        ),
        None => Ok(Asked::Refused(BadRequest::InvalidUri)),
    }
}
