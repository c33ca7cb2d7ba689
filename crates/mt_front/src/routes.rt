//! The route of a request, from its target and its method, and the refusals that come before it.
ghost use Rattle.std.specs.Prelude.{◌≡◌, IfOk};
ghost use Rattle.mt_front.specs.Routes.{is_system, is_of_row, is_of_rows, is_known, has_unknown, is_list_of_tables, is_built, is_unsupported, is_service, is_no_change, names_another, refusal_by, route_refusal, change_refusal, write_by, read_by, service_route, route_by};

use crate::methods::{Action, Method, action_of, resource_of};
use crate::refusals::BadRequest;
use crate::services::Machine;
use mt_model::{NoMemory, Text, is_same_table};
use mt_target::{Keys, QueryOption, Service, Spelled, Target, has_option, has_repeat};
use std::alloc::Global;

/// A method of a resource that writes one row.
#[derive(Drop)]
pub enum RowWrite {
    /// `POST` on the table.
    Insert,

    /// A method on the entity of these keys.
    Entity { action: Action, pk: Text, rk: Text },
}

/// A method of a resource whose machine is built: a row of the table of requests.
#[derive(Drop)]
pub enum Route {
    /// One that writes one row.
    Write(RowWrite),

    /// `GET` on the entity of these keys.
    Row { pk: Text, rk: Text },

    /// `GET` on the table, of one partition at one time.
    Rows,

    /// `GET` on the table, a page of it.
    Page,

    /// `POST` on `/$batch`.
    Changes,

    /// `POST` on `/$mt/migrate` or `/$mt/clean`: turns of a machine.
    Steps(Machine),

    /// `POST` on `/$mt/seal`.
    Seal,

    /// `GET` on `/$mt/status`.
    Status,
}

/// Whether this is a system option of OData, whose name begins with a dollar sign.
fn is_system(name: &[u8]) -> bool
    ensures { result ≡ is_system name.now }
{
    name.starts_with(b"$")
}

/// Whether reading rows of the table knows the system option of that name.
fn is_of_rows(name: &[u8]) -> bool
    ensures { result ≡ is_of_rows name.now }
{
    name == b"$filter".as_slice() || name == b"$top".as_slice() || is_of_row(name)
}

/// Whether reading one row knows the system option of that name.
fn is_of_row(name: &[u8]) -> bool
    ensures { result ≡ is_of_row name.now }
{
    name == b"$select".as_slice() || name == b"$format".as_slice()
}

/// Whether that method of the target knows the system option of that name.
fn is_known(target: &Target, method: Option<Method>, name: &[u8]) -> bool
    ensures { result ≡ is_known target.now method name.now }
{
    let (Target::Table { keys, .. }, Some(Method::Get)) = (target, method) else {
        return false;
    };
    match keys {
        Keys::Absent | Keys::Empty => is_of_rows(name),
        Keys::Entity { .. } => is_of_row(name),
    }
}

/// Whether some system option is one that the method of the target does not know.
fn has_unknown(target: &Target, method: Option<Method>, options: &[QueryOption]) -> bool
    ensures { result ≡ has_unknown target.now method options.now }
{
    options.iter().any(|option| {
        let name = option.name.as_str().as_bytes();
        is_system(name) && !is_known(target, method, name)
    })
}

fn is_list_of_tables(target: &Target) -> bool
    ensures { result ≡ is_list_of_tables target.now }
{
    match target {
        Target::Tables => true,
        Target::Table { .. } | Target::Service(_) => false,
    }
}

/// Whether the machine of that method of the target is built.
fn is_built(target: &Target, method: Option<Method>) -> bool
    ensures { result ≡ is_built target.now method }
{
    let Some(method) = method else {
        return false;
    };
    match target {
        Target::Table { keys, .. } => match keys {
            Keys::Absent => matches!(method, Method::Post | Method::Get),
            Keys::Empty => matches!(method, Method::Get),
            Keys::Entity { .. } => match method {
                Method::Get => true,
                _ => action_of(method).is_some(),
            },
        },
        Target::Tables => false,
        Target::Service(service) => match service {
            Service::Batch | Service::Migrate | Service::Clean | Service::Seal => {
                matches!(method, Method::Post)
            }
            Service::Status => matches!(method, Method::Get),
        },
    }
}

/// Whether a request is of a kind that is not supported.
fn is_unsupported(spelled: &Spelled, method: Option<Method>) -> bool
    ensures { result ≡ is_unsupported spelled.now method }
{
    let target = &spelled.target;
    let options = spelled.options.as_slice();
    if is_list_of_tables(target) || has_option(options, "comp") || has_option(options, "restype") {
        return true;
    }
    has_unknown(target, method, options)
        || (resource_of(target).allows(method) && !is_built(target, method))
}

fn is_service(target: &Target) -> bool
    ensures { result ≡ is_service target.now }
{
    match target {
        Target::Table { .. } | Target::Tables => false,
        Target::Service(_) => true,
    }
}

/// Whether a request is of a kind that is not supported in a change set: it reads, or it is on no table.
fn is_no_change(spelled: &Spelled, method: Option<Method>) -> bool
    ensures { result ≡ is_no_change spelled.now method }
{
    matches!(method, Some(Method::Get))
        || is_service(&spelled.target)
        || is_unsupported(spelled, method)
}

/// Whether the target names another table.
fn names_another(table: &Text, target: &Target) -> bool
    ensures { result ≡ names_another table.now target.now }
{
    match target {
        Target::Table { name, .. } => !is_same_table(table.as_str(), name.as_str()),
        Target::Tables | Target::Service(_) => false,
    }
}

/// The first refusal that comes of a target and a method, on the table of that name, where the request
/// is of a kind that is not supported or not.
fn refusal_by(
    alloc: Global,
    unsupported: bool,
    table: &Text,
    spelled: &Spelled,
    method: Option<Method>,
) -> Result<Option<BadRequest>, NoMemory>
    ensures { IfOk result (λ r. r ≡ refusal_by unsupported table.now spelled.now method) }
{
    if unsupported {
        return Ok(Some(BadRequest::NotImplemented));
    }
    if names_another(table, &spelled.target) {
        return Ok(Some(BadRequest::TableNotFound));
    }
    let resource = resource_of(&spelled.target);
    if !resource.allows(method) {
        return Ok(Some(BadRequest::MethodNotAllowed(resource)));
    }
    if has_repeat(alloc, spelled.options.as_slice())? {
        return Ok(Some(BadRequest::InvalidQuery));
    }
    Ok(None)
}

/// The first refusal that comes of the target and the method of a request that stands alone, on the
/// table of that name. The one error is want of memory.
pub fn route_refusal(
    alloc: Global,
    table: &Text,
    spelled: &Spelled,
    method: Option<Method>,
) -> Result<Option<BadRequest>, NoMemory>
    ensures { IfOk result (λ r. r ≡ route_refusal table.now spelled.now method) }
{
    refusal_by(
        alloc,
        is_unsupported(spelled, method),
        table,
        spelled,
        method,
    )
}

/// The first refusal that comes of the target and the method of a request in a change set, on the table
/// of that name. The one error is want of memory.
pub fn change_refusal(
    alloc: Global,
    table: &Text,
    spelled: &Spelled,
    method: Option<Method>,
) -> Result<Option<BadRequest>, NoMemory>
    ensures { IfOk result (λ r. r ≡ change_refusal table.now spelled.now method) }
{
    refusal_by(alloc, is_no_change(spelled, method), table, spelled, method)
}

/// The write of one row that the target and the method name, where they name one.
pub fn write_by(target: Target, method: Option<Method>) -> Option<RowWrite>
    ensures { result ≡ write_by target method }
{
    let Target::Table { keys, .. } = target else {
        return None;
    };
    let Some(method) = method else {
        return None;
    };
    match keys {
        Keys::Absent => match method {
            Method::Post => Some(RowWrite::Insert),
            _ => None,
        },
        Keys::Empty => None,
        Keys::Entity { pk, rk } => match action_of(method) {
            Some(action) => Some(RowWrite::Entity { action, pk, rk }),
            None => None,
        },
    }
}

/// The read that a target of `GET` names, where it names one.
fn read_by(atomic: bool, target: Target) -> Option<Route>
    ensures { result ≡ read_by atomic target }
{
    let Target::Table { keys, .. } = target else {
        return None;
    };
    match keys {
        Keys::Absent | Keys::Empty => {
            if atomic {
                Some(Route::Rows)
            } else {
                Some(Route::Page)
            }
        }
        Keys::Entity { pk, rk } => Some(Route::Row { pk, rk }),
    }
}

/// The route that the method of the service names, where it is built.
fn service_route(service: Service, method: Option<Method>) -> Option<Route>
    ensures { result ≡ service_route service method }
{
    let method = method?;
    match service {
        Service::Status => match method {
            Method::Get => Some(Route::Status),
            _ => None,
        },
        Service::Batch => match method {
            Method::Post => Some(Route::Changes),
            _ => None,
        },
        Service::Migrate => match method {
            Method::Post => Some(Route::Steps(Machine::Migrator)),
            _ => None,
        },
        Service::Clean => match method {
            Method::Post => Some(Route::Steps(Machine::Cleaner)),
            _ => None,
        },
        Service::Seal => match method {
            Method::Post => Some(Route::Seal),
            _ => None,
        },
    }
}

/// The route that the target and the method name, where it is built.
pub fn route_by(atomic: bool, target: Target, method: Option<Method>) -> Option<Route>
    ensures { result ≡ route_by atomic target method }
{
    if let Target::Service(service) = target {
        return service_route(service, method);
    }
    if let Some(Method::Get) = method {
        return read_by(atomic, target);
    }
    match write_by(target, method) {
        Some(write) => Some(Route::Write(write)),
        None => None,
    }
}
