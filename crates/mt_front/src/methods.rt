//! The methods of requests, and those that each resource has.
ghost use Rattle.std.specs.Prelude.{◌≡◌, Some};
ghost use Rattle.mt_front.specs.Methods.{IsMethod, allows, allow_text, resource_of, action_of};

use mt_target::{Keys, Service, Target};

/// A method that some resource has. The names compare exactly.
#[derive(Clone, Copy, Debug, PartialEq, Eq)]
pub enum Method {
    Post,
    Put,
    Merge,
    Patch,
    Delete,
    Get,
}

/// What a target is of, as far as its methods go.
#[derive(Clone, Copy, Debug, PartialEq, Eq)]
pub enum Resource {
    /// A table: `/Orders`.
    Table,

    /// The entities of a table: `/Orders()`.
    Entities,

    /// An entity: `/Orders(PartitionKey='p',RowKey='r')`.
    Entity,

    /// The list of tables, and a table in it: no method is known of it yet.
    Tables,

    /// Something beside the tables.
    Service(Service),
}

/// What is asked for an entity.
#[derive(Clone, Copy, Debug, PartialEq, Eq)]
pub enum Action {
    /// `PUT`: the entity gets these properties.
    Put,

    /// `MERGE` or `PATCH`: it gets these properties over its own.
    Merge,

    /// `DELETE`.
    Delete,
}

/// The method of that name.
pub fn read_method(name: &str) -> Option<Method>
    ensures { IsMethod name.now result }
{
    if name == "POST" {
        return Some(Method::Post);
    }
    if name == "PUT" {
        return Some(Method::Put);
    }
    if name == "MERGE" {
        return Some(Method::Merge);
    }
    if name == "PATCH" {
        return Some(Method::Patch);
    }
    if name == "DELETE" {
        return Some(Method::Delete);
    }
    if name == "GET" {
        return Some(Method::Get);
    }
    None
}

/// What the target is of.
pub fn resource_of(target: &Target) -> Resource
    ensures { result ≡ resource_of target.now }
{
    match target {
        Target::Table { keys, .. } => match keys {
            Keys::Absent => Resource::Table,
            Keys::Empty => Resource::Entities,
            Keys::Entity { .. } => Resource::Entity,
        },
        Target::Tables => Resource::Tables,
        Target::Service(service) => Resource::Service(*service),
    }
}

/// What the method asks for an entity, where that is built.
pub fn action_of(method: Method) -> Option<Action>
    ensures { result ≡ action_of method }
{
    match method {
        Method::Put => Some(Action::Put),
        Method::Merge | Method::Patch => Some(Action::Merge),
        Method::Delete => Some(Action::Delete),
        Method::Post | Method::Get => None,
    }
}

impl Resource {
    /// Whether the resource has that method.
    fn has(self, method: Method) -> bool
        ensures { result ≡ allows self (Some method) }
    {
        match self {
            Resource::Table => matches!(method, Method::Post | Method::Get),
            Resource::Entities | Resource::Service(Service::Status) => {
                matches!(method, Method::Get)
            }
            Resource::Entity => !matches!(method, Method::Post),
            Resource::Tables => false,
            Resource::Service(_) => matches!(method, Method::Post),
        }
    }

    /// Whether the resource has that method. None is a method that no resource has.
    pub fn allows(self, method: Option<Method>) -> bool
        ensures { result ≡ allows self method }
    {
        match method {
            Some(method) => self.has(method),
            None => false,
        }
    }

    /// The value of the field Allow (RFC 9110, section 10.2.1).
    pub fn allow(self) -> &'static str
        ensures { result.now ≡ allow_text self }
    {
        match self {
            Resource::Table => "POST, GET",
            Resource::Entities | Resource::Service(Service::Status) => "GET",
            Resource::Entity => "PUT, MERGE, PATCH, DELETE, GET",
            Resource::Tables => "",
            Resource::Service(_) => "POST",
        }
    }
}
