//! The types of properties, as type keys name them.
ghost use Rattle.std.specs.Prelude.{◌≡◌, IfOk, option_map};
ghost use Rattle.serde_json.specs.View.{view};
ghost use Rattle.mt_json.specs.Kind.{kind_named, kind_of, kind_in, is_double};

use mt_model::NoMemory;
use serde_json::Value as Json;
use std::alloc::Global;

/// What the type key of a property says.
#[derive(Clone, Copy, Debug, PartialEq, Eq)]
pub(crate) enum Kind {
    /// There is no type key.
    Untyped,

    /// Edm.String.
    String,

    /// Edm.Boolean.
    Boolean,

    /// Edm.Int32.
    Int32,

    /// Edm.Int64.
    Int64,

    /// Edm.Guid.
    Guid,

    /// Edm.DateTime.
    DateTime,

    /// Edm.Binary.
    Binary,

    /// Edm.Double, which no property may have.
    Double,

    /// Another text, or no text.
    Unknown,
}

/// The type that has the name.
fn kind_named(name: &str) -> Kind
    ensures { result ≡ kind_named name.now }
{
    match name {
        "Edm.String" => Kind::String,
        "Edm.Boolean" => Kind::Boolean,
        "Edm.Int32" => Kind::Int32,
        "Edm.Int64" => Kind::Int64,
        "Edm.Guid" => Kind::Guid,
        "Edm.DateTime" => Kind::DateTime,
        "Edm.Binary" => Kind::Binary,
        "Edm.Double" => Kind::Double,
        _ => Kind::Unknown,
    }
}

/// The type that a type key's value names.
fn kind_of(type_key: Option<&Json>) -> Kind
    ensures { result ≡ kind_of (option_map (λ v. view v.now) type_key.entry) }
{
    match type_key {
        None => Kind::Untyped,
        Some(value) => match value.as_str() {
            Some(name) => kind_named(name),
            None => Kind::Unknown,
        },
    }
}

/// The type of the property of that name in an object.
pub(crate) fn kind_in(alloc: Global, object: &Json, name: &str) -> Result<Kind, NoMemory>
    ensures { IfOk result (λ kind. kind ≡ kind_in (view object.now) name.now) }
{
    let type_key = format!(in alloc; "{name}@odata.type")?;
    Ok(kind_of(object.get(type_key.as_str())))
}

/// Whether it is Edm.Double by its type key, or a number that is no whole number of 64 bits.
pub(crate) fn is_double(kind: Kind, value: &Json) -> bool
    ensures { result ≡ is_double kind (view value.now) }
{
    matches!(kind, Kind::Double) | value.is_f64()
}
