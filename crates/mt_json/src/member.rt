//! What one member of a body's object gives.
ghost use Rattle.std.specs.Prelude.{◌≡◌, ◌⊎◌, false, Err, IfErr};
ghost use Rattle.serde_json.specs.View.{view};
ghost use Rattle.mt_json.specs.Kind.{kind_in};
ghost use Rattle.mt_json.specs.Body.{is_key, is_ignored, gives_nothing, early_fault, Gives, IsTypedAs, is_repeat};
ghost use Rattle.mt_json.specs.declared.read.JsonFault.TheVariants as fault;

use crate::kind::{Kind, is_double, kind_in};
use crate::read::{JsonFault, KeyUse};
use crate::value::typed_value;
use mt_model::{Name, NameFault, Prop, Text};
use serde_json::Value as Json;
use std::alloc::Global;

fn is_key(name: &str) -> bool
    ensures { result ≡ is_key name.now }
{
    (name == "PartitionKey") | (name == "RowKey")
}

fn is_ignored(name: &str) -> bool
    ensures { result ≡ is_ignored name.now }
{
    let bytes = name.as_bytes();
    bytes.ends_with(b"@odata.type") | bytes.starts_with(b"odata.") | (name == "Timestamp")
}

fn gives_nothing(keys: KeyUse, name: &str, value: &Json) -> bool
    ensures { result ≡ gives_nothing keys name.now (view value.now) }
{
    let unasked = matches!(keys, KeyUse::InTarget) | value.is_string();
    value.is_null() | is_ignored(name) | (is_key(name) & unasked)
}

/// The property, or the fault of its name or its value.
fn read_property(alloc: Global, kind: Kind, name: &str, value: &Json) -> Result<Prop, JsonFault>
    ensures typed { IsTypedAs kind name.now (view value.now) result ⊎ (result ≡ Err fault.NoMemory) }
    ensures distinct { IfErr result (λ f. is_repeat f ≡ false) }
{
    let found = match Name::read(alloc, name) {
        Ok(found) => found,
        Err(NameFault::BadName) => {
            let name = Text::of(alloc, name)?;
            return Err(JsonFault::BadName { name });
        }
        Err(NameFault::NoMemory) => return Err(JsonFault::NoMemory),
    };
    match typed_value(alloc, kind, value)? {
        Some(value) => Ok(Prop { name: found, value }),
        None => {
            let name = Text::of(alloc, name)?;
            Err(JsonFault::BadType { name })
        }
    }
}

/// What a member gives: a property, nothing, or a fault.
pub(crate) fn read_member(
    alloc: Global,
    keys: KeyUse,
    object: &Json,
    name: &str,
    value: &Json,
) -> Result<Option<Prop>, JsonFault>
    ensures gives { Gives keys (kind_in (view object.now) name.now) name.now (view value.now) result
        ⊎ (result ≡ Err fault.NoMemory) }
    ensures distinct { IfErr result (λ f. is_repeat f ≡ false) }
{
    if gives_nothing(keys, name, value) {
        return Ok(None);
    }
    if is_key(name) {
        let name = Text::of(alloc, name)?;
        return Err(JsonFault::BadType { name });
    }
    let kind = kind_in(alloc, object, name)?;
    if is_double(kind, value) {
        let name = Text::of(alloc, name)?;
        return Err(JsonFault::Double { name });
    }
    match read_property(alloc, kind, name, value) {
        Ok(prop) => Ok(Some(prop)),
        Err(fault) => Err(fault),
    }
}
