//! From the bytes of a body to keys and properties.
ghost use Rattle.std.specs.Prelude.{◌≡◌, ◌⊎◌, false, Ok, Err, IfOk, IfErr, OnOk, ◌++◌, ◌∷◌, []};
ghost use Rattle.serde_json.specs.View.{view, members_view};
ghost use Rattle.mt_json.specs.Body.{Reads, HasNoReading, key_name, key_text, missing_part, missing_key, AllGive, Builds, GivesBody, ReadsAs, is_repeat};
ghost use Rattle.std.specs.List.{list_any};
ghost use Rattle.mt_model.specs.Name.{is_hidden};
ghost use Rattle.mt_model.specs.Props.{RisingNames};
ghost use Rattle.mt_json.specs.declared.read.JsonFault.TheVariants as fault;

use crate::member::read_member;
use mt_model::{KeyPart, NoMemory, Prop, Props, PropsFault, Text};
use serde_json::Value as Json;
use std::alloc::Global;
use std::collections::BTreeMap;

/// Where the keys of a row stand.
#[derive(Clone, Copy, Debug, PartialEq, Eq)]
pub enum KeyUse {
    /// In the body, as the members `PartitionKey` and `RowKey`.
    InBody,

    /// In the request's target. Members of these names are ignored.
    InTarget,
}

/// What a body names.
#[derive(Debug, Drop)]
pub struct Body {
    /// The partition key, as the body has it; `None` where it stands in the target.
    pub pk: Option<Text>,

    /// The row key likewise.
    pub rk: Option<Text>,

    /// The properties.
    pub props: Props,
}

/// Why a body is refused, in the order in which the faults are looked for. Of the faults of members,
/// `Double`, `BadName` and `BadType`, the one at the first name in byte order is told, and at one
/// name they are tried in this order.
#[derive(Debug, Drop)]
pub enum JsonFault {
    /// The bytes are no JSON text that `serde_json` reads.
    Syntax,

    /// The value is no object.
    NotObject,

    /// With `KeyUse::InBody`, the key of this part is absent or null.
    MissingKey { part: KeyPart },

    /// The type is Edm.Double, or the value is a number that is no whole number of 64 bits.
    Double { name: Text },

    /// The name is none that a client may give.
    BadName { name: Text },

    /// The value does not have its type, or a key is no text.
    BadType { name: Text },

    /// The properties break a rule together.
    Props(PropsFault),

    /// There was no memory.
    NoMemory,
}

impl From<NoMemory> for JsonFault {
    ghost use Rattle.mt_json.specs.declared.read.JsonFault.TheVariants.{NoMemory};

    ghost from_gives = { λ _ e. e ≡ NoMemory };

    fn from(_e: NoMemory) -> JsonFault {
        JsonFault::NoMemory
    }
}

fn parse(alloc: Global, bytes: &[u8]) -> Result<Json, JsonFault>
    ensures ok { IfOk result (λ v. Reads bytes.now (view v)) }
    ensures err { IfErr result (λ f. ((f ≡ fault.Syntax) × HasNoReading bytes.now) ⊎ (f ≡ fault.NoMemory)) }
{
    match Json::from_slice(alloc, bytes) {
        Ok(value) => Ok(value),
        Err(e) => {
            if e.is_memory() {
                Err(JsonFault::NoMemory)
            } else {
                Err(JsonFault::Syntax)
            }
        }
    }
}

/// The name of the member that holds a part of the key.
fn key_name(part: KeyPart) -> &'static str
    ensures { result.now ≡ key_name part }
{
    match part {
        KeyPart::Partition => "PartitionKey",
        KeyPart::Row => "RowKey",
    }
}

/// The part, where its member is absent or null.
fn missing_part(object: &Json, part: KeyPart) -> Option<KeyPart>
    ensures { result ≡ missing_part (view object.now) part }
{
    match object.get(key_name(part)) {
        Some(value) if !value.is_null() => None,
        _ => Some(part),
    }
}

fn missing_key(keys: KeyUse, object: &Json) -> Option<KeyPart>
    ensures { result ≡ missing_key keys (view object.now) }
{
    match keys {
        KeyUse::InTarget => None,
        KeyUse::InBody => match missing_part(object, KeyPart::Partition) {
            Some(part) => Some(part),
            None => missing_part(object, KeyPart::Row),
        },
    }
}

/// The text of a key that stands in the body.
fn key_text(
    alloc: Global,
    keys: KeyUse,
    object: &Json,
    part: KeyPart,
) -> Result<Option<Text>, NoMemory>
    ensures { IfOk result (λ text. text ≡ key_text keys (view object.now) part) }
{
    match keys {
        KeyUse::InTarget => Ok(None),
        KeyUse::InBody => match object.get(key_name(part)).and_then(Json::as_str) {
            Some(text) => Ok(Some(Text::of(alloc, text)?)),
            None => Ok(None),
        },
    }
}

/// The properties of the members, or the first fault of one.
fn read_members(
    alloc: Global,
    keys: KeyUse,
    object: &Json,
    members: &BTreeMap<String, Json>,
) -> Result<Vec<Prop>, JsonFault>
    ensures ok { IfOk result (λ v. AllGive keys (view object.now) [] (members_view members.now.entries) (Ok v.items)) }
    ensures rising { IfOk result (λ v. RisingNames v.items) }
    ensures err { IfErr result (λ f. AllGive keys (view object.now) [] (members_view members.now.entries) (Err f) ⊎ (f ≡ fault.NoMemory)) }
    ensures distinct { IfErr result (λ f. is_repeat f ≡ false) }
{
    let mut props = Vec::new(alloc);
    for (name, value) in members.iter() {
        match read_member(alloc, keys, object, name.as_str(), value) {
            Ok(Some(prop)) => push_prop(&mut props, prop)?,
            Ok(None) => {}
            Err(fault) => return Err(fault),
        }
    }
    Ok(props)
}

fn push_prop(props: &mut Vec<Prop>, prop: Prop) -> Result<(), NoMemory>
    ensures { OnOk result (props.new.items ≡ props.old.items ++ prop ∷ []) }
{
    match props.push(prop) {
        Ok(()) => Ok(()),
        Err(_) => Err(NoMemory),
    }
}

/// The body of these properties and the keys of an object.
fn build_body(
    alloc: Global,
    keys: KeyUse,
    object: &Json,
    props: Vec<Prop>,
) -> Result<Body, JsonFault>
    requires { RisingNames props.items }
    ensures built { Builds keys (view object.now) props.items result ⊎ (result ≡ Err fault.NoMemory) }
    ensures distinct { IfErr result (λ f. is_repeat f ≡ false) }
{
    let props = match Props::build(alloc, props) {
        Ok(props) => props,
        Err(PropsFault::NoMemory) => return Err(JsonFault::NoMemory),
        Err(fault) => return Err(JsonFault::Props(fault)),
    };
    let pk = key_text(alloc, keys, object, KeyPart::Partition)?;
    let rk = key_text(alloc, keys, object, KeyPart::Row)?;
    Ok(Body { pk, rk, props })
}

fn read_object(alloc: Global, object: &Json, keys: KeyUse) -> Result<Body, JsonFault>
    ensures given { GivesBody keys (view object.now) result ⊎ (result ≡ Err fault.NoMemory) }
    ensures distinct { IfErr result (λ f. is_repeat f ≡ false) }
{
    let Some(members) = object.as_object() else {
        return Err(JsonFault::NotObject);
    };
    if let Some(part) = missing_key(keys, object) {
        return Err(JsonFault::MissingKey { part });
    }
    let props = read_members(alloc, keys, object, members)?;
    build_body(alloc, keys, object, props)
}

/// The keys and properties of a JSON object (RFC 8259), as `serde_json` reads it: of repeated names
/// the last value counts.
///
/// A member `Name@odata.type` gives the type of the member `Name`. Without it a text, true, false or
/// a whole number in Int32 is taken; Edm.Int64 is a whole number or a decimal string, Edm.Guid
/// a text of 8-4-4-4-12 hexadecimal digits, Edm.DateTime a text that `mt_time::read_utc` reads, and
/// Edm.Binary standard base64 with padding (RFC 4648). A null gives no property, and
/// `Timestamp`, names that begin with `odata.` and type keys without their property are ignored.
/// With `KeyUse::InBody` the keys are the texts of `PartitionKey` and `RowKey`; else these names are
/// ignored. Their characters are not looked at. The faults come in the order of `JsonFault`, and want
/// of memory may take the place of any answer.
pub fn read_entity(alloc: Global, bytes: &[u8], keys: KeyUse) -> Result<Body, JsonFault>
    ensures read { ReadsAs keys bytes.now result ⊎ (result ≡ Err fault.NoMemory) }
    // the names of an object's members are distinct
    ensures distinct { IfErr result (λ f. is_repeat f ≡ false) }
    // no client can name a hidden property
    ensures visible { IfOk result (λ b. list_any (λ p. is_hidden p.name) b.props ≡ false) }
{
    let object = parse(alloc, bytes)?;
    read_object(alloc, &object, keys)
}
