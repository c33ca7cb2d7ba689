//! From an entity to the text of its JSON object.
ghost use Rattle.std.specs.Prelude.{◌≡◌, false, IfOk, IsUtf8, OnOk, option_map, bytes_eq};
ghost use Rattle.std.specs.List.{list_any};
ghost use Rattle.serde_json.specs.View.{view, members_view};
ghost use Rattle.mt_model.specs.Value.{is_too_large};
ghost use Rattle.mt_model.specs.declared.value.Value.TheVariants as value;
ghost use Rattle.mt_model.specs.Props.{IsProps, too_large_at};
ghost use Rattle.mt_json.specs.Written.{type_name, Shows, IsReadBack, is_chosen, is_shown, put_chosen, put_type as with_type, put_keys as with_keys, AddsProp, AddProps, IsNamed, AreNamed, IsWritten, IsReadAs, IsRoundTrip};

use crate::draft::Draft;
use crate::guid::guid_text;
use base64::engine::general_purpose::STANDARD;
use mt_model::{Entity, Key, NoMemory, Prop, Text, Value};
use mt_time::print_utc;
use serde_json::{Map, Value as Json, put};
use std::alloc::Global;

/// How much a body says beside the properties.
#[derive(Clone, Copy, Debug, PartialEq, Eq)]
pub enum Level {
    /// Names and values alone.
    None,

    /// The type keys of values that do not show their type, and the tag.
    Minimal,
}

/// The name of a type that the value alone does not show.
fn type_name(value: &Value) -> Option<&'static str>
    ensures { option_map (λ s. s.now) result ≡ type_name value.now }
{
    match value {
        Value::Str(_) | Value::Bool(_) | Value::Int32(_) => None,
        Value::Binary(_) => Some("Edm.Binary"),
        Value::Int64(_) => Some("Edm.Int64"),
        Value::Guid(_) => Some("Edm.Guid"),
        Value::Moment(_) => Some("Edm.DateTime"),
    }
}

/// What is written for an Edm.Int64.
fn json_of_int64(alloc: Global, n: i64) -> Result<Json, NoMemory>
    ensures shows { IfOk result (λ d. Shows (value.Int64 n) (view d)) }
    ensures reads_back { IfOk result (λ d. IsReadBack (value.Int64 n) (view d)) }
{
    Ok(Json::from(format!(in alloc; "{n}")?))
}

/// What is written for an Edm.Guid.
fn json_of_guid(alloc: Global, bytes: [u8; 16]) -> Result<Json, NoMemory>
    ensures shows { IfOk result (λ d. Shows (value.Guid bytes) (view d)) }
    ensures reads_back { IfOk result (λ d. IsReadBack (value.Guid bytes) (view d)) }
{
    Ok(Json::from(guid_text(alloc, &bytes)?))
}

/// What is written for a value, which is read as that value beside its own type key.
fn json_of(alloc: Global, value: &Value) -> Result<Json, NoMemory>
    requires { is_too_large value.now ≡ false }
    ensures shows { IfOk result (λ d. Shows value.now (view d)) }
    ensures reads_back { IfOk result (λ d. IsReadBack value.now (view d)) }
{
    match value {
        Value::Str(text) => Ok(Json::from(String::from_str(alloc, text.as_str())?)),
        Value::Bool(b) => Ok(Json::from(*b)),
        Value::Int32(n) => Ok(Json::from(*n)),
        Value::Binary(bytes) => Ok(Json::from(STANDARD.encode(alloc, bytes.as_slice())?)),
        Value::Int64(n) => json_of_int64(alloc, *n),
        Value::Guid(bytes) => json_of_guid(alloc, *bytes),
        Value::Moment(ticks) => Ok(Json::from(print_utc(alloc, *ticks)?)),
    }
}

fn is_among(names: &[Text], name: &str) -> bool
    ensures { result ≡ list_any (bytes_eq name.now) names.now }
{
    names.iter().any(|chosen| name == chosen.as_str())
}

fn is_chosen(chosen: Option<&Vec<Text>>, name: &str) -> bool
    ensures { result ≡ is_chosen (option_map (λ v. v.now.items) chosen.entry) name.now }
{
    match chosen {
        None => true,
        Some(names) => is_among(names.as_slice(), name),
    }
}

/// Adds the type key of a property, where it has one.
fn put_type(
    members: &mut Map<String, Json>,
    alloc: Global,
    level: Level,
    prop: &Prop,
) -> Result<(), NoMemory>
    ensures { OnOk result (members_view members.new.entries
        ≡ with_type level prop.now.name (type_name prop.now.value) (members_view members.old.entries)) }
{
    if matches!(level, Level::None) {
        return Ok(());
    }
    let Some(name) = type_name(&prop.value) else {
        return Ok(());
    };
    let key = format!(in alloc; "{}@odata.type", prop.name.as_str())?;
    let name = Json::from(String::from_str(alloc, name)?);
    Ok(put(members, alloc, key.as_str(), name)?)
}

/// Adds a property, where it is shown.
fn put_prop(
    members: &mut Map<String, Json>,
    alloc: Global,
    level: Level,
    chosen: Option<&Vec<Text>>,
    prop: &Prop,
) -> Result<(), NoMemory>
    requires { too_large_at prop.now ≡ false }
    ensures adds { OnOk result (AddsProp level (option_map (λ v. v.now.items) chosen.entry) prop.now
        (members_view members.old.entries) (members_view members.new.entries)) }
    ensures named { OnOk result (IsNamed prop.now) }
{
    let name = prop.name.as_str();
    if !prop.is_visible() {
        return Ok(());
    }
    if !is_chosen(chosen, name) {
        return Ok(());
    }
    let value = json_of(alloc, &prop.value)?;
    put(members, alloc, name, value)?;
    put_type(members, alloc, level, prop)
}

/// Adds the properties that are shown.
pub(crate) fn put_props(
    members: &mut Map<String, Json>,
    alloc: Global,
    level: Level,
    chosen: Option<&Vec<Text>>,
    props: &[Prop],
) -> Result<(), NoMemory>
    requires { IsProps props.now }
    ensures adds { OnOk result (AddProps level (option_map (λ v. v.now.items) chosen.entry) props.now
        (members_view members.old.entries) (members_view members.new.entries)) }
    ensures named { OnOk result (AreNamed props.now) }
{
    for prop in props {
        put_prop(members, alloc, level, chosen, prop)?;
    }
    Ok(())
}

/// Adds a key, where it is chosen.
fn put_key(
    members: &mut Map<String, Json>,
    alloc: Global,
    chosen: Option<&Vec<Text>>,
    name: &str,
    text: &Text,
) -> Result<(), NoMemory>
    ensures { OnOk result (members_view members.new.entries
        ≡ put_chosen (option_map (λ v. v.now.items) chosen.entry) name.now text.now (members_view members.old.entries)) }
{
    if !is_chosen(chosen, name) {
        return Ok(());
    }
    let text = Json::from(String::from_str(alloc, text.as_str())?);
    Ok(put(members, alloc, name, text)?)
}

/// Adds the keys that are chosen.
pub(crate) fn put_keys(
    members: &mut Map<String, Json>,
    alloc: Global,
    chosen: Option<&Vec<Text>>,
    key: &Key,
) -> Result<(), NoMemory>
    ensures { OnOk result (members_view members.new.entries
        ≡ with_keys (option_map (λ v. v.now.items) chosen.entry) key.now (members_view members.old.entries)) }
{
    put_key(members, alloc, chosen, "PartitionKey", &key.pk)?;
    put_key(members, alloc, chosen, "RowKey", &key.rk)
}

/// The bytes as a text.
fn text_from(bytes: Vec<u8>) -> Result<Text, NoMemory>
    ensures { IfOk result (λ text. (text ≡ bytes.items) × IsUtf8 bytes.items) }
{
    match String::from_utf8(bytes) {
        Ok(text) => Ok(Text::from_string(text)),
        Err(_) => Err(NoMemory),
    }
}

/// The text of an entity's JSON object (RFC 8259), without blanks and with its members in byte order of
/// their names: the visible properties, at `Level::Minimal` the type keys of Edm.Binary, Edm.Int64,
/// Edm.Guid and Edm.DateTime, then `PartitionKey` and `RowKey`, and at `Level::Minimal` the tag as
/// `odata.etag`. With `chosen` only the properties and keys of these names are written; the tag stays.
///
/// Edm.Int64 is written as a decimal string, Edm.Guid in lower case, Edm.DateTime with seven
/// decimals, and Edm.Binary in standard base64 with padding (RFC 4648). Strings are escaped as
/// `serde_json` does. At `Level::Minimal` and without `chosen`, `read_entity` reads the text as the
/// entity's key and visible properties. The one error is want of memory.
pub fn write_entity(
    alloc: Global,
    entity: &Entity,
    level: Level,
    chosen: Option<&Vec<Text>>,
) -> Result<Text, NoMemory>
    ensures written { IfOk result (IsWritten entity.now level (option_map (λ v. v.now.items) chosen.entry)) }
    // so `serde_json` reads the text as the object that was written
    ensures reads_back { IfOk result (IsReadAs entity.now level (option_map (λ v. v.now.items) chosen.entry)) }
    // and `read_entity` as the entity's keys and visible properties
    ensures round_trip { IfOk result (IsRoundTrip entity.now level (option_map (λ v. v.now.items) chosen.entry)) }
{
    let draft = Draft::new(alloc, &entity.key, &entity.props, level, chosen)?;
    let mut room = Vec::with_capacity(alloc, draft.size(entity.tag))?;
    draft.write(entity.tag, &mut room);
    text_from(room)
}
