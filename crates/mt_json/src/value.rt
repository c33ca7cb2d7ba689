//! Values of properties, by their types.
ghost use Rattle.std.specs.Prelude.{◌≡◌, ℤ, IfOk, MatchOption, option_map};
ghost use Rattle.serde_json.specs.View.{view};
ghost use Rattle.mt_json.specs.Value.{int64_of, int32_of, IsDecimal, IsInt64, IsTyped};
ghost use Rattle.mt_json.specs.declared.kind.Kind.TheVariants as kind;

use crate::guid::guid_of;
use crate::kind::Kind;
use base64::DecodeAllocError;
use base64::engine::general_purpose::STANDARD;
use mt_model::{Blob, NoMemory, Text, Value};
use mt_time::read_utc;
use serde_json::Value as Json;
use std::alloc::Global;

/// The whole number in Int32 that it is.
fn int32_of(value: &Json) -> Option<i32>
    ensures { result ≡ int32_of (view value.now) }
{
    match value.as_i64() {
        Some(n) if n >= -2_147_483_648 && n <= 2_147_483_647 => Some(n as i32),
        _ => None,
    }
}

/// The value of a decimal string: an optional `-` and digits, with a value in Int64.
fn decimal_of(text: &str) -> Option<i64>
    ensures { MatchOption result ((z : ℤ) → IsDecimal text.now z → ⊥) (IsDecimal text.now) }
{
    if text.as_bytes().first() == Some(&b'+') {
        return None;
    }
    match text.parse::<i64>() {
        Ok(n) => Some(n),
        Err(_) => None,
    }
}

/// The Int64 of a whole number or a decimal string.
fn int64_of(value: &Json) -> Option<i64>
    ensures { MatchOption result ((z : ℤ) → IsInt64 (view value.now) z → ⊥) (IsInt64 (view value.now)) }
{
    if let Some(n) = value.as_i64() {
        return Some(n);
    }
    match value.as_str() {
        Some(text) => decimal_of(text),
        None => None,
    }
}

fn untyped_value(alloc: Global, value: &Json) -> Result<Option<Value>, NoMemory>
    ensures { IfOk result (IsTyped kind.Untyped (view value.now)) }
{
    if let Some(text) = value.as_str() {
        let text = Text::of(alloc, text)?;
        return Ok(Some(Value::Str(text)));
    }
    if let Some(b) = value.as_bool() {
        return Ok(Some(Value::Bool(b)));
    }
    match int32_of(value) {
        Some(n) => Ok(Some(Value::Int32(n))),
        None => Ok(None),
    }
}

fn string_value(alloc: Global, value: &Json) -> Result<Option<Value>, NoMemory>
    ensures { IfOk result (IsTyped kind.String (view value.now)) }
{
    match value.as_str() {
        Some(text) => {
            let text = Text::of(alloc, text)?;
            Ok(Some(Value::Str(text)))
        }
        None => Ok(None),
    }
}

fn boolean_value(value: &Json) -> Option<Value>
    ensures { IsTyped kind.Boolean (view value.now) result }
{
    match value.as_bool() {
        Some(b) => Some(Value::Bool(b)),
        None => None,
    }
}

fn int32_value(value: &Json) -> Option<Value>
    ensures { IsTyped kind.Int32 (view value.now) result }
{
    match int32_of(value) {
        Some(n) => Some(Value::Int32(n)),
        None => None,
    }
}

fn int64_value(value: &Json) -> Option<Value>
    ensures { IsTyped kind.Int64 (view value.now) result }
{
    match int64_of(value) {
        Some(n) => Some(Value::Int64(n)),
        None => None,
    }
}

fn guid_value(value: &Json) -> Option<Value>
    ensures { IsTyped kind.Guid (view value.now) result }
{
    let Some(text) = value.as_str() else {
        return None;
    };
    match guid_of(text) {
        Some(bytes) => Some(Value::Guid(bytes)),
        None => None,
    }
}

fn moment_value(value: &Json) -> Option<Value>
    ensures { IsTyped kind.DateTime (view value.now) result }
{
    let Some(text) = value.as_str() else {
        return None;
    };
    match read_utc(text.as_bytes()) {
        Ok(ticks) => Some(Value::Moment(ticks)),
        Err(_) => None,
    }
}

fn binary_value(alloc: Global, value: &Json) -> Result<Option<Value>, NoMemory>
    ensures { IfOk result (IsTyped kind.Binary (view value.now)) }
{
    let Some(text) = value.as_str() else {
        return Ok(None);
    };
    match STANDARD.decode(alloc, text.as_bytes()) {
        Ok(bytes) => {
            let bytes = Blob::of(alloc, bytes.as_slice())?;
            Ok(Some(Value::Binary(bytes)))
        }
        Err(DecodeAllocError::DecodeError(_)) => Ok(None),
        Err(DecodeAllocError::OutOfMemory) => Err(NoMemory),
    }
}

/// The value of that type, where it is one.
pub(crate) fn typed_value(
    alloc: Global,
    kind: Kind,
    value: &Json,
) -> Result<Option<Value>, NoMemory>
    ensures { IfOk result (IsTyped kind (view value.now)) }
{
    match kind {
        Kind::Untyped => untyped_value(alloc, value),
        Kind::String => string_value(alloc, value),
        Kind::Boolean => Ok(boolean_value(value)),
        Kind::Int32 => Ok(int32_value(value)),
        Kind::Int64 => Ok(int64_value(value)),
        Kind::Guid => Ok(guid_value(value)),
        Kind::DateTime => Ok(moment_value(value)),
        Kind::Binary => binary_value(alloc, value),
        Kind::Double | Kind::Unknown => Ok(None),
    }
}
