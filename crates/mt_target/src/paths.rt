//! What a path names.
ghost use Rattle.std.specs.Prelude.{◌≡◌, ◌≢◌, MatchOption, IfOk, bytes_eq, codes};
ghost use Rattle.mt_target.specs.declared.target.Service.{Service};
ghost use Rattle.mt_target.specs.Quoted.{Found};
ghost use Rattle.mt_target.specs.Paths.{service_path, entity_text, keys_text, SpellsPath, opened_text, SplitsName, NamedBy, IsNaming};

use crate::quoted::read_quoted;
use crate::split::after;
use crate::target::{Keys, Service, Target};
use mt_model::{NoMemory, Text, is_same_table, is_table_name};
use std::alloc::Global;

/// The service of that path.
fn read_service(path: &str) -> Option<Service>
    ensures { MatchOption result ((s : Service) → path.now ≢ service_path s) (λ s. path.now ≡ service_path s) }
{
    if path == "/$batch" {
        return Some(Service::Batch);
    }
    if path == "/$mt/migrate" {
        return Some(Service::Migrate);
    }
    if path == "/$mt/clean" {
        return Some(Service::Clean);
    }
    if path == "/$mt/seal" {
        return Some(Service::Seal);
    }
    if path == "/$mt/status" {
        return Some(Service::Status);
    }
    None
}

/// A name, up to the first parenthesis, and what follows that.
fn split_name(text: &str) -> (&str, Option<&str>)
    ensures { SplitsName text.now result.0.now result.1 }
{
    match text.split_once('(') {
        Some((name, behind)) => (name, Some(behind)),
        None => (text, None),
    }
}

/// The two keys of an entity.
fn read_entity(alloc: Global, text: &str) -> Result<Option<(Text, Text)>, NoMemory>
    ensures { Found (λ x. text.now ≡ entity_text x.0 x.1) result }
{
    let Some(rest) = after(text, "PartitionKey=") else {
        return Ok(None);
    };
    let Some((pk, rest)) = read_quoted(alloc, rest)? else {
        return Ok(None);
    };
    let Some(rest) = after(rest, ",RowKey=") else {
        return Ok(None);
    };
    let Some((rk, rest)) = read_quoted(alloc, rest)? else {
        return Ok(None);
    };
    if ends(rest) {
        Ok(Some((pk, rk)))
    } else {
        Ok(None)
    }
}

/// What stands behind a table's name.
fn read_keys(alloc: Global, opened: Option<&str>) -> Result<Option<Keys>, NoMemory>
    ensures { Found (λ k. opened_text opened.entry ≡ keys_text k) result }
{
    let Some(behind) = opened else {
        return Ok(Some(Keys::Absent));
    };
    if behind == ")" {
        return Ok(Some(Keys::Empty));
    }
    match read_entity(alloc, behind)? {
        Some((pk, rk)) => Ok(Some(Keys::Entity { pk, rk })),
        None => Ok(None),
    }
}

/// Whether this is a closing parenthesis alone.
fn ends(text: &str) -> bool
    ensures { result ≡ bytes_eq text.now (codes ")") }
{
    text == ")"
}

/// Whether this may stand behind `Tables`.
fn names_table(alloc: Global, opened: Option<&str>) -> Result<bool, NoMemory>
    ensures { IfOk result (IsNaming (opened_text opened.entry)) }
{
    let Some(behind) = opened else {
        return Ok(true);
    };
    let Some((_, rest)) = read_quoted(alloc, behind)? else {
        return Ok(false);
    };
    if ends(rest) { Ok(true) } else { Ok(false) }
}

/// What a path names behind its slash.
fn read_name(alloc: Global, name: &str, opened: Option<&str>) -> Result<Option<Target>, NoMemory>
    ensures { Found (NamedBy name.now (opened_text opened.entry)) result }
{
    if is_same_table("Tables", name) {
        return if names_table(alloc, opened)? {
            Ok(Some(Target::Tables))
        } else {
            Ok(None)
        };
    }
    if !is_table_name(name) {
        return Ok(None);
    }
    let Some(keys) = read_keys(alloc, opened)? else {
        return Ok(None);
    };
    let name = Text::of(alloc, name)?;
    Ok(Some(Target::Table { name, keys }))
}

/// What the path names, where it names something.
pub fn read_path(alloc: Global, path: &str) -> Result<Option<Target>, NoMemory>
    ensures { Found (SpellsPath path.now) result }
{
    if let Some(service) = read_service(path) {
        return Ok(Some(Target::Service(service)));
    }
    let Some(text) = after(path, "/") else {
        return Ok(None);
    };
    let (name, opened) = split_name(text);
    read_name(alloc, name, opened)
}
