//! What a read shows of a row.
ghost use Rattle.std.specs.Prelude.{◌≡◌, IfOk, codes, option_copied, option_map};
ghost use Rattle.std.specs.List.{slice_split};
ghost use Rattle.mt_options.specs.Values.{value_of};
ghost use Rattle.mt_options.specs.Levels.{level_by};
ghost use Rattle.mt_options.specs.Shows.{is_comma, names_in, shown_level, shown_names};

use crate::levels::level_by;
use crate::values::value_of;
use mt_json::Level;
use mt_model::{NoMemory, Text};
use mt_target::QueryOption;
use std::alloc::Global;

/// What is shown of a row.
#[derive(Drop)]
pub struct Show {
    pub level: Level,

    /// The names of the properties and keys that are shown; without them all are.
    pub select: Option<Vec<Text>>,
}

fn bytes_of<'a>(value: Option<&'a Text>) -> Option<&'a [u8]>
    ensures { option_copied result ≡ option_copied value.entry }
{
    match value {
        Some(value) => Some(value.as_str().as_bytes()),
        None => None,
    }
}

/// The names between commas.
fn read_names(alloc: Global, text: &str) -> Result<Vec<Text>, NoMemory>
    ensures { IfOk result (λ names. names.items ≡ slice_split is_comma text.now) }
{
    let mut names = Vec::new(alloc);
    let mut rest = text;
    'names: loop {
        let Some((name, behind)) = rest.split_once(',') else {
            names.push(Text::of(alloc, rest)?)?;
            return Ok(names);
        };
        names.push(Text::of(alloc, name)?)?;
        rest = behind;
    }
}

fn read_select(alloc: Global, select: Option<&Text>) -> Result<Option<Vec<Text>>, NoMemory>
    ensures { IfOk result (λ names. option_map (λ v. v.items) names ≡ names_in (option_copied select.entry)) }
{
    match select {
        Some(select) => Ok(Some(read_names(alloc, select.as_str())?)),
        None => Ok(None),
    }
}

/// What a read with these options and this Accept shows of a row. The level is what `$format` names
/// where it is there, else what Accept names, else minimal. The names are what stands between the
/// commas of `$select`: an empty `$select` chooses the empty name alone, which no property has, and
/// without `$select` all is shown. The one error is want of memory.
pub fn read_show(
    alloc: Global,
    options: &[QueryOption],
    accept: Option<&[u8]>,
) -> Result<Show, NoMemory>
    ensures level { IfOk result (λ show. show.level ≡ shown_level options.now (option_copied accept.entry)) }
    ensures names { IfOk result (λ show. option_map (λ v. v.items) show.select ≡ shown_names options.now) }
{
    let level = level_by(bytes_of(value_of(options, b"$format")), accept);
    let select = read_select(alloc, value_of(options, b"$select"))?;
    Ok(Show { level, select })
}
