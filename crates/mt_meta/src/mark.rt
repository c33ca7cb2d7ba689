//! Data rows of the new store: clients' writes, copies of old's rows, and tombstones.
ghost use Rattle.std.specs.Prelude.{◌≡◌, Some, None, codes, IfOk, option_copied, filter};
ghost use Rattle.mt_model.specs.Props.{is_visible};
ghost use Rattle.mt_meta.specs.Marks.{mark_kind, mark_named, copy_named, mark_in, mark_of, kept_tag, seen_in, seen_tag, marked, stored};

use crate::marker::kind_alone;
use mt_chain::StoredRow;
use mt_model::{Hidden, NoMemory, Props, Tag, Text};
use std::alloc::Global;

/// What a data row of the new store is.
#[derive(Clone, Copy, Debug, PartialEq, Eq)]
pub enum Mark {
    /// A client wrote it.
    Live,
    /// A migrator copied old's row, which clients saw with this tag.
    Copy(Tag),
    /// A client deleted the row.
    Tomb,
}

impl Mark {
    fn kind(self) -> &'static str
        ensures { result.now ≡ mark_kind self }
    {
        match self {
            Mark::Live => "live",
            Mark::Copy(_) => "copy",
            Mark::Tomb => "tomb",
        }
    }
}

fn mark_named(kind: &str) -> Option<Mark>
    ensures { result ≡ mark_named kind.now }
{
    match kind {
        "live" => Some(Mark::Live),
        "tomb" => Some(Mark::Tomb),
        _ => None,
    }
}

fn copy_named(kind: &str, tag: &str) -> Option<Mark>
    ensures { result ≡ copy_named kind.now tag.now }
{
    if kind == "copy" {
        let tag = Tag::read(tag.as_bytes())?;
        Some(Mark::Copy(tag))
    } else {
        None
    }
}

fn mark_in(kind: Option<&Text>, tag: Option<&Text>) -> Option<Mark>
    ensures { result ≡ mark_in (option_copied kind.entry) (option_copied tag.entry) }
{
    match (kind, tag) {
        (None, _) => None,
        (Some(kind), None) => mark_named(kind.as_str()),
        (Some(kind), Some(tag)) => copy_named(kind.as_str(), tag.as_str()),
    }
}

/// What the row of these properties is, as `mark_of` says it of a row.
pub fn mark_of_props(props: &Props) -> Option<Mark>
    ensures { result ≡ mark_of props.now }
{
    mark_in(props.hidden(Hidden::Kind), props.hidden(Hidden::Tag))
}

/// What the row is, by its `$kind`: `live` and `tomb` without `$tag`, and `copy` with a tag's text as
/// `$tag`. `None` comes exactly for all other hidden texts.
pub fn mark_of(row: &StoredRow) -> Option<Mark>
    ensures { result ≡ mark_of row.now.props }
{
    mark_of_props(&row.props)
}

fn kept_tag(mark: Option<Mark>) -> Option<Tag>
    ensures { result ≡ kept_tag mark }
{
    match mark {
        Some(Mark::Copy(tag)) => Some(tag),
        _ => None,
    }
}

fn seen_in(kind: Option<&Text>, kept: Option<Tag>, own: Tag) -> Option<Tag>
    ensures { result ≡ seen_in (option_copied kind.entry) kept own }
{
    match kind {
        None => Some(own),
        Some(kind) => if kind.as_str() == "live" {
            Some(own)
        } else {
            kept
        },
    }
}

/// The tag that clients see of the row: of a copy the one that it kept, and the row's own where `$kind`
/// is `live` or is not there. `None` comes exactly for all other rows.
pub fn seen_tag(row: &StoredRow) -> Option<Tag>
    ensures { result ≡ seen_tag row.now.props row.now.tag }
{
    seen_tag_of_props(&row.props, row.tag)
}

/// The tag that clients see of the row of these properties and of that tag, as `seen_tag` says it of a
/// row.
pub fn seen_tag_of_props(props: &Props, own: Tag) -> Option<Tag>
    ensures { result ≡ seen_tag props.now own }
{
    let kept = kept_tag(mark_of_props(props));
    seen_in(props.hidden(Hidden::Kind), kept, own)
}

fn stored_live(alloc: Global, props: &Props) -> Result<Props, NoMemory>
    ensures value { IfOk result (λ p. p ≡ stored Mark.Live props.now) }
    ensures read { IfOk result (λ p. mark_of p ≡ Some Mark.Live) }
{
    let mut row = props.visible(alloc)?;
    row.add_hidden(alloc, Hidden::Kind, Mark::Live.kind())?;
    Ok(row)
}

fn stored_copy(alloc: Global, tag: Tag, props: &Props) -> Result<Props, NoMemory>
    ensures value { IfOk result (λ p. p ≡ stored (Mark.Copy tag) props.now) }
    ensures read { IfOk result (λ p. mark_of p ≡ Some (Mark.Copy tag)) }
{
    let mut row = props.visible(alloc)?;
    row.add_hidden(alloc, Hidden::Kind, Mark::Copy(tag).kind())?;
    let text = tag.print(alloc)?;
    row.add_hidden(alloc, Hidden::Tag, text.as_str())?;
    Ok(row)
}

/// What the new store keeps of a row: its visible properties with the mark, and for a tombstone the
/// mark alone. `mark_of` reads the mark back. The one error is want of memory.
pub fn stored(alloc: Global, mark: Mark, props: &Props) -> Result<Props, NoMemory>
    ensures value { IfOk result (λ p. p ≡ stored mark props.now) }
    ensures read { IfOk result (λ p. mark_of p ≡ Some mark) }
{
    match mark {
        Mark::Live => stored_live(alloc, props),
        Mark::Copy(tag) => stored_copy(alloc, tag, props),
        Mark::Tomb => kind_alone(alloc, mark.kind()),
    }
}
