//! Reads of a partition with its marker, and puts of the marker.
ghost use Rattle.std.specs.Prelude.{◌≡◌, ◌≤◌, ◌∷◌, [], IfOk, IfSome};
ghost use Rattle.mt_chain.specs.declared.row.Put.TheVariants as put;
ghost use Rattle.mt_chain.specs.Asks.{CanAsk};
ghost use Rattle.mt_meta.specs.Markers.{marker_key};
ghost use Rattle.mt_meta.specs.ReadRows.{reads_marked, marker_tag};

use crate::marker::MARKER_KEY;
use mt_chain::{Ask, Put, Range, RangeQuery, Side, StoreAsk, StoredRows};
use mt_model::{NoMemory, Props, Tag, Text, Texts};
use std::alloc::Global;

/// The tag of no row.
pub const NO_TAG: Tag = Tag { store: 0, n: 0 };

/// The tag of the marker among rows that were read, or that of no row.
pub fn marker_tag(rows: &StoredRows) -> Tag
    ensures { result ≡ marker_tag rows.now }
{
    match rows.get(MARKER_KEY) {
        Some(marker) => marker.tag,
        None => NO_TAG,
    }
}

fn marker_name(alloc: Global) -> Result<Texts, NoMemory>
    ensures { IfOk result (λ names. names ≡ marker_key ∷ []) }
{
    let mut names = Vec::new(alloc);
    names.push(Text::of(alloc, MARKER_KEY)?)?;
    Ok(Texts::of(names))
}

/// A read of a partition's marker, and of a range of its rows if there is one, whose limit is at least
/// 1. The one error is want of memory.
pub fn read_marked(
    alloc: Global,
    side: Side,
    pk: &Text,
    range: Option<Range>,
) -> Result<StoreAsk, NoMemory>
    requires { IfSome range (λ r. IfSome r.limit (λ n. 1 ≤ n)) }
    ensures asks { IfOk result (λ a. a ≡ reads_marked side pk.now range) }
    ensures can { IfOk result (λ a. CanAsk a.ask) }
{
    let query = RangeQuery {
        pk: pk.copy(alloc)?,
        named: marker_name(alloc)?,
        range,
    };
    Ok(StoreAsk {
        side,
        ask: Ask::Query(query),
    })
}

/// The put that checks that the marker has that tag. The one error is want of memory.
pub fn check_marker(alloc: Global, tag: Tag) -> Result<Put, NoMemory>
    ensures { IfOk result (λ p. p ≡ put.Check marker_key tag) }
{
    let rk = Text::of(alloc, MARKER_KEY)?;
    Ok(Put::Check { rk, tag })
}

/// The put that makes a partition's marker. The one error is want of memory.
pub fn bear_marker(alloc: Global, props: Props) -> Result<Put, NoMemory>
    ensures { IfOk result (λ p. p ≡ put.Insert marker_key props) }
{
    let rk = Text::of(alloc, MARKER_KEY)?;
    Ok(Put::Insert { rk, props })
}

/// The put that leaves a marker in the place of the one of that tag. The one error is want of memory.
pub fn turn_marker(alloc: Global, props: Props, tag: Tag) -> Result<Put, NoMemory>
    ensures { IfOk result (λ p. p ≡ put.Replace marker_key props tag) }
{
    let rk = Text::of(alloc, MARKER_KEY)?;
    Ok(Put::Replace { rk, props, tag })
}
