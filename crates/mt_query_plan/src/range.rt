//! What a query reads of a store.
ghost use Rattle.std.specs.Prelude.{◌≡◌, Some, IfOk};
ghost use Rattle.mt_chain.specs.Asks.{CanAsk};
ghost use Rattle.mt_meta.specs.ReadRows.{reads_marked};
ghost use Rattle.mt_query_plan.specs.Ranges.{from_low, range_of};

use mt_chain::{Range, RkFrom, Side, StoreAsk};
use mt_filter::Filter;
use mt_match::key_bounds;
use mt_meta::read_marked;
use mt_model::{NoMemory, Text};
use std::alloc::Global;

/// From a row key on, or from the start where it is empty.
fn from_low(low: Text) -> RkFrom
    ensures { result ≡ from_low low }
{
    if low.as_str() == "" {
        RkFrom::Start
    } else {
        RkFrom::From(low)
    }
}

/// The range that a filter leaves. The one error is want of memory.
fn range_of(alloc: Global, filter: &Option<Filter>) -> Result<Range, NoMemory>
    ensures { IfOk result (λ range. range ≡ range_of filter.now) }
{
    match filter {
        None => Ok(Range {
            from: RkFrom::Start,
            upto: None,
            limit: None,
        }),
        Some(filter) => {
            let bounds = key_bounds(alloc, filter)?;
            Ok(Range {
                from: from_low(bounds.rk_low),
                upto: bounds.rk_high,
                limit: None,
            })
        }
    }
}

/// A read of the marker, and of the range that a filter leaves. The one error is want of memory.
pub(crate) fn read(
    alloc: Global,
    side: Side,
    pk: &Text,
    filter: &Option<Filter>,
) -> Result<StoreAsk, NoMemory>
    ensures asks { IfOk result (λ a. a ≡ reads_marked side pk.now (Some (range_of filter.now))) }
    ensures can { IfOk result (λ a. CanAsk a.ask) }
{
    let range = range_of(alloc, filter)?;
    read_marked(alloc, side, pk, Some(range))
}
