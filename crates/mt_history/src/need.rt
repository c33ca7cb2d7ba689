//! How much filters and keys count, and how much a turn needs.
ghost use Rattle.std.specs.Prelude.{◌≡◌, ◌^◌, ◌-◌, min, length};
ghost use Rattle.mt_filter.specs.Tree.{tree_of};
ghost use Rattle.mt_history.specs.Weight as size;

use mt_chain::{PkFrom, RkFrom};
use mt_filter::{Field, Filter};
use mt_model::Text;

/// What a turn of a migrator, of a cleaner or of a seal needs, in bytes.
pub const MOVE_NEED: u64 = 64;

fn text_bytes(text: &Text) -> u64
    ensures { result ≡ length text.now }
{
    text.as_str().len() as u64
}

fn field_size(field: &Field) -> u64
    ensures { result ≡ size.field_size field.now }
{
    match field {
        Field::PartitionKey | Field::RowKey => 16,
        Field::Property(name) => name.as_str().len() as u64,
    }
}

/// The size of a filter, or the greatest number.
fn node_size(filter: &Filter) -> u64
    ensures { result ≡ min (2 ^ 64 - 1) (size.tree_size (tree_of filter.now)) }
{
    match filter {
        Filter::Test { field, literal, .. } => 16_u64
            .saturating_add(field_size(field))
            .saturating_add(literal.size() as u64),
        Filter::Not(inner) => 16_u64.saturating_add(node_size(inner)),
        Filter::And(left, right) | Filter::Or(left, right) => 16_u64
            .saturating_add(node_size(left))
            .saturating_add(node_size(right)),
    }
}

/// The size of a filter, 0 where there is none, or the greatest number.
pub fn filter_size(filter: &Option<Filter>) -> u64
    ensures { result ≡ min (2 ^ 64 - 1) (size.filter_size filter.now) }
{
    match filter {
        None => 0,
        Some(filter) => node_size(filter),
    }
}

/// The bytes of a text, and 0 where there is none.
pub fn text_size(text: &Option<Text>) -> u64
    ensures { result ≡ size.text_size text.now }
{
    match text {
        None => 0,
        Some(text) => text_bytes(text),
    }
}

/// The bytes of the row key at which a range begins.
pub fn row_from_size(from: &RkFrom) -> u64
    ensures { result ≡ size.row_from_size from.now }
{
    match from {
        RkFrom::Start => 0,
        RkFrom::From(low) | RkFrom::After(low) => text_bytes(low),
    }
}

/// The bytes of the partition key at which a range begins.
pub fn from_size(from: &PkFrom) -> u64
    ensures { result ≡ size.from_size from.now }
{
    match from {
        PkFrom::From(low) | PkFrom::After(low) => text_bytes(low),
    }
}

/// What a query of a partition needs, in bytes, or the greatest number: the weight of its entry.
pub fn query_need(pk: &Text, filter: &Option<Filter>) -> u64
    ensures { result ≡ min (2 ^ 64 - 1) (size.need_of_query pk.now filter.now) }
{
    64_u64
        .saturating_add(text_bytes(pk))
        .saturating_add(filter_size(filter))
}

/// What a page needs, in bytes, or the greatest number: 64, the size of its filter, and 4,096.
pub fn page_need(filter: &Option<Filter>) -> u64
    ensures { result ≡ min (2 ^ 64 - 1) (size.need_of_page filter.now) }
{
    filter_size(filter).saturating_add(64 + 4096)
}
