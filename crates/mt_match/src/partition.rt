//! The one partition that a filter names.
ghost use Rattle.std.specs.Prelude.{◌≡◌, option_copied};
ghost use Rattle.mt_filter.specs.Tree.{tree_of};
ghost use Rattle.mt_match.specs.Partition.{atomic_partition};

use mt_filter::{Compare, Field, Filter};
use mt_model::{Text, Value};

/// The text of the first outermost conjunct, from the left, of the form PartitionKey eq text. `None`
/// comes exactly where there is none.
pub fn atomic_partition(filter: &Filter) -> Option<&Text>
    ensures { option_copied result ≡ atomic_partition (tree_of filter.now) }
{
    match filter {
        Filter::Test {
            field: Field::PartitionKey,
            compare: Compare::Eq,
            literal: Value::Str(text),
        } => Some(text),
        Filter::And(left, right) => match atomic_partition(left) {
            Some(text) => Some(text),
            None => atomic_partition(right),
        },
        _ => None,
    }
}
