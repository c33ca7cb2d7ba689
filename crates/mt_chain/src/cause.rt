//! Why an operation is refused on a row, without memory.
ghost use Rattle.std.specs.Prelude.{◌≡◌, ◌+◌, ◌-◌, ◌^◌, min, None, Some, filter, count_by, sum_by, option_copied};
ghost use Rattle.mt_model.specs.Props.{IsProps, is_visible, visible_count, visible_size, visible_prop_size};
ghost use Rattle.mt_model.specs.Merge.{merged};
ghost use Rattle.mt_chain.specs.Effect.{limits_cause, cause_on};
ghost use Rattle.mt_chain.specs.Merges.{has_name, is_seen_beside, size_beside};

use crate::op::{Cause, Op};
use crate::row::Stored;
use mt_model::{Prop, Props, Tag};

/// Visible properties of a row, at most.
const MAX_PROPERTIES: usize = 252;

/// Bytes of the visible properties of a row, at most.
const MAX_BYTES: u64 = 1_048_576;

/// Whether some property has the name of another.
fn has_name(props: &Props, other: &Prop) -> bool
    ensures { result ≡ has_name other.now.name props.now }
{
    props.get(&other.name).is_some()
}

/// The bytes of name and value, or the greatest number; 0 for a hidden property.
fn visible_size(prop: &Prop) -> u64
    ensures { result ≡ min (2 ^ 64 - 1) (visible_prop_size prop.now) }
{
    if prop.is_visible() {
        (prop.name.as_str().len() as u64).saturating_add(prop.value.size() as u64)
    } else {
        0
    }
}

/// The same, or 0 where a property that is put over it has its name.
fn size_beside(prop: &Prop, over: &Props) -> u64
    ensures { result ≡ min (2 ^ 64 - 1) (size_beside over.now prop.now) }
{
    if has_name(over, prop) {
        0
    } else {
        visible_size(prop)
    }
}

fn count_visible(props: &[Prop]) -> usize
    ensures { result ≡ visible_count props.now }
{
    props.iter().filter(|prop| prop.is_visible()).count()
}

/// How many visible properties stay beside those that are put over them.
fn count_beside(own: &[Prop], over: &Props) -> usize
    ensures { result ≡ count_by (is_seen_beside over.now) own.now }
{
    own.iter()
        .filter(|prop| prop.is_visible() && !has_name(over, prop))
        .count()
}

/// The bytes of the visible properties that stay beside those that are put over them, or the greatest
/// number.
fn total_beside(own: &[Prop], over: &Props) -> u64
    ensures { result ≡ min (2 ^ 64 - 1) (sum_by (size_beside over.now) own.now) }
{
    let mut total: u64 = 0;
    for prop in own {
        total = total.saturating_add(size_beside(prop, over));
    }
    total
}

/// How many properties clients see once one list is put over another, or the greatest number.
fn merged_count(own: &Props, over: &Props) -> usize
    ensures count { result ≡ min (2 ^ 64 - 1) (visible_count (merged own.now over.now)) }
    ensures valid { IsProps own.now × IsProps over.now }
{
    let over_count = count_visible(over.as_slice());
    over_count.saturating_add(count_beside(own.as_slice(), over))
}

/// The bytes of these, or the greatest number.
fn merged_size(own: &Props, over: &Props) -> u64
    requires { IsProps own.now × IsProps over.now }
    ensures { result ≡ min (2 ^ 64 - 1) (visible_size (merged own.now over.now)) }
{
    let over_size = over.size();
    over_size.saturating_add(total_beside(own.as_slice(), over))
}

/// Why properties are not put over others.
fn merge_cause(own: &Props, over: &Props) -> Option<Cause>
    ensures all { result ≡ limits_cause (merged own.now over.now) }
    ensures visible { result ≡ limits_cause (merged (filter is_visible own.now) over.now) }
{
    if merged_count(own, over) > MAX_PROPERTIES {
        return Some(Cause::TooManyProperties);
    }
    if merged_size(own, over) > MAX_BYTES {
        return Some(Cause::EntityTooLarge);
    }
    None
}

impl Op {
    /// Why the operation is refused where no row is there.
    pub fn cause_on_none(&self) -> Option<Cause>
        ensures { result ≡ cause_on self.now None }
    {
        match self {
            Op::Insert { .. } | Op::InsertOrReplace { .. } | Op::InsertOrMerge { .. } => None,
            Op::Replace { .. } | Op::Merge { .. } | Op::Delete { .. } => Some(Cause::NotFound),
        }
    }

    /// Why the operation is refused on a row of these properties and that tag. Hidden properties make
    /// no difference.
    pub fn cause_on_row(&self, props: &Props, tag: Tag) -> Option<Cause>
        ensures all { result ≡ cause_on self.now (Some (record { props = props.now; tag = tag })) }
        ensures visible { result ≡ cause_on self.now (Some (record { props = filter is_visible props.now; tag = tag })) }
    {
        match self {
            Op::Insert { .. } => Some(Cause::Exists),
            Op::Replace { cond, .. } | Op::Merge { cond, .. } | Op::Delete { cond, .. }
                if !cond.is_met_by(tag) => { Some(Cause::ConditionFailed) }
            Op::Merge { props: over, .. } | Op::InsertOrMerge { props: over, .. } => {
                merge_cause(props, over)
            }
            Op::Replace { .. } | Op::Delete { .. } | Op::InsertOrReplace { .. } => None,
        }
    }

    /// Why the operation is refused on no row or on a row.
    pub fn cause_on(&self, row: Option<&Stored>) -> Option<Cause>
        ensures { result ≡ cause_on self.now (option_copied row.entry) }
    {
        match row {
            None => self.cause_on_none(),
            Some(row) => self.cause_on_row(&row.props, row.tag),
        }
    }
}
