//! Between which keys the rows lie that a filter matches.
ghost use Rattle.std.specs.Prelude.{◌≡◌, ◌++◌, ℕ, List, IfOk, IsTrue, option_copied};
ghost use Rattle.mt_model.specs.declared.key.Key.{Key};
ghost use Rattle.mt_model.specs.declared.value.Prop.{Prop};
ghost use Rattle.mt_filter.specs.Tree.{tree_of, test};
ghost use Rattle.mt_match.specs.Match.{matches};
ghost use Rattle.mt_match.specs.Bounds.{bounds_below, bounds_above, key_text, low_text, high_text, low_texts, high_texts, IsGreatest, IsLeast, IsLowEnd, IsNarrowest, IsWithin};

use mt_filter::{Compare, Field, Filter};
use mt_model::{KeyPart, NoMemory, Text, Value};
use std::alloc::Global;
use std::cmp::Ordering;

/// Bounds of keys by bytes, all inclusive. Without a lower bound the text is empty, and without an
/// upper one it is `None`.
#[derive(Debug, Drop, PartialEq, Eq)]
pub struct Bounds {
    pub pk_low: Text,
    pub pk_high: Option<Text>,
    pub rk_low: Text,
    pub rk_high: Option<Text>,
}

fn bounds_below(compare: Compare) -> bool
    ensures { result ≡ bounds_below compare }
{
    matches!(compare, Compare::Eq | Compare::Ge | Compare::Gt)
}

fn bounds_above(compare: Compare) -> bool
    ensures { result ≡ bounds_above compare }
{
    matches!(compare, Compare::Eq | Compare::Le | Compare::Lt)
}

/// The literal of a test of that part of the key, where it is a text.
fn key_text<'a>(part: KeyPart, field: &Field, literal: &'a Value) -> Option<&'a Text>
    ensures { option_copied result ≡ key_text part field.now literal.now }
{
    match (part, field, literal) {
        (KeyPart::Partition, Field::PartitionKey, Value::Str(text)) => Some(text),
        (KeyPart::Row, Field::RowKey, Value::Str(text)) => Some(text),
        _ => None,
    }
}

/// The greater of two texts, or the one that is there.
fn greater<'a>(left: Option<&'a Text>, right: Option<&'a Text>) -> Option<&'a Text>
    ensures { (xs ys : List (List ℕ)) → IsGreatest (option_copied left.entry) xs →
        IsGreatest (option_copied right.entry) ys → IsGreatest (option_copied result) (xs ++ ys) }
{
    match (left, right) {
        (None, _) => right,
        (Some(_), None) => left,
        (Some(a), Some(b)) => match a.cmp(b) {
            Ordering::Less => Some(b),
            Ordering::Equal | Ordering::Greater => Some(a),
        },
    }
}

/// The lesser of two texts, or the one that is there.
fn lesser<'a>(left: Option<&'a Text>, right: Option<&'a Text>) -> Option<&'a Text>
    ensures { (xs ys : List (List ℕ)) → IsLeast (option_copied left.entry) xs →
        IsLeast (option_copied right.entry) ys → IsLeast (option_copied result) (xs ++ ys) }
{
    match (left, right) {
        (None, _) => right,
        (Some(_), None) => left,
        (Some(a), Some(b)) => match a.cmp(b) {
            Ordering::Greater => Some(b),
            Ordering::Equal | Ordering::Less => Some(a),
        },
    }
}

/// The greatest of the texts below which an outermost conjunct leaves nothing.
fn low(part: KeyPart, filter: &Filter) -> Option<&Text>
    ensures { IsGreatest (option_copied result) (low_texts part (tree_of filter.now)) }
{
    match filter {
        Filter::And(left, right) => greater(low(part, left), low(part, right)),
        Filter::Test {
            field,
            compare,
            literal,
        } if bounds_below(*compare) => key_text(part, field, literal),
        Filter::Test { .. } | Filter::Not(_) | Filter::Or(_, _) => None,
    }
}

/// The least of the texts above which an outermost conjunct leaves nothing.
fn high(part: KeyPart, filter: &Filter) -> Option<&Text>
    ensures { IsLeast (option_copied result) (high_texts part (tree_of filter.now)) }
{
    match filter {
        Filter::And(left, right) => lesser(high(part, left), high(part, right)),
        Filter::Test {
            field,
            compare,
            literal,
        } if bounds_above(*compare) => key_text(part, field, literal),
        Filter::Test { .. } | Filter::Not(_) | Filter::Or(_, _) => None,
    }
}

fn low_end(alloc: Global, part: KeyPart, filter: &Filter) -> Result<Text, NoMemory>
    ensures { IfOk result (λ end. IsLowEnd end (low_texts part (tree_of filter.now))) }
{
    match low(part, filter) {
        Some(text) => text.copy(alloc),
        None => Text::of(alloc, ""),
    }
}

fn high_end(alloc: Global, part: KeyPart, filter: &Filter) -> Result<Option<Text>, NoMemory>
    ensures { IfOk result (λ end. IsLeast end (high_texts part (tree_of filter.now))) }
{
    match high(part, filter) {
        Some(text) => Ok(Some(text.copy(alloc)?)),
        None => Ok(None),
    }
}

/// The narrowest bounds that the outermost conjuncts of the filter on the two keys give, those with a
/// text literal and one of `eq`, `ge`, `gt`, `le` and `lt`, where `gt` and `lt` count as `ge` and
/// `le`. The key of every row that matches lies within them. Bounds that no key meets are given where
/// the conjuncts give them. The one error is want of memory.
pub fn key_bounds(alloc: Global, filter: &Filter) -> Result<Bounds, NoMemory>
    ensures narrowest { IfOk result (λ bounds. IsNarrowest (tree_of filter.now) bounds) }
    ensures holds_all { IfOk result (λ bounds.
        (key : Key) → (props : List Prop) → IsTrue (matches (tree_of filter.now) key props) → IsWithin bounds key) }
{
    let pk_low = low_end(alloc, KeyPart::Partition, filter)?;
    let pk_high = high_end(alloc, KeyPart::Partition, filter)?;
    let rk_low = low_end(alloc, KeyPart::Row, filter)?;
    let rk_high = high_end(alloc, KeyPart::Row, filter)?;
    Ok(Bounds {
        pk_low,
        pk_high,
        rk_low,
        rk_high,
    })
}
