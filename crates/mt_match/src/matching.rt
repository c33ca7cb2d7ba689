//! When a row matches a filter.
ghost use Rattle.std.specs.Prelude.{◌≡◌, option_copied, filter};
ghost use Rattle.std.specs.Option.{option_and_then};
ghost use Rattle.std.specs.Ordering.{is_some_and};
ghost use Rattle.mt_model.specs.declared.value.Value.TheVariants.{Str};
ghost use Rattle.mt_model.specs.Props.{is_visible, value_at};
ghost use Rattle.mt_filter.specs.Tree.{tree_of};
ghost use Rattle.mt_match.specs.Match.{compared, holds, field_value, passes, matches};

use mt_filter::{Compare, Field, Filter};
use mt_model::{Entity, Name, Props, Text, Value};
use std::cmp::Ordering;

fn holds(compare: Compare, order: Ordering) -> bool
    ensures { result ≡ holds compare order }
{
    match compare {
        Compare::Eq => order.is_eq(),
        Compare::Ne => order.is_ne(),
        Compare::Gt => order.is_gt(),
        Compare::Ge => order.is_ge(),
        Compare::Lt => order.is_lt(),
        Compare::Le => order.is_le(),
    }
}

/// The order of a text and a value, if that is one.
fn text_compared(text: &Text, literal: &Value) -> Option<Ordering>
    ensures { result ≡ compared (Str text.now) literal.now }
{
    match literal {
        Value::Str(other) => Some(text.cmp(other)),
        _ => None,
    }
}

/// The order of two values of one type, where Int32 and Int64 are one.
fn compared(value: &Value, literal: &Value) -> Option<Ordering>
    ensures { result ≡ compared value.now literal.now }
{
    match (value, literal) {
        (Value::Str(a), Value::Str(b)) => Some(a.cmp(b)),
        (Value::Binary(a), Value::Binary(b)) => Some(a.as_slice().cmp(b.as_slice())),
        (Value::Guid(a), Value::Guid(b)) => Some(a.cmp(b)),
        (Value::Bool(a), Value::Bool(b)) => Some(a.cmp(b)),
        (Value::Int32(a), Value::Int32(b)) => Some(a.cmp(b)),
        (Value::Int32(a), Value::Int64(b)) => Some(i64::from(*a).cmp(b)),
        (Value::Int64(a), Value::Int32(b)) => Some(a.cmp(&i64::from(*b))),
        (Value::Int64(a), Value::Int64(b)) => Some(a.cmp(b)),
        (Value::Moment(a), Value::Moment(b)) => Some(a.cmp(b)),
        _ => None,
    }
}

/// The value of the property of that name, if clients see it.
fn visible_value<'a>(props: &'a Props, name: &Name) -> Option<&'a Value>
    ensures { option_copied result ≡ value_at (filter is_visible props.now) name.now }
{
    if name.is_hidden() {
        None
    } else {
        props.get(name)
    }
}

/// The order of a row's field and a literal, if the field is there and of the literal's type.
fn field_compared(
    field: &Field,
    literal: &Value,
    pk: &Text,
    rk: &Text,
    props: &Props,
) -> Option<Ordering>
    ensures { result ≡ option_and_then (λ value. compared value literal.now)
        (field_value field.now (record { pk = pk.now; rk = rk.now }) props.now) }
{
    match field {
        Field::PartitionKey => text_compared(pk, literal),
        Field::RowKey => text_compared(rk, literal),
        Field::Property(name) => match visible_value(props, name) {
            Some(value) => compared(value, literal),
            None => None,
        },
    }
}

fn passes(
    field: &Field,
    compare: Compare,
    literal: &Value,
    pk: &Text,
    rk: &Text,
    props: &Props,
) -> bool
    ensures { result ≡ passes field.now compare literal.now (record { pk = pk.now; rk = rk.now }) props.now }
{
    match field_compared(field, literal, pk, rk, props) {
        Some(order) => holds(compare, order),
        None => false,
    }
}

/// Whether a row of that key and of those properties matches the filter, as `matches` says it of an
/// entity. Nothing is copied.
pub fn matches_row(filter: &Filter, pk: &Text, rk: &Text, props: &Props) -> bool
    ensures { result ≡ matches (tree_of filter.now) (record { pk = pk.now; rk = rk.now }) props.now }
{
    match filter {
        Filter::Test {
            field,
            compare,
            literal,
        } => passes(field, *compare, literal, pk, rk, props),
        Filter::Not(inner) => !matches_row(inner, pk, rk, props),
        Filter::And(left, right) => {
            matches_row(left, pk, rk, props) && matches_row(right, pk, rk, props)
        }
        Filter::Or(left, right) => {
            matches_row(left, pk, rk, props) || matches_row(right, pk, rk, props)
        }
    }
}

/// Whether the row matches the filter. A test takes the value of its field, where clients see it, and
/// fails where there is none or its type is not the literal's, also with `ne`; Int32 and Int64 are
/// one type. Numbers and moments compare by size, texts, binaries and guids by their bytes, and false
/// is before true.
pub fn matches(filter: &Filter, entity: &Entity) -> bool
    ensures { result ≡ matches (tree_of filter.now) entity.now.key entity.now.props }
{
    matches_row(filter, &entity.key.pk, &entity.key.rk, &entity.props)
}
