//! The fields of a head.
ghost use Rattle.std.specs.Prelude.{◌≡◌, ℕ, List, option_map};
ghost use Rattle.mt_http_in.specs.Fields.{is_same, is_named, first_value, says};

use mt_model::{Blob, Text};
use std::marker::Model;

/// A field of a head.
#[derive(Debug, Drop)]
pub struct Field {
    pub name: Text,

    /// The value, without blanks and tabs at its ends.
    pub value: Blob,
}

/// The fields of a head, in their order.
#[derive(Debug, Drop)]
pub struct Fields {
    items: Vec<Field>,
}

impl Model for Fields {
    ghost use Rattle.std.specs.Prelude.{List};
    ghost use Rattle.mt_http_in.specs.declared.fields.Field.{Field};

    ghost Value = { List Field };

    ghost view = { λ f. f.items.items };
}

/// The same word without regard to ASCII case.
pub fn is_word(a: &[u8], b: &[u8]) -> bool
    ensures { result ≡ is_same a.now b.now }
{
    a.eq_ignore_ascii_case(b)
}

impl Field {
    /// Whether the field has that name, without regard to ASCII case.
    pub fn is_named(&self, name: &[u8]) -> bool
        ensures { result ≡ is_named name.now self.now }
    {
        is_word(self.name.as_str().as_bytes(), name)
    }
}

impl Fields {
    /// The list of these fields, which takes no memory.
    pub fn of(items: Vec<Field>) -> Fields
        ensures { result ≡ items.items }
    {
        Fields { items }
    }

    /// The fields, in their order.
    pub fn as_slice(&self) -> &[Field]
        ensures { result.now ≡ self.now }
    {
        self.items.as_slice()
    }
}

/// The value of the first field of that name, which is compared without regard to ASCII case.
pub fn first_value<'a>(fields: &'a [Field], name: &[u8]) -> Option<&'a [u8]>
    ensures { option_map (λ v. v.now) result ≡ first_value name.now fields.now }
{
    match fields {
        [] => None,
        [first, rest @ ..] => {
            if first.is_named(name) {
                Some(first.value.as_slice())
            } else {
                first_value(rest, name)
            }
        }
    }
}

/// Whether the value is there, and is that word without regard to ASCII case.
pub fn says(value: Option<&[u8]>, word: &[u8]) -> bool
    ensures { result ≡ says word.now (option_map (λ v. v.now) value.entry) }
{
    match value {
        Some(value) => is_word(value, word),
        None => false,
    }
}
