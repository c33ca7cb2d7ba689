//! The words of the grammar.
ghost use Rattle.std.specs.Prelude.{◌≡◌, IfOk, MatchOption, true, false};
ghost use Rattle.mt_filter.specs.Words.{skipped, first_word, after_first_word, begins_with_word, compare_of, is_grammar_word, field_of};

use crate::classes::{Class, run_length};
use crate::filter::{Compare, Field};
use mt_model::{Name, NameFault, NoMemory};
use std::alloc::Global;

/// The text without the blanks at its front.
pub fn skip_blanks(text: &str) -> &str
    ensures { result.now ≡ skipped text.now }
{
    let (_, rest) = text.split_at(run_length(text, Class::Blank));
    rest
}

/// What follows the word, if it is the first of a text.
pub fn after_word<'a>(text: &'a str, word: &str) -> Option<&'a str>
    ensures { MatchOption result
        (begins_with_word word.now text.now ≡ false)
        (λ rest. (begins_with_word word.now text.now ≡ true) × (rest.now ≡ after_first_word text.now)) }
{
    let text = skip_blanks(text);
    let (first, rest) = text.split_at(run_length(text, Class::Letter));
    if first == word { Some(rest) } else { None }
}

/// The comparison that the word names.
pub fn compare_of(word: &str) -> Option<Compare>
    ensures { result ≡ compare_of word.now }
{
    if word == "eq" {
        Some(Compare::Eq)
    } else if word == "ne" {
        Some(Compare::Ne)
    } else if word == "gt" {
        Some(Compare::Gt)
    } else if word == "ge" {
        Some(Compare::Ge)
    } else if word == "lt" {
        Some(Compare::Lt)
    } else if word == "le" {
        Some(Compare::Le)
    } else {
        None
    }
}

/// Whether the grammar has the word for itself, so that it is no name.
fn is_grammar_word(word: &str) -> bool
    ensures { result ≡ is_grammar_word word.now }
{
    (word == "or")
        | (word == "and")
        | (word == "not")
        | (word == "true")
        | (word == "false")
        | compare_of(word).is_some()
}

/// The field that the word names: a key, or a property of this name. `None` comes exactly where
/// the word is one of the grammar, `Timestamp`, or longer than a name. The one error is want of
/// memory.
pub fn field_of(alloc: Global, word: &str) -> Result<Option<Field>, NoMemory>
    ensures { IfOk result (λ field. field ≡ field_of word.now) }
{
    if is_grammar_word(word) {
        return Ok(None);
    }
    if word == "PartitionKey" {
        return Ok(Some(Field::PartitionKey));
    }
    if word == "RowKey" {
        return Ok(Some(Field::RowKey));
    }
    match Name::read(alloc, word) {
        Ok(name) => Ok(Some(Field::Property(name))),
        Err(NameFault::BadName) => Ok(None),
        Err(NameFault::NoMemory) => Err(NoMemory),
    }
}
