//! The names of tables, by the naming rules of the Azure Table service.
ghost use Rattle.std.specs.Prelude.{◌≡◌, ◌||◌};
ghost use Rattle.std.specs.List.{list_all};
ghost use Rattle.mt_model.specs.TableName.{is_table_name, is_same_table, is_letter, is_digit, begins_with_letter};

/// Bytes of a table's name, at least.
const MIN_NAME_BYTES: usize = 3;

/// Bytes of a table's name, at most.
const MAX_NAME_BYTES: usize = 63;

/// The one name that is kept from users: the table of tables.
const RESERVED: &str = "Tables";

fn begins_with_letter(text: &[u8]) -> bool
    ensures { result ≡ begins_with_letter text.now }
{
    match text.first() {
        Some(c) => c.is_ascii_alphabetic(),
        None => false,
    }
}

fn is_letters_and_digits(text: &[u8]) -> bool
    ensures { result ≡ list_all (λ c. is_letter c || is_digit c) text.now }
{
    text.iter().all(|c| c.is_ascii_alphanumeric())
}

/// Whether a text is a table's name: 3 to 63 ASCII letters and digits that begin with a letter, and
/// not `Tables` in any case.
pub fn is_table_name(text: &str) -> bool
    ensures { result ≡ is_table_name text.now }
{
    let bytes = text.as_bytes();
    (bytes.len() >= MIN_NAME_BYTES)
        && (bytes.len() <= MAX_NAME_BYTES)
        && begins_with_letter(bytes)
        && is_letters_and_digits(bytes)
        && !is_same_table(text, RESERVED)
}

/// Whether two texts name one table: they are equal without regard to the case of ASCII letters.
pub fn is_same_table(a: &str, b: &str) -> bool
    ensures { result ≡ is_same_table a.now b.now }
{
    a.eq_ignore_ascii_case(b)
}
