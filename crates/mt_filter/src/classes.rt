//! Characters that stand in a row.
ghost use Rattle.std.specs.Prelude.{◌≡◌};
ghost use Rattle.std.specs.Str.{IsCharBoundary};
ghost use Rattle.mt_filter.specs.Class.{is_in, run_length};

/// A kind of characters that stand in a row.
#[derive(Clone, Copy, Debug, PartialEq, Eq)]
pub enum Class {
    /// Blanks, U+0020.
    Blank,

    /// The digits 0 to 9.
    Digit,

    /// Characters that continue a word: those of XID_Continue.
    Letter,
}

impl Class {
    /// Whether the character is of the class.
    pub fn has(self, c: char) -> bool
        ensures { result ≡ is_in self c }
    {
        match self {
            Class::Blank => c == ' ',
            Class::Digit => c.is_ascii_digit(),
            Class::Letter => unicode_ident::is_xid_continue(c),
        }
    }
}

/// How many bytes at the front are characters of the class.
pub fn run_length(text: &str, class: Class) -> usize
    ensures value { result ≡ run_length class text.now }
    ensures boundary { IsCharBoundary text.now result }
{
    for (at, c) in text.char_indices() {
        if !class.has(c) {
            return at;
        }
    }
    text.len()
}
