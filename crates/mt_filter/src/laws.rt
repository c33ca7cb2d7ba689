//! Laws of the definitions: functions that do nothing, and whose clauses are proved.
ghost use Rattle.std.specs.Prelude.{◌≡◌, ℕ, List};
ghost use Rattle.std.specs.Str.{IsUtf8};
ghost use Rattle.mt_filter.specs.declared.filter.FilterKind.{FilterKind};
ghost use Rattle.mt_filter.specs.Tree.{Tree};
ghost use Rattle.mt_filter.specs.Grammar.{IsFilter, IsBad};
ghost use Rattle.mt_filter.specs.Literal.{undoubled};
ghost use Rattle.mt_filter.specs.Quoted.{doubled};

/// A text is at most one of a filter, with one tree, and of what is wrong at one place.
pub fn one_outcome()
    ensures tree { (text : List ℕ) (f g : Tree) → IsFilter text f → IsFilter text g → f ≡ g }
    ensures fault { (text : List ℕ) (at place : ℕ) (kind other : FilterKind) → IsBad text at kind → IsBad text place other
        → (at ≡ place) × (kind ≡ other) }
    ensures either { (text : List ℕ) (f : Tree) (at : ℕ) (kind : FilterKind) → IsFilter text f → IsBad text at kind → ⊥ }
{}

/// The text of a literal is the one whose quotes its inside doubles.
pub fn quotes_are_doubled()
    ensures { (text : List ℕ) → IsUtf8 text → undoubled (doubled text) ≡ text }
{}
