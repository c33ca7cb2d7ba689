//! Reads filters by their grammar.
ghost use Rattle.std.specs.Prelude.{◌≡◌, ℕ, IfOk, MatchResult, if◌then◌else◌};
ghost use Rattle.mt_filter.specs.Tree.{not, tree_of};
ghost use Rattle.mt_filter.specs.Literal.{IsValue};
ghost use Rattle.mt_filter.specs.Words.{begins_with_word, after_first_word};
ghost use Rattle.mt_filter.specs.Grammar.{left, IsFirst, token, none, chain, operand, unary, from, comparison_of, IsClosing, IsComparison, IsFilter, IsBad};
ghost use Rattle.mt_filter.specs.Answer.{Answers, AnswersWhole, Ends, Finds, IfBad};

use crate::begin::{Begin, begin_of};
use crate::chain::Chain;
use crate::filter::{Compare, Field, Filter, FilterFault, FilterKind};
use crate::lexeme::LexemeKind;
use crate::next::{Next, Stop, next_lexeme};
use crate::value::value_of;
use crate::words::{after_word, compare_of};
use mt_model::{NoMemory, Value};
use std::alloc::Global;

/// How many tests a filter may have.
const MAX_TESTS: u32 = 15;

/// How many levels of parentheses and `not` a filter may have.
const MAX_LEVELS: u32 = 64;

/// Why reading stopped.
#[derive(Clone, Copy)]
enum Halt {
    Bad(Stop),
    NoMemory,
}

impl From<NoMemory> for Halt {
    ghost use Rattle.mt_filter.specs.declared.reader.Halt.TheVariants.{NoMemory};

    ghost from_gives = { λ _ e. e ≡ NoMemory };

    fn from(_e: NoMemory) -> Halt {
        Halt::NoMemory
    }
}

/// A token that is not allowed at its place.
fn expected(left: usize) -> Halt
    ensures { result ≡ Halt.Bad (record { left = left; kind = FilterKind.Expected }) }
{
    Halt::Bad(Stop {
        left,
        kind: FilterKind::Expected,
    })
}

/// The comparison that a lexeme names.
fn comparison_of(kind: LexemeKind, part: &str) -> Option<Compare>
    ensures { result ≡ comparison_of kind part.now }
{
    match kind {
        LexemeKind::Word => compare_of(part),
        _ => None,
    }
}

/// The filter that passes what this one does not. The one error is want of memory.
fn negation(alloc: Global, inner: Filter) -> Result<Filter, NoMemory>
    ensures { IfOk result (λ f. tree_of f ≡ not (tree_of inner)) }
{
    Ok(Filter::Not(Box::new(alloc, inner)?))
}

/// What is left of a text.
#[derive(Clone, Copy)]
struct Reader<'a> {
    rest: &'a str,

    /// How many tests were begun.
    tests: u32,
}

impl<'a> Reader<'a> {
    /// Passes the next lexeme.
    fn next(&mut self) -> Result<Next<'a>, Stop>
        ensures value { MatchResult result
            (λ next. IsFirst self.old.rest.now (token next.kind next.part.now self.new.rest.now) × (next.left ≡ left self.old.rest.now))
            (λ stop. IsFirst self.old.rest.now (none stop.kind) × (stop.left ≡ left self.old.rest.now)) }
        ensures tests { self.new.tests ≡ self.old.tests }
    {
        match next_lexeme(self.rest) {
            Ok(next) => {
                self.rest = next.rest;
                Ok(next)
            }
            Err(stop) => Err(stop),
        }
    }

    /// Passes the next word if it is this one.
    fn passes(&mut self, word: &str) -> bool
        ensures value { result ≡ begins_with_word word.now self.old.rest.now }
        ensures rest { self.new.rest.now ≡ (if result then after_first_word self.old.rest.now else self.old.rest.now) }
        ensures tests { self.new.tests ≡ self.old.tests }
    {
        match after_word(self.rest, word) {
            Some(rest) => {
                self.rest = rest;
                true
            }
            None => false,
        }
    }

    /// Passes a parenthesis that closes.
    fn close(&mut self) -> Result<(), Halt>
        ensures value { Finds IsClosing self.old.rest.now self.new result }
        ensures tests { self.new.tests ≡ self.old.tests }
    {
        match self.next() {
            Ok(next) => match next.kind {
                LexemeKind::Close => Ok(()),
                _ => Err(expected(next.left)),
            },
            Err(stop) => Err(Halt::Bad(stop)),
        }
    }

    fn read_compare(&mut self) -> Result<Compare, Halt>
        ensures value { Finds IsComparison self.old.rest.now self.new result }
        ensures tests { self.new.tests ≡ self.old.tests }
    {
        match self.next() {
            Ok(next) => match comparison_of(next.kind, next.part) {
                Some(compare) => Ok(compare),
                None => Err(expected(next.left)),
            },
            Err(stop) => Err(Halt::Bad(stop)),
        }
    }

    fn read_literal(&mut self, alloc: Global) -> Result<Value, Halt>
        ensures value { Finds IsValue self.old.rest.now self.new result }
        ensures tests { self.new.tests ≡ self.old.tests }
    {
        match self.next() {
            Ok(next) => match value_of(alloc, next.kind, next.part)? {
                Some(value) => Ok(value),
                None => Err(expected(next.left)),
            },
            Err(stop) => Err(Halt::Bad(stop)),
        }
    }

    /// Reads a test after its name, from which on the text has `left` bytes.
    fn read_test(&mut self, alloc: Global, field: Field, left: usize) -> Result<Filter, Halt>
        ensures { (level : ℕ) → Answers (from (Begin.Name field) left self.old.tests self.old.rest.now) level self.new result }
    {
        if self.tests >= MAX_TESTS {
            return Err(Halt::Bad(Stop {
                left,
                kind: FilterKind::TooManyComparisons,
            }));
        }
        self.tests += 1;
        let compare = self.read_compare()?;
        let literal = self.read_literal(alloc)?;
        Ok(Filter::Test {
            field,
            compare,
            literal,
        })
    }

    /// Reads a chain.
    #[cycle(reader)]
    fn read_chain(&mut self, alloc: Global, links: Chain, level: u32) -> Result<Filter, Halt>
        ensures { Answers (chain links self.old.tests self.old.rest.now) level self.new result }
    {
        let mut filter = self.read_operand(alloc, links, level)?;
        while self.passes(links.word()) {
            let right = self.read_operand(alloc, links, level)?;
            filter = links.join(alloc, filter, right)?;
        }
        Ok(filter)
    }

    /// Reads an operand of a chain.
    #[cycle(reader)]
    fn read_operand(&mut self, alloc: Global, links: Chain, level: u32) -> Result<Filter, Halt>
        ensures { Answers (operand links self.old.tests self.old.rest.now) level self.new result }
    {
        match links {
            Chain::Or => self.read_chain(alloc, Chain::And, level),
            Chain::And => self.read_unary(alloc, level),
        }
    }

    #[cycle(reader)]
    fn read_unary(&mut self, alloc: Global, level: u32) -> Result<Filter, Halt>
        ensures { Answers (unary self.old.tests self.old.rest.now) level self.new result }
    {
        match self.next() {
            Ok(next) => match begin_of(alloc, next.kind, next.part)? {
                Begin::Not => self.read_not(alloc, level, next.left),
                Begin::Open => self.read_parentheses(alloc, level, next.left),
                Begin::Name(field) => self.read_test(alloc, field, next.left),
                Begin::Other => Err(expected(next.left)),
            },
            Err(stop) => Err(Halt::Bad(stop)),
        }
    }

    /// Reads what a `not` is of, from which on the text has `left` bytes.
    #[cycle(reader)]
    fn read_not(&mut self, alloc: Global, level: u32, left: usize) -> Result<Filter, Halt>
        ensures { Answers (from Begin.Not left self.old.tests self.old.rest.now) level self.new result }
    {
        if level >= MAX_LEVELS {
            return Err(Halt::Bad(Stop {
                left,
                kind: FilterKind::TooDeep,
            }));
        }
        let inner = self.read_unary(alloc, level + 1)?;
        Ok(negation(alloc, inner)?)
    }

    /// Reads what stands in parentheses, from the first of which on the text has `left` bytes.
    #[cycle(reader)]
    fn read_parentheses(&mut self, alloc: Global, level: u32, left: usize) -> Result<Filter, Halt>
        ensures { Answers (from Begin.Open left self.old.tests self.old.rest.now) level self.new result }
    {
        if level >= MAX_LEVELS {
            return Err(Halt::Bad(Stop {
                left,
                kind: FilterKind::TooDeep,
            }));
        }
        let inner = self.read_chain(alloc, Chain::Or, level + 1)?;
        self.close()?;
        Ok(inner)
    }

    /// Checks that nothing but blanks is left.
    fn end(&mut self) -> Result<(), Halt>
        ensures { Ends self.old.rest.now result }
    {
        match self.next() {
            Ok(next) => Err(expected(next.left)),
            Err(stop) if stop.left == 0 => Ok(()),
            Err(stop) => Err(Halt::Bad(stop)),
        }
    }
}

/// Reads a whole text.
fn read_whole(alloc: Global, text: &str) -> Result<Filter, Halt>
    ensures { AnswersWhole text.now result }
{
    let mut reader = Reader {
        rest: text,
        tests: 0,
    };
    let filter = reader.read_chain(alloc, Chain::Or, 0)?;
    reader.end()?;
    Ok(filter)
}

/// Reads a filter: tests `name compare literal` of at most 15, joined by `not`, `and` and `or`, as
/// in the option `$filter` of OData, with parentheses and `not` in one another up to 64 levels.
/// `not` binds tighter than `and`, which binds tighter than `or`. `Bad` says what is wrong at the
/// first byte that decides it: `at` is the first byte of the token, and at the end of the text its
/// length. Its depth of calls is bounded, whatever the text.
pub fn read_filter(alloc: Global, text: &str) -> Result<Filter, FilterFault>
    ensures { MatchResult result (λ f. IsFilter text.now (tree_of f)) (λ fault. IfBad fault (IsBad text.now)) }
{
    match read_whole(alloc, text) {
        Ok(filter) => Ok(filter),
        Err(Halt::Bad(stop)) => Err(FilterFault::Bad {
            at: (text.len() - stop.left) as u64,
            kind: stop.kind,
        }),
        Err(Halt::NoMemory) => Err(FilterFault::NoMemory),
    }
}
