//! Units of pages, and the places between them.
ghost use Rattle.std.specs.Prelude.{◌≡◌, IfOk, Some, option_copied};
ghost use Rattle.mt_scan.specs.Units.{IsSameFilter, IsEntryOf, place_of, token_of, after_scan, after_gap, after_unit};
ghost use Rattle.mt_scan.specs.Pages.{is_end};
ghost use Rattle.mt_scan.specs.declared.unit.Place.TheVariants as at;

use mt_chain::{PkFrom, RkFrom, is_upto};
use mt_filter::Filter;
use mt_history::What;
use mt_match::Bounds;
use mt_model::{Entities, Key, NoMemory, Text};
use std::alloc::Global;

/// What a page reads of a table at one moment.
#[derive(Drop)]
pub enum Unit {
    /// The rows of a partition from a place on and up to a row key, which belongs to the unit, or to
    /// the end.
    Scan {
        pk: Text,
        from: RkFrom,
        upto: Option<Text>,
    },

    /// That no row has a partition key from a place on and up to, but not including, another.
    Gap {
        from: PkFrom,
        to: Option<Text>,
    },
}

/// An equal filter, where there is one. The one error is want of memory.
fn copy_filter(alloc: Global, filter: Option<&Filter>) -> Result<Option<Filter>, NoMemory>
    ensures { IfOk result (λ kept. IsSameFilter kept (option_copied filter.entry)) }
{
    match filter {
        None => Ok(None),
        Some(filter) => Ok(Some(filter.copy(alloc)?)),
    }
}

impl Unit {
    /// The entry of the unit in a history: a scan has an equal filter. The one error is want of memory.
    pub fn into_entry(self, alloc: Global, filter: Option<&Filter>) -> Result<What, NoMemory>
        ensures { IfOk result (IsEntryOf self (option_copied filter.entry)) }
    {
        match self {
            Unit::Scan { pk, from, upto } => {
                let filter = copy_filter(alloc, filter)?;
                Ok(What::Scan {
                    pk,
                    from,
                    upto,
                    filter,
                })
            }
            Unit::Gap { from, to } => Ok(What::Gap { from, to }),
        }
    }
}

/// What a step of a page came to.
#[derive(Drop)]
pub enum PageProgress {
    /// The page goes on with its unit.
    More,

    /// This unit is done, and the page goes on.
    Unit(Unit),

    /// This unit is done, and it is the page's last.
    Last(Unit),
}

/// Where the page after another one begins.
#[derive(Drop)]
pub enum Token {
    /// Past a row.
    Row(Key),

    /// At a place among partitions.
    Part(PkFrom),
}

/// Where a page is between two units.
#[derive(Drop)]
pub enum Place {
    /// In a partition, past that row key, or at its start, where a gap has found it.
    Rows { pk: Text, row: Option<Text> },

    /// At a place among partitions.
    Parts(PkFrom),

    /// At the end of the bounds.
    End,
}

/// A page: at most 1,000 rows, in the order of their keys.
#[derive(Drop)]
pub struct Page {
    pub rows: Entities,

    /// Where the next page begins. There is none where this one came to the end of the bounds.
    pub token: Option<Token>,
}

/// The place that a token names.
pub(crate) fn place_of(token: Token) -> Place
    ensures { (bounds : Bounds) → result ≡ place_of bounds (Some token) }
{
    match token {
        Token::Row(key) => Place::Rows {
            pk: key.pk,
            row: Some(key.rk),
        },
        Token::Part(from) => Place::Parts(from),
    }
}

fn row_token(pk: Text, row: Option<Text>) -> Token
    ensures { Some result ≡ token_of (at.Rows pk row) }
{
    match row {
        Some(rk) => Token::Row(Key { pk, rk }),
        None => Token::Part(PkFrom::From(pk)),
    }
}

/// The token of a place; none at the end.
pub(crate) fn token_of(place: Place) -> Option<Token>
    ensures { result ≡ token_of place }
{
    match place {
        Place::Rows { pk, row } => Some(row_token(pk, row)),
        Place::Parts(from) => Some(Token::Part(from)),
        Place::End => None,
    }
}

/// Whether it is the end of the bounds.
pub(crate) fn is_end(place: &Place) -> bool
    ensures { result ≡ is_end place.now }
{
    matches!(place, Place::End)
}

fn after_scan(alloc: Global, pk: &Text, upto: &Option<Text>) -> Result<Place, NoMemory>
    ensures { IfOk result (λ place. place ≡ after_scan pk.now upto.now) }
{
    let pk = pk.copy(alloc)?;
    match upto {
        None => Ok(Place::Parts(PkFrom::After(pk))),
        Some(rk) => Ok(Place::Rows {
            pk,
            row: Some(rk.copy(alloc)?),
        }),
    }
}

fn after_gap(alloc: Global, bounds: &Bounds, to: &Option<Text>) -> Result<Place, NoMemory>
    ensures { IfOk result (λ place. place ≡ after_gap bounds.now to.now) }
{
    match to {
        Some(pk) if is_upto(&bounds.pk_high, pk) => Ok(Place::Rows {
            pk: pk.copy(alloc)?,
            row: None,
        }),
        _ => Ok(Place::End),
    }
}

/// The place behind a unit. The one error is want of memory.
pub(crate) fn after_unit(alloc: Global, bounds: &Bounds, unit: &Unit) -> Result<Place, NoMemory>
    ensures { IfOk result (λ place. place ≡ after_unit bounds.now unit.now) }
{
    match unit {
        Unit::Scan { pk, upto, .. } => after_scan(alloc, pk, upto),
        Unit::Gap { to, .. } => after_gap(alloc, bounds, to),
    }
}
