//! A page of a table.
ghost use Rattle.std.specs.Prelude.{◌≡◌, ◌≤◌, ◌^◌, ◌-◌, min, IfOk, IfSome, true, false, option_copied};
ghost use Rattle.mt_chain.specs.Asks.{CanAsk, FitsAsk};
ghost use Rattle.mt_history.specs.Weight.{need_of_page};
ghost use Rattle.mt_scan.specs.Units.{place_of, token_of};
ghost use Rattle.mt_scan.specs.Pages.{AreBounds, IsKeyedToken, place_in, begun, is_over_at, is_over, side_of, asks, gap_from, lead_of, IsScanDone, IsGapDone, told, Sees, Absorbs, IsPage};
ghost use Rattle.mt_chain.specs.declared.ask.StoreReply.TheVariants as reply;

use crate::asks::{copy_from, from_row, next_partition, read_rows};
use crate::chunk::Chunk;
use crate::saw::{Half, SeenNext, SeenRows, see_next, see_rows};
use crate::unit::{Page, PageProgress, Place, Token, Unit, after_unit, is_end, place_of, token_of};
use mt_chain::{Found, Next, PkFrom, Side, StoreAsk, StoreReply};
use mt_filter::Filter;
use mt_history::page_need;
use mt_match::{Bounds, key_bounds};
use mt_model::{Entities, Entity, NoMemory, Text};
use std::alloc::Global;
use std::marker::Model;

/// Units of a page, at most.
const UNITS: u32 = 256;

/// A page of a table: it gives its next store call, and takes the store's reply.
#[derive(Drop)]
pub struct PageCall {
    filter: Option<Filter>,
    bounds: Bounds,

    /// How many more rows the page has room for.
    room: usize,
    rows: Vec<Entity>,
    units: u32,

    /// None at the start of the bounds.
    place: Option<Place>,
    half: Half,
}

impl Model for PageCall {
    ghost use Rattle.std.specs.Coded.{codes};
    ghost use Rattle.mt_filter.specs.contracts.filter.Filter as filters;
    ghost use Rattle.mt_scan.specs.Pages.{Page, place_in, IsPage};

    ghost Value = { Page };

    ghost coded = { Prim.hlevel (codes, filters.the_row.coded) };

    ghost view = { λ c. record { filter = c.filter; bounds = c.bounds; room = c.room; rows = c.rows.items; units = c.units; place = place_in c.bounds c.place; half = c.half } };

    ghost invariant = { λ c. IsPage (record { filter = c.filter; bounds = c.bounds; room = c.room; rows = c.rows.items; units = c.units; place = place_in c.bounds c.place; half = c.half }) };
}

/// The bounds of a page of the rows that a filter matches: those that `key_bounds` gives, or without a
/// filter the empty texts, without upper ones. The one error is want of memory.
pub fn page_bounds(alloc: Global, filter: &Option<Filter>) -> Result<Bounds, NoMemory>
    ensures { IfOk result (AreBounds filter.now) }
{
    match filter {
        Some(filter) => key_bounds(alloc, filter),
        None => {
            let pk_low = Text::of(alloc, "")?;
            let rk_low = Text::of(alloc, "")?;
            Ok(Bounds {
                pk_low,
                pk_high: None,
                rk_low,
                rk_high: None,
            })
        }
    }
}

/// What comes of a reply.
#[derive(Drop)]
pub(crate) enum Seen {
    /// The unit begins again.
    Again,

    /// It goes on to new.
    On(Half),

    /// It is done, with these rows, and the page is then at that place.
    Done {
        unit: Unit,
        rows: Vec<Entity>,
        place: Place,
    },
}

/// The scan of a chunk, with its rows and the place behind it. The one error is want of memory.
fn scan_done(
    alloc: Global,
    bounds: &Bounds,
    pk: &Text,
    row: &Option<Text>,
    chunk: Chunk,
) -> Result<Seen, NoMemory>
    ensures { IfOk result (IsScanDone bounds.now pk.now row.now chunk.rows.items chunk.upto) }
{
    let unit = Unit::Scan {
        pk: pk.copy(alloc)?,
        from: from_row(alloc, row)?,
        upto: chunk.upto,
    };
    let place = after_unit(alloc, bounds, &unit)?;
    Ok(Seen::Done {
        unit,
        rows: chunk.rows,
        place,
    })
}

/// A gap that goes up to there, with the place behind it. The one error is want of memory.
fn gap_done(
    alloc: Global,
    bounds: &Bounds,
    from: PkFrom,
    to: Option<Text>,
) -> Result<Seen, NoMemory>
    ensures { IfOk result (IsGapDone bounds.now from to) }
{
    let unit = Unit::Gap { from, to };
    let place = after_unit(alloc, bounds, &unit)?;
    Ok(Seen::Done {
        unit,
        rows: Vec::new(alloc),
        place,
    })
}

/// The place that a token names; none without a token.
fn start_of(token: Option<Token>) -> Option<Place>
    ensures { (bounds : Bounds) → place_in bounds result ≡ place_of bounds token }
{
    match token {
        None => None,
        Some(token) => Some(place_of(token)),
    }
}

/// The token of a place of a page; at the start it is that of the lower bound of partition keys.
fn token_at(bounds: Bounds, place: Option<Place>) -> Option<Token>
    ensures { result ≡ token_of (place_in bounds place) }
{
    match place {
        None => Some(Token::Part(PkFrom::From(bounds.pk_low))),
        Some(place) => token_of(place),
    }
}

/// The store that is asked: first old, and then new.
fn side_of(half: &Half) -> Side
    ensures { result ≡ side_of half.now }
{
    match half {
        Half::First => Side::Old,
        Half::Turned(_) | Half::Closed | Half::Named(_) => Side::New,
    }
}

/// Whether a page ends: at the end of the bounds, without room, or at 256 units.
fn is_over_at(place: &Place, room: usize, units: u32) -> bool
    ensures { result ≡ is_over_at place.now room units }
{
    is_end(place) || room == 0 || units >= UNITS
}

/// What is said of a unit that is done.
fn told(over: bool, unit: Unit) -> PageProgress
    ensures { result ≡ told over unit }
{
    if over {
        PageProgress::Last(unit)
    } else {
        PageProgress::Unit(unit)
    }
}

impl PageCall {
    /// A page of the rows that the filter matches, or of all where there is none: at most `top` of
    /// them, from the token's place on, or from the start. The bounds are those that `key_bounds`
    /// gives of the filter, or without one the empty texts without upper ones. It takes no memory.
    pub fn new(
        alloc: Global,
        filter: Option<Filter>,
        bounds: Bounds,
        top: u32,
        token: Option<Token>,
    ) -> PageCall
        requires top { (1 ≤ top) × (top ≤ 1000) }
        requires bounds { AreBounds filter bounds }
        requires token { IfSome token IsKeyedToken }
        ensures begun { result ≡ begun filter bounds top token }
        ensures goes { is_over result ≡ false }
    {
        PageCall {
            filter,
            bounds,
            room: top as usize,
            rows: Vec::new(alloc),
            units: 0,
            place: start_of(token),
            half: Half::First,
        }
    }

    /// The filter, if there is one.
    pub fn filter(&self) -> Option<&Filter>
        ensures { option_copied result ≡ self.now.filter }
    {
        self.filter.as_ref()
    }

    /// What each turn of the page needs of the room in a history, in bytes, or the greatest number: 64,
    /// the size of the filter, and 4,096 for the keys of a unit.
    pub fn need(&self) -> u64
        ensures value { result ≡ min (2 ^ 64 - 1) (need_of_page self.now.filter) }
        ensures valid { IsPage self.now }
    {
        page_need(&self.filter)
    }

    /// Whether the page ends here: without room, at 256 units, or at the end of the bounds. No call is
    /// asked then.
    pub fn is_over(&self) -> bool
        ensures { result ≡ is_over self.now }
    {
        let at_end = match &self.place {
            None => false,
            Some(place) => is_end(place),
        };
        at_end || self.room == 0 || self.units >= UNITS
    }

    /// The rows so far, and where the next page begins: at the start of the bounds as long as no unit
    /// is done. It takes no memory.
    pub fn into_page(self) -> Page
        ensures rows { result.rows ≡ self.rows }
        ensures token { result.token ≡ token_of self.place }
    {
        let PageCall {
            bounds,
            rows,
            place,
            ..
        } = self;
        Page {
            rows: Entities::of(rows),
            token: token_at(bounds, place),
        }
    }

    /// The place among partitions at which the next unit begins. The one error is want of memory.
    fn gap_from(&self, alloc: Global) -> Result<Option<PkFrom>, NoMemory>
        ensures { IfOk result (λ from. from ≡ gap_from self.now.place) }
    {
        match &self.place {
            None => Ok(Some(PkFrom::From(self.bounds.pk_low.copy(alloc)?))),
            Some(Place::Parts(from)) => Ok(Some(copy_from(alloc, from)?)),
            Some(Place::Rows { .. } | Place::End) => Ok(None),
        }
    }

    /// The next store call: of a unit in a partition a read of the marker, and of the rows past the
    /// last one within the row bounds, at most 100; of a gap the next partition. The one error is want
    /// of memory.
    pub fn next(&self, alloc: Global) -> Result<StoreAsk, NoMemory>
        requires { is_over self.now ≡ false }
        ensures asks { IfOk result (λ a. a ≡ asks self.now) }
        ensures can { IfOk result (λ a. CanAsk a.ask) }
    {
        let side = side_of(&self.half);
        match &self.place {
            None => Ok(next_partition(side, PkFrom::From(self.bounds.pk_low.copy(alloc)?))),
            Some(Place::Parts(from)) => Ok(next_partition(side, copy_from(alloc, from)?)),
            Some(Place::Rows { pk, row }) => read_rows(alloc, side, &self.bounds, pk, row),
            Some(Place::End) => unreachable!(),
        }
    }

    fn see_found(&self, alloc: Global, found: Found) -> Result<Seen, NoMemory>
        requires { is_over self.now ≡ false }
        ensures { IfOk result (Sees self.now (lead_of self.now.place self.now.half (reply.Found found))) }
    {
        let Some(place) = &self.place else {
            return Ok(Seen::Again);
        };
        let Place::Rows { pk, row } = place else {
            return Ok(Seen::Again);
        };
        match see_rows(alloc, pk, &self.filter, self.room, &self.half, found)? {
            SeenRows::Again => Ok(Seen::Again),
            SeenRows::On(half) => Ok(Seen::On(half)),
            SeenRows::Made(chunk) => scan_done(alloc, &self.bounds, pk, row, chunk),
        }
    }

    fn see_next(&self, alloc: Global, next: Next) -> Result<Seen, NoMemory>
        ensures { IfOk result (Sees self.now (lead_of self.now.place self.now.half (reply.Next next))) }
    {
        let Some(from) = self.gap_from(alloc)? else {
            return Ok(Seen::Again);
        };
        match see_next(alloc, &self.half, next)? {
            SeenNext::Again => Ok(Seen::Again),
            SeenNext::On(half) => Ok(Seen::On(half)),
            SeenNext::Next(to) => gap_done(alloc, &self.bounds, from, to),
        }
    }

    /// What comes of a reply. The one error is want of memory.
    fn see(&self, alloc: Global, reply: StoreReply) -> Result<Seen, NoMemory>
        requires { is_over self.now ≡ false }
        ensures { IfOk result (Sees self.now (lead_of self.now.place self.now.half reply)) }
    {
        match reply {
            StoreReply::Found(found) => self.see_found(alloc, found),
            StoreReply::Next(next) => self.see_next(alloc, next),
            _ => Ok(Seen::Again),
        }
    }

    /// Takes the store's reply, of the kind that it gives to the call that was asked.
    ///
    /// The one error is want of memory, after which the page is where it was. After a reply that a
    /// sound pair does not give, its unit begins again.
    pub fn absorb(&mut self, alloc: Global, reply: StoreReply) -> Result<PageProgress, NoMemory>
        requires goes { is_over self.old ≡ false }
        requires fits { FitsAsk (asks self.old).ask reply }
        ensures { Absorbs self.old reply result self.new }
    {
        match self.see(alloc, reply)? {
            Seen::Again => {
                self.half = Half::First;
                Ok(PageProgress::More)
            }
            Seen::On(half) => {
                self.half = half;
                Ok(PageProgress::More)
            }
            Seen::Done { unit, rows, place } => {
                let mut rows = rows;
                let room = self.room - rows.as_slice().len();
                self.rows.append(&mut rows)?;
                self.room = room;
                self.units += 1;
                let over = is_over_at(&place, room, self.units);
                self.place = Some(place);
                self.half = Half::First;
                Ok(told(over, unit))
            }
        }
    }
}
