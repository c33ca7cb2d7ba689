//! Pages in a row, with memory for more of them.
ghost use Rattle.std.specs.Prelude.{◌≡◌, ◌≤◌, ◌<◌, ◌+◌, ◌-◌, ◌++◌, suc, IsTrue, IfOk, OnOk, [], ◌∷◌, All, drop, length, map, max, insert, remove, slice_set, slice_index_or, option_map, option_copied, vec_len, vec_capacity};
ghost use Rattle.mt_chain.specs.Rows.{are_rising, key_at};
ghost use Rattle.mt_mem.specs.Entries.{entry, entries};
ghost use Rattle.mt_paged.specs.Pages.{joined, sheets, first_of, rows_in, Paging, Rewrites, Keeps};
ghost use Rattle.mt_paged.specs.Paged.{greatest, AreSizes};
ghost use Rattle.mt_paged.specs.Fronts.{is_in_front, IsLastIn, IsSpot, IsHome};

use crate::front::Front;
use crate::page::{PAGE, Page};
use mt_mem::Row;
use mt_model::{NoMemory, Text};
use std::alloc::Global;
use std::marker::Model;

/// Pages in a row, none of them empty, and empty ones to take from.
///
/// The first row of a page is its place in the index: where a key belongs is found by a binary search
/// over the first rows.
#[derive(Drop)]
pub struct Pages {
    list: Vec<Page>,
    pool: Vec<Page>,
}

impl Model for Pages {
    ghost use Rattle.std.specs.Prelude.{min, ◌-◌, ◌≡◌, []};
    ghost use Rattle.std.specs.List.{All};
    ghost use Rattle.std.specs.Vec.{vec_len, vec_capacity};
    ghost use Rattle.mt_paged.specs.Pages.{Paging, AreFilled};

    ghost Value = { Paging };

    ghost view = { λ p. record { pages = p.list.items; spare = min (vec_capacity p.list - vec_len p.list) (vec_len p.pool) } };

    ghost invariant = { λ p. AreFilled p.list.items × All (λ page. page ≡ []) p.pool.items };
}

/// Takes memory for empty pages, up to so many.
fn fill(pool: &mut Vec<Page>, alloc: Global, count: usize) -> Result<(), NoMemory>
    requires { All (λ page. page ≡ []) pool.old.items }
    ensures empty { All (λ page. page ≡ []) pool.new.items }
    ensures room { OnOk result (count ≤ vec_len pool.new) }
{
    while pool.len() < count {
        let page = Page::new(alloc)?;
        match pool.push(page) {
            Ok(()) => {}
            Err(_) => return Err(NoMemory),
        }
    }
    Ok(())
}

/// Puts a page at a place, for which there is memory.
fn place_page(list: &mut Vec<Page>, at: usize, page: Page)
    requires place { at ≤ vec_len list.old }
    requires room { vec_len list.old < vec_capacity list.old }
    ensures items { list.new.items ≡ insert list.old.items at page }
    ensures len { vec_len list.new ≡ vec_len list.old + 1 }
    ensures capacity { vec_capacity list.old ≤ vec_capacity list.new }
{
    match list.insert(at, page) {
        Ok(()) => {}
        Err(_) => unreachable!(),
    }
}

/// Takes a page out.
fn take_page(list: &mut Vec<Page>, at: usize) -> Page
    requires { at < vec_len list.old }
    ensures page { result ≡ slice_index_or list.old.items at [] }
    ensures items { list.new.items ≡ remove list.old.items at }
    ensures len { vec_len list.new + 1 ≡ vec_len list.old }
    ensures capacity { vec_capacity list.new ≡ vec_capacity list.old }
{
    list.remove(at)
}

/// The greater of two numbers.
fn greater(a: usize, b: usize) -> usize
    ensures { result ≡ max a b }
{
    if a < b { b } else { a }
}

impl Pages {
    /// No pages.
    pub fn new(alloc: Global) -> Pages
        ensures { result.pages ≡ [] }
    {
        Pages {
            list: Vec::new(alloc),
            pool: Vec::new(alloc),
        }
    }

    /// Pages of these rows, in their order.
    pub fn of(alloc: Global, rows: Vec<Row>) -> Result<Pages, NoMemory>
        ensures { IfOk result (λ p. joined p.pages ≡ rows.items) }
    {
        let mut pages = Pages::new(alloc);
        for row in rows {
            pages.reserve(alloc, 1)?;
            pages.push(row);
        }
        Ok(pages)
    }

    /// How many pages there are.
    pub fn len(&self) -> usize
        ensures { result ≡ length self.now.pages }
    {
        self.list.len()
    }

    /// Takes memory for so many more pages.
    pub fn reserve(&mut self, alloc: Global, count: usize) -> Result<(), NoMemory>
        ensures pages { self.new.pages ≡ self.old.pages }
        ensures room { OnOk result (count ≤ self.new.spare) }
    {
        self.list.try_reserve(count)?;
        fill(&mut self.pool, alloc, count)
    }

    /// The rows of a page.
    pub fn page(&self, at: usize) -> &[Row]
        requires { at < length self.now.pages }
        ensures now { result.now ≡ slice_index_or self.now.pages at [] }
        ensures few { length result.now ≤ 128 }
    {
        self.list[at].rows()
    }

    /// Puts a row at a place of a page with room.
    fn insert_within(&mut self, at: usize, place: usize, row: Row)
        requires within { at < length self.old.pages }
        requires place { place ≤ length (slice_index_or self.old.pages at []) }
        requires room { length (slice_index_or self.old.pages at []) < 128 }
        ensures { Rewrites at (insert (slice_index_or self.old.pages at []) place row) self.old self.new }
    {
        self.list[at].insert(place, row);
    }

    /// Puts a row at a place of a full page, which is split for it.
    fn insert_split(&mut self, at: usize, place: usize, row: Row)
        requires within { at < length self.old.pages }
        requires place { place ≤ length (slice_index_or self.old.pages at []) }
        requires full { length (slice_index_or self.old.pages at []) ≡ 128 }
        requires spare { 0 < self.old.spare }
        ensures { Rewrites at (insert (slice_index_or self.old.pages at []) place row) self.old self.new }
    {
        if let Some(mut right) = self.pool.pop() {
            self.list[at].insert_split(place, row, &mut right);
            place_page(&mut self.list, at + 1, right);
        }
    }

    /// Puts a row at a place of a page.
    pub fn insert(&mut self, at: usize, place: usize, row: Row)
        requires within { at < length self.old.pages }
        requires place { place ≤ length (slice_index_or self.old.pages at []) }
        requires spare { 0 < self.old.spare }
        ensures { Rewrites at (insert (slice_index_or self.old.pages at []) place row) self.old self.new }
    {
        if self.page(at).len() < PAGE {
            self.insert_within(at, place, row);
        } else {
            self.insert_split(at, place, row);
        }
    }

    /// The first page of all, with a row.
    pub fn begin(&mut self, row: Row)
        requires none { self.old.pages ≡ [] }
        requires spare { 0 < self.old.spare }
        ensures rows { joined self.new.pages ≡ row ∷ [] }
        ensures spare { self.old.spare ≤ self.new.spare + 1 }
    {
        if let Some(mut page) = self.pool.pop() {
            page.insert(0, row);
            place_page(&mut self.list, 0, page);
        }
    }

    /// Puts a row behind all others.
    fn push(&mut self, row: Row)
        requires { 0 < self.old.spare }
        ensures { joined self.new.pages ≡ joined self.old.pages ++ row ∷ [] }
    {
        let len = self.len();
        if len == 0 {
            self.begin(row);
        } else {
            let place = self.page(len - 1).len();
            self.insert(len - 1, place, row);
        }
    }

    /// Puts another row in the place of one.
    pub fn set(&mut self, at: usize, place: usize, row: Row)
        requires within { at < length self.old.pages }
        requires place { place < length (slice_index_or self.old.pages at []) }
        ensures { Rewrites at (slice_set (slice_index_or self.old.pages at []) place row) self.old self.new }
    {
        self.list[at].set(place, row);
    }

    /// Takes a row out of a page that has others.
    fn remove_within(&mut self, at: usize, place: usize)
        requires within { at < length self.old.pages }
        requires place { place < length (slice_index_or self.old.pages at []) }
        requires others { 1 < length (slice_index_or self.old.pages at []) }
        ensures rows { Rewrites at (remove (slice_index_or self.old.pages at []) place) self.old self.new }
        ensures pages { length self.new.pages ≡ length self.old.pages }
    {
        self.list[at].remove(place);
    }

    /// Takes a page out that has one row.
    fn remove_page(&mut self, at: usize)
        requires within { at < length self.old.pages }
        requires one { length (slice_index_or self.old.pages at []) ≡ 1 }
        ensures { Rewrites at [] self.old self.new }
    {
        take_page(&mut self.list, at);
    }

    /// Whether two pages are one page together.
    fn fit(&self, a: usize, b: usize) -> bool
        requires first { a < length self.now.pages }
        requires second { b < length self.now.pages }
        ensures { IsTrue result → length (slice_index_or self.now.pages a []) + length (slice_index_or self.now.pages b []) ≤ 128 }
    {
        self.page(a).len() + self.page(b).len() <= PAGE
    }

    /// Joins a page and the one behind it.
    fn join_next(&mut self, at: usize)
        requires within { at + 1 < length self.old.pages }
        requires few { length (slice_index_or self.old.pages at []) + length (slice_index_or self.old.pages (at + 1) []) ≤ 128 }
        ensures { Keeps self.old self.new }
    {
        let next = take_page(&mut self.list, at + 1);
        self.list[at].join(next);
    }

    /// Joins a page that is less than a quarter full with a neighbour, where both fit into one page.
    fn settle(&mut self, at: usize)
        requires { at < length self.old.pages }
        ensures { Keeps self.old self.new }
    {
        if self.page(at).len() >= PAGE / 4 {
            return;
        }
        if self.len() - at > 1 && self.fit(at, at + 1) {
            self.join_next(at);
        } else if at > 0 && self.fit(at - 1, at) {
            self.join_next(at - 1);
        }
    }

    /// Takes a row out.
    pub fn remove(&mut self, at: usize, place: usize)
        requires within { at < length self.old.pages }
        requires place { place < length (slice_index_or self.old.pages at []) }
        ensures { Rewrites at (remove (slice_index_or self.old.pages at []) place) self.old self.new }
    {
        if self.page(at).len() == 1 {
            self.remove_page(at);
        } else {
            self.remove_within(at, place);
            self.settle(at);
        }
    }

    /// The last page that begins with one of the first rows, or the first page of all.
    fn last_in(&self, front: Front<'_>) -> usize
        requires rising { IsTrue (are_rising (rows_in self.now)) }
        requires some { 0 < length self.now.pages }
        ensures { IsLastIn (is_in_front front.entry) (sheets self.now.pages) result }
    {
        let past = self.list.partition_point(|page| front.begins(page));
        past.saturating_sub(1)
    }

    /// The page and the place in it where the first rows end. Where that is the end of the page, the rows
    /// go on with the next page.
    pub fn spot(&self, front: Front<'_>) -> (usize, usize)
        requires rising { IsTrue (are_rising (rows_in self.now)) }
        requires some { 0 < length self.now.pages }
        ensures spot { IsSpot (is_in_front front.entry) (sheets self.now.pages) result.0 result.1 }
        ensures place { result.1 ≤ length (slice_index_or self.now.pages result.0 []) }
    {
        let at = self.last_in(front);
        (at, front.end_in(self.page(at)))
    }

    /// The page where a key belongs.
    pub fn home(&self, pk: &Text, rk: &Text) -> usize
        requires rising { IsTrue (are_rising (rows_in self.now)) }
        requires some { 0 < length self.now.pages }
        ensures { IsHome (key_at pk.now rk.now) (sheets self.now.pages) result }
    {
        let _ = &self.list;
        self.last_in(Front::UpTo(pk, rk))
    }

    /// The first row of a page.
    fn first_of_page(&self, at: usize) -> Option<&Row>
        requires { at < length self.now.pages }
        ensures { option_map entry (option_copied result) ≡ first_of (joined (drop at (sheets self.now.pages))) }
    {
        let _ = &self.pool;
        self.page(at).first()
    }

    /// The first row at a place of a page or behind it.
    pub fn first_from(&self, at: usize, place: usize) -> Option<&Row>
        requires within { at < length self.now.pages }
        requires place { place ≤ length (slice_index_or self.now.pages at []) }
        ensures { option_map entry (option_copied result) ≡ first_of (drop place (slice_index_or (sheets self.now.pages) at []) ++ joined (drop (suc at) (sheets self.now.pages))) }
    {
        let page = self.page(at);
        if place < page.len() {
            return Some(&page[place]);
        }
        if self.len() - at > 1 {
            return self.first_of_page(at + 1);
        }
        None
    }
    /// The number of rows of the largest page, 0 without pages.
    pub fn largest(&self) -> usize
        ensures largest { result ≡ greatest (map length self.now.pages) }
        ensures sizes { AreSizes (map length self.now.pages) (length (rows_in self.now)) }
    {
        let _ = &self.list;
        let mut largest = 0;
        for at in 0..self.len() {
            largest = greater(largest, self.page(at).len());
        }
        largest
    }
}
