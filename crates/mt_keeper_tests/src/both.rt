//! Two stores of the same rows, and calls whose answers are compared.
ghost use Rattle.std.specs.Prelude.{◌≤◌};

use crate::build::{one, partition, query};
use mt_chain::{Found, KeepFault, Keeper, PkFrom, Put, StoredRow, StoredRows, Tags};
use mt_mem::MemKeeper;
use mt_model::Tag;
use mt_paged::PagedKeeper;
use std::alloc::Global;
use std::test::Fail;

/// A store with its rows in a list, and one with its rows in pages.
#[derive(Drop)]
pub struct Both {
    listed: MemKeeper,
    pub paged: PagedKeeper,
}

/// Whether these are the same answers to puts.
fn answered_alike(a: &Result<Tags, KeepFault>, b: &Result<Tags, KeepFault>) -> bool {
    match (a, b) {
        (Ok(a), Ok(b)) => a.as_slice() == b.as_slice(),
        (Err(a), Err(b)) => a == b,
        _ => false,
    }
}

/// Whether two rows are the same.
fn is_same(a: &StoredRow, b: &StoredRow) -> bool {
    a.rk == b.rk && a.props == b.props && a.tag == b.tag
}

/// Whether these are the same rows in the same order.
fn are_same(a: &StoredRows, b: &StoredRows) -> bool {
    let (a, b) = (a.as_slice(), b.as_slice());
    a.len() == b.len() && a.iter().zip(b).all(|(a, b)| is_same(a, b))
}

/// Whether two answers to a query are the same.
fn found_alike(a: &Found, b: &Found) -> bool {
    are_same(&a.named, &b.named)
        && are_same(&a.rows, &b.rows)
        && a.more == b.more
        && a.sealed == b.sealed
}

/// The first tag of an answer to puts.
fn first_tag(answer: &Result<Tags, KeepFault>) -> Option<Tag> {
    match answer {
        Ok(tags) => tags.as_slice().first().copied(),
        Err(_) => None,
    }
}

impl Both {
    /// Both stores without rows.
    pub fn empty(alloc: Global) -> Result<Both, Fail> {
        Ok(Both {
            listed: MemKeeper::new(alloc, 0, Vec::new(alloc)),
            paged: PagedKeeper::new(alloc, 0, Vec::new(alloc))?,
        })
    }

    /// The tag that both stores answer to a put, or none where both refuse it alike.
    pub fn put(&mut self, alloc: Global, pk: char, put: Put) -> Result<Option<Tag>, Fail> {
        let pk = partition(alloc, pk)?;
        let puts = one(alloc, put)?;
        let listed = self.listed.apply(alloc, &pk, &puts);
        let paged = self.paged.apply(alloc, &pk, &puts);
        if answered_alike(&listed, &paged) {
            Ok(first_tag(&paged))
        } else {
            Err(Fail::new("another answer to a put"))
        }
    }

    /// What both stores find.
    pub fn find(
        &mut self,
        alloc: Global,
        pk: char,
        row: u64,
        bounds: (u64, u64),
        limit: u32,
    ) -> Result<Found, Fail>
        requires { 1 ≤ limit }
    {
        let query = query(alloc, pk, row, bounds, limit)?;
        let listed = self.listed.query(alloc, &query)?;
        let paged = self.paged.query(alloc, &query)?;
        if found_alike(&listed, &paged) {
            Ok(paged)
        } else {
            Err(Fail::new("another answer to a query"))
        }
    }

    /// Whether both stores have the same next partition, and there is one.
    pub fn walk(&mut self, alloc: Global, at: &PkFrom) -> Result<bool, Fail> {
        let listed = self.listed.next_partition(alloc, at)?;
        let paged = self.paged.next_partition(alloc, at)?;
        if listed.pk == paged.pk && listed.sealed == paged.sealed {
            Ok(paged.pk.is_some())
        } else {
            Err(Fail::new("another next partition"))
        }
    }
}
