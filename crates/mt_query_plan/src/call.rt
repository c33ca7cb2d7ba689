//! The query of one partition.
ghost use Rattle.std.specs.Prelude.{◌≡◌, ◌^◌, ◌-◌, min, IfOk, option_copied};
ghost use Rattle.mt_chain.specs.Asks.{CanAsk, FitsAsk};
ghost use Rattle.mt_history.specs.Weight.{need_of_query};
ghost use Rattle.mt_query_plan.specs.Queries.{first_place, asks, Absorbs};

use crate::place::{AfterOld, Place};
use crate::range::read;
use crate::saw::{Seen, see};
use mt_chain::{Side, StoreAsk, StoreReply};
use mt_filter::Filter;
use mt_history::query_need;
use mt_model::{Entities, NoMemory, Text};
use std::alloc::Global;
use std::marker::Model;

/// What a step of a query came to.
#[derive(Drop)]
pub enum QueryProgress {
    /// The query goes on.
    More,

    /// These are the rows of the partition that the filter matches, in the order of their keys: each
    /// with its visible properties and the tag that clients see.
    Rows(Entities),
}

/// A query of one partition: it gives its next store call, and takes the store's reply.
#[derive(Drop)]
pub struct QueryCall {
    pk: Text,
    filter: Option<Filter>,
    place: Place,
}

impl Model for QueryCall {
    ghost use Rattle.std.specs.Coded.{codes};
    ghost use Rattle.mt_filter.specs.contracts.filter.Filter as filters;
    ghost use Rattle.mt_query_plan.specs.Queries.{Call};

    ghost Value = { Call };

    ghost coded = { Prim.hlevel (codes, filters.the_row.coded) };

    ghost view = { λ c. record { pk = c.pk; filter = c.filter; place = c.place } };
}

impl QueryCall {
    /// A query of the rows of a partition that the filter matches, or of all where there is none. It
    /// begins with a read of old, or with a read of new where the partition is `known` to be in new
    /// alone. It takes no memory.
    pub fn new(pk: Text, filter: Option<Filter>, known: bool) -> QueryCall
        ensures { result ≡ record { pk = pk; filter = filter; place = first_place known } }
    {
        let place = if known {
            Place::ReadNew {
                after: AfterOld::Moved,
            }
        } else {
            Place::ReadOld
        };
        QueryCall { pk, filter, place }
    }

    /// The partition.
    pub fn partition(&self) -> &Text
        ensures { result.now ≡ self.now.pk }
    {
        &self.pk
    }

    /// The filter, if there is one.
    pub fn filter(&self) -> Option<&Filter>
        ensures { option_copied result ≡ self.now.filter }
    {
        self.filter.as_ref()
    }

    /// The weight of the entry that the query leaves, in bytes, or the greatest number.
    pub fn need(&self) -> u64
        ensures { result ≡ min (2 ^ 64 - 1) (need_of_query self.now.pk self.now.filter) }
    {
        query_need(&self.pk, &self.filter)
    }

    /// The partition and the filter, which takes no memory.
    pub fn into_parts(self) -> (Text, Option<Filter>)
        ensures { result ≡ (self.pk, self.filter) }
    {
        (self.pk, self.filter)
    }

    /// The next store call: a read of the marker, and of the rows between the row keys that the filter
    /// bounds, all of them. The one error is want of memory.
    pub fn next(&self, alloc: Global) -> Result<StoreAsk, NoMemory>
        ensures asks { IfOk result (λ a. a ≡ asks self.now) }
        ensures can { IfOk result (λ a. CanAsk a.ask) }
    {
        let side = match &self.place {
            Place::ReadOld => Side::Old,
            Place::ReadNew { .. } => Side::New,
        };
        read(alloc, side, &self.pk, &self.filter)
    }

    /// Takes the store's reply, of the kind that it gives to the call that was asked.
    ///
    /// The one error is want of memory, after which the query is where it was. After `Rows`, and after
    /// a reply that a sound pair does not give, it is at a read of old.
    pub fn absorb(&mut self, alloc: Global, reply: StoreReply) -> Result<QueryProgress, NoMemory>
        requires fits { FitsAsk (asks self.old).ask reply }
        ensures pk { self.new.pk ≡ self.old.pk }
        ensures filter { self.new.filter ≡ self.old.filter }
        ensures moves { Absorbs self.old reply result self.new.place }
    {
        let StoreReply::Found(found) = reply else {
            unreachable!()
        };
        let seen = see(alloc, &self.pk, &self.filter, &self.place, found)?;
        match seen {
            Seen::Again => {
                self.place = Place::ReadOld;
                Ok(QueryProgress::More)
            }
            Seen::Read(after) => {
                self.place = Place::ReadNew { after };
                Ok(QueryProgress::More)
            }
            Seen::Answer(rows) => {
                self.place = Place::ReadOld;
                Ok(QueryProgress::Rows(rows))
            }
        }
    }
}
