//! The call of a client's batch.
ghost use Rattle.std.specs.Prelude.{◌≡◌, IfOk};
ghost use Rattle.mt_chain.specs.declared.ask.StoreAsk.{StoreAsk};
ghost use Rattle.mt_chain.specs.Asks.{CanAsk, FitsAsk};
ghost use Rattle.mt_batch_plan.specs.Calls.{CallFits, Asks, Absorbs, Reads, is_write};
ghost use Rattle.mt_batch_plan.specs.Verdicts.{led_to, IsLed};

use crate::names::read;
use crate::place::Place;
use crate::plan::{Plan, answer};
use crate::puts::write;
use crate::saw::{Lead, Seen, lead_of_new, lead_of_old, see};
use mt_chain::{Refusal, Side, StoreAsk, StoreReply, Tags};
use mt_model::NoMemory;
use mt_rules::Batch;
use std::alloc::Global;
use std::marker::Model;
use std::mem;

/// What a step of a batch call came to.
#[derive(Drop)]
pub enum BatchProgress {
    /// The call goes on.
    More,

    /// The batch was applied: one tag for each operation, in their order. That of a delete is the tag
    /// that clients saw of the row that went.
    Written(Tags),

    /// An operation refuses the batch, and nothing changed.
    Refused(Refusal),
}

/// The call of a batch: it gives its next store call, and takes the store's reply.
#[derive(Drop)]
pub struct BatchCall {
    batch: Batch,
    place: Place,

    /// What a write is answered with; at a read of no meaning.
    plan: Plan,
}

impl Model for BatchCall {
    ghost use Rattle.mt_batch_plan.specs.Calls.{Call, CallFits};
    ghost use Rattle.mt_batch_plan.specs.Plans.{IsPlanned};

    ghost Value = { Call };

    ghost view = { λ c. record { batch = c.batch; place = c.place } };

    ghost invariant = { λ c. CallFits (record { batch = c.batch; place = c.place }) × IsPlanned c.batch c.place c.plan.order.items c.plan.tags.items };
}

impl BatchCall {
    /// The call of a batch, at its beginning. It takes no memory.
    pub fn new(alloc: Global, batch: Batch) -> BatchCall
        ensures { result ≡ record { batch = batch; place = Place.ReadOld } }
    {
        BatchCall {
            batch,
            place: Place::ReadOld,
            plan: Plan::new(alloc),
        }
    }

    /// The batch. What a call keeps whatever the stores reply holds of it.
    pub fn batch(&self) -> &Batch
        ensures value { result.now ≡ self.now.batch }
        ensures valid { CallFits self.now }
    {
        &self.batch
    }

    /// The batch, which takes no memory.
    pub fn into_batch(self) -> Batch
        ensures { result ≡ self.batch }
    {
        self.batch
    }

    /// Whether the next store call writes.
    pub fn is_write(&self) -> bool
        ensures { result ≡ is_write self.now.place }
    {
        matches!(self.place, Place::Write { .. })
    }

    /// The next store call: a read of the marker and of the rows that the operations name, with rising
    /// keys; or a write, whose puts are the marker's and those of the operations, in the order of their
    /// keys. The one error is want of memory.
    pub fn next(&self, alloc: Global) -> Result<StoreAsk, NoMemory>
        ensures asks { IfOk result (Asks self.now.batch self.now.place) }
        ensures can { IfOk result (λ a. CanAsk a.ask) }
    {
        match &self.place {
            Place::ReadOld => read(alloc, &self.batch, Side::Old),
            Place::ReadNew { .. } => read(alloc, &self.batch, Side::New),
            Place::Write { basis } => write(alloc, &self.batch, &self.plan.order, basis),
        }
    }

    /// Takes the store's reply, of the kind that it gives to the call that was asked.
    ///
    /// A read may take memory, and its want is the one error. A reply to a write takes no memory. After
    /// an error, `Written` and `Refused` the call is at its beginning.
    pub fn absorb(&mut self, alloc: Global, reply: StoreReply) -> Result<BatchProgress, NoMemory>
        requires fits { (a : StoreAsk) × Asks self.old.batch self.old.place a × FitsAsk a.ask reply }
        ensures batch { self.new.batch ≡ self.old.batch }
        ensures moves { Absorbs self.old.batch self.old.place reply result self.new.place }
    {
        let place = mem::replace(&mut self.place, Place::ReadOld);
        match (place, reply) {
            (Place::ReadOld, StoreReply::Found(found)) => self.follow(alloc, lead_of_old(found)),
            (Place::ReadNew { after }, StoreReply::Found(found)) => {
                self.follow(alloc, lead_of_new(after, found))
            }
            (Place::Write { .. }, StoreReply::Applied(given)) => {
                let tags = mem::replace(&mut self.plan.tags, Vec::new(alloc));
                let tags = answer(self.batch.ops(), &self.plan.order, given.as_slice(), tags);
                Ok(BatchProgress::Written(tags))
            }
            _ => Ok(BatchProgress::More),
        }
    }

    /// Goes where the rows that were read lead. For want of memory the call stays at its beginning.
    fn follow(&mut self, alloc: Global, lead: Lead) -> Result<BatchProgress, NoMemory>
        requires place { self.old.place ≡ Place.ReadOld }
        requires marked { IsLed lead }
        ensures batch { self.new.batch ≡ self.old.batch }
        ensures moves { Reads (led_to self.old.batch lead) result self.new.place }
    {
        match see(alloc, self.batch.ops(), lead)? {
            Seen::Again => Ok(BatchProgress::More),
            Seen::Refused(refusal) => Ok(BatchProgress::Refused(refusal)),
            Seen::Read(after) => {
                self.place = Place::ReadNew { after };
                Ok(BatchProgress::More)
            }
            Seen::Write { basis, plan } => {
                self.place = Place::Write { basis };
                self.plan = plan;
                Ok(BatchProgress::More)
            }
        }
    }
}
