//! A cleaner.
ghost use Rattle.std.specs.Prelude.{◌≡◌, IfOk, IfErr};
ghost use Rattle.mt_chain.specs.declared.ask.StoreAsk.{StoreAsk};
ghost use Rattle.mt_chain.specs.Asks.{CanAsk, FitsAsk};
ghost use Rattle.mt_clean.specs.Cleanings.{Asks, Absorbs, CleanerFits, GoesOn, TakesMemory, end_read, after_next, after_read, after_write, after_unmet, lead, state_of, said_of, is_done, says_done, progress_at};
ghost use Rattle.mt_clean.specs.declared.state.State.TheVariants as at;

use crate::asks::{drop_rows, first_of_old, purge, read_rows};
use crate::rows::copy_read_end;
use crate::state::State;
use crate::steps;
use crate::steps::Lead;
use mt_chain::{Found, Next, Side, StoreAsk, StoreReply};
use mt_meta::MARKER_KEY;
use mt_model::{NoMemory, Text};
use std::alloc::Global;
use std::marker::Model;
use std::mem;

/// What a step of a cleaner came to.
#[derive(Drop)]
pub enum CleanProgress {
    /// The cleaner goes on.
    More,

    /// Old is sealed and has no row.
    Done,

    /// Old is not sealed. The cleaner is at its beginning.
    NotSealed,

    /// New does not use this partition of old's alone. The cleaner is at its beginning.
    NotMigrated { pk: Text },
}

/// A cleaner: it gives its next store call, and takes the store's reply.
#[derive(Drop)]
pub struct Cleaner {
    state: State,
}

impl Model for Cleaner {
    ghost use Rattle.mt_clean.specs.declared.state.State.{State};
    ghost use Rattle.mt_clean.specs.Cleanings.{CleanerFits};

    ghost Value = { State };

    ghost view = { λ c. c.state };

    ghost invariant = { λ c. CleanerFits c.state };
}

/// Where a reading of new ends, at a reply that shows it. The one error is want of memory.
fn end_read(alloc: Global, state: &State, reply: &StoreReply) -> Result<Option<Text>, NoMemory>
    ensures end { IfOk result (λ upto. upto ≡ end_read state.now reply.now) }
    ensures memory { IfErr result (λ none. TakesMemory state.now reply.now) }
{
    match (state, reply) {
        (State::Tombs { .. }, StoreReply::Found(found)) => {
            copy_read_end(alloc, &found.rows, found.more)
        }
        _ => Ok(None),
    }
}

/// Old told its first partition.
fn after_next(state: State, next: Next) -> Lead
    ensures { result ≡ after_next state next }
{
    match state {
        State::Walk => steps::walked(next.sealed, next.pk),
        state => Lead::To(state),
    }
}

/// Rows were read, of new up to there.
fn after_read(state: State, found: Found, upto: Option<Text>) -> Lead
    requires { upto ≡ end_read state (StoreReply.Found found) }
    ensures { result ≡ after_read state found }
{
    let Found {
        named,
        rows,
        more,
        ..
    } = found;
    match state {
        State::Tombs { pk, .. } => steps::read_new(pk, upto, rows, named.get(MARKER_KEY)),
        State::Rows { pk } => Lead::To(steps::read_old(pk, rows, more, named.get(MARKER_KEY))),
        state => Lead::To(state),
    }
}

/// Puts were made.
fn after_write(state: State) -> State
    ensures { result ≡ after_write state }
{
    match state {
        State::Purge { pk, upto, .. } => steps::purged(pk, upto),
        State::Drop { pk, more, .. } => steps::dropped(pk, more),
        state => state,
    }
}

/// Puts were not made, since one of them does not hold, or since another cleaner has dropped the
/// partition.
fn after_unmet(state: State) -> State
    ensures { result ≡ after_unmet state }
{
    match state {
        State::Purge { pk, .. } => State::Tombs { pk, after: None },
        State::Drop { pk, .. } => State::Rows { pk },
        state => state,
    }
}

/// Where a reply leads, which takes no memory.
fn lead(state: State, reply: StoreReply, upto: Option<Text>) -> Lead
    requires { upto ≡ end_read state reply }
    ensures { result ≡ lead state reply }
{
    match reply {
        StoreReply::Next(next) => after_next(state, next),
        StoreReply::Found(found) => after_read(state, found, upto),
        StoreReply::Applied(_) => Lead::To(after_write(state)),
        StoreReply::Unmet { .. } | StoreReply::SealedOff => Lead::To(after_unmet(state)),
        StoreReply::SealDone => Lead::To(state),
    }
}

impl Cleaner {
    /// A cleaner at its beginning, which takes no memory.
    pub fn new() -> Cleaner
        ensures { result ≡ at.Walk }
    {
        Cleaner { state: State::Walk }
    }

    /// What a cleaner that goes on came to: done, or more to do.
    fn progress(&self) -> CleanProgress
        ensures { result ≡ progress_at self.now }
    {
        match self.state {
            State::Done => CleanProgress::Done,
            _ => CleanProgress::More,
        }
    }

    /// Whether it has come to its end.
    pub fn is_done(&self) -> bool
        ensures value { result ≡ is_done self.now }
        ensures valid { CleanerFits self.now }
    {
        matches!(self.state, State::Done)
    }

    /// The next store call of a cleaner that is not done: old's first partition; a read of a marker and
    /// of at most 100 rows; or deletes of rows that were read, in old under a put of the marker. The one
    /// error is want of memory.
    pub fn next(&self, alloc: Global) -> Result<StoreAsk, NoMemory>
        requires { GoesOn self.now }
        ensures asks { IfOk result (Asks self.now) }
        ensures can { IfOk result (λ a. CanAsk a.ask) }
    {
        match &self.state {
            State::Walk => Ok(first_of_old(alloc)),
            State::Tombs { pk, after } => read_rows(alloc, Side::New, pk, after),
            State::Purge { pk, tombs, .. } => purge(alloc, pk, tombs),
            State::Rows { pk } => read_rows(alloc, Side::Old, pk, &None),
            State::Drop {
                pk,
                marker,
                rows,
                more,
            } => drop_rows(alloc, pk, *marker, rows, *more),
            State::Done => unreachable!(),
        }
    }

    /// Takes the store's reply, of the kind that it gives to the call that was asked, and moves on by
    /// it. The one error is want of memory, which only the reply to a read of new may give: then the
    /// cleaner stays where it was.
    ///
    /// `NotSealed` comes exactly where the reply says that old is not sealed, and `NotMigrated` exactly
    /// where it shows new's marker absent or at `filling`; after either the cleaner is at its
    /// beginning. It is done exactly where it says so.
    pub fn absorb(&mut self, alloc: Global, reply: StoreReply) -> Result<CleanProgress, NoMemory>
        requires fits { (a : StoreAsk) × Asks self.old a × FitsAsk a.ask reply }
        ensures moves { Absorbs self.old reply result self.new }
        ensures done { IfOk result (λ said. is_done self.new ≡ says_done said) }
    {
        let upto = end_read(alloc, &self.state, &reply)?;
        let state = mem::replace(&mut self.state, State::Walk);
        match lead(state, reply, upto) {
            Lead::To(state) => {
                self.state = state;
                Ok(self.progress())
            }
            Lead::NotSealed => Ok(CleanProgress::NotSealed),
            Lead::NotMigrated { pk } => Ok(CleanProgress::NotMigrated { pk }),
        }
    }
}
