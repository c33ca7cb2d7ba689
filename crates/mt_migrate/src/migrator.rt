//! A migrator.
ghost use Rattle.std.specs.Prelude.{◌≡◌, IfOk, IfErr, MatchBool};
ghost use Rattle.mt_chain.specs.declared.ask.StoreAsk.{StoreAsk};
ghost use Rattle.mt_chain.specs.Asks.{CanAsk, FitsAsk};
ghost use Rattle.mt_migrate.specs.Moves.{Asks, Absorbs, MigratorFits, GoesOn, TakesMemory, begin, end_read, after_next, after_seal, after_read, after_write, after_sealed_off, after_unmet, moved, progress_at};

use crate::asks::{bear_new, next_of, read_new, read_old, turn_new, turn_old, write_copies};
use crate::chunk::chunk_end;
use crate::moves;
use crate::state::{Pass, Reading, State, Walk};
use mt_chain::{Ask, Found, Side, StoreAsk, StoreReply};
use mt_meta::{MARKER_KEY, NewPhase, Phase, marker_tag, read_marked};
use mt_model::{NoMemory, Tag, Text};
use std::alloc::Global;
use std::marker::Model;
use std::mem;

/// What a step of a migrator came to.
#[derive(Clone, Copy, Debug, PartialEq, Eq)]
pub enum MoveProgress {
    /// The migrator goes on.
    More,

    /// Old is sealed, and each of its partitions is in new alone.
    Done,
}

/// A migrator: it gives its next store call, and takes the store's reply.
#[derive(Drop)]
pub struct Migrator {
    state: State,
}

impl Model for Migrator {
    ghost use Rattle.mt_migrate.specs.declared.state.State.{State};
    ghost use Rattle.mt_migrate.specs.Moves.{MigratorFits};

    ghost Value = { State };

    ghost view = { λ m. m.state };

    ghost invariant = { λ m. MigratorFits m.state };
}

/// Where the chunk ends, at a reply that shows it. The one error is want of memory.
fn end_read(alloc: Global, state: &State, reply: &StoreReply) -> Result<Option<Text>, NoMemory>
    ensures end { IfOk result (λ upto. upto ≡ end_read state.now reply.now) }
    ensures memory { IfErr result (λ none. TakesMemory reply.now) }
{
    match (state, reply) {
        (State::ReadNew { old, .. }, StoreReply::Found(found)) => chunk_end(alloc, old, found),
        _ => Ok(None),
    }
}

/// The next partition was told.
fn after_next(state: State, pk: Option<Text>) -> State
    ensures { result ≡ after_next state pk }
{
    match state {
        State::Walk { walk, .. } => moves::walked(walk, pk),
        state => state,
    }
}

/// Old was sealed.
fn after_seal(alloc: Global, state: State) -> State
    ensures { result ≡ after_seal state }
{
    match state {
        State::SealOld => moves::walk_from_start(alloc, Walk::AfterSeal),
        state => state,
    }
}

/// Rows were read, of a chunk that ends there where it has come to its end.
fn after_read(alloc: Global, state: State, found: Found, upto: Option<Text>) -> State
    requires { upto ≡ end_read state (StoreReply.Found found) }
    ensures { result ≡ after_read state found }
{
    let Found {
        named,
        rows,
        more,
        ..
    } = found;
    match state {
        State::Look { part } => moves::looked(alloc, part, named),
        State::Claim { part, pass } => moves::claimed(alloc, part, pass, named.get(MARKER_KEY)),
        State::ReadOld { copying } => {
            moves::read_old(
                alloc,
                copying,
                Reading { rows, more },
                named.get(MARKER_KEY),
            )
        }
        State::ReadNew { copying, old } => {
            moves::read_new(copying, upto, old.rows, rows, named.get(MARKER_KEY))
        }
        state => state,
    }
}

/// Puts were made; this is the tag of the first.
fn after_write(state: State, tag: Tag) -> State
    ensures { result ≡ after_write state tag }
{
    match state {
        State::Prepare { part, .. } => State::Claim {
            part,
            pass: Pass::First { marker: tag },
        },
        State::Begin { part, pass } | State::Takeover { part, pass, .. } => {
            moves::pass_begun(part, pass, tag)
        }
        State::Write { copying, upto, .. } => moves::chunk_done(copying, upto),
        State::Switch { part, epoch, .. } => moves::pass_begun(part, Pass::Second, epoch),
        State::Finish { part, .. } => moves::onward(part),
        state => state,
    }
}

/// Puts were not made, since old is sealed and has dropped the partition.
fn after_sealed_off(state: State) -> State
    ensures { result ≡ after_sealed_off state }
{
    match state {
        State::Prepare { part, .. } => State::Look { part },
        State::Begin { part, .. } | State::Takeover { part, .. } => State::Look { part },
        State::Switch { part, .. } | State::Finish { part, .. } => State::Look { part },
        State::Write { copying, .. } => State::Look { part: copying.part },
        state => state,
    }
}

/// Puts were not made, since the one of this index does not hold.
fn after_unmet(state: State, index: u32) -> State
    ensures { result ≡ after_unmet state index }
{
    match state {
        State::Write { copying, .. } => moves::unwritten(copying, index),
        state => after_sealed_off(state),
    }
}

/// Where a reply leads, which takes no memory.
fn moved(alloc: Global, state: State, reply: StoreReply, upto: Option<Text>) -> State
    requires { upto ≡ end_read state reply }
    ensures { result ≡ moved state reply }
{
    match reply {
        StoreReply::Next(next) => after_next(state, next.pk),
        StoreReply::SealDone => after_seal(alloc, state),
        StoreReply::Found(found) => after_read(alloc, state, found, upto),
        StoreReply::Applied(tags) => after_write(state, moves::first_tag(&tags)),
        StoreReply::Unmet { index } => after_unmet(state, index),
        StoreReply::SealedOff => after_sealed_off(state),
    }
}

impl Migrator {
    /// A migrator at its beginning, which takes no memory.
    pub fn new(alloc: Global) -> Migrator
        ensures { result ≡ begin }
    {
        Migrator {
            state: moves::begin(alloc),
        }
    }

    /// What the migrator came to: done, or more to do.
    fn progress(&self) -> MoveProgress
        ensures { result ≡ progress_at self.now }
    {
        match self.state {
            State::Done => MoveProgress::Done,
            _ => MoveProgress::More,
        }
    }

    /// Whether it has come to its end.
    pub fn is_done(&self) -> bool
        ensures value { MatchBool result (progress_at self.now ≡ MoveProgress.Done) (GoesOn self.now) }
        ensures valid { MigratorFits self.now }
    {
        matches!(self.state, State::Done)
    }

    /// The next store call of a migrator that is not done: the next partition of old, the seal of old,
    /// a read of a marker, of a marker and of at most 50 rows behind those that are done, or a write
    /// of a marker, or of a chunk's copies under a check of new's marker. The one error is want of
    /// memory.
    pub fn next(&self, alloc: Global) -> Result<StoreAsk, NoMemory>
        requires { GoesOn self.now }
        ensures asks { IfOk result (Asks self.now) }
        ensures can { IfOk result (λ a. CanAsk a.ask) }
    {
        match &self.state {
            State::Walk { from, .. } => next_of(alloc, from),
            State::SealOld => Ok(StoreAsk {
                side: Side::Old,
                ask: Ask::Seal,
            }),
            State::Look { part } => read_marked(alloc, Side::Old, &part.pk, None),
            State::Prepare { part, rows } => turn_old(
                alloc,
                &part.pk,
                Phase::PreferOld,
                marker_tag(rows),
            ),
            State::Claim { part, .. } => read_marked(alloc, Side::New, &part.pk, None),
            State::Begin { part, .. } => bear_new(alloc, &part.pk),
            State::Takeover { part, filling, .. } => turn_new(
                alloc,
                &part.pk,
                NewPhase::Filling,
                *filling,
            ),
            State::ReadOld { copying } => read_old(alloc, copying),
            State::ReadNew { copying, old } => read_new(alloc, copying, old),
            State::Write {
                copying,
                upto,
                rows,
                entries,
            } => write_copies(alloc, copying, upto, rows, entries),
            State::Switch { part, marker, .. } => turn_old(
                alloc,
                &part.pk,
                Phase::PreferNew,
                *marker,
            ),
            State::Finish { part, epoch } => turn_new(alloc, &part.pk, NewPhase::UseNew, *epoch),
            State::Done => unreachable!(),
        }
    }

    /// Takes the store's reply, of the kind that it gives to the call that was asked, and moves on by
    /// it. The one error is want of memory, which only the reply to a read may give: then the migrator
    /// stays where it was.
    pub fn absorb(&mut self, alloc: Global, reply: StoreReply) -> Result<MoveProgress, NoMemory>
        requires fits { (a : StoreAsk) × Asks self.old a × FitsAsk a.ask reply }
        ensures moves { Absorbs self.old reply result self.new }
    {
        let upto = end_read(alloc, &self.state, &reply)?;
        let state = mem::replace(&mut self.state, State::Done);
        self.state = moved(alloc, state, reply, upto);
        Ok(self.progress())
    }
}
