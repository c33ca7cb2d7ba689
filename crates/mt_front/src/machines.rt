//! The migration's machines of a connection, and what they do by order.
ghost use Rattle.std.specs.Prelude.{◌≡◌, ◌≤◌};
ghost use Rattle.mt_world.specs.WholeCalls.{is_at_end};
ghost use Rattle.mt_front.specs.Services.{MayOrder};
ghost use Rattle.mt_front.specs.Machines.{begun, all_begun, IsAMachines, IsTold, IsMachine, StepsMachine, SealsBy, tells_status, IsHeld, Does};

use crate::services::{Admin, Machine, Report};
use mt_chain::Keeper;
use mt_world::{Actor, Answer, Progress, Stepped, TurnFault, World};
use std::alloc::Global;

/// The number of the one caller of a world's session.
pub const CALLER: u32 = 0;

/// The machines of the migration that a connection steps, one of each kind. They stay over its requests,
/// after a fault too; behind one that is done the next begins.
#[derive(Drop)]
pub struct Machines {
    pub migrator: Actor,
    pub cleaner: Actor,
}

/// A machine at its beginning.
fn begun(alloc: Global, machine: Machine) -> Actor
    ensures { result ≡ begun machine }
{
    match machine {
        Machine::Migrator => Actor::migrator(alloc),
        Machine::Cleaner => Actor::cleaner(),
    }
}

/// Puts a machine at its beginning in the place of this one.
fn begin_anew(alloc: Global, machine: Machine, actor: &mut Actor)
    ensures { actor.new ≡ begun machine }
{
    *actor = begun(alloc, machine);
}

/// Whether a machine is done after turns that came to this.
fn is_done(came: &Result<Progress, TurnFault>) -> bool
    ensures { result ≡ is_at_end came.now }
{
    match came {
        Ok(Progress::Done(answer)) => matches!(answer, Answer::Moved | Answer::Cleaned),
        _ => false,
    }
}

/// What is told of a machine's turns.
fn told(stepped: Stepped) -> Result<Report, TurnFault>
    requires { IsAMachines stepped.came }
    ensures { IsTold stepped.taken stepped.came result }
{
    let steps = stepped.taken;
    match stepped.came? {
        Progress::More => Ok(Report::Stepped { done: false, steps }),
        Progress::Done(answer) => match answer {
            Answer::Moved | Answer::Cleaned => Ok(Report::Stepped { done: true, steps }),
            Answer::NotSealed => Ok(Report::NotSealed),
            Answer::NotMigrated { pk } => Ok(Report::NotMigrated { pk }),
            Answer::Written(_) => unreachable!(),
            Answer::Refused(_) => unreachable!(),
            Answer::Rows(_) => unreachable!(),
            Answer::Page(_) => unreachable!(),
        },
    }
}

/// Takes at most so many turns of a machine. Once it is done, the next one is at its beginning.
fn step<K: Keeper>(
    alloc: Global,
    world: &mut World<K>,
    machine: Machine,
    actor: &mut Actor,
    steps: u32,
) -> Result<Report, TurnFault>
    requires some { 1 ≤ steps }
    requires kept { IsMachine world.old machine actor.old }
    ensures { StepsMachine 0 world.old machine actor.old steps result world.new actor.new }
{
    let stepped = world.steps(alloc, CALLER, actor, steps);
    if is_done(&stepped.came) {
        begin_anew(alloc, machine, actor);
    }
    told(stepped)
}

/// Seals the old store.
fn seal<K: Keeper>(alloc: Global, world: &mut World<K>) -> Result<Report, TurnFault>
    ensures { SealsBy 0 world.old result world.new }
{
    match world.seal_old(alloc, CALLER) {
        Ok(()) => Ok(Report::Sealed),
        Err(fault) => Err(fault),
    }
}

/// How far the migration is.
fn status<K: Keeper>(world: &World<K>) -> Report
    ensures { result ≡ tells_status world.now }
{
    Report::Status {
        entries: world.history().len(),
        generation: world.generation(),
        retired: world.retired(),
    }
}

impl Machines {
    /// Both at their beginning. It takes no memory.
    pub fn new(alloc: Global) -> Machines
        ensures { result ≡ all_begun }
    {
        Machines {
            migrator: begun(alloc, Machine::Migrator),
            cleaner: begun(alloc, Machine::Cleaner),
        }
    }

    /// Does what is ordered, with no other caller between its turns. After a fault a machine stays where
    /// it was; the turns before the fault stand.
    pub fn administer<K: Keeper>(
        &mut self,
        alloc: Global,
        world: &mut World<K>,
        order: Admin,
    ) -> Result<Report, TurnFault>
        requires may { MayOrder order }
        requires held { IsHeld world.old self.old }
        ensures { Does 0 world.old self.old order result world.new self.new }
    {
        match order {
            Admin::Steps { machine, steps } => match machine {
                Machine::Migrator => step(alloc, world, machine, &mut self.migrator, steps),
                Machine::Cleaner => step(alloc, world, machine, &mut self.cleaner, steps),
            },
            Admin::Seal => seal(alloc, world),
            Admin::Status => Ok(status(world)),
        }
    }
}
