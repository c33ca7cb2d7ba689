//! A run over an input, with what fails in it.
ghost use Rattle.std.specs.Prelude.{◌≡◌, IfOk};
ghost use Rattle.mt_top.specs.Keepers.{memory_of};

use mt_chain::Depot;
use mt_io::{MemSink, MemSource};
use mt_mem::MemKeeper;
use mt_paged::PagedKeeper;
use mt_top::{AnyDepot, AnyKeeper, run};
use mt_words::StoreChoice;
use std::alloc::Global;
use std::test::Fail;

/// What fails in a run, and how its input is cut. A store's first call comes while it is opened.
#[derive(Clone, Copy)]
pub struct Plan {
    /// The words of the command, between blanks.
    pub command: &'static str,
    pub piece: usize,
    pub failing_read: u64,
    pub failing_write: u64,
    pub failing_old: u64,
    pub failing_new: u64,
}

pub const PLAIN: Plan = Plan {
    command: "session",
    piece: 4096,
    failing_read: 0,
    failing_write: 0,
    failing_old: 0,
    failing_new: 0,
};

/// A store of this kind and number without rows, of which this call fails.
fn store_of(
    alloc: Global,
    choice: StoreChoice,
    number: u32,
    failing: u64,
) -> Result<AnyKeeper, Fail>
    ensures store { IfOk result (λ k. (memory_of k).store ≡ number) }
    ensures clean { IfOk result (λ k. (memory_of k).faults ≡ 0) }
{
    let failing = Vec::from_slice(alloc, &[failing])?;
    match choice {
        StoreChoice::Plain => Ok(AnyKeeper::Plain(MemKeeper::new(alloc, number, failing))),
        StoreChoice::Paged => Ok(AnyKeeper::Paged(PagedKeeper::new(alloc, number, failing)?)),
    }
}

/// Two stores of this kind without rows, of which these calls fail.
pub fn depot_of(alloc: Global, choice: StoreChoice, plan: Plan) -> Result<AnyDepot, Fail> {
    Ok(AnyDepot::new(
        store_of(alloc, choice, 0, plan.failing_old)?,
        store_of(alloc, choice, 1, plan.failing_new)?,
    ))
}

/// The words between blanks.
fn words_of(alloc: Global, command: &str) -> Result<Vec<String>, Fail> {
    let mut words = Vec::new(alloc);
    for word in command.split(' ') {
        words.push(String::from_str(alloc, word)?)?;
    }
    Ok(words)
}

/// The status of a run over this input, and what was written.
pub fn ran_over<D: Depot>(
    alloc: Global,
    plan: Plan,
    depot: &mut D,
    input: &str,
) -> Result<(u8, String), Fail> {
    let words = words_of(alloc, plan.command)?;
    let bytes = Vec::from_slice(alloc, input.as_bytes())?;
    let pieces = Vec::from_slice(alloc, &[plan.piece])?;
    let mut source = MemSource::new(bytes, pieces, Vec::from_slice(alloc, &[plan.failing_read])?);
    let mut sink = MemSink::new(alloc, Vec::from_slice(alloc, &[plan.failing_write])?);
    let status = run(alloc, &words, &mut source, &mut sink, depot);
    let written = String::from_utf8_lossy(alloc, sink.held())?;
    Ok((status.code, written))
}

/// The same over two new stores in memory, where it is the same over plain stores and over stores in pages.
pub fn ran(alloc: Global, plan: Plan, input: &str) -> Result<(u8, String), Fail> {
    let mut plain = depot_of(alloc, StoreChoice::Plain, plan)?;
    let mut paged = depot_of(alloc, StoreChoice::Paged, plan)?;
    let first = ran_over(alloc, plan, &mut plain, input)?;
    let second = ran_over(alloc, plan, &mut paged, input)?;
    if first.0 == second.0 && first.1.as_str() == second.1.as_str() {
        Ok(second)
    } else {
        Err(Fail::new("another run over pages"))
    }
}
