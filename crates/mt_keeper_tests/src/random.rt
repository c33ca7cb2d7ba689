//! Calls without visible order, which both stores answer alike.
use crate::both::Both;
use crate::build::{delete, insert, partition, replace};
use mt_chain::{PkFrom, Put};
use mt_model::Tag;
use std::alloc::Global;
use std::test::Fail;

/// In which order the rows of a run are named.
#[derive(Clone, Copy)]
enum Order {
    Rising,
    Falling,
    Random,
}

/// One step of a run: a row of one of two partitions, and a number that the rest is drawn from.
#[derive(Clone, Copy)]
struct Step {
    pk: char,
    row: u64,
    seed: u64,
}

/// The next of numbers without visible order.
fn next(seed: u64) -> u64 {
    seed.wrapping_mul(6_364_136_223_846_793_005)
        .wrapping_add(1_442_695_040_888_963_407)
}

/// The step of that number, of 600 rows.
fn step_of(order: Order, at: u64, seed: u64) -> Step {
    let row = match order {
        Order::Rising => at % 600,
        Order::Falling => 599 - at % 600,
        Order::Random => (seed >> 33) % 600,
    };
    let pk = if seed >> 62 == 0 { 'q' } else { 'p' };
    Step { pk, row, seed }
}

/// The tag of the row, where it is there. Both stores find it, and a range of rows about it.
fn tag_at(alloc: Global, both: &mut Both, step: Step) -> Result<Option<Tag>, Fail> {
    let low = step.row.saturating_sub((step.seed >> 8) % 200);
    let high = step.row.saturating_add((step.seed >> 16) % 200);
    let limit = ((step.seed >> 24) % 300) as u32;
    let found = both.find(alloc, step.pk, step.row, (low, high), limit.max(1))?;
    match found.named.as_slice().first() {
        None => Ok(None),
        Some(row) => Ok(Some(row.tag)),
    }
}

/// A put that holds where the row has this tag, or is not there.
fn put_of(alloc: Global, step: Step, tag: Option<Tag>) -> Result<Put, Fail> {
    match tag {
        None => insert(alloc, step.row),
        Some(tag) if step.seed >> 63 == 0 => delete(alloc, step.row, tag),
        Some(tag) => replace(alloc, step.row, tag),
    }
}

/// The place at or after the step's partition.
fn place_of(alloc: Global, step: Step) -> Result<PkFrom, Fail> {
    let pk = partition(alloc, step.pk)?;
    if step.seed >> 61 & 1 == 0 {
        Ok(PkFrom::After(pk))
    } else {
        Ok(PkFrom::From(pk))
    }
}

/// Whether both stores answer the three calls of a step alike, and the put holds.
fn holds(alloc: Global, both: &mut Both, step: Step) -> Result<bool, Fail> {
    let tag = tag_at(alloc, both, step)?;
    let put = put_of(alloc, step, tag)?;
    let given = both.put(alloc, step.pk, put)?;
    let place = place_of(alloc, step)?;
    let _ = both.walk(alloc, &place)?;
    Ok(given.is_some() && both.paged.largest_page() <= 128)
}

/// How many steps of a run hold.
fn steps_held(alloc: Global, order: Order, steps: u64) -> Result<u64, Fail> {
    let mut both = Both::empty(alloc)?;
    let mut seed = 1;
    let mut held: u64 = 0;
    for at in 0..steps {
        seed = next(seed);
        if holds(alloc, &mut both, step_of(order, at, seed))? {
            held = held.saturating_add(1);
        }
    }
    Ok(held)
}

/// Three runs of 3,336 calls each.
#[test]
fn ten_thousand_calls_are_answered_alike(rt: HostRuntime) -> Result<(), Fail> {
    for order in [Order::Rising, Order::Falling, Order::Random] {
        assert!(rt; steps_held(rt.alloc(), order, 1112)? == 1112);
    }
    Ok(())
}
