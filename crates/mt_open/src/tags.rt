//! The rule of a sound pair that speaks of tags.
ghost use Rattle.std.specs.Prelude.{◌≡◌, ◌&&◌, ◌||◌, ◌==◌, ◌↔◌, nat_le, not, IsTrue, IfOk, OnOk, Some, ℕ};
ghost use Rattle.std.specs.BTreeSet.{contains};
ghost use Rattle.std.specs.Ordering.{nat_cmp};
ghost use Rattle.mt_open.specs.declared.damage.Rule.{Rule};
ghost use Rattle.mt_open.specs.Damage.{RowFails, FailsKept, FailsCopy, FailsNumber, FailsOwn};
ghost use Rattle.mt_open.specs.Holdings.{pair_in};
ghost use Rattle.mt_open.specs.Repeats.{AreRepeats, Stands, how_many, repeats_on};

use crate::holding::Holding;
use crate::holdings::Holdings;
use mt_chain::{Side, Stored};
use mt_meta::{Mark, mark_of_props};
use mt_model::{Key, NoMemory, Props, Tag};
use std::alloc::Global;
use std::collections::BTreeSet;

/// Of each store the n of those of its tags that more than one of its rows has.
#[derive(Drop)]
pub struct Repeats {
    old: BTreeSet<u64>,
    new: BTreeSet<u64>,
}

/// Adds a number, and says whether it is new.
fn add(numbers: &mut BTreeSet<u64>, n: u64) -> Result<bool, NoMemory>
    ensures added { OnOk result ((m : ℕ) → (contains nat_cmp numbers.new m ≡ ((n == m) || contains nat_cmp numbers.old m))) }
    ensures fresh { IfOk result (λ fresh. fresh ≡ not (contains nat_cmp numbers.old n)) }
{
    match numbers.insert(n) {
        Ok(fresh) => Ok(fresh),
        Err(_) => Err(NoMemory),
    }
}

/// Notes one more row that has a number.
fn note(seen: &mut BTreeSet<u64>, repeated: &mut BTreeSet<u64>, n: u64) -> Result<(), NoMemory>
    ensures seen { OnOk result ((m : ℕ) → (contains nat_cmp seen.new m ≡ ((n == m) || contains nat_cmp seen.old m))) }
    ensures repeated { OnOk result ((m : ℕ)
        → (contains nat_cmp repeated.new m ≡ (((n == m) && contains nat_cmp seen.old m) || contains nat_cmp repeated.old m))) }
{
    let fresh = add(seen, n)?;
    if !fresh {
        add(repeated, n)?;
    }
    Ok(())
}

/// The n of those of the store's tags that more than one row has.
fn repeated_in(alloc: Global, store: &Holding) -> Result<BTreeSet<u64>, NoMemory>
    ensures { IfOk result (λ r. (n : ℕ) → (contains nat_cmp r n ≡ nat_le 2 (how_many store.now.number n store.now.contents.rows))) }
{
    let mut seen = BTreeSet::new(alloc);
    let mut repeated = BTreeSet::new(alloc);
    let number = store.number();
    for row in store.rows() {
        let tag = row.1.tag;
        if tag.store == number {
            note(&mut seen, &mut repeated, tag.n)?;
        }
    }
    Ok(repeated)
}

impl Repeats {
    /// Those of the two stores. The one error is want of memory.
    pub fn of(alloc: Global, stores: &Holdings) -> Result<Repeats, NoMemory>
        ensures { IfOk result (λ r. AreRepeats (pair_in stores.now) r) }
    {
        let old = repeated_in(alloc, &stores.old)?;
        let new = repeated_in(alloc, &stores.new)?;
        Ok(Repeats { old, new })
    }

    fn has(&self, side: Side, n: u64) -> bool
        ensures { result ≡ contains nat_cmp (repeats_on self.now side) n }
    {
        match side {
            Side::Old => self.old.contains(&n),
            Side::New => self.new.contains(&n),
        }
    }
}

fn fails_kept(stores: &Holdings, store: u32, tag: Tag) -> bool
    ensures { IsTrue result ↔ FailsKept (pair_in stores.now) store tag }
{
    tag.store >= store
        || tag.n == 0
        || (tag.store == stores.old.number() && tag.n > stores.old.counter())
}

fn fails_copy(stores: &Holdings, side: Side, props: &Props) -> bool
    ensures { IsTrue result ↔ FailsCopy (pair_in stores.now) side props.now }
{
    match mark_of_props(props) {
        Some(Mark::Copy(tag)) => fails_kept(stores, stores.on(side).number(), tag),
        _ => false,
    }
}

/// Whether a tag is of another store, or of no number that the store gave.
fn fails_number(stores: &Holdings, side: Side, tag: Tag) -> bool
    ensures { IsTrue result ↔ FailsNumber (pair_in stores.now) side tag }
{
    let store = stores.on(side);
    tag.store != store.number() || tag.n == 0 || tag.n > store.counter()
}

fn fails_own(stores: &Holdings, repeats: &Repeats, side: Side, key: &Key, row: &Stored) -> bool
    requires { Stands (pair_in stores.now) repeats.now side key.now row.now }
    ensures { IsTrue result ↔ FailsOwn (pair_in stores.now) side key.now row.now.tag }
{
    if fails_number(stores, side, row.tag) {
        return true;
    }
    repeats.has(side, row.tag.n)
}

/// Whether a row's tag is not one that its store gave to it alone, or it keeps one that no store below
/// gave.
pub fn fails_tags(stores: &Holdings, repeats: &Repeats, side: Side, key: &Key, row: &Stored) -> bool
    requires { Stands (pair_in stores.now) repeats.now side key.now row.now }
    ensures { IsTrue result ↔ RowFails (pair_in stores.now) Rule.Tags side key.now row.now }
{
    fails_own(stores, repeats, side, key, row) || fails_copy(stores, side, &row.props)
}
