//! A store in memory that begins with two rows.
ghost use Rattle.std.specs.Prelude.{◌≡◌, IsTrue};
ghost use Rattle.mt_mem.specs.Memory.{IsGiven};

use mt_chain::{Row, StoredRow};
use mt_mem::MemKeeper;
use mt_model::{Tag, Text};
use std::alloc::Global;
use std::test::Fail;

/// Whether a tag is of that store and at most the counter.
fn is_given(number: u32, counter: u64, tag: Tag) -> bool
    ensures { IsTrue result → IsGiven number counter tag }
{
    tag.store == number && tag.n <= counter
}

/// A row as a store in memory takes it.
fn unkeyed(row: Row) -> (Text, StoredRow)
    ensures { result ≡ (row.0.pk, record { rk = row.0.rk; props = row.1.props; tag = row.1.tag }) }
{
    let (key, stored) = row;
    let row = StoredRow {
        rk: key.rk,
        props: stored.props,
        tag: stored.tag,
    };
    (key.pk, row)
}

/// A store of that number and counter with two rows, of which the listed calls fail.
pub fn with_two(
    alloc: Global,
    number: u32,
    counter: u64,
    first: Row,
    second: Row,
    failing: Vec<u64>,
) -> Result<MemKeeper, Fail> {
    let (a, b) = (first.1.tag, second.1.tag);
    let rise = first.0.order(&second.0).is_lt();
    if !rise || !is_given(number, counter, a) || !is_given(number, counter, b) || a.n == b.n {
        return Err(Fail::new("no rows of a store"));
    }
    let mut rows = Vec::new(alloc);
    rows.push(unkeyed(first))?;
    rows.push(unkeyed(second))?;
    Ok(MemKeeper::with_rows(number, rows, counter, false, failing))
}
