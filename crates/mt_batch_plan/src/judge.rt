//! The judging of a batch on the rows that were read.
ghost use Rattle.std.specs.Prelude.{◌≡◌, ◌<◌, ◌^◌, length, option_map};
ghost use Rattle.mt_chain.specs.Effect.{cause_on};
ghost use Rattle.mt_chain.specs.Batch.{refusal_of};
ghost use Rattle.mt_batch_plan.specs.Bases.{table_on};
ghost use Rattle.mt_meta.specs.ReadRows.{sight_row};

use crate::basis::Basis;
use mt_chain::{Cause, Op, Refusal};
use mt_meta::Sight;

/// Why an operation is refused on what clients see at its key.
fn cause_of(op: &Op, seen: Option<Sight<'_>>) -> Option<Cause>
    ensures { result ≡ cause_on op.now (option_map sight_row seen.entry) }
{
    match seen {
        None => op.cause_on_none(),
        Some(sight) => op.cause_on_row(sight.props, sight.tag),
    }
}

/// The first of the operations that is refused on what clients see, and why.
pub(crate) fn refusal_on(ops: &[Op], basis: &Basis) -> Option<Refusal>
    requires { length ops.now < 2 ^ 32 }
    ensures { result ≡ refusal_of ops.now (table_on basis.now) }
{
    for (index, op) in ops.iter().enumerate() {
        let seen = basis.sight(op.key().rk.as_str());
        if let Some(cause) = cause_of(op, seen) {
            let index = index as u32;
            return Some(Refusal { index, cause });
        }
    }
    None
}
