//! What a batch is judged on, and what it is written over.
ghost use Rattle.std.specs.Prelude.{◌≡◌, [], Some, IfOk, option_copied, option_map};
ghost use Rattle.mt_batch_plan.specs.Bases.{seen_by, stored_in, side_of, kept_props, kept_gone, marker_put};
ghost use Rattle.mt_meta.specs.Marks.{stored};
ghost use Rattle.mt_meta.specs.ReadRows.{kept_row, sight_row};

use mt_chain::{Put, Side, StoredRow, StoredRows};
use mt_meta::{
    Mark, NewPhase, Phase, Sight, bear_marker, check_marker, marker_tag, new_marker, old_marker,
    sight_of_old, sight_over, stored,
};
use mt_model::{NoMemory, Props};
use std::alloc::Global;

/// What a batch is judged on, and what its write goes over: rows that were read, the marker's among
/// them, or none where the partition is born.
#[derive(Drop)]
pub enum Basis {
    /// Old's rows, where clients write old.
    OldRows {
        rows: StoredRows,
    },

    /// Old has no such partition, and bears it.
    OldBirth,

    /// New's entries over old's rows, while new fills.
    Overlay {
        rows: StoredRows,
        entries: StoredRows,
    },

    /// New's entries, once new is used alone.
    NewRows {
        entries: StoredRows,
    },

    /// Neither store has the partition, old is sealed, and new bears it.
    NewBirth,
}

/// What new keeps of a row that a client deleted.
fn tombstone(alloc: Global) -> Result<Props, NoMemory>
    ensures { IfOk result (λ p. p ≡ stored Mark.Tomb []) }
{
    let Ok(none) = Props::build(alloc, Vec::new(alloc)) else {
        return Err(NoMemory);
    };
    stored(alloc, Mark::Tomb, &none)
}

impl Basis {
    /// What clients see at a row key.
    pub(crate) fn sight(&self, rk: &str) -> Option<Sight<'_>>
        ensures { option_map sight_row result ≡ seen_by self.now rk.now }
    {
        match self {
            Basis::OldRows { rows } => sight_of_old(rows.get(rk)),
            Basis::Overlay { rows, entries } => {
                sight_over(NewPhase::Filling, rows.get(rk), entries.get(rk))
            }
            Basis::NewRows { entries } => sight_over(NewPhase::UseNew, None, entries.get(rk)),
            Basis::OldBirth | Basis::NewBirth => None,
        }
    }

    /// The row in whose place the put at a row key goes.
    pub(crate) fn stored(&self, rk: &str) -> Option<&StoredRow>
        ensures { option_map kept_row (option_copied result) ≡ stored_in self.now rk.now }
    {
        match self {
            Basis::OldRows { rows } => rows.get(rk),
            Basis::Overlay { entries, .. } | Basis::NewRows { entries } => entries.get(rk),
            Basis::OldBirth | Basis::NewBirth => None,
        }
    }

    /// The store that is written.
    pub(crate) fn side(&self) -> Side
        ensures { result ≡ side_of self.now }
    {
        match self {
            Basis::OldRows { .. } | Basis::OldBirth => Side::Old,
            Basis::Overlay { .. } | Basis::NewRows { .. } | Basis::NewBirth => Side::New,
        }
    }

    /// What that store keeps of the properties of a row. The one error is want of memory.
    pub(crate) fn keep(&self, alloc: Global, props: &Props) -> Result<Props, NoMemory>
        ensures { IfOk result (λ p. p ≡ kept_props self.now props.now) }
    {
        match self {
            Basis::OldRows { .. } | Basis::OldBirth => props.copy(alloc),
            Basis::Overlay { .. } | Basis::NewRows { .. } | Basis::NewBirth => {
                stored(alloc, Mark::Live, props)
            }
        }
    }

    /// What that store keeps of a row that goes, if anything. The one error is want of memory.
    pub(crate) fn keep_gone(&self, alloc: Global) -> Result<Option<Props>, NoMemory>
        ensures { IfOk result (λ left. left ≡ kept_gone self.now) }
    {
        match self {
            Basis::Overlay { .. } => Ok(Some(tombstone(alloc)?)),
            _ => Ok(None),
        }
    }

    /// The marker's put: a check of the tag that was read, or where the partition is born an insert.
    /// The one error is want of memory.
    pub(crate) fn marker_put(&self, alloc: Global) -> Result<Put, NoMemory>
        ensures { IfOk result (λ put. put ≡ marker_put self.now) }
    {
        match self {
            Basis::OldRows { rows } => check_marker(alloc, marker_tag(rows)),
            Basis::Overlay { entries, .. } | Basis::NewRows { entries } => {
                check_marker(alloc, marker_tag(entries))
            }
            Basis::OldBirth => bear_marker(alloc, old_marker(alloc, Phase::UseOld)?),
            Basis::NewBirth => bear_marker(alloc, new_marker(alloc, NewPhase::UseNew)?),
        }
    }
}
