//! What is asked of the service beside the table: turns of the migration's machines, the seal of the
//! old store, and how far the migration is.
ghost use Rattle.std.specs.Prelude.{◌≡◌, MatchOption, option_copied};
ghost use Rattle.mt_front.specs.Services.{IsSteps, IsNoSteps, AsksSteps};

use crate::asks::Asked;
use crate::refusals::BadRequest;
use mt_model::Text;
use mt_options::{read_number, value_of};
use mt_target::QueryOption;

/// A machine of the migration.
#[derive(Clone, Copy, Debug, PartialEq, Eq)]
pub enum Machine {
    /// It moves the rows of the old store to the new one.
    Migrator,

    /// It empties the old store behind the migrator.
    Cleaner,
}

/// What is asked of the service.
#[derive(Clone, Copy, Debug, PartialEq, Eq)]
pub enum Admin {
    /// At most so many turns of a machine, from 1 to 1,000,000.
    Steps { machine: Machine, steps: u32 },

    /// The seal of the old store.
    Seal,

    /// How far the migration is.
    Status,
}

/// What the service reports.
#[derive(Drop)]
pub enum Report {
    /// So many turns were taken, and the machine is done or goes on.
    Stepped {
        done: bool,
        steps: u32,
    },

    /// The cleaner has seen that the old store is not sealed.
    NotSealed,

    /// The cleaner has seen that the new store does not use this partition of the old one alone.
    NotMigrated {
        pk: Text,
    },

    /// The old store is sealed.
    Sealed,

    /// The history has so many entries, the table was moved to new stores so many times, and 1, and the
    /// old store has nothing left, or not.
    Status {
        entries: u64,
        generation: u32,
        retired: bool,
    },
}

/// Turns that one request may ask for.
const STEPS: u64 = 1_000_000;

/// How many turns this value of `steps` asks for; none where it spells no number from 1 to 1,000,000.
fn steps_by(value: Option<&Text>) -> Option<u32>
    ensures { MatchOption result (IsNoSteps (option_copied value.entry)) (IsSteps (option_copied value.entry)) }
{
    let value = value?;
    match read_number(value.as_str(), 1, STEPS) {
        Some(steps) => Some(steps as u32),
        None => None,
    }
}

/// What a `POST` on `/$mt/migrate` or `/$mt/clean` asks for: as many turns of the machine as `steps`
/// says. It is refused where that option is absent or spells no number from 1 to 1,000,000.
pub fn asked_of_steps(machine: Machine, options: &[QueryOption]) -> Asked
    ensures { AsksSteps machine options.now result }
{
    match steps_by(value_of(options, b"steps")) {
        Some(steps) => Asked::Admin(Admin::Steps { machine, steps }),
        None => Asked::Refused(BadRequest::InvalidQuery),
    }
}
