//! Where a migrator goes with what a store replied: one function for each line of its table.
ghost use Rattle.std.specs.Prelude.{◌≡◌, [], option_copied};
ghost use Rattle.mt_meta.specs.Markers.{marker_key};
ghost use Rattle.mt_chain.specs.Puts.{is_same_tag};
ghost use Rattle.mt_migrate.specs.Moves.{begin, onward, walked, by_old_phase, looked, by_new_phase, claimed, pass_begun, first_tag, by_pass, read_old, pass_done, chunk_done, compared, read_new, unwritten};

use crate::chunk::is_wanting;
use crate::state::{Copying, Part, Pass, Reading, State, Walk};
use mt_chain::{PkFrom, StoredRow, StoredRows, Tags};
use mt_meta::{MARKER_KEY, NO_TAG, NewPhase, Phase, new_phase, old_phase};
use mt_model::{Tag, Text};
use std::alloc::Global;

fn no_text(alloc: Global) -> Text
    ensures { result ≡ [] }
{
    Text::from_string(String::new(alloc))
}

/// A walk from old's first partition on, which takes no memory.
pub(crate) fn walk_from_start(alloc: Global, walk: Walk) -> State
    ensures { result ≡ State.Walk walk (PkFrom.From []) }
{
    State::Walk {
        walk,
        from: PkFrom::From(no_text(alloc)),
    }
}

/// The beginning, which takes no memory.
pub(crate) fn begin(alloc: Global) -> State
    ensures { result ≡ begin }
{
    walk_from_start(alloc, Walk::BeforeSeal)
}

/// On to the next partition.
pub(crate) fn onward(part: Part) -> State
    ensures { result ≡ onward part }
{
    State::Walk {
        walk: part.walk,
        from: PkFrom::After(part.pk),
    }
}

/// Old told its next partition, or that it has none.
pub(crate) fn walked(walk: Walk, pk: Option<Text>) -> State
    ensures { result ≡ walked walk pk }
{
    match (pk, walk) {
        (Some(pk), _) => State::Look {
            part: Part { walk, pk },
        },
        (None, Walk::BeforeSeal) => State::SealOld,
        (None, Walk::AfterSeal) => State::Done,
    }
}

fn by_old_phase(
    alloc: Global,
    part: Part,
    rows: StoredRows,
    tag: Tag,
    phase: Option<Phase>,
) -> State
    ensures { result ≡ by_old_phase part rows tag phase }
{
    match phase {
        Some(Phase::UseOld) => State::Prepare { part, rows },
        Some(Phase::PreferOld) => State::Claim {
            part,
            pass: Pass::First { marker: tag },
        },
        Some(Phase::PreferNew) => State::Claim {
            part,
            pass: Pass::Second,
        },
        None => begin(alloc),
    }
}

/// Old's marker was read.
pub(crate) fn looked(alloc: Global, part: Part, rows: StoredRows) -> State
    ensures { result ≡ looked part rows }
{
    let Some(marker) = rows.get(MARKER_KEY) else {
        return onward(part);
    };
    let tag = marker.tag;
    let phase = old_phase(marker);
    by_old_phase(alloc, part, rows, tag, phase)
}

fn by_new_phase(alloc: Global, part: Part, pass: Pass, tag: Tag, phase: Option<NewPhase>) -> State
    ensures { result ≡ by_new_phase part pass tag phase }
{
    match phase {
        Some(NewPhase::Filling) => State::Takeover {
            part,
            pass,
            filling: tag,
        },
        Some(NewPhase::UseNew) => onward(part),
        None => begin(alloc),
    }
}

/// New's marker was read.
pub(crate) fn claimed(alloc: Global, part: Part, pass: Pass, marker: Option<&StoredRow>) -> State
    ensures { result ≡ claimed part pass (option_copied marker.entry) }
{
    match marker {
        None => State::Begin { part, pass },
        Some(row) => by_new_phase(alloc, part, pass, row.tag, new_phase(row)),
    }
}

/// The tag of the one put that was made.
pub(crate) fn first_tag(tags: &Tags) -> Tag
    ensures { result ≡ first_tag tags.now }
{
    match tags.as_slice().first() {
        Some(tag) => *tag,
        None => NO_TAG,
    }
}

/// A pass from its start.
pub(crate) fn pass_begun(part: Part, pass: Pass, epoch: Tag) -> State
    ensures { result ≡ pass_begun part pass epoch }
{
    State::ReadOld {
        copying: Copying {
            part,
            pass,
            epoch,
            done: None,
        },
    }
}

fn by_pass(copying: Copying, old: Reading, marker: Tag, phase: Phase) -> State
    ensures { result ≡ by_pass copying old marker copying.pass phase }
{
    match (copying.pass, phase) {
        (Pass::Second, _) => State::ReadNew { copying, old },
        (Pass::First { .. }, Phase::PreferNew) => pass_begun(
            copying.part,
            Pass::Second,
            copying.epoch,
        ),
        (Pass::First { .. }, Phase::UseOld | Phase::PreferOld) => State::ReadNew {
            copying: Copying {
                pass: Pass::First { marker },
                ..copying
            },
            old,
        },
    }
}

/// Old's next rows were read.
pub(crate) fn read_old(
    alloc: Global,
    copying: Copying,
    old: Reading,
    marker: Option<&StoredRow>,
) -> State
    ensures { result ≡ read_old copying old (option_copied marker.entry) }
{
    let Some(row) = marker else {
        return onward(copying.part);
    };
    match old_phase(row) {
        None => begin(alloc),
        Some(phase) => by_pass(copying, old, row.tag, phase),
    }
}

fn pass_done(copying: Copying) -> State
    ensures { result ≡ pass_done copying copying.pass }
{
    let Copying {
        part,
        pass,
        epoch,
        ..
    } = copying;
    match pass {
        Pass::First { marker } => State::Switch {
            part,
            marker,
            epoch,
        },
        Pass::Second => State::Finish { part, epoch },
    }
}

/// A chunk up to there is done.
pub(crate) fn chunk_done(copying: Copying, upto: Option<Text>) -> State
    ensures { result ≡ chunk_done copying upto }
{
    match upto {
        None => pass_done(copying),
        Some(rk) => State::ReadOld {
            copying: Copying {
                done: Some(rk),
                ..copying
            },
        },
    }
}

fn compared(copying: Copying, upto: Option<Text>, rows: StoredRows, entries: StoredRows) -> State
    ensures { result ≡ compared copying upto rows entries }
{
    if is_wanting(&upto, &rows, &entries) {
        State::Write {
            copying,
            upto,
            rows,
            entries,
        }
    } else {
        chunk_done(copying, upto)
    }
}

/// Whether it is the same tag.
fn is_same_tag(a: Tag, b: Tag) -> bool
    ensures { result ≡ is_same_tag a b }
{
    a == b
}

/// New's entries were read, of a chunk that ends there.
pub(crate) fn read_new(
    copying: Copying,
    upto: Option<Text>,
    rows: StoredRows,
    entries: StoredRows,
    marker: Option<&StoredRow>,
) -> State
    ensures { result ≡ read_new copying upto rows entries (option_copied marker.entry) }
{
    let Some(row) = marker else {
        return State::Look { part: copying.part };
    };
    if is_same_tag(row.tag, copying.epoch) {
        compared(copying, upto, rows, entries)
    } else {
        State::Look { part: copying.part }
    }
}

/// A put of a chunk does not hold.
pub(crate) fn unwritten(copying: Copying, index: u32) -> State
    ensures { result ≡ unwritten copying index }
{
    if index == 0 {
        State::Look { part: copying.part }
    } else {
        State::ReadOld { copying }
    }
}
