//! The marker of a partition, which says how far its move is.
ghost use Rattle.std.specs.Prelude.{◌≡◌, Some, None, codes, IfOk, option_copied, ℕ};
ghost use Rattle.mt_meta.specs.Markers.{old_kind, new_kind, marker_props, old_named, new_named, old_named_in, old_phase_in, new_phase_in, old_phase_of, new_phase_of};

use mt_chain::StoredRow;
use mt_model::{Hidden, NoMemory, Props, Text};
use std::alloc::Global;

/// The row key of a partition's marker, which no key of a client has.
pub const MARKER_KEY: &str = "\u{1}";

/// How far a partition's move is, as the old store's marker says.
#[derive(Clone, Copy, Debug, PartialEq, Eq)]
pub enum Phase {
    /// The partition is in the old store alone.
    UseOld,
    /// A migrator copies rows; clients still read and write old.
    PreferOld,
    /// Clients write new, and old's rows stay as they are.
    PreferNew,
}

/// How far a partition's move is, as the new store's marker says.
#[derive(Clone, Copy, Debug, PartialEq, Eq)]
pub enum NewPhase {
    /// Rows that new lacks are still those of old.
    Filling,
    /// The partition is in the new store alone.
    UseNew,
}

impl Phase {
    fn kind(self) -> &'static str
        ensures { result.now ≡ old_kind self }
    {
        match self {
            Phase::UseOld => "use-old",
            Phase::PreferOld => "prefer-old",
            Phase::PreferNew => "prefer-new",
        }
    }
}

impl NewPhase {
    fn kind(self) -> &'static str
        ensures { result.now ≡ new_kind self }
    {
        match self {
            NewPhase::Filling => "filling",
            NewPhase::UseNew => "use-new",
        }
    }
}

fn old_named(kind: &str) -> Option<Phase>
    ensures { result ≡ old_named kind.now }
{
    if kind == Phase::UseOld.kind() {
        return Some(Phase::UseOld);
    }
    if kind == Phase::PreferOld.kind() {
        return Some(Phase::PreferOld);
    }
    if kind == Phase::PreferNew.kind() {
        return Some(Phase::PreferNew);
    }
    None
}

fn new_named(kind: &str) -> Option<NewPhase>
    ensures { result ≡ new_named kind.now }
{
    if kind == NewPhase::Filling.kind() {
        return Some(NewPhase::Filling);
    }
    if kind == NewPhase::UseNew.kind() {
        return Some(NewPhase::UseNew);
    }
    None
}

/// A store above 0 was the new one of an earlier migration.
fn old_named_in(store: u32, kind: &str) -> Option<Phase>
    ensures { result ≡ old_named_in store kind.now }
{
    if store > 0 && kind == NewPhase::UseNew.kind() {
        return Some(Phase::UseOld);
    }
    old_named(kind)
}

fn old_phase_in(store: u32, kind: Option<&Text>, tag: Option<&Text>) -> Option<Phase>
    ensures { result ≡ old_phase_in store (option_copied kind.entry) (option_copied tag.entry) }
{
    match (kind, tag) {
        (Some(kind), None) => old_named_in(store, kind.as_str()),
        _ => None,
    }
}

fn new_phase_in(kind: Option<&Text>, tag: Option<&Text>) -> Option<NewPhase>
    ensures { result ≡ new_phase_in (option_copied kind.entry) (option_copied tag.entry) }
{
    match (kind, tag) {
        (Some(kind), None) => new_named(kind.as_str()),
        _ => None,
    }
}

/// The phase that a marker of the old store shows: by its `$kind`, which is `use-old`, `prefer-old` or
/// `prefer-new`, or in a store above 0 `use-new`, which counts as `UseOld`. `None` comes exactly where
/// the row has another `$kind`, or none, or a `$tag`.
pub fn old_phase(row: &StoredRow) -> Option<Phase>
    ensures { result ≡ old_phase_of row.now.tag.store row.now.props }
{
    old_phase_of_props(row.tag.store, &row.props)
}

/// The phase that a marker of these properties shows in an old store of that number, as `old_phase`
/// says it of a row.
pub fn old_phase_of_props(store: u32, props: &Props) -> Option<Phase>
    ensures { result ≡ old_phase_of store props.now }
{
    old_phase_in(store, props.hidden(Hidden::Kind), props.hidden(Hidden::Tag))
}

/// The phase that a marker of the new store shows: by its `$kind`, which is `filling` or `use-new`.
/// `None` comes exactly where the row has another `$kind`, or none, or a `$tag`.
pub fn new_phase(row: &StoredRow) -> Option<NewPhase>
    ensures { result ≡ new_phase_of row.now.props }
{
    new_phase_of_props(&row.props)
}

/// The phase that a marker of these properties shows in a new store, as `new_phase` says it of a row.
pub fn new_phase_of_props(props: &Props) -> Option<NewPhase>
    ensures { result ≡ new_phase_of props.now }
{
    new_phase_in(props.hidden(Hidden::Kind), props.hidden(Hidden::Tag))
}

/// Properties that have `$kind` alone.
pub(crate) fn kind_alone(alloc: Global, kind: &str) -> Result<Props, NoMemory>
    ensures { IfOk result (λ p. p ≡ marker_props kind.now) }
{
    let Ok(mut props) = Props::build(alloc, Vec::new(alloc)) else {
        return Err(NoMemory);
    };
    props.add_hidden(alloc, Hidden::Kind, kind)?;
    Ok(props)
}

/// The properties of the old store's marker in that phase, which `old_phase` reads back from a row of
/// any store. The one error is want of memory.
pub fn old_marker(alloc: Global, phase: Phase) -> Result<Props, NoMemory>
    ensures value { IfOk result (λ p. p ≡ marker_props (old_kind phase)) }
    ensures read { IfOk result (λ p. (store : ℕ) → old_phase_of store p ≡ Some phase) }
{
    kind_alone(alloc, phase.kind())
}

/// The properties of the new store's marker in that phase, which `new_phase` reads back. The one error
/// is want of memory.
pub fn new_marker(alloc: Global, phase: NewPhase) -> Result<Props, NoMemory>
    ensures value { IfOk result (λ p. p ≡ marker_props (new_kind phase)) }
    ensures read { IfOk result (λ p. new_phase_of p ≡ Some phase) }
{
    kind_alone(alloc, phase.kind())
}
