//! The rules of a sound pair that speak of both stores' markers.
ghost use Rattle.std.specs.Prelude.{◌≡◌, ◌↔◌, IsTrue, Some, None, option_copied};
ghost use Rattle.mt_meta.specs.Markers.{marker_key};
ghost use Rattle.mt_meta.specs.Marks.{mark_of};
ghost use Rattle.mt_meta.specs.declared.mark.Mark.{Mark};
ghost use Rattle.mt_meta.specs.Logical.{old_says, new_says, old_state, new_state};
ghost use Rattle.mt_meta.specs.Sound.{IsCopyOrNone};
ghost use Rattle.mt_open.specs.declared.damage.Rule.{Rule};
ghost use Rattle.mt_chain.specs.declared.ask.Side.{Side};
ghost use Rattle.mt_open.specs.Damage.{RowFails, SpeaksOfMarkers};
ghost use Rattle.mt_open.specs.Holdings.{pair_in};

use crate::damage::Rule;
use crate::forms::is_marker_key;
use crate::holdings::Holdings;
use mt_chain::{Side, Stored};
use mt_meta::{Mark, NewPhase, Phase, mark_of_props, new_phase_of_props, old_phase_of_props};
use mt_model::{Key, Props};

/// Whether the old store's marker is there and shows that phase.
fn has_old_phase(marker: Option<&Stored>, phase: Phase) -> bool
    ensures { IsTrue result ↔ (old_state (option_copied marker.entry) ≡ old_says (Some phase)) }
{
    match marker {
        None => false,
        Some(row) => old_phase_of_props(row.tag.store, &row.props) == Some(phase),
    }
}

/// Whether a marker of the new store shows that phase.
fn has_new_phase(row: &Stored, phase: NewPhase) -> bool
    ensures { IsTrue result ↔ (new_state (Some row.now) ≡ new_says (Some phase)) }
{
    new_phase_of_props(&row.props) == Some(phase)
}

fn is_copy(row: &Stored) -> bool
    ensures { IsTrue result ↔ IsCopyOrNone (Some row.now) }
{
    matches!(mark_of_props(&row.props), Some(Mark::Copy(_)))
}

fn is_tomb(props: &Props) -> bool
    ensures { IsTrue result ↔ (mark_of props.now ≡ Some Mark.Tomb) }
{
    mark_of_props(props) == Some(Mark::Tomb)
}

/// Whether a row's partition has no marker in that store.
pub fn fails_marked(stores: &Holdings, side: Side, key: &Key, row: &Stored) -> bool
    ensures { IsTrue result ↔ RowFails (pair_in stores.now) Rule.Marked side key.now row.now }
{
    stores.on(side).marker(&key.pk).is_none()
}

/// Whether a row of new is a marker where old is at `use-old`.
fn fails_use_old(stores: &Holdings, key: &Key, row: &Stored) -> bool
    ensures { IsTrue result ↔ RowFails (pair_in stores.now) Rule.UseOld Side.New key.now row.now }
{
    is_marker_key(&key.rk) && has_old_phase(stores.old.marker(&key.pk), Phase::UseOld)
}

/// Whether a row of new is a marker that is not filling, or no copy, where old is at `prefer-old`.
fn fails_prefer_old(stores: &Holdings, key: &Key, row: &Stored) -> bool
    ensures { IsTrue result ↔ RowFails (pair_in stores.now) Rule.PreferOld Side.New key.now row.now }
{
    if !has_old_phase(stores.old.marker(&key.pk), Phase::PreferOld) {
        return false;
    }
    if is_marker_key(&key.rk) {
        !has_new_phase(row, NewPhase::Filling)
    } else {
        !is_copy(row)
    }
}

/// Whether a row of old is a marker at `prefer-new` where new has none.
fn fails_prefer_new(stores: &Holdings, key: &Key, row: &Stored) -> bool
    ensures { IsTrue result ↔ RowFails (pair_in stores.now) Rule.PreferNew Side.Old key.now row.now }
{
    is_marker_key(&key.rk)
        && has_old_phase(stores.old.marker(&key.pk), Phase::PreferNew)
        && stores.new.marker(&key.pk).is_none()
}

/// Whether a row of new is a tombstone, or a marker other than `use-new` beside a sealed old store,
/// where old has no marker.
fn fails_no_old(stores: &Holdings, key: &Key, row: &Stored) -> bool
    ensures { IsTrue result ↔ RowFails (pair_in stores.now) Rule.NoOld Side.New key.now row.now }
{
    if stores.old.marker(&key.pk).is_some() {
        return false;
    }
    if is_marker_key(&key.rk) {
        !has_new_phase(row, NewPhase::UseNew) || !stores.old.is_sealed()
    } else {
        is_tomb(&row.props)
    }
}

/// How a row of old fails one of the rules that speak of both stores' markers.
fn fails_in_old(stores: &Holdings, rule: Rule, key: &Key, row: &Stored) -> bool
    requires { SpeaksOfMarkers rule }
    ensures { IsTrue result ↔ RowFails (pair_in stores.now) rule Side.Old key.now row.now }
{
    match rule {
        Rule::PreferNew => fails_prefer_new(stores, key, row),
        _ => false,
    }
}

/// How a row of new fails one of them.
fn fails_in_new(stores: &Holdings, rule: Rule, key: &Key, row: &Stored) -> bool
    requires { SpeaksOfMarkers rule }
    ensures { IsTrue result ↔ RowFails (pair_in stores.now) rule Side.New key.now row.now }
{
    match rule {
        Rule::UseOld => fails_use_old(stores, key, row),
        Rule::PreferOld => fails_prefer_old(stores, key, row),
        Rule::NoOld => fails_no_old(stores, key, row),
        _ => false,
    }
}

/// Whether a row fails one of the rules that speak of both stores' markers.
pub fn fails_by_markers(stores: &Holdings, rule: Rule, side: Side, key: &Key, row: &Stored) -> bool
    requires { SpeaksOfMarkers rule }
    ensures { IsTrue result ↔ RowFails (pair_in stores.now) rule side key.now row.now }
{
    match side {
        Side::Old => fails_in_old(stores, rule, key, row),
        Side::New => fails_in_new(stores, rule, key, row),
    }
}
