//! How a table lies in two stores while its partitions move from the old one to the new one.
#![tactic(auto)]

mod asks;
mod fact;
mod mark;
mod marker;
mod showing;
mod sight;

pub use asks::{NO_TAG, bear_marker, check_marker, marker_tag, read_marked, turn_marker};
pub use fact::{Fact, Keys};
pub use mark::{Mark, mark_of, mark_of_props, seen_tag, seen_tag_of_props, stored};
pub use marker::{
    MARKER_KEY, NewPhase, Phase, new_marker, new_phase, new_phase_of_props, old_marker, old_phase,
    old_phase_of_props,
};
pub use showing::{Choice, overlay};
pub use sight::{Sight, sight_of_old, sight_over};
