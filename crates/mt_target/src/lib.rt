//! The targets of requests (RFC 9112, section 3.2): what a path names, and the options behind it.
#![tactic(auto)]

mod options;
mod paths;
mod quoted;
mod split;
mod target;
mod targets;

pub use options::{has_option, has_repeat};
pub use target::{Keys, QueryOption, QueryOptions, Service, Spelled, Target};
pub use targets::read_target;
