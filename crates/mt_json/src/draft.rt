//! The text of an entity that is still to be stored, before its tag is known.
ghost use Rattle.serde_json.specs.View.{members_view};
ghost use Rattle.mt_json.specs.Tagged.{IsDraft};

mod text;

use crate::write::Level;
use serde_json::{Map, Value as Json};

/// The JSON object (RFC 8259) of an entity whose tag is not known before the entity is stored. It
/// holds the members, in byte order of their names, and how many bytes their text takes.
#[derive(Drop)]
pub struct Draft {
    /// At `Level::Minimal` null stands in the tag's place.
    members: Map<String, Json>,

    level: Level,

    /// The bytes of the text but those of the tag's text.
    size: usize,

    ghost valid: { IsDraft (members_view members.entries) level size },
}
