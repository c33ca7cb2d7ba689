//! Replies that wait for their tags.
ghost use Rattle.mt_mime.specs.Rooms.{HasOwnRoom};

use crate::forms::Form;

/// The reply to operations that are still to be done: all but their tags, and the room for it.
#[derive(Drop)]
pub struct Draft {
    pub(crate) forms: Vec<Form>,

    /// Whether it is the reply to a change set, else that to one operation alone.
    pub(crate) change_set: bool,

    /// Whether the connection ends with the reply.
    pub(crate) close: bool,
    pub(crate) room: Vec<u8>,

    ghost valid: { HasOwnRoom forms.items change_set close room },
}
