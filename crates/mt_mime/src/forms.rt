//! The replies to single operations, as far as they are known before the tags.
ghost use Rattle.std.specs.Prelude.{◌≡◌, ◌≤◌, Bool, length, IfOk, IfSome};
ghost use Rattle.mt_model.specs.declared.tag.Tag.{Tag};
ghost use Rattle.mt_model.specs.Tag.{IsTag};
ghost use Rattle.mt_http_out.specs.Rendering.{bytes_closing};
ghost use Rattle.mt_chain.specs.declared.op.Op.TheVariants as op;
ghost use Rattle.mt_mime.specs.declared.forms.Echo.TheVariants as echo;
ghost use Rattle.mt_mime.specs.Replies.{HasEcho, IsFormOf, reply_by};

use mt_chain::Op;
use mt_json::{Draft as Entity, Level};
use mt_model::{Key, NoMemory, Props};
use std::alloc::Global;

/// What the reply to an operation that was done shows of its row.
#[derive(Clone, Copy, Debug, PartialEq, Eq)]
pub enum Echo {
    /// The entity that an insert wrote: 201.
    Entity(Level),

    /// The tag of what an insert wrote, and that no content was wanted: 204.
    NoContent,

    /// The tag, or nothing where the row went: 204. For all but inserts.
    Plain,
}

/// What a reply is made of beside the tag.
#[derive(Drop)]
pub enum Form {
    /// 201 with the entity of this draft.
    Created(Entity),

    /// 204 with the tag, and that no content was wanted.
    NoContent,

    /// 204 with the tag.
    Tagged,

    /// 204 alone.
    Gone,
}

/// The bytes of a reply beside the entity's text, at most, with any tag.
pub const REPLY_BYTES: usize = 224;

/// The form of the reply that shows an entity.
fn created(alloc: Global, key: &Key, props: &Props, level: Level) -> Result<Form, NoMemory>
    ensures { IfOk result (IsFormOf (op.Insert key.now props.now) (echo.Entity level)) }
{
    let entity = Entity::new(alloc, key, props, level, None)?;
    Ok(Form::Created(entity))
}

/// The form of the reply to an operation.
pub fn form_of(alloc: Global, op: &Op, echo: Echo) -> Result<Form, NoMemory>
    requires { HasEcho op.now echo }
    ensures { IfOk result (IsFormOf op.now echo) }
{
    match echo {
        Echo::Entity(level) => match op {
            Op::Insert { key, props } => created(alloc, key, props, level),
            _ => unreachable!(),
        },
        Echo::NoContent => Ok(Form::NoContent),
        Echo::Plain => match op {
            Op::Delete { .. } => Ok(Form::Gone),
            _ => Ok(Form::Tagged),
        },
    }
}

/// Room for the reply, whatever its tag is.
pub fn reply_room(form: &Form) -> Option<usize>
    ensures { IfSome result (λ n. (tag : Tag) (close : Bool) → IsTag tag → length (bytes_closing close (reply_by form.now tag close)) ≤ n) }
{
    match form {
        Form::Created(entity) => {
            let Some(size) = entity.room().checked_add(REPLY_BYTES) else {
                return None;
            };
            Some(size)
        }
        Form::NoContent => Some(REPLY_BYTES),
        Form::Tagged => Some(REPLY_BYTES),
        Form::Gone => Some(REPLY_BYTES),
    }
}
