//! Making drafts.
ghost use Rattle.std.specs.Prelude.{◌≡◌, ◌≤◌, Bool, false, List, length, IfOk, IfSome};
ghost use Rattle.std.specs.List.{AllZip, flat_map};
ghost use Rattle.mt_model.specs.declared.tag.Tag.{Tag};
ghost use Rattle.mt_mime.specs.Replies.{HasEcho, AreForms, AreTags, replies_by, part_bytes, answer_by};
ghost use Rattle.mt_mime.specs.Drafts.{IsDraftOf};

use crate::forms::{Echo, Form, form_of, reply_room};
use crate::waiting::Draft;
use mt_chain::Op;
use mt_model::NoMemory;
use std::alloc::Global;

/// The bytes of a part of a change set beside its reply.
const PART_BYTES: usize = 96;

/// The bytes of the reply to a change set beside its parts, at most.
const FRAME_BYTES: usize = 320;

/// The forms of the replies to the operations.
fn forms_of(alloc: Global, ops: &[Op], echoes: &[Echo]) -> Result<Vec<Form>, NoMemory>
    requires { AllZip HasEcho ops.now echoes.now }
    ensures { IfOk result (λ v. AreForms ops.now echoes.now v.items) }
{
    let mut forms = Vec::new(alloc);
    for at in 0..ops.len() {
        let form = form_of(alloc, &ops[at], echoes[at])?;
        forms.push(form)?;
    }
    Ok(forms)
}

/// Room for the parts of a change set, whatever the tags are.
fn parts_room(forms: &[Form]) -> Option<usize>
    ensures { IfSome result (λ n. (tags : List Tag) → AreTags (length forms.now) tags → length (flat_map part_bytes (replies_by forms.now tags)) ≤ n) }
{
    let mut size: usize = 0;
    for form in forms {
        let Some(reply) = reply_room(form) else {
            return None;
        };
        let Some(part) = reply.checked_add(PART_BYTES) else {
            return None;
        };
        let Some(more) = size.checked_add(part) else {
            return None;
        };
        size = more;
    }
    Some(size)
}

/// Room for the reply, whatever the tags are.
fn room_for(forms: &[Form]) -> Option<usize>
    ensures { IfSome result (λ n. (change_set close : Bool) (tags : List Tag) → AreTags (length forms.now) tags → length (answer_by change_set close forms.now tags) ≤ n) }
{
    let Some(parts) = parts_room(forms) else {
        return None;
    };
    let Some(size) = parts.checked_add(FRAME_BYTES) else {
        return None;
    };
    Some(size)
}

/// The draft of the reply to these operations, to be finished once they are done: as a change set, or
/// to one operation alone. It takes all the room that the reply can need, whatever the tags will be.
/// The one error is want of memory.
pub fn draft(
    alloc: Global,
    ops: &[Op],
    echoes: &[Echo],
    change_set: bool,
    close: bool,
) -> Result<Draft, NoMemory>
    requires echoes { AllZip HasEcho ops.now echoes.now }
    requires one { change_set ≡ false → length ops.now ≡ 1 }
    ensures { IfOk result (IsDraftOf ops.now echoes.now change_set close) }
{
    let forms = forms_of(alloc, ops, echoes)?;
    let Some(size) = room_for(&forms) else {
        return Err(NoMemory);
    };
    let room = Vec::with_capacity(alloc, size)?;
    Ok(Draft {
        forms,
        change_set,
        close,
        room,
    })
}
