//! Finishing drafts.
ghost use Rattle.std.specs.Prelude.{◌≡◌, All, length};
ghost use Rattle.mt_model.specs.Tag.{IsTag};
ghost use Rattle.mt_mime.specs.Drafts.{bytes_by};

use crate::replying::{put_one, put_set};
use crate::waiting::Draft;
use mt_chain::Tags;
use mt_model::Tag;

/// The numbers of a tag are within the limits of a tag. Only the proof needs to be told.
fn is_tag(_tag: Tag)
    ensures { IsTag _tag }
{}

/// So are those of each tag.
fn are_tags(tags: &[Tag])
    ensures { All IsTag tags.now }
{
    for tag in tags {
        is_tag(*tag);
    }
}

impl Draft {
    /// The bytes of the reply with these tags, one for each operation. It takes no memory, and cannot
    /// fail.
    pub fn finish(self, tags: &Tags) -> Vec<u8>
        requires { length tags.now ≡ length self.forms.items }
        ensures { result.items ≡ bytes_by self tags.now }
    {
        let Draft {
            forms,
            change_set,
            close,
            mut room,
        } = self;
        let tags = tags.as_slice();
        are_tags(tags);
        if change_set {
            put_set(&mut room, &forms, tags, close);
        } else {
            put_one(&mut room, &forms, tags, close);
        }
        room
    }
}
