//! Making drafts, and writing them.
ghost use Rattle.std.specs.Prelude.{◌≡◌, ◌≤◌, ◌+◌, length, IfOk, option_map};
ghost use Rattle.serde_json.specs.View.{members_view};
ghost use Rattle.mt_model.specs.Props.{IsProps};
ghost use Rattle.mt_model.specs.Tag.{IsTag};
ghost use Rattle.mt_model.specs.declared.tag.Tag.{Tag};
ghost use Rattle.mt_json.specs.Written.{IsWritten, IsShown, AreNamed};
ghost use Rattle.mt_json.specs.Tagged.{placed};
ghost use Rattle.mt_json.specs.Draft.{text_of, HasRoom, Appends};

use super::Draft;
use crate::members::{members_size, put_members, tag_size};
use crate::quote::put_bytes;
use crate::write::{Level, put_keys, put_props};
use mt_model::{Key, NoMemory, Prop, Props, Tag, Text};
use serde_json::{Map, Value as Json, put};
use std::alloc::Global;

/// The bytes of a tag inside a JSON string, at most: those of its frame and 30 digits.
const TAG_BYTES: usize = 37;

/// The properties that are shown, their type keys, and the keys.
fn shown(
    alloc: Global,
    key: &Key,
    props: &[Prop],
    level: Level,
    chosen: Option<&Vec<Text>>,
) -> Result<Map<String, Json>, NoMemory>
    requires { IsProps props.now }
    ensures named { IfOk result (λ _. AreNamed props.now) }
    ensures shown { IfOk result (λ m. IsShown key.now props.now level (option_map (λ v. v.now.items) chosen.entry) (members_view m.entries)) }
{
    let mut members = Map::new(alloc);
    put_props(&mut members, alloc, level, chosen, props)?;
    put_keys(&mut members, alloc, chosen, key)?;
    Ok(members)
}

/// The members with null in the tag's place, at the level that has the tag.
fn with_place(
    alloc: Global,
    level: Level,
    mut members: Map<String, Json>,
) -> Result<Map<String, Json>, NoMemory>
    ensures { IfOk result (λ m. members_view m.entries ≡ placed level (members_view members.entries)) }
{
    if matches!(level, Level::Minimal) {
        put(&mut members, alloc, "odata.etag", Json::Null)?;
    }
    Ok(members)
}

impl Draft {
    /// The draft of the text that `write_entity` gives for an entity of this key and these properties,
    /// whatever its tag is. The one error is want of memory, which also stands for a text whose length
    /// is no number that memory is counted in.
    pub fn new(
        alloc: Global,
        key: &Key,
        props: &Props,
        level: Level,
        chosen: Option<&Vec<Text>>,
    ) -> Result<Draft, NoMemory>
        ensures named { IfOk result (λ _. AreNamed props.now) }
        ensures valid { IfOk result (λ _. IsProps props.now) }
        ensures written { IfOk result (λ d. (tag : Tag) → IsWritten (record { key = key.now; props = props.now; tag = tag }) level (option_map (λ v. v.now.items) chosen.entry) (text_of d tag)) }
    {
        let shown = shown(alloc, key, props.as_slice(), level, chosen)?;
        let members = with_place(alloc, level, shown)?;
        let size = members_size(&members).saturating_add(1);
        if size >= usize::MAX - TAG_BYTES {
            return Err(NoMemory);
        }
        Ok(Draft {
            members,
            level,
            size,
        })
    }

    /// The bytes of the text with this tag.
    pub fn size(&self, tag: Tag) -> usize
        ensures { result ≡ length (text_of self.now tag) }
    {
        match self.level {
            Level::None => self.size,
            Level::Minimal => self.size + tag_size(tag),
        }
    }

    /// Room for the text whatever the tag is, and no more than 37 bytes beyond what a tag's text needs.
    pub fn room(&self) -> usize
        ensures enough { (tag : Tag) → IsTag tag → length (text_of self.now tag) ≤ result }
        ensures near { (tag : Tag) → result ≤ length (text_of self.now tag) + 37 }
    {
        self.size + TAG_BYTES
    }

    /// Writes the text with this tag behind what is there. It takes no memory, and cannot fail.
    pub fn write(&self, tag: Tag, room: &mut Vec<u8>)
        requires { HasRoom room.old (text_of self.now tag) }
        ensures { Appends room.old (text_of self.now tag) room.new }
    {
        put_bytes(room, b"{");
        put_members(room, &self.members, tag);
    }
}
