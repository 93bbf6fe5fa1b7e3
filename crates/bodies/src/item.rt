// An item: a tag and its content.
ghost use Rattle.std.specs.Prelude.{◌≡◌, ◌^◌, ◌<◌, ◌≤◌};
ghost use Rattle.types.specs.Tag.{tag_of};
ghost use Rattle.bodies.specs.Item.{content_length};
ghost use Rattle.bodies.specs.Plain.{plain_length};

use types::{ApplicationTagNumber, Tag, TagNumber};

// How many bytes of content follow a tag: none behind a Boolean, an opening or a closing, else its value.
pub fn content_length(tag: Tag) -> usize
    ensures value { result ≡ content_length (tag_of tag) }
    ensures upper_bound { result < 2 ^ 32 }
{
    match tag.number {
        TagNumber::Application(ApplicationTagNumber::Boolean)
        | TagNumber::ContextSpecificOpening(_)
        | TagNumber::ContextSpecificClosing(_) => 0,
        _ => tag.value as usize,
    }
}

// How many bytes the item has that begins with this byte, where the byte is its whole tag and neither opens nor closes; else 0, which is no item's length.
pub(crate) fn plain_length(first: u8) -> usize
    ensures value { result ≡ plain_length first }
    ensures upper_bound { result ≤ 5 }
{
    let low = first % 8;
    if 4 < low || 247 < first {
        return 0;
    }
    if first / 8 == 2 {
        return 1;
    }
    low as usize + 1
}
