// Tags of one byte: which byte it is, and how it is written.
ghost use Rattle.std.specs.Prelude.{◌≡◌, ◌<◌};
ghost use Rattle.types.specs.Tag.{tag_of};
ghost use Rattle.types.specs.Writing.{paper_written, left};
ghost use Rattle.tags.specs.Held.{OneOf, OneByte, BlockByte, one_before};
ghost use Rattle.tags.specs.Writing.{context_bytes};

use types::{Refusal, Tag, TagNumber};

// Writes the byte of a tag where there is room for it and for as many bytes of content, which are to follow.
#[tactic(auto, using(numbers::proofs::Inside::room_inside, crate::proofs::Begun::one_stored), unfolding(crate::specs::Held::one_before))]
pub(crate) fn begin_short(
    byte: u8,
    content: u32,
    buf: &mut [u8],
    place: usize,
) -> Result<usize, Refusal>
    ensures { left (paper_written result) buf.new ≡ one_before byte content buf.old place }
{
    // The place that is answered is behind the content: the tag ends before it.
    numbers::room(0, 1 + content as usize, buf, place)?;
    buf[place] = byte;
    Ok(place + 1)
}

// The byte of a tag of any class, where it has one; else it is longer, or cannot be written.
#[tactic(auto, unfolding(crate::specs::Writing::tag_bytes, crate::specs::Writing::tag_value_allowed))]
pub(crate) fn any_short(tag: Tag) -> Option<u8>
    ensures { OneByte result (tag_of tag) }
{
    match tag.number {
        TagNumber::ContextSpecificOpening(n) => block_short(n, 6, tag.value),
        TagNumber::ContextSpecificClosing(n) => block_short(n, 7, tag.value),
        _ => plain_short(tag),
    }
}

// The byte of a tag that neither opens nor closes, where it has one.
#[tactic(auto, unfolding(crate::specs::Writing::tag_bytes, crate::specs::Writing::tag_value_allowed))]
pub(crate) fn plain_short(tag: Tag) -> Option<u8>
    ensures { OneByte result (tag_of tag) }
{
    if 4 < tag.value {
        return None;
    }
    let low = tag.value as u8;
    match tag.number {
        TagNumber::Application(name) => Some(name.number() * 16 + low),
        TagNumber::ContextSpecific(n) => in_field(n, low),
        _ => None,
    }
}

// The byte of an opening or a closing, which has no value. (Low bits are below 8 here and in two more functions: a type of three bits would be no plainer.)
fn block_short(number: u8, low: u8, value: u32) -> Option<u8>
    requires { low < 8 }
    ensures { BlockByte result number low value }
{
    if 0 < value {
        return None;
    }
    in_field(number, low)
}

// The byte of a context number and the low bits, where the number takes no byte of its own.
fn in_field(number: u8, low: u8) -> Option<u8>
    requires { low < 8 }
    ensures { OneOf result (context_bytes number low) }
{
    if number < 15 {
        Some(number * 16 + 8 + low)
    } else {
        None
    }
}
