// The tags of a block, and a boolean under a context tag.
ghost use Rattle.std.specs.Prelude.{◌≡◌, [], ◌∷◌};
ghost use Rattle.types.specs.Tag.{context, opening, closing, tag};
ghost use Rattle.types.specs.Writing.{paper_written, left};
ghost use Rattle.tags.specs.Item.{item_to, boolean_byte};
ghost use Rattle.tags.specs.Writing.{tag_to};

use crate::item::encode_low_bytes;
use crate::writing::encode;
use types::{Refusal, Tag, TagNumber};

// Writes the tag that opens a block.
pub fn encode_opening_tag(tag_number: u8, buf: &mut [u8], place: usize) -> Result<usize, Refusal>
    ensures { left (paper_written result) buf.new ≡ tag_to (tag (opening tag_number) 0) buf.old place }
{
    let number = TagNumber::ContextSpecificOpening(tag_number);
    encode(Tag { number, value: 0 }, buf, place)
}

// Writes the tag that closes a block. (What it shares with the opening's writer is `encode`: one writer of both would take the class besides, and be no shorter.)
pub fn encode_closing_tag(tag_number: u8, buf: &mut [u8], place: usize) -> Result<usize, Refusal>
    ensures { left (paper_written result) buf.new ≡ tag_to (tag (closing tag_number) 0) buf.old place }
{
    let number = TagNumber::ContextSpecificClosing(tag_number);
    encode(Tag { number, value: 0 }, buf, place)
}

// Writes a boolean under a context tag, as one byte of content.
pub fn encode_context_bool(
    tag_number: u8,
    value: bool,
    buf: &mut [u8],
    place: usize,
) -> Result<usize, Refusal>
    ensures { left (paper_written result) buf.new ≡ item_to (context tag_number) (boolean_byte value ∷ []) buf.old place }
{
    let number = TagNumber::ContextSpecific(tag_number);
    encode_low_bytes(number, u64::from(value), 1, buf, place)
}
