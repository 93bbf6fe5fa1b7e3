// Tags written at a place of a lent buffer.
ghost use Rattle.std.specs.Prelude.{◌≡◌};
ghost use Rattle.types.specs.Tag.{tag_of};
ghost use Rattle.types.specs.Writing.{paper_written, left};
ghost use Rattle.tags.specs.Writing.{tag_value_allowed, tag_to, tag_before};

use crate::header::built;
use crate::short::{any_short, begin_short, plain_short};
use types::{Refusal, Tag, TagNumber};

// Writes a tag.
#[tactic(auto, unfolding(crate::specs::Writing::tag_to, crate::specs::Writing::tag_before, crate::specs::Held::one_before, types::specs::Writing::writing))]
pub fn encode(tag: Tag, buf: &mut [u8], place: usize) -> Result<usize, Refusal>
    ensures { left (paper_written result) buf.new ≡ tag_to (tag_of tag) buf.old place }
{
    match any_short(tag) {
        Some(byte) => begin_short(byte, 0, buf, place),
        None => begin_long(tag, 0, buf, place),
    }
}

// Writes a tag where there is room for it and for as many bytes of content, which are to follow.
#[tactic(auto, unfolding(crate::specs::Writing::tag_before, crate::specs::Held::one_before))]
pub fn begin(tag: Tag, content: u32, buf: &mut [u8], place: usize) -> Result<usize, Refusal>
    ensures { left (paper_written result) buf.new ≡ tag_before (tag_of tag) content buf.old place }
{
    match plain_short(tag) {
        Some(byte) => begin_short(byte, content, buf, place),
        None => begin_long(tag, content, buf, place),
    }
}

// Writes a tag of any length so: built apart, and then copied out.
#[tactic(auto, using(crate::proofs::Held::header_short), unfolding(crate::specs::Writing::tag_before, types::specs::Writing::writing, types::specs::Writing::write_answer))]
fn begin_long(tag: Tag, content: u32, buf: &mut [u8], place: usize) -> Result<usize, Refusal>
    ensures { left (paper_written result) buf.new ≡ tag_before (tag_of tag) content buf.old place }
{
    if 65535 < buf.len() {
        return Err(Refusal::BufferTooLong(buf.len()));
    }
    if buf.len() < place {
        return Err(Refusal::PlacePastEnd(place));
    }
    if !writable(tag) {
        return Err(Refusal::CannotBeWritten);
    }
    let header = built(tag);
    let bytes = header.as_slice();
    let whole = bytes.len() + content as usize;
    if buf.len() - place < whole {
        return Err(Refusal::NoRoom(whole));
    }
    numbers::extend_from_slice(bytes, buf, place)
}

// Whether a tag can be written: the value of an opening or a closing is 0.
#[tactic(auto, unfolding(crate::specs::Writing::tag_value_allowed))]
fn writable(tag: Tag) -> bool
    ensures { result ≡ tag_value_allowed (tag_of tag) }
{
    match tag.number {
        TagNumber::ContextSpecificOpening(_) | TagNumber::ContextSpecificClosing(_) => {
            tag.value == 0
        }
        _ => true,
    }
}
