// Items written: a tag whose value is its content's length, and the content.
ghost use Rattle.std.specs.Prelude.{◌≡◌, ◌++◌, ◌≤◌, length};
ghost use Rattle.types.specs.Tag.{number_of};
ghost use Rattle.types.specs.Writing.{paper_written, left};
ghost use Rattle.numbers.specs.Integer.{low_bytes};
ghost use Rattle.tags.specs.Held.{item_before};
ghost use Rattle.tags.specs.Item.{item_to, item_lent_to};

use crate::writing::begin;
use types::{Refusal, Tag, TagNumber};

// Writes an item: the tag of that class and number, then `head` in `count` bytes, most significant first, then the lent bytes.
#[tactic(auto, unfolding(crate::specs::Item::item_lent_to, types::specs::Writing::writing, types::specs::Writing::write_answer))]
pub fn encode_item(
    number: TagNumber,
    head: u64,
    count: u8,
    lent: &[u8],
    buf: &mut [u8],
    place: usize,
) -> Result<usize, Refusal>
    ensures { left (paper_written result) buf.new ≡ item_lent_to (length lent.now) (number_of number) (low_bytes count head ++ lent.now) buf.old place }
{
    if 65535 < buf.len() {
        return Err(Refusal::BufferTooLong(buf.len()));
    }
    if 65535 < lent.len() {
        return Err(Refusal::BufferTooLong(lent.len()));
    }
    let next = begin_item(number, head, count, lent.len(), buf, place)?;
    // Room was tested for the lent bytes too, so they are written, and end there. (Document 01 asks that the rest of the buffer be lent on.)
    numbers::extend_from_slice(lent, &mut buf[next..], 0)?;
    Ok(next + lent.len())
}

// Writes an item of which nothing is lent: the tag of that class and number, then `value` in `count` bytes, most significant first.
#[tactic(auto, using(crate::proofs::ByParts::begun_whole))]
pub fn encode_low_bytes(
    number: TagNumber,
    value: u64,
    count: u8,
    buf: &mut [u8],
    place: usize,
) -> Result<usize, Refusal>
    ensures { left (paper_written result) buf.new ≡ item_to (number_of number) (low_bytes count value) buf.old place }
{
    begin_item(number, value, count, 0, buf, place)
}

// Writes the tag and the first bytes of an item where there is room for so many bytes more, which are to follow.
pub(crate) fn begin_item(
    number: TagNumber,
    head: u64,
    count: u8,
    more: usize,
    buf: &mut [u8],
    place: usize,
) -> Result<usize, Refusal>
    requires { more ≤ 65535 }
    ensures { left (paper_written result) buf.new ≡ item_before more (number_of number) (low_bytes count head) buf.old place }
{
    let value = u32::from(count) + more as u32;
    let next = begin(Tag { number, value }, value, buf, place)?;
    // Room was tested for these bytes too, so they are written, and end there.
    numbers::write_low_bytes(head, count as usize, &mut buf[next..], 0)?;
    Ok(next + count as usize)
}
