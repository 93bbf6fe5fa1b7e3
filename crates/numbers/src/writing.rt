// Bytes and integers written at a place of a lent buffer.
ghost use Rattle.std.specs.Prelude.{◌≡◌, [], ◌∷◌, ◌+◌, ◌≤◌, length};
ghost use Rattle.types.specs.Writing.{paper_written, can, left, over, write_answer, writing};
ghost use Rattle.numbers.specs.Integer.{low_bytes, pattern_of, unsigned_bytes, signed_bytes};

use crate::integer::{signed_length, unsigned_length};
use types::Refusal;

// The place after a write of so many bytes, so many of them lent, or why there can be none: no byte is written.
#[tactic(auto, unfolding(types::specs::Writing::write_answer))]
pub fn room(lent: usize, count: usize, buf: &[u8], place: usize) -> Result<usize, Refusal>
    ensures { paper_written result ≡ write_answer lent can count buf.now place }
{
    if 65535 < buf.len() {
        return Err(Refusal::BufferTooLong(buf.len()));
    }
    if 65535 < lent {
        return Err(Refusal::BufferTooLong(lent));
    }
    if buf.len() < place {
        return Err(Refusal::PlacePastEnd(place));
    }
    if buf.len() - place < count {
        return Err(Refusal::NoRoom(count));
    }
    Ok(place + count)
}

// Writes one byte.
#[tactic(auto, using(crate::proofs::Inside::room_inside, crate::proofs::Over::one_replaced), unfolding(types::specs::Writing::writing))]
pub fn push(item: u8, buf: &mut [u8], place: usize) -> Result<usize, Refusal>
    ensures { left (paper_written result) buf.new ≡ writing 0 can (item ∷ []) buf.old place }
{
    let next = room(0, 1, buf, place)?;
    buf[place] = item;
    Ok(next)
}

// Writes a lent slice.
#[tactic(auto, using(crate::proofs::Inside::room_inside), unfolding(types::specs::Writing::writing))]
pub fn extend_from_slice(src: &[u8], buf: &mut [u8], place: usize) -> Result<usize, Refusal>
    ensures { left (paper_written result) buf.new ≡ writing (length src.now) can src.now buf.old place }
{
    let next = room(src.len(), src.len(), buf, place)?;
    copy(src, buf, place);
    Ok(next)
}

// Puts a slice from a place on. No `copy_from_slice`: that is the C library's `memmove`, which the archive for C would then need from outside.
fn copy(src: &[u8], buf: &mut [u8], place: usize)
    requires { place + length src.now ≤ length buf.old }
    ensures { buf.new ≡ over buf.old place src.now }
{
    for (i, byte) in src.iter().enumerate() {
        buf[place + i] = *byte;
    }
}

// Writes so many low bytes of a number, most significant first.
#[tactic(auto, using(crate::proofs::Inside::room_inside, crate::proofs::Low::low_bytes_length), unfolding(types::specs::Writing::writing))]
pub fn write_low_bytes(
    value: u64,
    count: usize,
    buf: &mut [u8],
    place: usize,
) -> Result<usize, Refusal>
    ensures { left (paper_written result) buf.new ≡ writing 0 can (low_bytes count value) buf.old place }
{
    let next = room(0, count, buf, place)?;
    let mut rest = value;
    // By the count: of what `iter_mut().rev()` changed the check knows nothing, and over `(place..next).rev()` it took 21 instructions more at eight bytes.
    for i in (0..count).rev() {
        buf[place + i] = (rest % 256) as u8;
        rest /= 256;
    }
    Ok(next)
}

// Writes an unsigned integer's content in the fewest bytes.
#[tactic(auto, unfolding(crate::specs::Integer::unsigned_bytes))]
pub fn write_unsigned(value: u64, buf: &mut [u8], place: usize) -> Result<usize, Refusal>
    ensures { left (paper_written result) buf.new ≡ writing 0 can (unsigned_bytes value) buf.old place }
{
    write_low_bytes(value, unsigned_length(value), buf, place)
}

// Writes a signed integer's content, two's complement in the fewest bytes.
#[tactic(auto, using(crate::proofs::Shortest::signed_by_pattern))]
pub fn write_signed(value: i64, buf: &mut [u8], place: usize) -> Result<usize, Refusal>
    ensures { left (paper_written result) buf.new ≡ writing 0 can (signed_bytes value) buf.old place }
{
    write_low_bytes(pattern(value), signed_length(value), buf, place)
}

// The unsigned integer that has the bits of a signed one.
pub fn pattern(value: i64) -> u64
    ensures { result ≡ pattern_of 8 value }
{
    value.cast_unsigned()
}
