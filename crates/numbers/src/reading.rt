// Bytes read at a place: one, two, four or eight as a number, where a part of a given length lies, and that part.
ghost use Rattle.std.specs.Prelude.{◌≡◌, ◌≤◌, length};
ghost use Rattle.types.specs.Answer.{paper_read};
ghost use Rattle.numbers.specs.Integer.{unsigned_value};
ghost use Rattle.numbers.specs.Reading.{byte_from, slice_from, part_of, fixed_from, paper_slice, paper_part, handed_over};

use types::Refusal;

// Where a part lies.
#[derive(Clone, Copy, PartialEq, Eq)]
pub struct Slice {
    pub start: usize,
    pub len: u32,
}

// A part of a buffer: where it lies, and its bytes.
#[derive(Clone, Copy, PartialEq, Eq)]
pub struct View<'a> {
    pub slice: Slice,
    pub bytes: &'a [u8],
}

// Reads the byte at a place.
#[tactic(auto, unfolding(crate::specs::Reading::byte_from))]
#[inline(always)]
pub fn read_byte(buf: &[u8], place: usize) -> Result<(u8, usize), Refusal>
    ensures { paper_read result ≡ byte_from buf.now place }
{
    if 65535 < buf.len() {
        Err(Refusal::BufferTooLong(buf.len()))
    } else if place < buf.len() {
        Ok((buf[place], place + 1))
    } else if buf.len() < place {
        Err(Refusal::PlacePastEnd(place))
    } else {
        Err(Refusal::BytesRunOut(buf.len()))
    }
}

// Finds the part of so many bytes from a place on; reads none of them.
#[tactic(auto, unfolding(crate::specs::Reading::slice_from))]
pub fn read_slice(len: u32, buf: &[u8], place: usize) -> Result<(Slice, usize), Refusal>
    ensures { paper_slice result ≡ slice_from len buf.now place }
{
    if 65535 < buf.len() {
        return Err(Refusal::BufferTooLong(buf.len()));
    }
    if buf.len() < place {
        return Err(Refusal::PlacePastEnd(place));
    }
    let next = place + len as usize;
    if buf.len() < next {
        return Err(Refusal::BytesRunOut(next));
    }
    Ok((Slice { start: place, len }, next))
}

// Hands over the part of so many bytes from a place on, with the place after it, refused as `read_slice` refuses it.
#[tactic(auto, using(crate::proofs::Inside::part_inside), unfolding(crate::specs::Reading::part_of))]
pub fn part<'a>(len: u32, buf: &'a [u8], place: usize) -> Result<(View<'a>, usize), Refusal>
    ensures lies { paper_part result ≡ slice_from len buf.now place }
    ensures bytes { handed_over result ≡ part_of len buf.now place }
{
    let (slice, next) = read_slice(len, buf, place)?;
    let bytes = &buf[slice.start..next];
    Ok((View { slice, bytes }, next))
}

// Three widths by one function; a trait over u16, u32 and u64 would need more lines than these, and a const parameter a bound that callers had to meet.
// Reads the number that two bytes from a place on stand for, most significant first.
#[tactic(auto, using(crate::proofs::Parts::fixed_room))]
pub fn read_two_bytes(buf: &[u8], place: usize) -> Result<(u32, usize), Refusal>
    ensures { paper_read result ≡ fixed_from 2 buf.now place }
{
    let (value, next) = fixed(2, buf, place)?;
    Ok((value as u32, next))
}

// Reads the number that four bytes from a place on stand for, most significant first.
#[tactic(auto, using(crate::proofs::Parts::fixed_room))]
pub fn read_four_bytes(buf: &[u8], place: usize) -> Result<(u32, usize), Refusal>
    ensures { paper_read result ≡ fixed_from 4 buf.now place }
{
    let (value, next) = fixed(4, buf, place)?;
    Ok((value as u32, next))
}

// Reads the number that eight bytes from a place on stand for, most significant first.
pub fn read_eight_bytes(buf: &[u8], place: usize) -> Result<(u64, usize), Refusal>
    ensures { paper_read result ≡ fixed_from 8 buf.now place }
{
    fixed(8, buf, place)
}

// Reads the number that so many bytes from a place on stand for, most significant first.
#[tactic(auto, using(crate::proofs::Parts::part_found, crate::proofs::Parts::fixed_read), unfolding(crate::specs::Reading::fixed_from))]
fn fixed(count: u32, buf: &[u8], place: usize) -> Result<(u64, usize), Refusal>
    requires { count ≤ 8 }
    ensures { paper_read result ≡ fixed_from count buf.now place }
{
    let (view, next) = part(count, buf, place)?;
    Ok((whole(view.bytes), next))
}

// The number that bytes stand for, most significant first.
pub(crate) fn whole(bytes: &[u8]) -> u64
    requires { length bytes.now ≤ 8 }
    ensures { result ≡ unsigned_value bytes.now }
{
    let mut value: u64 = 0;
    for byte in bytes {
        value = value * 256 + u64::from(*byte);
    }
    value
}

// The same, for the compiler, which makes one load of a constant eight bytes: an unsigned integer of eight bytes is read in 28 instructions, and by `whole` in 65.
pub(crate) fn whole_at_once(bytes: &[u8]) -> u64
    requires { length bytes.now ≤ 8 }
    ensures { result ≡ unsigned_value bytes.now }
{
    if bytes.len() == 8 {
        whole(&bytes[..8])
    } else {
        whole(bytes)
    }
}
