// Integers by the length of their content: read, and how long their content is at the least.
ghost use Rattle.std.specs.Prelude.{◌≡◌, ◌^◌, ◌<◌};
ghost use Rattle.types.specs.Answer.{paper_read};
ghost use Rattle.numbers.specs.Integer.{twos_complement, unsigned_length, signed_length};
ghost use Rattle.numbers.specs.Reading.{bytes_or, content_from, unsigned_from, signed_from, paper_part, handed_over};

use crate::reading::{View, part, whole_at_once};
use types::Refusal;

// Hands over the content of an integer, which has 1 to 8 bytes.
#[tactic(auto, unfolding(crate::specs::Reading::content_from, crate::specs::Reading::part_of))]
fn content<'a>(len: u32, buf: &'a [u8], place: usize) -> Result<(View<'a>, usize), Refusal>
    ensures lies { paper_part result ≡ content_from len buf.now place }
    ensures bytes { handed_over result ≡ bytes_or buf.now (content_from len buf.now place) }
{
    if 65535 < buf.len() {
        return Err(Refusal::BufferTooLong(buf.len()));
    }
    if buf.len() < place {
        return Err(Refusal::PlacePastEnd(place));
    }
    if !(1..=8).contains(&len) {
        return Err(Refusal::LengthNotAllowed(len));
    }
    part(len, buf, place)
}

// Reads the unsigned integer whose content, of this length, is at a place.
#[tactic(auto, using(crate::proofs::Parts::content_given), unfolding(crate::specs::Reading::unsigned_from))]
pub fn decode_unsigned(len: u32, buf: &[u8], place: usize) -> Result<(u64, usize), Refusal>
    ensures { paper_read result ≡ unsigned_from len buf.now place }
{
    let (view, next) = content(len, buf, place)?;
    Ok((whole_at_once(view.bytes), next))
}

// Reads the signed integer whose content, of this length, is at a place.
#[tactic(auto, using(crate::proofs::Parts::signed_by_unsigned, crate::proofs::Parts::unsigned_room))]
pub fn decode_signed(len: u32, buf: &[u8], place: usize) -> Result<(i64, usize), Refusal>
    ensures { paper_read result ≡ signed_from len buf.now place }
{
    let (unsigned, next) = decode_unsigned(len, buf, place)?;
    Ok((signed(unsigned, len), next))
}

// The signed integer that so many bytes hold in two's complement, from the unsigned one that they hold.
#[tactic(auto, using(crate::proofs::Extended::extended))]
fn signed(unsigned: u64, count: u32) -> i64
    requires { (0 < count) × (count < 9) × (unsigned < 256 ^ count) }
    ensures { result ≡ twos_complement count unsigned }
{
    let unused = 64 - 8 * count;
    (unsigned << unused).cast_signed() >> unused
}

// The least number of bytes that holds an unsigned integer, by the upper end of what each length holds (ASHRAE 135, 20.2.4).
pub fn unsigned_length(value: u64) -> usize
    ensures value { result ≡ unsigned_length value }
    ensures result_nonzero { (0 < result) × (result < 9) }
{
    match value {
        0..=255 => 1,
        256..=65535 => 2,
        65536..=16777215 => 3,
        16777216..=4294967295 => 4,
        4294967296..=1099511627775 => 5,
        1099511627776..=281474976710655 => 6,
        281474976710656..=72057594037927935 => 7,
        _ => 8,
    }
}

// The least number of bytes that holds a signed integer in two's complement, by both ends of what each length holds (ASHRAE 135, 20.2.5).
// The shortest is tested first (K5): a `match` on ranges, each of which holds the one before, is tested in another order, and of a range's `contains` the check learns too little where it is false.
pub fn signed_length(value: i64) -> usize
    ensures value { result ≡ signed_length value }
    ensures result_nonzero { (0 < result) × (result < 9) }
{
    if -128 <= value && value <= 127 {
        1
    } else if -32768 <= value && value <= 32767 {
        2
    } else if -8388608 <= value && value <= 8388607 {
        3
    } else if -2147483648 <= value && value <= 2147483647 {
        4
    } else if -549755813888 <= value && value <= 549755813887 {
        5
    } else if -140737488355328 <= value && value <= 140737488355327 {
        6
    } else if -36028797018963968 <= value && value <= 36028797018963967 {
        7
    } else {
        8
    }
}
