// Tags read at a place of a buffer, and what is expected of them. A tag's bytes (ASHRAE 135, 20.2.1):
//
//      7   6   5   4   3   2   1   0
//    +---------------+---+-----------+   +---------+   +-------------------------+
//    | number        | c | low bits  |   | number  |   | value                   |
//    +---------------+---+-----------+   +---------+   +-------------------------+
//      the first byte                      where         where the low bits are 5
//                                          c is 1 and the field 15
//
//    c         class: 0 application, 1 context
//    low bits  0 to 4 the value; 5 the value follows; 6 open and 7 close a block, where c is 1; else they tell 0
//    value     0 to 253 in one byte; 254 and two bytes; 255 and four bytes, most significant first
ghost use Rattle.std.specs.Prelude.{◌≡◌, ◌≤◌, length};
ghost use Rattle.types.specs.Tag.{number_of, tag_of};
ghost use Rattle.types.specs.Answer.{paper_outcome, paper_read};
ghost use Rattle.tags.specs.Held.{FieldWide};
ghost use Rattle.tags.specs.Reading.{number_told, context_number, numbered, number_from, tag_value_from, tag_after, tag_from, expected_from, expected_number, expected_value, paper_number, paper_tag};

use types::{ApplicationTagNumber, Refusal, Tag, TagNumber};

// Reads the tag at a place, and the place after it.
#[tactic(auto, using(numbers::proofs::Found::byte_found), unfolding(crate::specs::Reading::tag_from))]
#[inline(always)]
pub fn decode(buf: &[u8], place: usize) -> Result<(Tag, usize), Refusal>
    ensures { paper_tag result ≡ tag_from buf.now place }
{
    let (first, next) = numbers::read_byte(buf, place)?;
    tag_after(first, buf, next)
}

// Reads the tag at a place, which is to have the class and number expected.
#[tactic(auto, unfolding(crate::specs::Reading::expected_from, crate::specs::Reading::expected_number))]
pub fn decode_expected(
    expected: TagNumber,
    buf: &[u8],
    place: usize,
) -> Result<(Tag, usize), Refusal>
    ensures { paper_tag result ≡ expected_from (number_of expected) buf.now place }
{
    let (tag, next) = decode(buf, place)?;
    expect_number(tag, expected)?;
    Ok((tag, next))
}

// Whether a tag has the value expected.
#[tactic(auto, unfolding(crate::specs::Reading::expected_value))]
pub fn expect_value(tag: Tag, value: u32) -> Result<(), Refusal>
    ensures { paper_outcome result ≡ expected_value value (tag_of tag) }
{
    if tag.value == value {
        Ok(())
    } else {
        Err(Refusal::OtherTagValue(tag))
    }
}

// Whether a tag has the class and number expected.
#[tactic(auto, unfolding(crate::specs::Reading::expected_number))]
#[inline(always)]
pub fn expect_number(tag: Tag, number: TagNumber) -> Result<(), Refusal>
    ensures { paper_outcome result ≡ expected_number (number_of number) (tag_of tag) }
{
    if tag.number == number {
        Ok(())
    } else {
        Err(Refusal::OtherTagNumber(tag))
    }
}

// Reads on the tag whose first byte, before this place, is known.
#[tactic(auto, using(crate::proofs::Exactly::number_ends), unfolding(crate::specs::Reading::tag_after))]
#[inline(always)]
fn tag_after(first: u8, buf: &[u8], place: usize) -> Result<(Tag, usize), Refusal>
    requires { (length buf.now ≤ 65535) × (place ≤ length buf.now) }
    ensures { paper_tag result ≡ tag_after first buf.now place }
{
    let (number, after) = number_after(first, buf, place)?;
    let (value, next) = value_after(first % 8, buf, after)?;
    Ok((Tag { number, value }, next))
}

// Reads on the class and number that a tag's first byte tells.
#[tactic(auto, using(crate::proofs::Exactly::field_wide), unfolding(crate::specs::Reading::number_from))]
#[inline(always)]
fn number_after(first: u8, buf: &[u8], place: usize) -> Result<(TagNumber, usize), Refusal>
    ensures { paper_number result ≡ number_from first buf.now place }
{
    let (number, next) = number_told(first, buf, place)?;
    Ok((numbered(first, number), next))
}

// Reads on the number that a tag's first byte tells: it is the byte at this place where the first is of context class and its field 15.
#[inline(always)]
fn number_told(first: u8, buf: &[u8], place: usize) -> Result<(u8, usize), Refusal>
    ensures { paper_read result ≡ number_told first buf.now place }
{
    if first < 248 {
        return Ok((first / 16, place));
    }
    numbers::read_byte(buf, place)
}

// The class and number of a tag whose first byte and number are known.
#[inline(always)]
fn numbered(first: u8, number: u8) -> TagNumber
    requires { FieldWide first number }
    ensures { number_of result ≡ numbered first number }
{
    if first / 8 % 2 == 0 {
        return TagNumber::Application(ApplicationTagNumber::named(number));
    }
    context_number(first % 8, number)
}

// The class and number of a tag in context class: low bits 6 open and 7 close a block.
#[inline(always)]
fn context_number(low: u8, number: u8) -> TagNumber
    ensures { number_of result ≡ context_number low number }
{
    match low {
        6 => TagNumber::ContextSpecificOpening(number),
        7 => TagNumber::ContextSpecificClosing(number),
        _ => TagNumber::ContextSpecific(number),
    }
}

// Reads on the value that a tag's low bits tell: it is in the bytes from this place on where it is long.
#[tactic(auto, unfolding(crate::specs::Reading::tag_value_from, numbers::specs::Reading::byte_from))]
#[inline(always)]
fn value_after(low: u8, buf: &[u8], place: usize) -> Result<(u32, usize), Refusal>
    requires { (length buf.now ≤ 65535) × (place ≤ length buf.now) }
    ensures { paper_read result ≡ tag_value_from low buf.now place }
{
    if low < 5 {
        return Ok((u32::from(low), place));
    }
    if low != 5 {
        return Ok((0, place));
    }
    let Some(&byte) = buf.get(place) else {
        return Err(Refusal::BytesRunOut(buf.len()));
    };
    let next = place + 1;
    match byte {
        0..=253 => Ok((u32::from(byte), next)),
        254 => numbers::read_two_bytes(buf, next),
        _ => numbers::read_four_bytes(buf, next),
    }
}
