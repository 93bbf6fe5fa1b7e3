// Integers written under their tags.
ghost use Rattle.std.specs.Prelude.{◌≡◌};
ghost use Rattle.types.specs.Tag.{context, application, application_of, number_of};
ghost use Rattle.types.specs.Writing.{paper_written, left};
ghost use Rattle.numbers.specs.Integer.{unsigned_bytes, signed_bytes};
ghost use Rattle.tags.specs.Item.{item_to, number_under};

use crate::item::encode_low_bytes;
use types::{ApplicationTagNumber, Refusal, TagNumber};

// Writes an unsigned integer under a context tag, or application tag 2 where none is given.
pub fn encode_unsigned(
    context_tag: Option<u8>,
    value: u64,
    buf: &mut [u8],
    place: usize,
) -> Result<usize, Refusal>
    ensures { left (paper_written result) buf.new ≡ item_to (number_under 2 context_tag) (unsigned_bytes value) buf.old place }
{
    let kind = ApplicationTagNumber::UnsignedInt;
    unsigned_under(kind, context_tag, value, buf, place)
}

// Writes a signed integer under a context tag, or application tag 3 where none is given. (C has an export for each of the two kinds of integer; what they share is `encode_low_bytes`.)
#[tactic(auto, using(numbers::proofs::Shortest::signed_by_pattern), unfolding(numbers::specs::Integer::signed_bytes))]
pub fn encode_signed(
    context_tag: Option<u8>,
    value: i64,
    buf: &mut [u8],
    place: usize,
) -> Result<usize, Refusal>
    ensures { left (paper_written result) buf.new ≡ item_to (number_under 3 context_tag) (signed_bytes value) buf.old place }
{
    let number = number_under(ApplicationTagNumber::SignedInt, context_tag);
    let count = numbers::signed_length(value) as u8;
    encode_low_bytes(number, numbers::pattern(value), count, buf, place)
}

// Writes an enumerated value under a context tag, or application tag 9 where none is given.
pub fn encode_enumerated(
    value: u64,
    context_tag: Option<u8>,
    buf: &mut [u8],
    place: usize,
) -> Result<usize, Refusal>
    ensures { left (paper_written result) buf.new ≡ item_to (number_under 9 context_tag) (unsigned_bytes value) buf.old place }
{
    let kind = ApplicationTagNumber::Enumerated;
    unsigned_under(kind, context_tag, value, buf, place)
}

// Writes an unsigned integer under application tag 2.
pub fn encode_application_unsigned(
    value: u64,
    buf: &mut [u8],
    place: usize,
) -> Result<usize, Refusal>
    ensures { left (paper_written result) buf.new ≡ item_to (application 2) (unsigned_bytes value) buf.old place }
{
    encode_unsigned(None, value, buf, place)
}

// Writes an unsigned integer under a context tag.
pub fn encode_context_unsigned(
    tag_number: u8,
    value: u64,
    buf: &mut [u8],
    place: usize,
) -> Result<usize, Refusal>
    ensures { left (paper_written result) buf.new ≡ item_to (context tag_number) (unsigned_bytes value) buf.old place }
{
    encode_unsigned(Some(tag_number), value, buf, place)
}

// Writes a signed integer under application tag 3.
pub fn encode_application_signed(value: i64, buf: &mut [u8], place: usize) -> Result<usize, Refusal>
    ensures { left (paper_written result) buf.new ≡ item_to (application 3) (signed_bytes value) buf.old place }
{
    encode_signed(None, value, buf, place)
}

// Writes an enumerated value under application tag 9.
pub fn encode_application_enumerated(
    value: u32,
    buf: &mut [u8],
    place: usize,
) -> Result<usize, Refusal>
    ensures { left (paper_written result) buf.new ≡ item_to (application 9) (unsigned_bytes value) buf.old place }
{
    encode_enumerated(u64::from(value), None, buf, place)
}

// Writes an enumerated value under a context tag.
pub fn encode_context_enumerated(
    tag_number: u8,
    value: u32,
    buf: &mut [u8],
    place: usize,
) -> Result<usize, Refusal>
    ensures { left (paper_written result) buf.new ≡ item_to (context tag_number) (unsigned_bytes value) buf.old place }
{
    encode_enumerated(u64::from(value), Some(tag_number), buf, place)
}

// Writes an unsigned integer under a context tag, or the application tag of its kind where none is given.
#[tactic(auto, unfolding(numbers::specs::Integer::unsigned_bytes))]
fn unsigned_under(
    kind: ApplicationTagNumber,
    context_tag: Option<u8>,
    value: u64,
    buf: &mut [u8],
    place: usize,
) -> Result<usize, Refusal>
    ensures { left (paper_written result) buf.new ≡ item_to (number_under (application_of kind) context_tag) (unsigned_bytes value) buf.old place }
{
    let number = number_under(kind, context_tag);
    let count = numbers::unsigned_length(value) as u8;
    encode_low_bytes(number, value, count, buf, place)
}

// The number of the tag that an integer is written under.
fn number_under(kind: ApplicationTagNumber, context_tag: Option<u8>) -> TagNumber
    ensures { number_of result ≡ number_under (application_of kind) context_tag }
{
    match context_tag {
        None => TagNumber::Application(kind),
        Some(n) => TagNumber::ContextSpecific(n),
    }
}
