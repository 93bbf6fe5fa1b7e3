// Values written at a place of a lent buffer.
ghost use Rattle.std.specs.Prelude.{◌≡◌, ◌∷◌, ◌≤◌, length};
ghost use Rattle.types.specs.Tag.{application, application_of, tag};
ghost use Rattle.types.specs.Writing.{paper_written, left};
ghost use Rattle.tags.specs.Item.{boolean_byte, item_to};
ghost use Rattle.tags.specs.Writing.{tag_to};
ghost use Rattle.values.specs.Value.{value_of};
ghost use Rattle.values.specs.Writing.{value_to};

use crate::value::ApplicationDataValue;
use types::{ApplicationTagNumber, Refusal, Tag, TagNumber};

// Writes a value; the content of text, octets and bits is the whole lent slice.
#[tactic(auto, using(crate::proofs::Fits::passed_can, crate::proofs::Fits::stopped_cannot), unfolding(crate::specs::Writing::value_to, types::specs::Writing::writing, types::specs::Writing::write_answer))]
pub fn encode(
    value: ApplicationDataValue,
    content: &[u8],
    buf: &mut [u8],
    place: usize,
) -> Result<usize, Refusal>
    ensures { left (paper_written result) buf.new ≡ value_to (value_of value) content.now buf.old place }
{
    if 65535 < buf.len() {
        return Err(Refusal::BufferTooLong(buf.len()));
    }
    if 65535 < content.len() {
        return Err(Refusal::BufferTooLong(content.len()));
    }
    if buf.len() < place {
        return Err(Refusal::PlacePastEnd(place));
    }
    value.writable(content)?;
    value.write(content, buf, place)
}

// Writes the lent bytes under the tag of this name. (Three functions ask that they are not too long: a type of such slices would be no plainer.)
#[tactic(auto, using(crate::proofs::Lent::lent_passed))]
pub(crate) fn write_under(
    name: ApplicationTagNumber,
    content: &[u8],
    buf: &mut [u8],
    place: usize,
) -> Result<usize, Refusal>
    requires { length content.now ≤ 65535 }
    ensures { left (paper_written result) buf.new ≡ item_to (application (application_of name)) content.now buf.old place }
{
    tags::encode_item(TagNumber::Application(name), 0, 0, content, buf, place)
}

// Writes the lent bytes behind a first one, under the tag of this name.
#[tactic(auto, using(crate::proofs::Lent::lent_passed))]
pub(crate) fn write_behind(
    first: u8,
    name: ApplicationTagNumber,
    content: &[u8],
    buf: &mut [u8],
    place: usize,
) -> Result<usize, Refusal>
    requires { length content.now ≤ 65535 }
    ensures { left (paper_written result) buf.new ≡ item_to (application (application_of name)) (first ∷ content.now) buf.old place }
{
    let number = TagNumber::Application(name);
    tags::encode_item(number, u64::from(first), 1, content, buf, place)
}

// Writes a Boolean, which is its tag alone.
#[tactic(auto, using(tags::proofs::Begun::begun_alone, crate::proofs::Booleans::same_number))]
pub(crate) fn write_boolean(value: bool, buf: &mut [u8], place: usize) -> Result<usize, Refusal>
    ensures { left (paper_written result) buf.new ≡ tag_to (tag (application 1) (boolean_byte value)) buf.old place }
{
    let number = TagNumber::Application(ApplicationTagNumber::Boolean);
    let value = u32::from(value);
    tags::begin(Tag { number, value }, 0, buf, place)
}
