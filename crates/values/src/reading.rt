// Values read at a place of a buffer: the tag says which case it is.
ghost use Rattle.std.specs.Prelude.{◌≡◌, ◌≤◌, length};
ghost use Rattle.types.specs.Tag.{tag_of, application_of};
ghost use Rattle.values.specs.Reading.{value_from, of_kind, paper_value};

use crate::bits::read_bits;
use crate::date::read_date;
use crate::enumerated::read_enumerated;
use crate::integer::{read_signed, read_unsigned};
use crate::object_id::read_object_id;
use crate::octets::read_octets;
use crate::real::read_real_or_double;
use crate::text::read_text;
use crate::time::read_time;
use crate::value::ApplicationDataValue;
use types::{ApplicationTagNumber, Refusal, Tag, TagNumber};

// The value at a place, and the place after it; under a tag of context class stands none.
#[tactic(auto, using(tags::proofs::Exactly::moves_on), unfolding(crate::specs::Reading::value_from, crate::specs::Reading::under_tag))]
pub fn decode(buf: &[u8], place: usize) -> Result<(ApplicationDataValue, usize), Refusal>
    ensures { paper_value result ≡ value_from buf.now place }
{
    let (tag, next) = tags::decode(buf, place)?;
    let TagNumber::Application(name) = tag.number else {
        return Err(Refusal::NotAValueTag(tag));
    };
    of_kind(name, tag, buf, next)
}

// The value under an application tag, by its name; Null, Double and the reserved ones are none.
#[tactic(auto, unfolding(crate::specs::Reading::of_kind, crate::specs::Boolean::boolean_under))]
fn of_kind(
    name: ApplicationTagNumber,
    tag: Tag,
    buf: &[u8],
    place: usize,
) -> Result<(ApplicationDataValue, usize), Refusal>
    requires { place ≤ length buf.now }
    ensures { paper_value result ≡ of_kind (application_of name) (tag_of tag) buf.now place }
{
    let len = tag.value;
    match name {
        // The tag's value tells a Boolean, which has no content, so that the place stays.
        ApplicationTagNumber::Boolean => Ok((ApplicationDataValue::Boolean(0 < len), place)),
        ApplicationTagNumber::UnsignedInt => read_unsigned(len, buf, place),
        ApplicationTagNumber::SignedInt => read_signed(len, buf, place),
        ApplicationTagNumber::Real => read_real_or_double(len, buf, place),
        ApplicationTagNumber::OctetString => read_octets(len, buf, place),
        ApplicationTagNumber::CharacterString => read_text(len, buf, place),
        ApplicationTagNumber::BitString => read_bits(len, buf, place),
        ApplicationTagNumber::Enumerated => read_enumerated(len, buf, place),
        ApplicationTagNumber::Date => read_date(len, buf, place),
        ApplicationTagNumber::Time => read_time(len, buf, place),
        ApplicationTagNumber::ObjectId => read_object_id(len, buf, place),
        ApplicationTagNumber::Null
        | ApplicationTagNumber::Double
        | ApplicationTagNumber::Reserve1
        | ApplicationTagNumber::Reserve2
        | ApplicationTagNumber::Reserve3 => Err(Refusal::NotAValueTag(tag)),
    }
}
