// The twelve cases of an application value, and how each is written.
ghost use Rattle.std.specs.Prelude.{◌≡◌, ◌≤◌, length};
ghost use Rattle.types.specs.Answer.{paper_outcome};
ghost use Rattle.types.specs.Writing.{paper_written, can, left, writing};
ghost use Rattle.values.specs.Value.{value_of};
ghost use Rattle.values.specs.Writing.{writable_value, outcome_of, value_bytes};

use crate::bits::bits_writable;
use crate::date::Date;
use crate::object_id::ObjectId;
use crate::real::{double_bits, real_bits};
use crate::time::Time;
use crate::writing::{write_behind, write_boolean, write_under};
use types::{ApplicationTagNumber, Refusal};

// A value; of text, octets and bits it has the place and the length of the bytes.
#[derive(Clone, Copy)]
pub enum ApplicationDataValue {
    Boolean(bool),
    Real(f32),
    Double(f64),
    Date(Date),
    Time(Time),
    ObjectId(ObjectId),
    CharacterString {
        place: usize,
        len: u32,
    },
    OctetString {
        place: usize,
        len: u32,
    },
    Enumerated(u32),
    BitString {
        unused_bits: u8,
        place: usize,
        len: u32,
    },
    UnsignedInt(u64),
    SignedInt(i64),
}

impl ApplicationDataValue {
    // Whether a value can be written at all.
    #[tactic(auto, unfolding(crate::specs::Writing::writable_value, crate::specs::Text::text_writable))]
    pub(crate) fn writable(self, content: &[u8]) -> Result<(), Refusal>
        ensures { paper_outcome result ≡ outcome_of (writable_value (value_of self) content.now) }
    {
        match self {
            Self::Date(date) => date.writable(),
            Self::ObjectId(id) => id.writable(),
            Self::CharacterString { .. } => utf8::check(content),
            Self::BitString { unused_bits, .. } => bits_writable(unused_bits, content),
            _ => Ok(()),
        }
    }

    // Writes a value that can be written.
    #[tactic(auto, unfolding(crate::specs::Writing::writable_value, crate::specs::Date::date_writable, crate::specs::ObjectId::object_id_writable, crate::specs::Writing::value_bytes, tags::specs::Item::item_to, tags::specs::Item::item_lent_to, tags::specs::Writing::tag_to, tags::specs::Writing::tag_value_allowed))]
    pub(crate) fn write(
        self,
        content: &[u8],
        buf: &mut [u8],
        place: usize,
    ) -> Result<usize, Refusal>
        requires { (writable_value (value_of self) content.now ≡ can) × (length content.now ≤ 65535) }
        ensures { left (paper_written result) buf.new ≡ writing 0 can (value_bytes (value_of self) content.now) buf.old place }
    {
        match self {
            Self::Boolean(value) => write_boolean(value, buf, place),
            Self::UnsignedInt(value) => tags::encode_application_unsigned(value, buf, place),
            Self::SignedInt(value) => tags::encode_application_signed(value, buf, place),
            Self::Real(value) => {
                let bytes = real_bits(value).to_be_bytes();
                write_under(ApplicationTagNumber::Real, &bytes, buf, place)
            }
            // 01 keeps a double under the real's tag.
            Self::Double(value) => {
                let bytes = double_bits(value).to_be_bytes();
                write_under(ApplicationTagNumber::Real, &bytes, buf, place)
            }
            Self::OctetString { .. } => {
                write_under(ApplicationTagNumber::OctetString, content, buf, place)
            }
            // The set byte of UTF-8 is 0.
            Self::CharacterString { .. } => {
                let name = ApplicationTagNumber::CharacterString;
                write_behind(0, name, content, buf, place)
            }
            Self::BitString { unused_bits, .. } => {
                let name = ApplicationTagNumber::BitString;
                write_behind(unused_bits, name, content, buf, place)
            }
            Self::Enumerated(value) => tags::encode_application_enumerated(value, buf, place),
            Self::Date(date) => {
                write_under(ApplicationTagNumber::Date, &date.bytes(), buf, place)
            }
            Self::Time(time) => {
                write_under(ApplicationTagNumber::Time, &time.bytes(), buf, place)
            }
            Self::ObjectId(id) => {
                write_under(ApplicationTagNumber::ObjectId, &id.bytes(), buf, place)
            }
        }
    }
}
