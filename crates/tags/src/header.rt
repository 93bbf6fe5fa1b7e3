// A tag's bytes, built apart: at most seven, held with their number.
ghost use Rattle.std.specs.Prelude.{◌≡◌, List, ℕ, [], ◌∷◌, ◌++◌, ◌<◌, ◌≤◌, length, take};
ghost use Rattle.types.specs.Tag.{tag_of};
ghost use Rattle.tags.specs.Writing.{low_bits_for, context_bytes, tag_value_bytes, tag_bytes};

use std::marker::Model;
use types::{Tag, TagNumber};

// The bytes, of which the first `len` count. (Document 01 asks for an array with a length: "built apart, at most seven bytes held with their number".)
#[derive(Drop)]
pub(crate) struct Header {
    bytes: [u8; 7],
    len: usize,
}

impl Model for Header {
    ghost Value = { List ℕ };

    ghost view = { λ h. take h.len h.bytes };

    ghost invariant = { λ h. h.len ≤ 7 };
}

// Its methods are compiled into `built`: a call hands the bytes on through memory, and a tag of more than one byte took two to three times as long to write.
impl Header {
    // A header of one byte.
    #[inline(always)]
    fn one_byte(byte: u8) -> Self
        ensures { result ≡ byte ∷ [] }
    {
        Header {
            bytes: [byte, 0, 0, 0, 0, 0, 0],
            len: 1,
        }
    }

    // The header with one byte more.
    #[inline(always)]
    fn push(mut self, byte: u8) -> Self
        requires { length self < 7 }
        ensures { result ≡ self ++ byte ∷ [] }
    {
        self.bytes[self.len] = byte;
        self.len += 1;
        self
    }

    // The header of a context number, in the field or in a second byte, with the low bits.
    #[inline(always)]
    fn context(number: u8, low: u8) -> Self
        requires { low < 8 }
        ensures { result ≡ context_bytes number low }
    {
        if number < 15 {
            Header::one_byte(number * 16 + 8 + low)
        } else {
            Header::one_byte(248 + low).push(number)
        }
    }

    // The header with the bytes that follow for a value.
    #[inline(always)]
    fn with_value(self, value: u32) -> Self
        requires { length self < 3 }
        ensures { result ≡ self ++ tag_value_bytes value }
    {
        if value < 5 {
            return self;
        }
        if value < 254 {
            return self.push(value as u8);
        }
        let [fourth, third, second, low] = value.to_be_bytes();
        if value < 65536 {
            return self.push(254).push(second).push(low);
        }
        self.push(255)
            .push(fourth)
            .push(third)
            .push(second)
            .push(low)
    }

    // Its bytes.
    pub(crate) fn as_slice(&self) -> &[u8]
        ensures { result.now ≡ self.now }
    {
        &self.bytes[..self.len]
    }
}

// Builds the bytes of a tag.
#[tactic(auto, unfolding(crate::specs::Writing::tag_bytes))]
pub(crate) fn built(tag: Tag) -> Header
    ensures { result ≡ tag_bytes (tag_of tag) }
{
    let low = low(tag.value);
    match tag.number {
        TagNumber::Application(name) => {
            Header::one_byte(name.number() * 16 + low).with_value(tag.value)
        }
        TagNumber::ContextSpecific(n) => Header::context(n, low).with_value(tag.value),
        TagNumber::ContextSpecificOpening(n) => Header::context(n, 6),
        TagNumber::ContextSpecificClosing(n) => Header::context(n, 7),
    }
}

// The low bits that tell a value.
fn low(value: u32) -> u8
    ensures value { result ≡ low_bits_for value }
    ensures upper_bound { result < 6 }
{
    if value < 5 { value as u8 } else { 5 }
}
