// Enumerated values read: under a length that is known, and under their own tag; tags writes them.
ghost use Rattle.std.specs.Prelude.{◌≡◌};
ghost use Rattle.values.specs.Integer.{enumerated_under};
ghost use Rattle.values.specs.Enumerated.{enumerated_from, paper_enumerated};
ghost use Rattle.values.specs.Reading.{paper_value};
ghost use Rattle.values.specs.Value.{enumerated, cased};

use crate::value::ApplicationDataValue;
use types::{ApplicationTagNumber, Refusal, TagNumber};

// The enumerated value at a place, under application tag 9 and no other, and the place after it. (By `decode_expected` it is a line shorter, and that is then no longer compiled into its other caller: docs/DECISIONS.md.)
#[tactic(auto, unfolding(crate::specs::Enumerated::enumerated_from, tags::specs::Reading::expected_from, tags::specs::Reading::expected_number))]
pub fn decode_application_enumerated(buf: &[u8], place: usize) -> Result<(u32, usize), Refusal>
    ensures { paper_enumerated result ≡ enumerated_from buf.now place }
{
    let own = TagNumber::Application(ApplicationTagNumber::Enumerated);
    let (tag, next) = tags::decode(buf, place)?;
    tags::expect_number(tag, own)?;
    enumerated_of(tag.value, buf, next)
}

// The enumerated value whose content has this length, if it has 32 bits.
#[tactic(auto, unfolding(crate::specs::Integer::enumerated_under))]
fn enumerated_of(len: u32, buf: &[u8], place: usize) -> Result<(u32, usize), Refusal>
    ensures { paper_enumerated result ≡ enumerated_under len buf.now place }
{
    let (value, next) = tags::decode_unsigned(len, buf, place)?;
    match u32::try_from(value) {
        Ok(value) => Ok((value, next)),
        Err(_) => Err(Refusal::EnumeratedTooLarge),
    }
}

// The same as a value.
pub(crate) fn read_enumerated(
    len: u32,
    buf: &[u8],
    place: usize,
) -> Result<(ApplicationDataValue, usize), Refusal>
    ensures { paper_value result ≡ cased enumerated (enumerated_under len buf.now place) }
{
    let (value, next) = enumerated_of(len, buf, place)?;
    Ok((ApplicationDataValue::Enumerated(value), next))
}
