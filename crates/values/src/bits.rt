// Bit strings: the count of unused bits, then the bytes.
ghost use Rattle.std.specs.Prelude.{◌≡◌};
ghost use Rattle.types.specs.Answer.{paper_outcome};
ghost use Rattle.values.specs.Bits.{bits_under, bits_writable};
ghost use Rattle.values.specs.Reading.{bits_case, paper_value};
ghost use Rattle.values.specs.Value.{cased};
ghost use Rattle.values.specs.Writing.{outcome_of};

use crate::value::ApplicationDataValue;
use numbers::Slice;
use types::Refusal;

// A bit string's unused count, and where its bytes lie.
#[tactic(auto, unfolding(crate::specs::Bits::bits_under))]
pub(crate) fn read_bits(
    len: u32,
    buf: &[u8],
    place: usize,
) -> Result<(ApplicationDataValue, usize), Refusal>
    ensures { paper_value result ≡ cased bits_case (bits_under len buf.now place) }
{
    if len < 1 {
        return Err(Refusal::LengthNotAllowed(len));
    }
    let (unused_bits, after) = tags::read_byte(buf, place)?;
    let (Slice { start, len }, next) = tags::read_slice(len - 1, buf, after)?;
    let value = ApplicationDataValue::BitString {
        unused_bits,
        place: start,
        len,
    };
    Ok((value, next))
}

// Whether so many bits of the lent bytes can be unused.
#[tactic(auto, unfolding(crate::specs::Bits::bits_writable))]
pub(crate) fn bits_writable(unused: u8, content: &[u8]) -> Result<(), Refusal>
    ensures { paper_outcome result ≡ outcome_of (bits_writable unused content.now) }
{
    if 7 < unused || (0 < unused && content.is_empty()) {
        return Err(Refusal::CannotBeWritten);
    }
    Ok(())
}
