// Integers read; tags writes them.
ghost use Rattle.std.specs.Prelude.{◌≡◌};
ghost use Rattle.numbers.specs.Reading.{unsigned_from, signed_from};
ghost use Rattle.values.specs.Reading.{paper_value};
ghost use Rattle.values.specs.Value.{unsigned_int, signed_int, cased};

use crate::value::ApplicationDataValue;
use types::Refusal;

// The unsigned integer whose content has this length.
pub(crate) fn read_unsigned(
    len: u32,
    buf: &[u8],
    place: usize,
) -> Result<(ApplicationDataValue, usize), Refusal>
    ensures { paper_value result ≡ cased unsigned_int (unsigned_from len buf.now place) }
{
    let (value, next) = tags::decode_unsigned(len, buf, place)?;
    Ok((ApplicationDataValue::UnsignedInt(value), next))
}

// The signed integer whose content has this length.
pub(crate) fn read_signed(
    len: u32,
    buf: &[u8],
    place: usize,
) -> Result<(ApplicationDataValue, usize), Refusal>
    ensures { paper_value result ≡ cased signed_int (signed_from len buf.now place) }
{
    let (value, next) = tags::decode_signed(len, buf, place)?;
    Ok((ApplicationDataValue::SignedInt(value), next))
}
