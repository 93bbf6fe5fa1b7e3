// Octet strings read, which are a part of the buffer.
ghost use Rattle.std.specs.Prelude.{◌≡◌};
ghost use Rattle.numbers.specs.Reading.{slice_from};
ghost use Rattle.values.specs.Reading.{paper_value};
ghost use Rattle.values.specs.Value.{octet_string, cased};

use crate::value::ApplicationDataValue;
use numbers::Slice;
use types::Refusal;

// Where an octet string of this length lies.
pub(crate) fn read_octets(
    len: u32,
    buf: &[u8],
    place: usize,
) -> Result<(ApplicationDataValue, usize), Refusal>
    ensures { paper_value result ≡ cased octet_string (slice_from len buf.now place) }
{
    let (Slice { start, len }, next) = tags::read_slice(len, buf, place)?;
    Ok((
        ApplicationDataValue::OctetString { place: start, len },
        next,
    ))
}
