// Character strings read: the set byte, then the text, which is to be UTF-8.
ghost use Rattle.std.specs.Prelude.{◌≡◌};
ghost use Rattle.values.specs.Text.{text_under};
ghost use Rattle.values.specs.Reading.{paper_value};
ghost use Rattle.values.specs.Value.{character_string, cased};

use crate::value::ApplicationDataValue;
use numbers::Slice;
use types::Refusal;

// Where a character string's text lies.
#[tactic(auto, unfolding(crate::specs::Text::text_under, crate::specs::Text::text_in, numbers::specs::Reading::slice_from))]
pub(crate) fn read_text(
    len: u32,
    buf: &[u8],
    place: usize,
) -> Result<(ApplicationDataValue, usize), Refusal>
    ensures { paper_value result ≡ cased character_string (text_under len buf.now place) }
{
    if len < 1 {
        return Err(Refusal::LengthNotAllowed(len));
    }
    let (set, after) = tags::read_byte(buf, place)?;
    if set != 0 {
        return Err(Refusal::OtherCharacterSet(set));
    }
    let (Slice { start, len }, next) = tags::read_slice(len - 1, buf, after)?;
    utf8::check(&buf[start..next])?;
    Ok((
        ApplicationDataValue::CharacterString { place: start, len },
        next,
    ))
}
