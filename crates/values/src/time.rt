// Times of day.
ghost use Rattle.std.specs.Prelude.{◌≡◌, ◌≤◌, length};
ghost use Rattle.values.specs.Time.{time_of, time_under, time_bytes};
ghost use Rattle.values.specs.Reading.{paper_value};
ghost use Rattle.values.specs.Value.{at_time, cased};

use crate::value::ApplicationDataValue;
use types::Refusal;

// A time of day.
#[derive(Clone, Copy)]
pub struct Time {
    pub hour: u8,
    pub minute: u8,
    pub second: u8,
    pub hundredths: u8,
}

// The time of four bytes, each a single one: where one is missing, the buffer's end is carried.
#[tactic(auto, unfolding(crate::specs::Time::time_under))]
pub(crate) fn read_time(
    len: u32,
    buf: &[u8],
    place: usize,
) -> Result<(ApplicationDataValue, usize), Refusal>
    requires { place ≤ length buf.now }
    ensures { paper_value result ≡ cased at_time (time_under len buf.now place) }
{
    if len != 4 {
        return Err(Refusal::LengthNotAllowed(len));
    }
    let &[hour, minute, second, hundredths, ..] = &buf[place..] else {
        return Err(Refusal::BytesRunOut(buf.len()));
    };
    let time = Time {
        hour,
        minute,
        second,
        hundredths,
    };
    Ok((ApplicationDataValue::Time(time), place + 4))
}

impl Time {
    // The four bytes of a time.
    pub(crate) fn bytes(self) -> [u8; 4]
        ensures { result ≡ time_bytes (time_of self) }
    {
        [self.hour, self.minute, self.second, self.hundredths]
    }
}
