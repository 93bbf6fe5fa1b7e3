// Dates.
ghost use Rattle.std.specs.Prelude.{◌≡◌};
ghost use Rattle.types.specs.Answer.{paper_outcome};
ghost use Rattle.values.specs.Date.{date_of, date_under, date_bytes, date_writable, DateWrites};
ghost use Rattle.values.specs.Reading.{paper_value};
ghost use Rattle.values.specs.Value.{on_date, cased};
ghost use Rattle.values.specs.Writing.{outcome_of};

use crate::value::ApplicationDataValue;
use types::Refusal;

// A date: its year is a byte plus 1900, the other fields are bytes as they stand.
#[derive(Clone, Copy)]
pub struct Date {
    pub year: u16,
    pub month: u8,
    pub day: u8,
    pub wday: u8,
}

// The date of four bytes; another length is refused.
#[tactic(auto, using(crate::proofs::Dates::date_by_number), unfolding(crate::specs::Date::date_under))]
pub(crate) fn read_date(
    len: u32,
    buf: &[u8],
    place: usize,
) -> Result<(ApplicationDataValue, usize), Refusal>
    ensures { paper_value result ≡ cased on_date (date_under len buf.now place) }
{
    if len != 4 {
        return Err(Refusal::LengthNotAllowed(len));
    }
    let (bytes, next) = tags::read_four_bytes(buf, place)?;
    let [year, month, day, wday] = bytes.to_be_bytes();
    let date = Date {
        year: u16::from(year) + 1900,
        month,
        day,
        wday,
    };
    Ok((ApplicationDataValue::Date(date), next))
}

impl Date {
    // Whether a date can be written: its year is one that a byte tells.
    #[tactic(auto, unfolding(crate::specs::Date::date_writable))]
    pub(crate) fn writable(self) -> Result<(), Refusal>
        ensures { paper_outcome result ≡ outcome_of (date_writable (date_of self)) }
    {
        if self.year < 1900 || 2155 < self.year {
            return Err(Refusal::CannotBeWritten);
        }
        Ok(())
    }

    // The four bytes of a date that can be written.
    pub(crate) fn bytes(self) -> [u8; 4]
        requires { DateWrites (date_of self) }
        ensures { result ≡ date_bytes (date_of self) }
    {
        [(self.year - 1900) as u8, self.month, self.day, self.wday]
    }
}
