// The values that a case and its fields name.
ghost use Rattle.std.specs.Prelude.{◌≡◌};
ghost use Rattle.thaolisem.specs.Value.{paper_named, date_named, time_named, object_id_named, content_named, value_named};

use values::{ApplicationDataValue, Date, ObjectId, Time};

// The value that a case and its fields name; a field that the case has not is not read.
pub(crate) fn value_named(case: u8, a: u64, b: u64, c: u64, d: u64) -> Option<ApplicationDataValue>
    ensures { paper_named result ≡ value_named case a b c d }
{
    match case {
        1 if 1 < a => None,
        1 => Some(ApplicationDataValue::Boolean(a == 1)),
        2 => {
            let bits = u32::try_from(a).ok()?;
            Some(ApplicationDataValue::Real(values::real_of(bits)))
        }
        3 => Some(ApplicationDataValue::Double(values::double_of(a))),
        4 => date_named(a, b, c, d),
        5 => time_named(a, b, c, d),
        6 => id_named(a, b),
        _ => content_named(case, a),
    }
}

// The text, octets, bits or number that a case and its field name.
fn content_named(case: u8, a: u64) -> Option<ApplicationDataValue>
    ensures { paper_named result ≡ content_named case a }
{
    match case {
        7 => Some(ApplicationDataValue::CharacterString { place: 0, len: 0 }),
        8 => Some(ApplicationDataValue::OctetString { place: 0, len: 0 }),
        9 => Some(ApplicationDataValue::BitString {
            unused_bits: u8::try_from(a).ok()?,
            place: 0,
            len: 0,
        }),
        10 => Some(ApplicationDataValue::Enumerated(u32::try_from(a).ok()?)),
        11 => Some(ApplicationDataValue::UnsignedInt(a)),
        12 => Some(ApplicationDataValue::SignedInt(a.cast_signed())),
        _ => None,
    }
}

// The date of a year, a month, a day and a weekday.
fn date_named(year: u64, month: u64, day: u64, weekday: u64) -> Option<ApplicationDataValue>
    ensures { paper_named result ≡ date_named year month day weekday }
{
    Some(ApplicationDataValue::Date(Date {
        year: u16::try_from(year).ok()?,
        month: u8::try_from(month).ok()?,
        day: u8::try_from(day).ok()?,
        wday: u8::try_from(weekday).ok()?,
    }))
}

// The time of an hour, a minute, a second and hundredths.
fn time_named(hour: u64, minute: u64, second: u64, hundredths: u64) -> Option<ApplicationDataValue>
    ensures { paper_named result ≡ time_named hour minute second hundredths }
{
    Some(ApplicationDataValue::Time(Time {
        hour: u8::try_from(hour).ok()?,
        minute: u8::try_from(minute).ok()?,
        second: u8::try_from(second).ok()?,
        hundredths: u8::try_from(hundredths).ok()?,
    }))
}

// The object identifier of a type and an instance.
fn id_named(kind: u64, instance: u64) -> Option<ApplicationDataValue>
    ensures { paper_named result ≡ object_id_named kind instance }
{
    Some(ApplicationDataValue::ObjectId(ObjectId {
        object_type: u16::try_from(kind).ok()?,
        instance: u32::try_from(instance).ok()?,
    }))
}
