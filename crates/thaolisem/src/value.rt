// Values, read and written.
ghost use Rattle.std.specs.Prelude.{◌≡◌};
ghost use Rattle.values.specs.Value as paper;
ghost use Rattle.values.specs.Value.{value_of};
ghost use Rattle.values.specs.Reading.{value_from};
ghost use Rattle.thaolisem.specs.Told.{told_value, value_told, told_write};
ghost use Rattle.thaolisem.specs.Value.{value_named_to};

use crate::answer::{Tell, nothing_named, told, written};
use crate::named::value_named;
use values::ApplicationDataValue;

// Tells the value at a place, by its case and its fields, and the place after it.
#[unsafe(no_mangle)]
pub extern "C" fn thaolisem_decode_value(buf: &[u8], place: usize, answer: &mut [u64; 8])
    ensures { answer.new ≡ told_value (value_from buf.now place) }
{
    *answer = told(values::decode(buf, place));
}

// A value is told by its case and its fields.
impl Tell for ApplicationDataValue {
    ghost Paper = { paper.Value };

    ghost paper = { value_of };

    ghost telling = { value_told };

    fn tell(self, next: usize) -> [u64; 8] {
        let (case, [a, b, c, d]) = match self {
            Self::Boolean(so) => (1, [u64::from(so), 0, 0, 0]),
            Self::Real(x) => (2, [u64::from(values::real_bits(x)), 0, 0, 0]),
            Self::Double(x) => (3, [values::double_bits(x), 0, 0, 0]),
            Self::Date(d) => (
                4,
                [
                    u64::from(d.year),
                    u64::from(d.month),
                    u64::from(d.day),
                    u64::from(d.wday),
                ],
            ),
            Self::Time(t) => (
                5,
                [
                    u64::from(t.hour),
                    u64::from(t.minute),
                    u64::from(t.second),
                    u64::from(t.hundredths),
                ],
            ),
            Self::ObjectId(id) => (6, [u64::from(id.object_type), u64::from(id.instance), 0, 0]),
            Self::CharacterString { place, len } => (7, [place as u64, u64::from(len), 0, 0]),
            Self::OctetString { place, len } => (8, [place as u64, u64::from(len), 0, 0]),
            Self::BitString {
                unused_bits,
                place,
                len,
            } => (9, [u64::from(unused_bits), place as u64, u64::from(len), 0]),
            Self::Enumerated(x) => (10, [u64::from(x), 0, 0, 0]),
            Self::UnsignedInt(x) => (11, [x, 0, 0, 0]),
            Self::SignedInt(x) => (12, [numbers::pattern(x), 0, 0, 0]),
        };
        [0, next as u64, case, a, b, c, d, 0]
    }
}

// Writes the value of a case and its fields; the content of text, octets and bits is the whole lent slice.
#[unsafe(no_mangle)]
pub extern "C" fn thaolisem_encode_value(
    case: u8,
    a: u64,
    b: u64,
    c: u64,
    d: u64,
    content: &[u8],
    buf: &mut [u8],
    place: usize,
    answer: &mut [u64; 8],
)
    ensures answer_after { answer.new ≡ told_write (value_named_to case a b c d content.now buf.old place).answer }
    ensures buf_after { buf.new ≡ (value_named_to case a b c d content.now buf.old place).buffer }
{
    *answer = written(match value_named(case, a, b, c, d) {
        Some(value) => values::encode(value, content, buf, place),
        None => Err(nothing_named(content.len(), buf, place)),
    });
}
