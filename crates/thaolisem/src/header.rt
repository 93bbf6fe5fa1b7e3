// The headers of confirmed services, read and written.
ghost use Rattle.std.specs.Prelude.{◌≡◌};
ghost use Rattle.headers.specs.Reading.{header_from};
ghost use Rattle.headers.specs.Header as paper;
ghost use Rattle.headers.specs.Header.{header_of};
ghost use Rattle.thaolisem.specs.Told.{told_header, header_told, told_write};
ghost use Rattle.thaolisem.specs.Header.{header_named_to};

use crate::answer::{Tell, nothing_named, told, written};
use crate::kind::header_named;
use headers::Header;

// Tells the header at a place, by its PDU type and its fields, and the place after it.
#[unsafe(no_mangle)]
pub extern "C" fn thaolisem_decode_header(buf: &[u8], place: usize, answer: &mut [u64; 8])
    ensures { answer.new ≡ told_header (header_from buf.now place) }
{
    *answer = told(headers::decode(buf, place));
}

// A header is told by its PDU type and its fields in their order.
impl Tell for Header {
    ghost Paper = { paper.Header };

    ghost paper = { header_of };

    ghost telling = { header_told };

    fn tell(self, next: usize) -> [u64; 8] {
        let description = self.described();
        let fields = description.fields;
        [
            0,
            next as u64,
            u64::from(description.kind.row().number),
            u64::from(fields[0]),
            u64::from(fields[1]),
            u64::from(fields[2]),
            u64::from(fields[3]),
            0,
        ]
    }
}

// Writes the header of a PDU type and its fields in their order; a field that the type has not is not read.
#[unsafe(no_mangle)]
pub extern "C" fn thaolisem_encode_header(
    kind: u8,
    a: u64,
    b: u64,
    c: u64,
    d: u64,
    buf: &mut [u8],
    place: usize,
    answer: &mut [u64; 8],
)
    ensures answer_after { answer.new ≡ told_write (header_named_to kind a b c d buf.old place).answer }
    ensures buf_after { buf.new ≡ (header_named_to kind a b c d buf.old place).buffer }
{
    *answer = written(match header_named(kind, a, b, c, d) {
        Some(header) => headers::encode(header, buf, place),
        None => Err(nothing_named(0, buf, place)),
    });
}
