// The headers of confirmed services, read and written.
ghost use Rattle.std.specs.Prelude.{◌≡◌};
ghost use Rattle.headers.specs.Reading.{header_from};
ghost use Rattle.thaolisem.specs.Told.{told_header, told_write};
ghost use Rattle.thaolisem.specs.Header.{header_named_to};

// Tells the header at a place, by its PDU type and its fields, and the place after it.
#[unsafe(no_mangle)]
pub extern "C" fn thaolisem_decode_header(buf: &[u8], place: usize, answer: &mut [u64; 8])
    ensures { answer.new ≡ told_header (header_from buf.now place) }
{
    thaolisem::thaolisem_decode_header(buf, place, answer);
}

// Writes the header of a PDU type and its fields in their order; a field that the type has not is not read.
#[unsafe(no_mangle)]
pub extern "C" fn thaolisem_encode_header(
    kind: u8,
    a: u64,
    b: u64,
    c: u64,
    d: u64,
    buf: &mut [u8],
    place: usize,
    answer: &mut [u64; 8],
)
    ensures answer_after { answer.new ≡ told_write (header_named_to kind a b c d buf.old place).answer }
    ensures buf_after { buf.new ≡ (header_named_to kind a b c d buf.old place).buffer }
{
    thaolisem::thaolisem_encode_header(kind, a, b, c, d, buf, place, answer);
}
