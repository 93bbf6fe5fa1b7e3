// Values, read and written.
ghost use Rattle.std.specs.Prelude.{◌≡◌};
ghost use Rattle.values.specs.Reading.{value_from};
ghost use Rattle.thaolisem.specs.Told.{told_value, told_write};
ghost use Rattle.thaolisem.specs.Value.{value_named_to};

// Tells the value at a place, by its case and its fields, and the place after it.
#[unsafe(no_mangle)]
pub extern "C" fn thaolisem_decode_value(buf: &[u8], place: usize, answer: &mut [u64; 8])
    ensures { answer.new ≡ told_value (value_from buf.now place) }
{
    thaolisem::thaolisem_decode_value(buf, place, answer);
}

// Writes the value of a case and its fields; the content of text, octets and bits is the whole lent slice.
#[unsafe(no_mangle)]
pub extern "C" fn thaolisem_encode_value(
    case: u8,
    a: u64,
    b: u64,
    c: u64,
    d: u64,
    content: &[u8],
    buf: &mut [u8],
    place: usize,
    answer: &mut [u64; 8],
)
    ensures answer_after { answer.new ≡ told_write (value_named_to case a b c d content.now buf.old place).answer }
    ensures buf_after { buf.new ≡ (value_named_to case a b c d content.now buf.old place).buffer }
{
    thaolisem::thaolisem_encode_value(case, a, b, c, d, content, buf, place, answer);
}
