// Integers by the length of their content, read, and written under their tags; a boolean under a context tag.
ghost use Rattle.std.specs.Prelude.{◌≡◌};
ghost use Rattle.numbers.specs.Reading.{unsigned_from, signed_from};
ghost use Rattle.numbers.specs.Integer.{unsigned_bytes, signed_bytes};
ghost use Rattle.thaolisem.specs.Told.{told_unsigned, told_signed, told_write};
ghost use Rattle.thaolisem.specs.Named.{integer_named_to, boolean_named_to};

// Tells the unsigned integer whose content, of that length, begins at a place.
#[unsafe(no_mangle)]
pub extern "C" fn thaolisem_decode_unsigned(
    len: u32,
    buf: &[u8],
    place: usize,
    answer: &mut [u64; 8],
)
    ensures { answer.new ≡ told_unsigned (unsigned_from len buf.now place) }
{
    thaolisem::thaolisem_decode_unsigned(len, buf, place, answer);
}

// Tells the signed integer whose content, of that length, begins at a place, by its 64 bits.
#[unsafe(no_mangle)]
pub extern "C" fn thaolisem_decode_signed(len: u32, buf: &[u8], place: usize, answer: &mut [u64; 8])
    ensures { answer.new ≡ told_signed (signed_from len buf.now place) }
{
    thaolisem::thaolisem_decode_signed(len, buf, place, answer);
}

// Writes an unsigned integer under application tag 2 (class 1) or a context tag (class 2).
#[unsafe(no_mangle)]
pub extern "C" fn thaolisem_encode_unsigned(
    class: u8,
    number: u8,
    value: u64,
    buf: &mut [u8],
    place: usize,
    answer: &mut [u64; 8],
)
    ensures answer_after { answer.new ≡ told_write (integer_named_to 2 class number (unsigned_bytes value) buf.old place).answer }
    ensures buf_after { buf.new ≡ (integer_named_to 2 class number (unsigned_bytes value) buf.old place).buffer }
{
    thaolisem::thaolisem_encode_unsigned(class, number, value, buf, place, answer);
}

// Writes a signed integer under application tag 3 (class 1) or a context tag (class 2).
#[unsafe(no_mangle)]
pub extern "C" fn thaolisem_encode_signed(
    class: u8,
    number: u8,
    value: i64,
    buf: &mut [u8],
    place: usize,
    answer: &mut [u64; 8],
)
    ensures answer_after { answer.new ≡ told_write (integer_named_to 3 class number (signed_bytes value) buf.old place).answer }
    ensures buf_after { buf.new ≡ (integer_named_to 3 class number (signed_bytes value) buf.old place).buffer }
{
    thaolisem::thaolisem_encode_signed(class, number, value, buf, place, answer);
}

// Writes an enumerated value under application tag 9 (class 1) or a context tag (class 2).
#[unsafe(no_mangle)]
pub extern "C" fn thaolisem_encode_enumerated(
    class: u8,
    number: u8,
    value: u64,
    buf: &mut [u8],
    place: usize,
    answer: &mut [u64; 8],
)
    ensures answer_after { answer.new ≡ told_write (integer_named_to 9 class number (unsigned_bytes value) buf.old place).answer }
    ensures buf_after { buf.new ≡ (integer_named_to 9 class number (unsigned_bytes value) buf.old place).buffer }
{
    thaolisem::thaolisem_encode_enumerated(class, number, value, buf, place, answer);
}

// Writes a boolean, 0 or 1, under a context tag.
#[unsafe(no_mangle)]
pub extern "C" fn thaolisem_encode_context_bool(
    number: u8,
    value: u8,
    buf: &mut [u8],
    place: usize,
    answer: &mut [u64; 8],
)
    ensures answer_after { answer.new ≡ told_write (boolean_named_to number value buf.old place).answer }
    ensures buf_after { buf.new ≡ (boolean_named_to number value buf.old place).buffer }
{
    thaolisem::thaolisem_encode_context_bool(number, value, buf, place, answer);
}
