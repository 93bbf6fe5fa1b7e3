// Integers by the length of their content, read, and written under their tags; a boolean under a context tag.
ghost use Rattle.std.specs.Prelude.{◌≡◌, ℕ, ℤ};
ghost use Rattle.numbers.specs.Reading.{unsigned_from, signed_from};
ghost use Rattle.numbers.specs.Integer.{unsigned_bytes, signed_bytes};
ghost use Rattle.thaolisem.specs.Told.{unsigned_told, told_unsigned, signed_told, told_signed, told_write};
ghost use Rattle.thaolisem.specs.Named.{NamesUnder, integer_named_to, paper_boolean_named, boolean_named, boolean_named_to};

use crate::answer::{Tell, nothing_named, told, written};

// Tells the unsigned integer whose content, of that length, begins at a place.
#[unsafe(no_mangle)]
pub extern "C" fn thaolisem_decode_unsigned(
    len: u32,
    buf: &[u8],
    place: usize,
    answer: &mut [u64; 8],
)
    ensures { answer.new ≡ told_unsigned (unsigned_from len buf.now place) }
{
    *answer = told(numbers::decode_unsigned(len, buf, place));
}

impl Tell for u64 {
    ghost Paper = { ℕ };

    ghost paper = { λ x. x };

    ghost telling = { unsigned_told };

    fn tell(self, next: usize) -> [u64; 8] {
        [0, next as u64, self, 0, 0, 0, 0, 0]
    }
}

// Tells the signed integer whose content, of that length, begins at a place, by its 64 bits.
#[unsafe(no_mangle)]
pub extern "C" fn thaolisem_decode_signed(len: u32, buf: &[u8], place: usize, answer: &mut [u64; 8])
    ensures { answer.new ≡ told_signed (signed_from len buf.now place) }
{
    *answer = told(numbers::decode_signed(len, buf, place));
}

impl Tell for i64 {
    ghost Paper = { ℤ };

    ghost paper = { λ x. x };

    ghost telling = { signed_told };

    fn tell(self, next: usize) -> [u64; 8] {
        [0, next as u64, numbers::pattern(self), 0, 0, 0, 0, 0]
    }
}

// The tag that a class and a number name for an integer: 1 the application tag of its kind, 2 a context tag of that number.
fn context_tag_named(class: u8, number: u8) -> Option<Option<u8>>
    ensures { NamesUnder result class number }
{
    match class {
        1 => Some(None),
        2 => Some(Some(number)),
        _ => None,
    }
}

// Writes an unsigned integer under application tag 2 (class 1) or a context tag (class 2).
#[unsafe(no_mangle)]
pub extern "C" fn thaolisem_encode_unsigned(
    class: u8,
    number: u8,
    value: u64,
    buf: &mut [u8],
    place: usize,
    answer: &mut [u64; 8],
)
    ensures answer_after { answer.new ≡ told_write (integer_named_to 2 class number (unsigned_bytes value) buf.old place).answer }
    ensures buf_after { buf.new ≡ (integer_named_to 2 class number (unsigned_bytes value) buf.old place).buffer }
{
    *answer = written(match context_tag_named(class, number) {
        Some(context_tag) => tags::encode_unsigned(context_tag, value, buf, place),
        None => Err(nothing_named(0, buf, place)),
    });
}

// Writes a signed integer under application tag 3 (class 1) or a context tag (class 2).
#[unsafe(no_mangle)]
pub extern "C" fn thaolisem_encode_signed(
    class: u8,
    number: u8,
    value: i64,
    buf: &mut [u8],
    place: usize,
    answer: &mut [u64; 8],
)
    ensures answer_after { answer.new ≡ told_write (integer_named_to 3 class number (signed_bytes value) buf.old place).answer }
    ensures buf_after { buf.new ≡ (integer_named_to 3 class number (signed_bytes value) buf.old place).buffer }
{
    *answer = written(match context_tag_named(class, number) {
        Some(context_tag) => tags::encode_signed(context_tag, value, buf, place),
        None => Err(nothing_named(0, buf, place)),
    });
}

// Writes an enumerated value under application tag 9 (class 1) or a context tag (class 2).
#[unsafe(no_mangle)]
pub extern "C" fn thaolisem_encode_enumerated(
    class: u8,
    number: u8,
    value: u64,
    buf: &mut [u8],
    place: usize,
    answer: &mut [u64; 8],
)
    ensures answer_after { answer.new ≡ told_write (integer_named_to 9 class number (unsigned_bytes value) buf.old place).answer }
    ensures buf_after { buf.new ≡ (integer_named_to 9 class number (unsigned_bytes value) buf.old place).buffer }
{
    *answer = written(match context_tag_named(class, number) {
        Some(context_tag) => tags::encode_enumerated(value, context_tag, buf, place),
        None => Err(nothing_named(0, buf, place)),
    });
}

// Writes a boolean, 0 or 1, under a context tag.
#[unsafe(no_mangle)]
pub extern "C" fn thaolisem_encode_context_bool(
    number: u8,
    value: u8,
    buf: &mut [u8],
    place: usize,
    answer: &mut [u64; 8],
)
    ensures answer_after { answer.new ≡ told_write (boolean_named_to number value buf.old place).answer }
    ensures buf_after { buf.new ≡ (boolean_named_to number value buf.old place).buffer }
{
    *answer = written(match boolean_named(value) {
        Some(boolean) => tags::encode_context_bool(number, boolean, buf, place),
        None => Err(nothing_named(0, buf, place)),
    });
}

// The boolean of 0 or 1.
fn boolean_named(value: u8) -> Option<bool>
    ensures { paper_boolean_named result ≡ boolean_named value }
{
    match value {
        0 => Some(false),
        1 => Some(true),
        _ => None,
    }
}
