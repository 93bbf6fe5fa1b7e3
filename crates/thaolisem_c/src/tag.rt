// Tags, read and written.
ghost use Rattle.std.specs.Prelude.{◌≡◌};
ghost use Rattle.tags.specs.Reading.{tag_from};
ghost use Rattle.thaolisem.specs.Told.{told_tag, told_write};
ghost use Rattle.thaolisem.specs.Named.{tag_named_to};

// Tells the tag at a place, by its class, number and value, and the place after it.
#[unsafe(no_mangle)]
pub extern "C" fn thaolisem_decode_tag(buf: &[u8], place: usize, answer: &mut [u64; 8])
    ensures { answer.new ≡ told_tag (tag_from buf.now place) }
{
    thaolisem::thaolisem_decode_tag(buf, place, answer);
}

// Writes the tag of a class, a number and a value.
#[unsafe(no_mangle)]
pub extern "C" fn thaolisem_encode_tag(
    class: u8,
    number: u8,
    value: u32,
    buf: &mut [u8],
    place: usize,
    answer: &mut [u64; 8],
)
    ensures answer_after { answer.new ≡ told_write (tag_named_to class number value buf.old place).answer }
    ensures buf_after { buf.new ≡ (tag_named_to class number value buf.old place).buffer }
{
    thaolisem::thaolisem_encode_tag(class, number, value, buf, place, answer);
}
