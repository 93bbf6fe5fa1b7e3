// Tags, read and written.
ghost use Rattle.std.specs.Prelude.{◌≡◌};
ghost use Rattle.types.specs.Tag as paper;
ghost use Rattle.types.specs.Tag.{tag_of};
ghost use Rattle.tags.specs.Reading.{tag_from};
ghost use Rattle.thaolisem.specs.Told.{tag_told, told_tag, told_write};
ghost use Rattle.thaolisem.specs.Named.{paper_number_named, application_named, number_named, tag_named_to};

use crate::answer::{Tell, nothing_named, told, written};
use types::{ApplicationTagNumber, Tag, TagNumber};

// Tells the tag at a place, by its class, number and value, and the place after it.
#[unsafe(no_mangle)]
pub extern "C" fn thaolisem_decode_tag(buf: &[u8], place: usize, answer: &mut [u64; 8])
    ensures { answer.new ≡ told_tag (tag_from buf.now place) }
{
    *answer = told(tags::decode(buf, place));
}

impl Tell for Tag {
    ghost Paper = { paper.Tag };

    ghost paper = { tag_of };

    ghost telling = { tag_told };

    fn tell(self, next: usize) -> [u64; 8] {
        [
            0,
            next as u64,
            u64::from(self.number.class()),
            u64::from(self.number.number()),
            u64::from(self.value),
            0,
            0,
            0,
        ]
    }
}

// Writes the tag of a class, a number and a value.
#[unsafe(no_mangle)]
pub extern "C" fn thaolisem_encode_tag(
    class: u8,
    number: u8,
    value: u32,
    buf: &mut [u8],
    place: usize,
    answer: &mut [u64; 8],
)
    ensures answer_after { answer.new ≡ told_write (tag_named_to class number value buf.old place).answer }
    ensures buf_after { buf.new ≡ (tag_named_to class number value buf.old place).buffer }
{
    *answer = written(match number_named(class, number) {
        Some(number) => tags::encode(Tag { number, value }, buf, place),
        None => Err(nothing_named(0, buf, place)),
    });
}

// The tag number of a class, 1 application, 2 context, 3 opening or 4 closing, and a number.
fn number_named(class: u8, number: u8) -> Option<TagNumber>
    ensures { paper_number_named result ≡ number_named class number }
{
    match class {
        1 => application_named(number),
        2 => Some(TagNumber::ContextSpecific(number)),
        3 => Some(TagNumber::ContextSpecificOpening(number)),
        4 => Some(TagNumber::ContextSpecificClosing(number)),
        _ => None,
    }
}

// The application tag number of a number up to 15.
fn application_named(number: u8) -> Option<TagNumber>
    ensures { paper_number_named result ≡ application_named number }
{
    if 15 < number {
        return None;
    }
    Some(TagNumber::Application(ApplicationTagNumber::named(number)))
}
