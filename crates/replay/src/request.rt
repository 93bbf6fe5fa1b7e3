// A request, as its line has it: the name of a function and its arguments, with one space between two words.
ghost use Rattle.std.specs.Prelude.{◌<◌, IfSome};

use std::str::{FromStr, Split};
use types::{ApplicationTagNumber, TagNumber};

// The name, and the words that are left. Each method takes words for an argument, and answers none where they are not of its kind.
#[derive(Drop)]
pub(crate) struct Request<'a> {
    pub name: &'a str,
    words: Split<'a, char>,
}

impl<'a> Request<'a> {
    // The request that a line may be.
    pub(crate) fn of(line: &'a str) -> Option<Self> {
        let mut words = line.split(' ');
        Some(Self {
            name: words.next()?,
            words,
        })
    }

    // Whether no word is left.
    pub(crate) fn is_over(&mut self) -> bool {
        self.words.next().is_none()
    }

    // A number of the parameter's type.
    pub(crate) fn number<T: FromStr>(&mut self) -> Option<T>
    where
        T::Err: Drop,
    {
        number(self.words.next()?)
    }

    // Eight numbers with commas between them, or a hash for as many zeros.
    pub(crate) fn eight(&mut self) -> Option<[u64; 8]> {
        let word = self.words.next()?;
        let mut eight = [0; 8];
        if word == "#" {
            return Some(eight);
        }
        let mut parts = word.split(',');
        for place in &mut eight {
            *place = number(parts.next()?)?;
        }
        parts.next().is_none().then_some(eight)
    }

    // A tag number: two words, its class and its number.
    pub(crate) fn tag_number(&mut self) -> Option<TagNumber> {
        let class: u8 = self.number()?;
        let number = self.number()?;
        match class {
            1 if number < 16 => Some(TagNumber::Application(ApplicationTagNumber::named(number))),
            2 => Some(TagNumber::ContextSpecific(number)),
            3 => Some(TagNumber::ContextSpecificOpening(number)),
            4 => Some(TagNumber::ContextSpecificClosing(number)),
            _ => None,
        }
    }

    // Bytes that are read, put into a room: hexadecimal in lower case, or a dash for none.
    pub(crate) fn bytes<'b>(&mut self, room: &'b mut [u8]) -> Option<&'b [u8]> {
        let bytes = bytes(self.words.next()?, room)?;
        Some(bytes)
    }

    // Bytes that are to be written: as those that are read, or an at sign and a number for so many of AA.
    pub(crate) fn lent<'b>(&mut self, room: &'b mut [u8]) -> Option<&'b mut [u8]> {
        lent(self.words.next()?, room)
    }

    // What stands last in a writer's line: the bytes that are to be written, and the place.
    pub(crate) fn lent_and_place<'b>(
        &mut self,
        room: &'b mut [u8],
    ) -> Option<(&'b mut [u8], usize)> {
        let place = number(self.words.next_back()?)?;
        let buf = lent(self.words.next_back()?, room)?;
        Some((buf, place))
    }
}

// The number of a word, which may begin with a minus, but not with a plus.
fn number<T: FromStr>(word: &str) -> Option<T>
where
    T::Err: Drop,
{
    if word.starts_with('+') {
        return None;
    }
    word.parse().ok()
}

// The bytes of a word, put into a room.
fn bytes<'b>(word: &str, room: &'b mut [u8]) -> Option<&'b mut [u8]> {
    if word == "-" {
        return room.get_mut(..0);
    }
    let (pairs, odd) = word.as_bytes().as_chunks::<2>();
    if pairs.is_empty() || !odd.is_empty() {
        return None;
    }
    let bytes = room.get_mut(..pairs.len())?;
    for (byte, [high, low]) in bytes.iter_mut().zip(pairs) {
        *byte = digit(*high)? * 16 + digit(*low)?;
    }
    Some(bytes)
}

// The bytes of a word that are to be written.
fn lent<'b>(word: &str, room: &'b mut [u8]) -> Option<&'b mut [u8]> {
    let Some(count) = word.strip_prefix('@') else {
        return bytes(word, room);
    };
    let lent = room.get_mut(..number(count)?)?;
    lent.fill(0xAA);
    Some(lent)
}

// The value of a hexadecimal digit, a letter in lower case.
fn digit(byte: u8) -> Option<u8>
    ensures { IfSome result (λ value. value < 16) }
{
    match byte {
        b'0'..=b'9' => Some(byte - b'0'),
        b'a'..=b'f' => Some(byte - b'a' + 10),
        _ => None,
    }
}
