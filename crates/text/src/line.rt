// A line of text: numbers, a word and numbers.
ghost use Rattle.std.specs.Prelude.{◌≡◌, [], ◌∷◌, ◌++◌, ◌+◌, ◌*◌, ◌≤◌, length};
ghost use Rattle.text.specs.Text.{Wrote, decimals, spaced, number_room, line_room, words_in};

use crate::number::{NUMBER_ROOM, put_number};

// The most numbers before a line's word, and behind it.
const MOST_NUMBERS: usize = 4;

// The most letters of a line's word.
const MOST_LETTERS: usize = 15;

// The room that is asked for before a line is put; no line is longer.
const LINE_ROOM: usize = 2 * MOST_NUMBERS * NUMBER_ROOM + MOST_LETTERS + 1;

// Puts a line of numbers, a word and numbers, and answers the place after it; puts nothing where there is no room for every such line, or too much is to be put.
pub fn put_words(before: &[u64], word: &[u8], after: &[u64], out: &mut [u8], place: usize) -> usize
    ensures wrote { Wrote out.old place (words_in (length out.old) place before.now word.now after.now) out.new result }
    ensures upper_bound { result ≤ place + line_room }
{
    if MOST_NUMBERS < before.len() || MOST_LETTERS < word.len() || MOST_NUMBERS < after.len() {
        return place;
    }
    if out.len() < place || out.len() - place < LINE_ROOM {
        return place;
    }
    let mut next = put_numbers(before, out, place);
    next = put_word(word, out, next);
    next = put_numbers(after, out, next);
    out[next - 1] = b'\n';
    next
}

// Puts numbers, each with a space behind it.
fn put_numbers(numbers: &[u64], out: &mut [u8], place: usize) -> usize
    requires { place + number_room * length numbers.now ≤ length out.old }
    ensures wrote { Wrote out.old place (spaced (decimals numbers.now)) out.new result }
    ensures upper_bound { result ≤ place + number_room * length numbers.now }
{
    let mut next = place;
    for number in numbers {
        next = put_number(*number, out, next);
    }
    next
}

// Puts a word and a space behind it.
fn put_word(word: &[u8], out: &mut [u8], place: usize) -> usize
    requires { place + length word.now + 1 ≤ length out.old }
    ensures wrote { Wrote out.old place (word.now ++ (32 ∷ [])) out.new result }
    ensures value { result ≡ place + length word.now + 1 }
{
    let end = place + word.len();
    out[place..end].copy_from_slice(word);
    out[end] = b' ';
    end + 1
}
