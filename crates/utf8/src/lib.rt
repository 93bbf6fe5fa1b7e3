// RFC 3629: whether bytes are UTF-8, or the first place where no well-formed sequence begins.
#![tactic(auto)]

ghost use Rattle.std.specs.Prelude.{◌≡◌};
ghost use Rattle.types.specs.Answer.{paper_outcome};
ghost use Rattle.utf8.specs.Check.{check_of};
ghost use Rattle.utf8.specs.Answer.{text_outcome};
ghost use Rattle.utf8.specs.Place.{verdict_of};

mod lead;
mod plain;

use lead::Follow;
use types::Refusal;

// Whether the text is UTF-8; where not, the refusal has the first place where no well-formed sequence begins (10).
#[inline(always)]
pub fn check(text: &[u8]) -> Result<(), Refusal>
    ensures { paper_outcome result ≡ text_outcome (check_of text.now) }
{
    match bad_place(text) {
        Some(place) => Err(Refusal::TextNotUtf8(place)),
        None => Ok(()),
    }
}

// The first place where no well-formed sequence begins; none where the text is UTF-8. (By itself, since a place is handed over in a register, and a refusal is not.)
fn bad_place(text: &[u8]) -> Option<usize>
    ensures { verdict_of result ≡ check_of text.now }
{
    // Over sequences, and inside over the bytes that follow, left by label at the first wrong one, as document 01 asks.
    let mut place = 0;
    'sequences: while place < text.len() {
        let first = text[place];
        if first.is_ascii() {
            place += plain::plain_length(&text[place..]);
            continue;
        }
        let Some(Follow { count, low, high }) = lead::lead_of(first) else {
            break;
        };
        if text.len() - place <= count {
            break;
        }
        let next = place + 1 + count;
        let mut lowest = low;
        let mut highest = high;
        for byte in &text[place + 1..next] {
            if *byte < lowest || highest < *byte {
                break 'sequences;
            }
            lowest = 0x80;
            highest = 0xBF;
        }
        place = next;
    }
    if place < text.len() {
        Some(place)
    } else {
        None
    }
}
