// What is kept of a line that has not ended.
ghost use Rattle.std.specs.Prelude.{◌≡◌, length};
ghost use Rattle.types.specs.Writing.{over};
ghost use Rattle.lines.specs.Lines.{kept_of};

use crate::hexadecimal::MOST_DIGITS;

// The most bytes of a line that are kept: enough to tell that it has too many digits.
const MOST_KEPT: usize = MOST_DIGITS + 1;

// Moves the bytes from a place on to the buffer's start, but no more than tell that a line has too many digits, and answers how many it moved.
pub fn keep(buf: &mut [u8], place: usize) -> usize
    ensures value { result ≡ length (kept_of buf.old place) }
    ensures buf_after { buf.new ≡ over buf.old 0 (kept_of buf.old place) }
{
    if buf.len() < place {
        return 0;
    }
    let count = (buf.len() - place).min(MOST_KEPT);
    buf.copy_within(place..place + count, 0);
    count
}
