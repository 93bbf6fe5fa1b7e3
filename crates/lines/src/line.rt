// The line at a place of what was read.
ghost use Rattle.std.specs.Prelude.{◌≡◌, ◌+◌, ◌≤◌, ◌==◌, length, drop, position};
ghost use Rattle.lines.specs.Lines.{until_newline, end_from, paper_end, line_from, paper_line, bytes_after};

use crate::hexadecimal::{MOST_BYTES, decode};
use types::Refusal;

// A line that ends.
#[derive(Clone, Copy)]
pub struct Line {
    // How many bytes its digits stand for; none where it is no frame's, for another character, an odd number of digits or too many.
    pub bytes: Option<usize>,
    // Where the next line begins.
    pub next: usize,
}

// Where a line ends, and where the next begins.
#[derive(Clone, Copy)]
struct LineEnd {
    end: usize,
    next: usize,
}

// The line that begins at a place, if it ends: by a newline, or because the input has ended; the bytes of its digits are put at the start of the frame.
pub fn line_at(
    buf: &[u8],
    place: usize,
    ended: bool,
    frame: &mut [u8; MOST_BYTES],
) -> Result<Option<Line>, Refusal>
    ensures result_value { paper_line result ≡ line_from ended buf.now place }
    ensures frame_after { frame.new ≡ bytes_after (paper_line result) (until_newline (drop place buf.now)) frame.old }
{
    if buf.len() < place {
        return Err(Refusal::PlacePastEnd(place));
    }
    let bytes = decode(&buf[place..], frame);
    let digits = place + 2 * bytes;
    let Some(LineEnd { end, next }) = line_end(buf, place, ended, digits) else {
        return Ok(None);
    };
    Ok(Some(Line {
        bytes: if end == digits { Some(bytes) } else { None },
        next,
    }))
}

// Where the line that begins at a place ends, of which no byte up to the end of its digits is a newline.
fn line_end(buf: &[u8], place: usize, ended: bool, digits: usize) -> Option<LineEnd>
    requires place_le_digits { (place ≤ digits) × (digits ≤ length buf.now) }
    requires buf_value { place + length (until_newline (drop place buf.now)) ≡ digits + length (until_newline (drop digits buf.now)) }
    ensures { paper_end result ≡ end_from ended buf.now place }
{
    let last = buf.len();
    match newline(&buf[digits..]) {
        Some(behind) => Some(LineEnd {
            end: digits + behind,
            next: digits + behind + 1,
        }),
        None if ended && place < last => Some(LineEnd {
            end: last,
            next: last,
        }),
        None => None,
    }
}

// The place of the first newline.
fn newline(bytes: &[u8]) -> Option<usize>
    ensures { result ≡ position (λ b. b == 10) bytes.now }
{
    bytes.iter().position(|byte| *byte == b'\n')
}
