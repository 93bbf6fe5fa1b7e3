// The text of a line of the input.
ghost use Rattle.std.specs.Prelude.{◌≡◌, drop};
ghost use Rattle.lines.specs.Lines.{until_newline};
ghost use Rattle.dump.specs.Put.{put_from, paper_put, line_left, frame_after};

use crate::frame_text::FrameText;
use lines::MOST_BYTES;
use types::Refusal;

// The room that is asked for before a text is put; no text is longer.
pub const TEXT_ROOM: usize = 86016;

// The text of a line that is put.
#[derive(Clone, Copy)]
pub struct LinePut {
    // Where the next line begins.
    pub next: usize,
    // The place after the text.
    pub place: usize,
}

// Puts the text of the line that begins at a place of what was read, if it ends there: by a newline, or because the input has ended.
pub fn put_line(
    buf: &[u8],
    start: usize,
    ended: bool,
    number: u64,
    frame: &mut [u8; MOST_BYTES],
    out: &mut [u8],
    place: usize,
) -> Result<Option<LinePut>, Refusal>
    ensures out_after { line_left (paper_put result) out.new ≡ put_from ended number buf.now start out.old place }
    ensures frame_after { frame.new ≡ frame_after (paper_put result) (until_newline (drop start buf.now)) frame.old }
{
    if buf.len() < start {
        return Err(Refusal::PlacePastEnd(start));
    }
    if out.len() < place {
        return Err(Refusal::PlacePastEnd(place));
    }
    if out.len() - place < TEXT_ROOM {
        return Err(Refusal::NoRoom(TEXT_ROOM));
    }
    let Some(line) = lines::line_at(buf, start, ended, frame)? else {
        return Ok(None);
    };
    let mut text = FrameText { number, out, place };
    match line.bytes {
        Some(bytes) => text.put_frame(&frame[..bytes]),
        None => text.put_refused(Refusal::LineNotHexadecimal),
    }
    Ok(Some(LinePut {
        next: line.next,
        place: text.place,
    }))
}
