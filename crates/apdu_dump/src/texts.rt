// The texts of the lines that were read.
ghost use Rattle.std.specs.Prelude.{◌≡◌, ◌+◌, ◌≤◌, ◌<◌, length, OnOk};
ghost use Rattle.lines.specs.Lines.{most_kept};

use crate::failure::Failure;
use dump::LinePut;
use lines::MOST_BYTES;
use std::io;
use std::io::{ErrorKind, Stdout, Write};

// Room for the texts of two frames at least.
const TEXTS_ROOM: usize = 262144;

// Where the work stands between two reads: how many bytes of a line that has not ended are kept, and its number.
#[derive(Clone, Copy)]
pub(crate) struct Standing {
    pub kept: usize,
    pub number: u64,
    ghost short: { kept ≤ most_kept },
}

impl Standing {
    // Where it stands before the first read.
    pub(crate) fn first() -> Self
        ensures { result.number ≡ 1 }
    {
        Self { kept: 0, number: 1 }
    }
}

// What the lines that ended came to: where the line that has not ended begins, and its number.
#[derive(Clone, Copy)]
pub(crate) struct LinesPut {
    pub start: usize,
    pub number: u64,
}

// The texts that wait to be written, and the room that a frame is lent.
#[derive(Drop)]
pub(crate) struct Texts {
    output: Stdout,
    frame: [u8; MOST_BYTES],
    text: [u8; TEXTS_ROOM],
    waiting: usize,
    ghost inside: { waiting ≤ 262144 },
}

impl Texts {
    ghost use Rattle.apdu_dump.specs.Standing.{Numbered, Makes, Goes, Takes};

    // No text waits.
    pub(crate) fn new(output: Stdout) -> Self {
        Self {
            output,
            frame: [0; MOST_BYTES],
            text: [0; TEXTS_ROOM],
            waiting: 0,
        }
    }

    // Writes the text that waits, or stops at the first write that takes none or fails, when some may have been written.
    fn write(&mut self) -> io::Result<()> {
        let mut rest = &self.text[..self.waiting];
        while !rest.is_empty() {
            // One write, which is not made again where it is interrupted (docs/DECISIONS.md), as std's `write_all` would.
            let count = self.output.write(rest)?;
            if count == 0 {
                return Err(io::Error::from(ErrorKind::WriteZero));
            }
            rest = &rest[count..];
        }
        Ok(())
    }

    // Writes the text that waits, so that none does.
    fn send(&mut self) -> Result<(), Failure>
        ensures { OnOk result (self.new.waiting ≡ 0) }
    {
        self.write().map_err(Failure::Write)?;
        self.waiting = 0;
        Ok(())
    }

    // Puts the texts of the lines that were read, and writes those that wait whenever there is no room for the next.
    fn put_lines(&mut self, buf: &[u8], ended: bool, first: u64) -> Result<LinesPut, Failure>
        requires { first + length buf.now < 18446744073709551616 }
        ensures numbered { Numbered result first (length buf.now) }
        ensures makes { Makes result buf.now ended first }
    {
        let mut start = 0;
        let mut number = first;
        while start < buf.len() {
            let Texts {
                frame,
                text,
                waiting,
                ..
            } = self;
            match dump::put_line(buf, start, ended, number, frame, text, *waiting) {
                Ok(Some(LinePut { next, place })) => {
                    start = next;
                    number += 1;
                    *waiting = place;
                }
                Ok(None) => break,
                Err(_) => self.send()?,
            }
        }
        Ok(LinesPut { start, number })
    }

    // Writes the texts of the lines of what was read, and keeps what is left of it, unless the input has ended.
    #[tactic(auto, using(lines::proofs::Moved::kept_short))]
    pub(crate) fn take_lines(
        &mut self,
        buf: &mut [u8],
        ended: bool,
        number: u64,
    ) -> Result<Option<Standing>, Failure>
        requires { number + length buf.old < 18446744073709551616 }
        ensures goes { Goes result number (length buf.old) }
        ensures takes { Takes result buf.old number buf.new }
    {
        let LinesPut { start, number } = self.put_lines(buf, ended, number)?;
        self.send()?;
        if ended {
            return Ok(None);
        }
        Ok(Some(Standing {
            kept: lines::keep(buf, start),
            number,
        }))
    }
}
