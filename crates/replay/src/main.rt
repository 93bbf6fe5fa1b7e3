// replay: answers requests on standard input, one a line, by calls of the exported functions and of those that run nowhere else.
#![tactic(auto)]

mod answer;
mod exported;
mod held;
mod inner;
mod request;
mod told;

use answer::{LONGEST_LINE, Lent, MOST_LENT, answer_to};
use held::Held;
use std::io;
use std::io::{Read, Stdout, Write};

// A byte more than the longest line, which tells that a line is longer.
const LINE_ROOM: usize = LONGEST_LINE + 1;

// More bytes than an answer has: eight numbers, as many of a state, and two digits for each byte that is lent.
const TEXT_ROOM: usize = 140512;

// What a run holds: the line that has not ended, what its call is lent, and the text of its answer.
#[derive(Drop)]
struct Replay {
    output: Stdout,
    line: Held<LINE_ROOM>,
    lent: Lent,
    text: Held<TEXT_ROOM>,
}

impl Replay {
    // Answers each line that ends in a piece of the input; what a line has no room for is left out, as a line so long is no request.
    fn take(&mut self, piece: &[u8]) -> io::Result<()> {
        for part in piece.split_inclusive(|byte| *byte == b'\n') {
            match part.strip_suffix(b"\n") {
                Some(rest) => {
                    self.line.extend(rest);
                    self.answer_line()?;
                }
                None => self.line.extend(part),
            }
        }
        Ok(())
    }

    // Answers the last line, whose newline may be missing.
    fn end(&mut self) -> io::Result<()> {
        if self.line.as_slice().is_empty() {
            return Ok(());
        }
        self.answer_line()
    }

    // Writes the answer to the line, and clears it for the next.
    fn answer_line(&mut self) -> io::Result<()> {
        self.text.clear();
        match answer_to(self.line.as_slice(), &mut self.lent) {
            Some(answer) => answer.put(&mut self.text),
            None => self.text.extend(b"unknown"),
        }
        self.text.push(b'\n');
        self.line.clear();
        self.output.write_all(self.text.as_slice())
    }
}

// Reads and answers until the input ends or a write fails. The reads are counted, as nothing says that the input ends.
fn main(rt: HostRuntime) -> io::Result<()> {
    let mut replay = Replay {
        output: rt.stdout(),
        line: Held::new(),
        lent: Lent {
            content: [0; MOST_LENT],
            buf: [0; MOST_LENT],
        },
        text: Held::new(),
    };
    let mut piece = [0; 65536];
    for _ in 0..u64::MAX {
        // A read that fails is the input's end.
        let count = rt.stdin().read(&mut piece).unwrap_or(0);
        if count == 0 {
            return replay.end();
        }
        replay.take(&piece[..count])?;
    }
    Ok(())
}
