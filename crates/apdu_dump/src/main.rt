// apdu-dump: prints the header, the tags and the outcome of each frame, a line of hexadecimal each, on standard input.
#![tactic(auto)]

ghost use Rattle.std.specs.Prelude.{◌<◌};
ghost use Rattle.apdu_dump.specs.Standing.{Goes};

mod failure;
mod texts;

use failure::Failure;
use std::io::{ErrorKind, Read, Stdin};
use texts::{Standing, Texts};

// The most bytes that are kept and read.
const READ_ROOM: usize = 65536;

// The most reads: more than any run makes, since nothing says that the input ends, and so few that the lines can be numbered.
const MOST_READS: u64 = 70368744177664;

// Reads once behind what is kept and takes the lines; an interrupted read changes nothing. Answers where the work stands then, unless the input has ended.
fn take_turn(
    mut input: Stdin,
    buf: &mut [u8; READ_ROOM],
    on: Standing,
    texts: &mut Texts,
) -> Result<Option<Standing>, Failure>
    requires { on.number < 9223372036854775808 }
    ensures { Goes result on.number 65536 }
{
    match input.read(&mut buf[on.kept..]) {
        Ok(count) => texts.take_lines(&mut buf[..on.kept + count], count == 0, on.number),
        Err(error) if error.kind() == ErrorKind::Interrupted => Ok(Some(on)),
        Err(error) => Err(Failure::Read(error)),
    }
}

// Takes turns until the input ends, or a read or a write fails.
fn run(input: Stdin, texts: &mut Texts) -> Result<(), Failure> {
    let mut buf = [0; READ_ROOM];
    let mut on = Standing::first();
    for _ in 0..MOST_READS {
        match take_turn(input, &mut buf, on, texts)? {
            Some(next) => on = next,
            None => break,
        }
    }
    Ok(())
}

fn main(rt: HostRuntime) {
    let mut texts = Texts::new(rt.stdout());
    if let Err(failure) = run(rt.stdin(), &mut texts) {
        failure.say(rt.stderr());
    }
}
