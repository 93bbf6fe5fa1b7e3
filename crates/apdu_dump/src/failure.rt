// A read or a write that failed.
use std::io;
use std::io::{Eprint, Stderr, Write};

// What failed, and why.
#[derive(Drop)]
pub(crate) enum Failure {
    Read(io::Error),
    Write(io::Error),
}

impl Failure {
    // Says on standard error what failed, and why: the system's words for the error, without the number that std puts behind them.
    pub(crate) fn say(&self, errors: Stderr) {
        let (what, error) = match self {
            Failure::Read(error) => ("standard input", error),
            Failure::Write(error) => ("standard output", error),
        };
        let mut text = [0; 128];
        let mut rest = &mut text[..];
        let _ = write!(rest, "{error}");
        let len = 128usize.saturating_sub(rest.len());
        let words = std::str::from_utf8(&text[..len]).unwrap_or("");
        let why = words
            .split_once(" (os error ")
            .map_or(words, |(front, _)| front);
        let _ = eprintln!(errors; "apdu-dump: {what}: {why}");
    }
}
