// Bytes held in fixed memory.
ghost use Rattle.std.specs.Prelude.{◌≤◌, ◌<◌};

use std::fmt;
use std::fmt::Write as _;

// The bytes at the start of an array, up to an end. What there is no room for is left out.
#[derive(Drop)]
pub(crate) struct Held<const N: usize> {
    bytes: [u8; N],
    len: usize,
    ghost inside: { len ≤ N },
}

impl<const N: usize> Held<N> {
    // No bytes.
    pub(crate) fn new() -> Self {
        Self {
            bytes: [0; N],
            len: 0,
        }
    }

    // The bytes held.
    pub(crate) fn as_slice(&self) -> &[u8] {
        &self.bytes[..self.len]
    }

    // Holds no bytes again.
    pub(crate) fn clear(&mut self) {
        self.len = 0;
    }

    // Adds a byte.
    pub(crate) fn push(&mut self, byte: u8) {
        if self.len < N {
            self.bytes[self.len] = byte;
            self.len += 1;
        }
    }

    // Adds bytes.
    pub(crate) fn extend(&mut self, more: &[u8]) {
        let bytes = &mut self.bytes[..];
        let room = &mut bytes[self.len..];
        let count = more.len().min(room.len());
        room[..count].copy_from_slice(&more[..count]);
        self.len += count;
    }

    // Adds numbers in decimal, with a byte between two.
    pub(crate) fn put_numbers(&mut self, numbers: &[u64; 8], between: u8) {
        for (place, number) in numbers.iter().enumerate() {
            if place > 0 {
                self.push(between);
            }
            let _ = write!(self, "{number}");
        }
    }

    // Adds a space and bytes in hexadecimal, a dash for none.
    pub(crate) fn put_bytes(&mut self, bytes: &[u8]) {
        self.push(b' ');
        if bytes.is_empty() {
            self.push(b'-');
        }
        for byte in bytes {
            self.push(letter(byte / 16));
            self.push(letter(byte % 16));
        }
    }
}

// Text is added as its bytes.
impl<const N: usize> fmt::Write for Held<N> {
    fn write_str(&mut self, text: &str) -> fmt::Result {
        self.extend(text.as_bytes());
        Ok(())
    }
}

// The letter of a hexadecimal digit.
fn letter(digit: u8) -> u8
    requires { digit < 16 }
{
    if digit < 10 {
        b'0' + digit
    } else {
        b'a' + (digit - 10)
    }
}
