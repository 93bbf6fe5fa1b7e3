// What functions that are not exported answer, in eight numbers, as thaolisem tells its own.
use numbers::Slice;
use types::{Carried, Refusal, Tag};

// A value told by three numbers.
pub(crate) trait Numbers: Drop {
    // The three numbers.
    fn numbers(self) -> [u64; 3];
}

impl Numbers for () {
    fn numbers(self) -> [u64; 3] {
        [0, 0, 0]
    }
}

impl Numbers for u8 {
    fn numbers(self) -> [u64; 3] {
        [u64::from(self), 0, 0]
    }
}

impl Numbers for u32 {
    fn numbers(self) -> [u64; 3] {
        [u64::from(self), 0, 0]
    }
}

impl Numbers for u64 {
    fn numbers(self) -> [u64; 3] {
        [self, 0, 0]
    }
}

impl Numbers for Slice {
    fn numbers(self) -> [u64; 3] {
        [self.start as u64, u64::from(self.len), 0]
    }
}

impl Numbers for Tag {
    fn numbers(self) -> [u64; 3] {
        let Tag { number, value } = self;
        [
            u64::from(number.class()),
            u64::from(number.number()),
            u64::from(value),
        ]
    }
}

// The eight numbers of what was read or written, with the place after it, or of a refusal.
pub(crate) fn told<T: Numbers>(answer: Result<(T, usize), Refusal>) -> [u64; 8] {
    match answer {
        Ok((value, next)) => {
            let [a, b, c] = value.numbers();
            [0, next as u64, a, b, c, 0, 0, 0]
        }
        Err(refusal) => refused(refusal),
    }
}

// The eight numbers of a refusal.
pub(crate) fn refused(refusal: Refusal) -> [u64; 8] {
    let row = refusal.row();
    let number = u64::from(row.number);
    match row.carried {
        Carried::Amount(amount) => [number, 0, 0, amount as u64, 0, 0, 0, 0],
        Carried::TagFound(found) => {
            let [class, tag, value] = found.numbers();
            [number, 0, class, tag, value, 0, 0, 0]
        }
    }
}
