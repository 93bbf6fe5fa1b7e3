// The first byte of a sequence: the row of the table that it chooses.
ghost use Rattle.std.specs.Prelude.{◌≡◌};
ghost use Rattle.utf8.specs.Table.{UTF8-char};
ghost use Rattle.utf8.specs.Lead.{as_tails, tails_of};

// What a first byte asks of the bytes after it.
#[derive(Clone, Copy)]
pub(crate) struct Follow {
    // How many bytes follow.
    pub(crate) count: usize,
    // The lowest and the highest that the first of them may be; the others are tails.
    pub(crate) low: u8,
    pub(crate) high: u8,
}

// What the first byte of a sequence asks of the bytes after it; none where no sequence begins with it.
#[tactic(auto, using(crate::proofs::FirstByte::rows_chosen))]
pub(crate) fn lead_of(byte: u8) -> Option<Follow>
    ensures { as_tails result ≡ tails_of UTF8-char byte }
{
    let (count, low, high) = match byte {
        0x00..=0x7F => (0, 0x80, 0xBF),
        0xC2..=0xDF => (1, 0x80, 0xBF),
        0xE0 => (2, 0xA0, 0xBF),
        0xE1..=0xEC | 0xEE..=0xEF => (2, 0x80, 0xBF),
        0xED => (2, 0x80, 0x9F),
        0xF0 => (3, 0x90, 0xBF),
        0xF1..=0xF3 => (3, 0x80, 0xBF),
        0xF4 => (3, 0x80, 0x8F),
        _ => return None,
    };
    Some(Follow { count, low, high })
}
