// Hexadecimal digits, two for each byte of a frame.
ghost use Rattle.std.specs.Prelude.{◌≡◌, ◌+◌, ◌≤◌, length};
ghost use Rattle.std.proofs.lemmas.List.Edits.{sets};
ghost use Rattle.lines.specs.Hexadecimal.{digit_of, paper_digits, pairs, most_bytes, leading};

// The most bytes that a frame has.
pub const MOST_BYTES: usize = 1476;

// The most digits of a frame's line.
pub(crate) const MOST_DIGITS: usize = 2 * MOST_BYTES;

// The value of a hexadecimal digit, of either case; none for any other byte.
#[tactic(auto, unfolding(crate::specs::Hexadecimal::nibble_of))]
fn nibble(byte: u8) -> Option<u8>
    ensures { result ≡ digit_of byte }
{
    match byte {
        b'0'..=b'9' => Some(byte - b'0'),
        b'A'..=b'F' => Some(byte - b'A' + 10),
        b'a'..=b'f' => Some(byte - b'a' + 10),
        _ => None,
    }
}

// The byte that a pair of digits stands for; none for any other pair.
fn byte_of(pair: &[u8; 2]) -> Option<u8>
    ensures { paper_digits result ≡ pairs pair.now }
{
    let high = nibble(pair[0])?;
    let low = nibble(pair[1])?;
    Some(high * 16 + low)
}

// Puts the bytes that the digits stand for, up to the first that is no pair of digits, at the start of the frame, and answers how many there are.
pub(crate) fn decode(digits: &[u8], frame: &mut [u8; MOST_BYTES]) -> usize
    ensures value { result ≡ length (leading digits.now) }
    ensures frame_after { frame.new ≡ sets frame.old 0 (leading digits.now) }
    ensures result_in_bounds { (result + result ≤ length digits.now) × (result ≤ most_bytes) }
{
    let (pairs, _) = digits.as_chunks::<2>();
    let most = pairs.len().min(MOST_BYTES);
    for (count, pair) in pairs[..most].iter().enumerate() {
        let Some(byte) = byte_of(pair) else {
            return count;
        };
        frame[count] = byte;
    }
    most
}
