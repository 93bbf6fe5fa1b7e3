// Bytes below 128, each a sequence by itself, passed many at a time.
ghost use Rattle.std.specs.Prelude.{◌≡◌, ◌≤◌, length};
ghost use Rattle.std.specs.List.{prefix_len, list_all};
ghost use Rattle.std.specs.Char.{is_ascii};

// How many bytes below 128 the text begins with: by words of eight, then those of the word that stops them, or behind all words.
pub(crate) fn plain_length(text: &[u8]) -> usize
    ensures { result ≡ prefix_len is_ascii text.now }
{
    let (words, rest) = text.as_chunks::<8>();
    let count = plain_words(words);
    let more = match words.get(count) {
        Some(word) => plain_bytes(word),
        None => plain_bytes(rest),
    };
    8 * count + more
}

// How many bytes below 128 come first, one by one.
fn plain_bytes(bytes: &[u8]) -> usize
    ensures value { result ≡ prefix_len is_ascii bytes.now }
    ensures upper_bound { result ≤ length bytes.now }
{
    bytes.iter().take_while(|byte| byte.is_ascii()).count()
}

// How many words of bytes below 128 come first: four at a time, then one by one.
fn plain_words(words: &[[u8; 8]]) -> usize
    ensures value { result ≡ prefix_len (list_all is_ascii) words.now }
    ensures upper_bound { result ≤ length words.now }
{
    let (fours, _) = words.as_chunks::<4>();
    let many = 4 * fours.iter().take_while(|four| are_plain(four)).count();
    many + words[many..]
        .iter()
        .take_while(|word| is_plain(word))
        .count()
}

// Whether each byte of four words is below 128.
fn are_plain(words: &[[u8; 8]; 4]) -> bool
    ensures { result ≡ list_all (list_all is_ascii) words.now }
{
    words.iter().all(|word| is_plain(word))
}

// Whether each byte of a word is below 128.
fn is_plain(word: &[u8; 8]) -> bool
    ensures { result ≡ list_all is_ascii word.now }
{
    // One number, whose digits to base 256 are the bytes: the compiler tests all eight by one mask.
    let number = u64::from_le_bytes(*word);
    (number % 256 < 128)
        & (number / 256 % 256 < 128)
        & (number / 65536 % 256 < 128)
        & (number / 16777216 % 256 < 128)
        & (number / 4294967296 % 256 < 128)
        & (number / 1099511627776 % 256 < 128)
        & (number / 281474976710656 % 256 < 128)
        & (number / 72057594037927936 < 128)
}
