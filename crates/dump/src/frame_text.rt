// The text of a frame while it is put.
ghost use Rattle.std.specs.Prelude.{◌∷◌, ◌++◌, ◌≤◌, length};
ghost use Rattle.text.specs.Text.{decimals, line, most_numbers, most_letters, line_room};
ghost use Rattle.dump.specs.Puts.{HasRoom, Puts};

use text::put_words;

// The frame's number, the buffer that takes the text, and the place after what is put.
#[derive(Drop)]
pub(crate) struct FrameText<'a> {
    pub(crate) number: u64,
    pub(crate) out: &'a mut [u8],
    pub(crate) place: usize,
}

impl FrameText<'_> {
    // Puts a line of numbers, a word and numbers.
    pub(crate) fn put_line(&mut self, before: &[u64], word: &[u8], after: &[u64])
        requires { (length before.now ≤ most_numbers) × (length word.now ≤ most_letters) × (length after.now ≤ most_numbers) × HasRoom self.old line_room }
        ensures { Puts self.old self.new (line (decimals before.now ++ (word.now ∷ decimals after.now))) line_room }
    {
        self.place = put_words(before, word, after, self.out, self.place);
    }
}
