// Text: whether it is UTF-8.
ghost use Rattle.std.specs.Prelude.{◌≡◌};
ghost use Rattle.utf8.specs.Check.{check_of};
ghost use Rattle.utf8.specs.Answer.{text_outcome};
ghost use Rattle.thaolisem.specs.Told.{told_check};

use crate::answer::refused;

// Tells whether a text is UTF-8, or 10 with the first place where no well-formed sequence begins.
#[unsafe(no_mangle)]
pub extern "C" fn thaolisem_check_utf8(text: &[u8], answer: &mut [u64; 8])
    ensures { answer.new ≡ told_check (text_outcome (check_of text.now)) }
{
    *answer = match utf8::check(text) {
        Ok(()) => [0; 8],
        Err(refusal) => refused(refusal.into()),
    };
}
