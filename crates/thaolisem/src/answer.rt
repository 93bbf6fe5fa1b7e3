// Answers as eight numbers: what a reader accepts, what a writer answers, and refusals with what they carry.
ghost use Rattle.std.specs.Prelude.{◌≡◌, ℕ, List, []};
ghost use Rattle.types.specs.Refusal.{table};
ghost use Rattle.types.specs.Answer.{refusal, paper_by};
ghost use Rattle.types.specs.Writing.{paper_written, unwritable, left, writing};
ghost use Rattle.thaolisem.specs.Told.{told_refusal, told_read, told_write};

use types::{Carried, CountedRefusal, Refusal};

// What a reader accepts, as the numbers that tell it.
pub(crate) trait Tell {
    // What the value is on paper, by which map, and the eight numbers that tell it there with the place after it.
    ghost Paper: { Type 0 };

    ghost paper: { Self → Paper };

    ghost telling: { Paper → ℕ → List ℕ };

    // The eight numbers of the value and of the place after it.
    fn tell(self, next: usize) -> [u64; 8]
        ensures { result ≡ telling (paper self) next };
}

// The eight numbers of what a reader answers: the value and the place after it, or a refusal.
#[inline(always)]
pub(crate) fn told<T: Tell>(answer: Result<(T, usize), Refusal>) -> [u64; 8]
    ensures { result ≡ told_read T.telling (paper_by T.paper answer) }
{
    match answer {
        Ok((value, next)) => value.tell(next),
        Err(refusal) => refused(refusal.into()),
    }
}

// The eight numbers of what a writer answers: the place after what was written, or a refusal.
pub(crate) fn written(answer: Result<usize, Refusal>) -> [u64; 8]
    ensures { result ≡ told_write (paper_written answer) }
{
    match answer {
        Ok(next) => [0, next as u64, 0, 0, 0, 0, 0, 0],
        Err(refusal) => refused(refusal.into()),
    }
}

// The eight numbers of a refusal: its number, what it carries, and how many tags were read, 0 where they are not counted.
pub(crate) fn refused(counted: CountedRefusal) -> [u64; 8]
    ensures { result ≡ told_refusal (table counted.refusal).number (table counted.refusal).carries counted.tags }
{
    let row = counted.refusal.row();
    let n = u64::from(row.number);
    let tags = counted.tags as u64;
    match row.carried {
        Carried::Amount(amount) => [n, 0, 0, amount as u64, 0, tags, 0, 0],
        Carried::TagFound(tag) => [
            n,
            0,
            u64::from(tag.number.class()),
            u64::from(tag.number.number()),
            u64::from(tag.value),
            tags,
            0,
            0,
        ],
    }
}

// Why a write is refused whose numbers name nothing: 1 or 2 where the buffer, the lent content or the place is at fault, else 12.
#[tactic(auto, unfolding(types::specs::Writing::write_answer, types::specs::Writing::writing))]
pub(crate) fn nothing_named(lent: usize, buf: &[u8], place: usize) -> Refusal
    ensures { left (refusal result) buf.now ≡ writing lent unwritable [] buf.now place }
{
    match numbers::room(lent, 0, buf, place) {
        Err(refusal) => refusal,
        Ok(_) => Refusal::CannotBeWritten,
    }
}
