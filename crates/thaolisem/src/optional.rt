// An optional tagged body.
ghost use Rattle.std.specs.Prelude.{◌≡◌};
ghost use Rattle.bodies.specs.Optional.{optional_from, paper_optional};
ghost use Rattle.thaolisem.specs.Told.{told_optional};

use crate::answer::refused;
use crate::body::numbers_of;
use bodies::OptionalBody;
use types::CountedRefusal;

// Tells the body of the number expected if one stands at a place, as any body, and 1 that it is there; or what stands in its place, and 2 that it is absent.
#[unsafe(no_mangle)]
pub extern "C" fn thaolisem_get_optional_tagged_body(
    expected: u8,
    allowance: usize,
    buf: &[u8],
    place: usize,
    answer: &mut [u64; 8],
)
    ensures { answer.new ≡ told_optional place (optional_from expected allowance buf.now place) }
{
    *answer = told(
        bodies::get_optional_tagged_body(expected, allowance, buf, place),
        place,
    );
}

// The eight numbers of a body that was asked for at a place; of its absence, which are the place, where nothing was read, and the tag found, or class 0 at the buffer's end; or of the refusal and how many tags were read before it.
fn told(answer: Result<OptionalBody, CountedRefusal>, place: usize) -> [u64; 8]
    ensures { result ≡ told_optional place (paper_optional answer) }
{
    match answer {
        Ok(OptionalBody::Present(body)) => numbers_of(body, 1),
        Ok(OptionalBody::AbsentAtEnd) => [0, place as u64, 0, 0, 0, 0, 2, 0],
        Ok(OptionalBody::AbsentAt(tag)) => [
            0,
            place as u64,
            u64::from(tag.number.class()),
            u64::from(tag.number.number()),
            u64::from(tag.value),
            0,
            2,
            0,
        ],
        Err(counted) => refused(counted),
    }
}
