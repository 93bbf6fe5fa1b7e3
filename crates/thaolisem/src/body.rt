// Tagged bodies, and the strict walk.
ghost use Rattle.std.specs.Prelude.{◌≡◌, [], ◌∷◌};
ghost use Rattle.bodies.specs.Scan.{paper_body, body_from, body_for_from};
ghost use Rattle.walk.specs.Walk.{reported, walk_from};
ghost use Rattle.thaolisem.specs.Told.{told_body, told_walk};

use crate::answer::refused;
use bodies::Body;
use types::CountedRefusal;

// Tells the body whose opening tag is at a place: where its view lies, its number, and how many tags were read.
#[unsafe(no_mangle)]
pub extern "C" fn thaolisem_get_tagged_body(
    allowance: usize,
    buf: &[u8],
    place: usize,
    answer: &mut [u64; 8],
)
    ensures { answer.new ≡ told_body (body_from allowance buf.now place) }
{
    *answer = told(bodies::get_tagged_body(allowance, buf, place));
}

// Tells the same of a body that has to have the number expected.
#[unsafe(no_mangle)]
pub extern "C" fn thaolisem_get_tagged_body_for_tag(
    expected: u8,
    allowance: usize,
    buf: &[u8],
    place: usize,
    answer: &mut [u64; 8],
)
    ensures { answer.new ≡ told_body (body_for_from expected allowance buf.now place) }
{
    *answer = told(bodies::get_tagged_body_for_tag(expected, allowance, buf, place));
}

// The eight numbers of a body, or of the refusal and how many tags were read before it.
fn told(answer: Result<Body, CountedRefusal>) -> [u64; 8]
    ensures { result ≡ told_body (paper_body answer) }
{
    match answer {
        Ok(body) => numbers_of(body, 0),
        Err(counted) => refused(counted),
    }
}

// The eight numbers of a body, the seventh as it is given: 1 where the body was optional.
pub(crate) fn numbers_of(body: Body, seventh: u64) -> [u64; 8]
    ensures { result ≡ 0 ∷ body.next ∷ body.start ∷ body.len ∷ body.number ∷ body.tags ∷ seventh ∷ 0 ∷ [] }
{
    [
        0,
        body.next as u64,
        body.start as u64,
        body.len as u64,
        u64::from(body.number),
        body.tags as u64,
        seventh,
        0,
    ]
}

// Tells how many tags the strict walk from a place to the buffer's end accepts, and the refusal where it does not pass.
#[unsafe(no_mangle)]
pub extern "C" fn thaolisem_walk(buf: &[u8], place: usize, answer: &mut [u64; 8])
    ensures { answer.new ≡ told_walk (reported (walk_from buf.now place)) }
{
    *answer = match walk::walk(buf, place) {
        Ok(tags) => [0, 0, tags as u64, 0, 0, 0, 0, 0],
        Err(stopped) => refused(stopped),
    };
}
