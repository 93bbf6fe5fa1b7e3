// Tagged bodies: what stands between an opening tag and its closing tag.
ghost use Rattle.std.specs.Prelude.{◌≡◌};
ghost use Rattle.bodies.specs.Scan.{paper_body, body_from, body_for_from};

use crate::body::Body;
use crate::scan::scan;
use types::{CountedRefusal, Refusal, TagNumber};

// Finds the body whose opening tag is at a place, reading at most so many tags after it; answers where it lies.
#[tactic(auto, using(crate::proofs::Ways::small_found), unfolding(crate::specs::Scan::body_from))]
pub fn get_tagged_body(allowance: usize, buf: &[u8], place: usize) -> Result<Body, CountedRefusal>
    ensures { paper_body result ≡ body_from allowance buf.now place }
{
    let (tag, next) = tags::decode(buf, place)?;
    match tag.number {
        TagNumber::ContextSpecificOpening(number) => scan(number, allowance, buf, next),
        _ => Err(Refusal::NoOpeningTag(tag).into()),
    }
}

// Finds the body whose opening tag, of the number expected, is at a place, reading at most so many tags after it; answers where it lies.
#[tactic(auto, using(crate::proofs::Ways::small_expected), unfolding(crate::specs::Scan::body_for_from))]
pub fn get_tagged_body_for_tag(
    expected: u8,
    allowance: usize,
    buf: &[u8],
    place: usize,
) -> Result<Body, CountedRefusal>
    ensures { paper_body result ≡ body_for_from expected allowance buf.now place }
{
    let opening = TagNumber::ContextSpecificOpening(expected);
    let (_, next) = tags::decode_expected(opening, buf, place)?;
    scan(expected, allowance, buf, next)
}
