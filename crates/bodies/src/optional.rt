// An optional body: a block that its sender may leave out.
ghost use Rattle.std.specs.Prelude.{◌≡◌};
ghost use Rattle.bodies.specs.Optional.{optional_from, paper_optional};

use crate::body::Body;
use crate::scan::scan;
use types::{CountedRefusal, Refusal, Tag, TagNumber};

// An optional body at a place: where it lies; or that it is absent, as the buffer ends there or another tag than its opening stands there.
#[derive(Clone, Copy)]
pub enum OptionalBody {
    Present(Body),
    AbsentAtEnd,
    AbsentAt(Tag),
}

// Finds the body of the number expected if one stands at a place, reading at most so many tags after its opening; answers where it lies, or that it is absent.
#[tactic(auto, using(crate::proofs::Presence::optional_too_long, crate::proofs::Presence::optional_at_end, crate::proofs::Presence::optional_by_tag))]
pub fn get_optional_tagged_body(
    expected: u8,
    allowance: usize,
    buf: &[u8],
    place: usize,
) -> Result<OptionalBody, CountedRefusal>
    ensures { paper_optional result ≡ optional_from expected allowance buf.now place }
{
    if 65535 < buf.len() {
        return Err(Refusal::BufferTooLong(buf.len()).into());
    }
    if place == buf.len() {
        return Ok(OptionalBody::AbsentAtEnd);
    }
    let (tag, next) = tags::decode(buf, place)?;
    if tag.number != TagNumber::ContextSpecificOpening(expected) {
        return Ok(OptionalBody::AbsentAt(tag));
    }
    let body = scan(expected, allowance, buf, next)?;
    Ok(OptionalBody::Present(body))
}
