// One step of the strict walk, for a caller that goes tag by tag and keeps the numbers of the open blocks.
ghost use Rattle.std.specs.Prelude.{◌≡◌, length};
ghost use Rattle.types.specs.Tag.{tag_of};
ghost use Rattle.walk.specs.Step.{opened, step_at, open_after, open_then, paper_stepped};
ghost use Rattle.walk.specs.Fitting.{Keepable, fits_by};

use crate::tag::{Accepted, tag_at};
use types::{Refusal, Tag, TagNumber};

// One step of the walk, at a place where so many blocks are open: the tag there, none where the walk ends well, or why it does not. Their numbers stand in `numbers`, outermost first; a block that opens has its number put behind them.
#[tactic(auto, using(crate::proofs::Fitting::passing_step, crate::proofs::Fitting::refused_step, crate::proofs::Fitting::fitting_step, crate::proofs::Fitting::misfit_step, crate::proofs::Fitting::misfit_kept, crate::proofs::Fitting::keepable))]
pub fn step(
    buf: &[u8],
    place: usize,
    blocks: usize,
    numbers: &mut [u8; 16],
) -> Result<Option<Accepted>, Refusal>
    ensures result_after { paper_stepped place numbers.new result ≡ step_at buf.now place (opened blocks numbers.old) }
    ensures numbers_after { numbers.new ≡ open_then (step_at buf.now place (opened blocks numbers.old)) numbers.old }
{
    if place == buf.len() && blocks == 0 && buf.len() <= 65535 {
        return Ok(None);
    }
    let accepted = tag_at(buf, place, blocks)?;
    if fits(numbers, accepted.depth, accepted.tag) {
        Ok(Some(accepted))
    } else {
        Err(Refusal::ClosingWithoutOpening(place))
    }
}

// Whether a tag fits the open blocks: a closing tag needs the number of the block at its depth, and an opening tag puts its own there.
fn fits(numbers: &mut [u8], depth: usize, tag: Tag) -> bool
    requires { Keepable (tag_of tag).number depth (length numbers.old) }
    ensures value { result ≡ fits_by (tag_of tag).number depth numbers.old }
    ensures numbers_after { numbers.new ≡ open_after (tag_of tag).number depth numbers.old }
{
    match tag.number {
        TagNumber::Application(_) | TagNumber::ContextSpecific(_) => true,
        TagNumber::ContextSpecificOpening(n) => {
            numbers[depth] = n;
            true
        }
        TagNumber::ContextSpecificClosing(n) => n == numbers.get(depth).copied().unwrap_or(0),
    }
}
