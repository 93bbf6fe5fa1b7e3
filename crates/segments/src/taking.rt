// Frames of an answer in segments, taken one after the other.
ghost use Rattle.std.specs.Prelude.{◌≡◌};
ghost use Rattle.segments.specs.State.{state_of};
ghost use Rattle.segments.specs.Taking.{takes, after, paper_taken};

use crate::segment::Segment;
use crate::state::State;
use types::Refusal;

// What became of a frame: more are to follow, or it was the last, each with the state then.
#[derive(Clone, Copy)]
pub enum Taken {
    More(State),
    Finished(State),
}

// Takes one frame: puts its part behind the bytes held in the lent buffer.
#[tactic(auto, unfolding(crate::specs::Taking::takes))]
pub fn take(state: State, frame: &[u8], buf: &mut [u8]) -> Result<Taken, Refusal>
    ensures { after (paper_taken result) buf.new ≡ takes (state_of state) frame.now buf.old }
{
    if state.finished {
        return Err(Refusal::AlreadyFinished);
    }
    if 65535 < buf.len() {
        return Err(Refusal::BufferTooLong(buf.len()));
    }
    if 65535 < frame.len() {
        return Err(Refusal::BufferTooLong(frame.len()));
    }
    let segment = Segment::of(frame)?;
    segment.due(state)?;
    let held = state.put(segment.part(), buf)?;
    Ok(segment.taken(held))
}
