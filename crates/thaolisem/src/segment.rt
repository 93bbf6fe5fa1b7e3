// Frames of an answer in segments, taken with a state of eight numbers.
ghost use Rattle.std.specs.Prelude.{◌≡◌};
ghost use Rattle.segments.specs.State.{state_of};
ghost use Rattle.segments.specs.Taking.{takes};
ghost use Rattle.thaolisem.specs.Segment.{state_in, state_numbers, numbers_then, told_taken};

use crate::answer::refused;
use segments::{State, Taken};

// Takes one frame of an answer in segments: puts its part behind the bytes held in the lent buffer, and the state then into the lent numbers.
#[unsafe(no_mangle)]
pub extern "C" fn thaolisem_take_segment(
    state: &mut [u64; 8],
    frame: &[u8],
    buf: &mut [u8],
    answer: &mut [u64; 8],
)
    ensures answer_after { answer.new ≡ told_taken (takes (state_in state.old) frame.now buf.old).answer }
    ensures state_after { state.new ≡ numbers_then state.old (takes (state_in state.old) frame.now buf.old).answer }
    ensures buf_after { buf.new ≡ (takes (state_in state.old) frame.now buf.old).buffer }
{
    match segments::take(state_in(*state), frame, buf) {
        Ok(Taken::More(then)) => {
            *answer = [0, then.held as u64, 1, then.due, 0, 0, 0, 0];
            *state = numbers_of(then);
        }
        Ok(Taken::Finished(then)) => {
            *answer = [0, then.held as u64, 2, then.due, 0, 0, 0, 0];
            *state = numbers_of(then);
        }
        Err(refusal) => {
            *answer = refused(refusal.into());
        }
    }
}

// The state of eight numbers: any but 0 says that it is begun, or finished, and the last two are not read.
fn state_in(numbers: [u64; 8]) -> State
    ensures { state_of result ≡ state_in numbers }
{
    State {
        begun: numbers[0] != 0,
        finished: numbers[1] != 0,
        id: numbers[2],
        choice: numbers[3],
        due: numbers[4],
        held: numbers[5] as usize,
    }
}

// The eight numbers of a state.
fn numbers_of(state: State) -> [u64; 8]
    ensures { result ≡ state_numbers (state_of state) }
{
    [
        u64::from(state.begun),
        u64::from(state.finished),
        state.id,
        state.choice,
        state.due,
        state.held as u64,
        0,
        0,
    ]
}
