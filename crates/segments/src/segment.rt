// One frame of an answer in segments, by its bytes.
ghost use Rattle.std.specs.Prelude.{◌≤◌, length};

use crate::state::State;
use crate::taking::Taken;
use headers::Kind;
use headers::confirmed_service_choice::allowed;
use types::Refusal;

// A frame that has a segment's header: its first five bytes are the control byte, the invoke id, the sequence number, the window and the service choice, and behind them stands its part of the service's bytes.
// Each byte is read where it is asked for: held over the copying of the part, they left its loop too few registers.
#[derive(Clone, Copy)]
pub(crate) struct Segment<'a> {
    frame: &'a [u8],
    ghost whole: { 5 ≤ length frame.now },
}

impl<'a> Segment<'a> {
    ghost use Rattle.std.specs.Prelude.{◌≡◌, Ok, Err, length, nat_lt};
    ghost use Rattle.std.specs.Result.{result_map_both};
    ghost use Rattle.types.specs.Choice.{if};
    ghost use Rattle.types.specs.Answer.{paper_outcome};
    ghost use Rattle.types.specs.declared.refusal.Refusal.TheVariants.{BytesRunOut};
    ghost use Rattle.segments.specs.State.{state_of};
    ghost use Rattle.segments.specs.Segment.{service_part};
    ghost use Rattle.segments.specs.Put.{segment_bytes};
    ghost use Rattle.segments.specs.Taking.{as_due, answer_then, paper_taken};

    // The segment that a frame's bytes are: 3 where they end before its part.
    pub(crate) fn of(frame: &'a [u8]) -> Result<Self, Refusal>
        ensures { result_map_both segment_bytes (λ r. r) result ≡ if (nat_lt (length frame.now) 5) (Err (BytesRunOut (length frame.now))) (Ok frame.now) }
    {
        if frame.len() < 5 {
            return Err(Refusal::BytesRunOut(frame.len()));
        }
        Ok(Self { frame })
    }

    // Its part of the service's bytes.
    pub(crate) fn part(self) -> &'a [u8]
        ensures { result.now ≡ service_part (segment_bytes self.entry) }
    {
        &self.frame[5..]
    }

    // Whether it is a segment and the one due: 17, 11, 24, 25 or 26 where it is not.
    #[tactic(auto, unfolding(crate::specs::Taking::as_due))]
    pub(crate) fn due(self, state: State) -> Result<(), Refusal>
        ensures { paper_outcome result ≡ as_due (state_of state) (segment_bytes self.entry) }
    {
        let control = self.frame[0];
        if control / 16 != Kind::Complex as u8 || control / 8 % 2 != 1 {
            return Err(Refusal::OtherPduType(control));
        }
        let choice = allowed(self.frame[4])?;
        let window = self.frame[3];
        if window < 1 || 127 < window {
            return Err(Refusal::WindowNotAllowed);
        }
        if !state.is_of(self.frame[1], choice) {
            return Err(Refusal::OtherIdOrChoice);
        }
        if u64::from(self.frame[2]) != state.due {
            return Err(Refusal::OtherSequence);
        }
        Ok(())
    }

    // What becomes of it once it is taken, with so many bytes held then.
    #[tactic(auto, unfolding(crate::specs::Taking::answer_then))]
    pub(crate) fn taken(self, held: usize) -> Taken
        ensures { paper_taken (Ok result) ≡ answer_then (segment_bytes self.entry) held }
    {
        let more = self.frame[0] / 4 % 2 == 1;
        let state = State {
            begun: true,
            finished: !more,
            id: u64::from(self.frame[1]),
            choice: u64::from(self.frame[4]),
            due: u64::from(self.frame[2].wrapping_add(1)),
            held,
        };
        if more {
            Taken::More(state)
        } else {
            Taken::Finished(state)
        }
    }
}
