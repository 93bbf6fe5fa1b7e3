// What is kept between two frames of an answer in segments.
ghost use Rattle.std.specs.Prelude.{◌≡◌};
ghost use Rattle.segments.specs.State.{first_state, state_of};
ghost use Rattle.types.specs.Writing.{left, paper_written};
ghost use Rattle.segments.specs.Put.{put_into};
ghost use Rattle.segments.specs.Taking.{same_answer};

use types::Refusal;

// Whether a frame was taken, and whether the last one; the first frame's invoke id and service choice; the sequence number due; and how many bytes are held at the buffer's start.
// The numbers are as wide as those that a caller in C lends, so that each is compared as it is: one that is no byte is no frame's.
#[derive(Clone, Copy)]
pub struct State {
    pub begun: bool,
    pub finished: bool,
    pub id: u64,
    pub choice: u64,
    pub due: u64,
    pub held: usize,
}

impl State {
    // The state before the first frame.
    pub fn first() -> Self
        ensures { state_of result ≡ first_state }
    {
        Self {
            begun: false,
            finished: false,
            id: 0,
            choice: 0,
            due: 0,
            held: 0,
        }
    }

    // Whether an invoke id and a service choice are those of the first frame, where there was one.
    pub(crate) fn is_of(self, id: u8, choice: u8) -> bool
        ensures { result ≡ same_answer (state_of self) id choice }
    {
        if self.begun {
            u64::from(id) == self.id && u64::from(choice) == self.choice
        } else {
            true
        }
    }

    // Puts a part behind the bytes held, and answers how many are held then: 13 carries its length where it has no room, or more are held than the buffer has.
    pub(crate) fn put(self, part: &[u8], buf: &mut [u8]) -> Result<usize, Refusal>
        ensures { left (paper_written result) buf.new ≡ put_into self.held part.now buf.old }
    {
        if buf.len() < self.held {
            return Err(Refusal::NoRoom(part.len()));
        }
        numbers::extend_from_slice(part, buf, self.held)
    }
}
