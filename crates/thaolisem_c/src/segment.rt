// Frames of an answer in segments, taken with a state of eight numbers.
ghost use Rattle.std.specs.Prelude.{◌≡◌};
ghost use Rattle.segments.specs.Taking.{takes};
ghost use Rattle.thaolisem.specs.Segment.{state_in, numbers_then, told_taken};

// Takes one frame of an answer in segments: puts its part behind the bytes held in the lent buffer, and the state then into the lent numbers.
#[unsafe(no_mangle)]
pub extern "C" fn thaolisem_take_segment(
    state: &mut [u64; 8],
    frame: &[u8],
    buf: &mut [u8],
    answer: &mut [u64; 8],
)
    ensures answer_after { answer.new ≡ told_taken (takes (state_in state.old) frame.now buf.old).answer }
    ensures state_after { state.new ≡ numbers_then state.old (takes (state_in state.old) frame.now buf.old).answer }
    ensures buf_after { buf.new ≡ (takes (state_in state.old) frame.now buf.old).buffer }
{
    thaolisem::thaolisem_take_segment(state, frame, buf, answer);
}
