// Tagged bodies, and the strict walk.
ghost use Rattle.std.specs.Prelude.{◌≡◌};
ghost use Rattle.bodies.specs.Scan.{body_from, body_for_from};
ghost use Rattle.walk.specs.Walk.{reported, walk_from};
ghost use Rattle.thaolisem.specs.Told.{told_body, told_walk};

// Tells the body whose opening tag is at a place: where its view lies, its number, and how many tags were read.
#[unsafe(no_mangle)]
pub extern "C" fn thaolisem_get_tagged_body(
    allowance: usize,
    buf: &[u8],
    place: usize,
    answer: &mut [u64; 8],
)
    ensures { answer.new ≡ told_body (body_from allowance buf.now place) }
{
    thaolisem::thaolisem_get_tagged_body(allowance, buf, place, answer);
}

// Tells the same of a body that has to have the number expected.
#[unsafe(no_mangle)]
pub extern "C" fn thaolisem_get_tagged_body_for_tag(
    expected: u8,
    allowance: usize,
    buf: &[u8],
    place: usize,
    answer: &mut [u64; 8],
)
    ensures { answer.new ≡ told_body (body_for_from expected allowance buf.now place) }
{
    thaolisem::thaolisem_get_tagged_body_for_tag(expected, allowance, buf, place, answer);
}

// Tells how many tags the strict walk from a place to the buffer's end accepts, and the refusal where it does not pass.
#[unsafe(no_mangle)]
pub extern "C" fn thaolisem_walk(buf: &[u8], place: usize, answer: &mut [u64; 8])
    ensures { answer.new ≡ told_walk (reported (walk_from buf.now place)) }
{
    thaolisem::thaolisem_walk(buf, place, answer);
}
