// An optional tagged body.
ghost use Rattle.std.specs.Prelude.{◌≡◌};
ghost use Rattle.bodies.specs.Optional.{optional_from};
ghost use Rattle.thaolisem.specs.Told.{told_optional};

// Tells the body of the number expected if one stands at a place, as any body, and 1 that it is there; or what stands in its place, and 2 that it is absent.
#[unsafe(no_mangle)]
pub extern "C" fn thaolisem_get_optional_tagged_body(
    expected: u8,
    allowance: usize,
    buf: &[u8],
    place: usize,
    answer: &mut [u64; 8],
)
    ensures { answer.new ≡ told_optional place (optional_from expected allowance buf.now place) }
{
    thaolisem::thaolisem_get_optional_tagged_body(expected, allowance, buf, place, answer);
}
