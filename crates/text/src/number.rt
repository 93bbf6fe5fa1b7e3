// Numbers in decimal.
ghost use Rattle.std.specs.Prelude.{[], ◌∷◌, ◌++◌, ◌+◌, ◌≤◌, ◌<◌, length};
ghost use Rattle.text.specs.Text.{Wrote, digits, decimal, number_room};

// The room that a number takes at most: the twenty digits of 64 bits, and a space.
pub(crate) const NUMBER_ROOM: usize = 21;

// Puts a number and a space behind it. The library's `write!` would take 138 to 170 instructions a number; out of line, so that the loop over numbers stays small enough to be compiled into each line's.
#[inline(never)]
pub(crate) fn put_number(n: u64, out: &mut [u8], place: usize) -> usize
    requires { place + number_room ≤ length out.old }
    ensures wrote { Wrote out.old place (decimal n ++ (32 ∷ [])) out.new result }
    ensures upper_bound { result ≤ place + number_room }
{
    if n < 10 {
        out[place] = b'0' + n as u8;
        out[place + 1] = b' ';
        return place + 2;
    }
    if n < 100 {
        put_two(n, out, place);
        out[place + 2] = b' ';
        return place + 3;
    }
    if n < 1000 {
        out[place] = b'0' + (n / 100) as u8;
        put_two(n % 100, out, place + 1);
        out[place + 3] = b' ';
        return place + 4;
    }
    if n < 10000 {
        put_two(n / 100, out, place);
        put_two(n % 100, out, place + 2);
        out[place + 4] = b' ';
        return place + 5;
    }
    let next = put_digits(n, out, place);
    out[next] = b' ';
    next + 1
}

// Puts a number of two decimal digits.
fn put_two(n: u64, out: &mut [u8], place: usize)
    requires { (place + 2 ≤ length out.old) × (n < 100) }
    ensures { Wrote out.old place (digits 2 n) out.new (place + 2) }
{
    out[place] = b'0' + (n / 10) as u8;
    out[place + 1] = b'0' + (n % 10) as u8;
}

// Puts a number in decimal: the digits before the last, and the last.
fn put_digits(n: u64, out: &mut [u8], place: usize) -> usize
    requires { place + length (decimal n) ≤ length out.old }
    ensures { Wrote out.old place (decimal n) out.new result }
{
    if n < 10 {
        out[place] = b'0' + n as u8;
        return place + 1;
    }
    let last = put_digits(n / 10, out, place);
    out[last] = b'0' + (n % 10) as u8;
    last + 1
}
