// Reals and doubles, from and to their bits, with one NaN for all.
ghost use Rattle.std.specs.Prelude.{◌≡◌};
ghost use Rattle.std.specs.Float.{binary32, binary64};
ghost use Rattle.std.specs.Float.Ieee.{of_bits, to_bits};
ghost use Rattle.values.specs.Reading.{real_or_double, paper_value};

use crate::value::ApplicationDataValue;
use std::num::{
    f32_from_bits_with_nan, f32_to_bits_with_nan, f64_from_bits_with_nan, f64_to_bits_with_nan,
};
use types::Refusal;

// The float of a pattern; every NaN's pattern gives the one NaN.
pub fn real_of(bits: u32) -> f32
    ensures { result ≡ of_bits binary32 bits }
{
    f32_from_bits_with_nan(bits)
}

// The double of a pattern; every NaN's pattern gives the one NaN. (A trait over both formats would say the same four calls, and be no shorter.)
pub fn double_of(bits: u64) -> f64
    ensures { result ≡ of_bits binary64 bits }
{
    f64_from_bits_with_nan(bits)
}

// A float's pattern; the NaN's is 7FC00000.
pub fn real_bits(x: f32) -> u32
    ensures { result ≡ to_bits binary32 x }
{
    f32_to_bits_with_nan(x)
}

// A double's pattern; the NaN's is 7FF8000000000000.
pub fn double_bits(x: f64) -> u64
    ensures { result ≡ to_bits binary64 x }
{
    f64_to_bits_with_nan(x)
}

// The double of eight bytes, which 01 keeps under the Real tag, or the real of four; another length is refused.
#[tactic(auto, unfolding(crate::specs::Reading::real_or_double, crate::specs::Real::float_under))]
pub(crate) fn read_real_or_double(
    len: u32,
    buf: &[u8],
    place: usize,
) -> Result<(ApplicationDataValue, usize), Refusal>
    ensures { paper_value result ≡ real_or_double len buf.now place }
{
    match len {
        8 => {
            let (bits, next) = tags::read_eight_bytes(buf, place)?;
            Ok((ApplicationDataValue::Double(double_of(bits)), next))
        }
        4 => {
            let (bits, next) = tags::read_four_bytes(buf, place)?;
            Ok((ApplicationDataValue::Real(real_of(bits)), next))
        }
        _ => Err(Refusal::LengthNotAllowed(len)),
    }
}
