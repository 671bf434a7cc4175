// Floats made of bits, and ints made of floats.
ghost use Rattle.std.specs.Prelude.{◌≡◌, from_bits};
ghost use Rattle.std.specs.Float.{binary64};
ghost use Rattle.values.specs.Numbers.{whole_int, finite};

use table::kinds::is_finite;

// the whole number below the lowest int
const BELOW_INTS: f64 = -2147483649.0;

// the whole number above the highest int
const ABOVE_INTS: f64 = 2147483648.0;

// The float without its fraction, where that is an int.
pub fn whole_part(x: f64) -> Option<i32>
    ensures { result ≡ whole_int x }
{
    (x > BELOW_INTS && x < ABOVE_INTS).then_some(std::num::saturating_f64_to_i32(x))
}

// The float that the bits stand for, unless they are a NaN or an infinity.
pub fn float_of_bits(bits: u64) -> Option<f64>
    ensures { result ≡ finite (from_bits binary64 bits) }
{
    is_finite(bits).then(|| f64::from_bits(bits))
}
