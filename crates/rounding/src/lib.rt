// Times in whole ms that floats yield: a processing time divided by a product of speeds, and rounded.
#![tactic(auto)]

ghost use Rattle.std.specs.Prelude.{◌≡◌, from_bits, Some};
ghost use Rattle.std.specs.Float.{binary64};
ghost use Rattle.rounding.specs.Rounding.{rounded, divided_by};
ghost use Rattle.rounding.specs.inner.Limited.{limited};

// A derived time that is refused: it is 2^53 ms or more, or not finite.
#[derive(Clone, Copy, PartialEq, Eq)]
pub struct TooLarge;

// 2^53. The floats below it have every whole number there.
const LIMIT: u64 = 9007199254740992;

const LIMIT_F64: f64 = 9007199254740992.0;

// A pattern that lies above infinity's, the sign aside, is a NaN's.
const INFINITY: u64 = 0x7ff0_0000_0000_0000;

const SIGN: u64 = 0x8000_0000_0000_0000;

// The float that a bit pattern stands for. No operation makes a float of a NaN's pattern, so that a NaN is worked out.
pub fn float_from_bits(bits: u64) -> f64
    ensures { result ≡ from_bits binary64 bits }
{
    if INFINITY < bits % SIGN {
        return 0.0 / 0.0;
    }
    f64::from_bits(bits)
}

// A time where it is below 2^53.
#[tactic(auto, unfolding(crate::specs::inner::Limited::limited))]
pub fn limit(ms: u64) -> Result<u64, TooLarge>
    ensures { result ≡ limited (Some ms) }
{
    if ms < LIMIT { Ok(ms) } else { Err(TooLarge) }
}

// x to the nearest whole number, halves away from zero.
fn round(x: f64) -> Result<u64, TooLarge>
    ensures { result ≡ limited (rounded x) }
{
    if x >= 0.0 && x < LIMIT_F64 {
        Ok(std::num::truncating_f64_to_u64(x.round()))
    } else {
        Err(TooLarge)
    }
}

// A processing time divided by a product of speeds.
#[tactic(auto, using(crate::proofs::Laws::divided_is))]
pub fn divided(process: u64, product: f64) -> Result<u64, TooLarge>
    ensures { result ≡ limited (divided_by process product) }
{
    round(std::num::nearest_u64_to_f64(process) / product)
}
