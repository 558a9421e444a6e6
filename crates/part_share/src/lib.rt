// The share of a fixed processing time that a part of a split activity takes.
#![tactic(auto)]

ghost use Rattle.std.specs.Prelude.{◌≡◌, ◌≤◌, Some};
ghost use Rattle.rounding.specs.inner.Limited.{limited};
ghost use Rattle.part_share.specs.Share.{share_of};
ghost use Rattle.part_share.specs.inner.Within.{share_within};

use rounding::TooLarge;

// No time in a sheet is greater, and no lag is farther from 0.
pub const LONGEST: u64 = 4000000000000;

// 2^21. A time has two digits of 21 bits.
const DIGIT: u64 = 2097152;

// With a first digit of 2^32 the quotient is 2^53.
const FIRST_TOO_LARGE: u64 = 4294967296;

// The product ms * work has up to 84 bits. It is divided in two halves of work, 21 bits each, as in long division with two digits;
// what is left at the end, doubled, rounds. Division of u128 is a routine that a program linked without libraries does not have.
#[tactic(auto, using(crate::proofs::Laws::share_none, crate::proofs::Laws::high_fits, crate::proofs::Laws::share_beyond, crate::proofs::Laws::rest_fits, crate::proofs::Laws::low_fits, crate::proofs::Laws::sum_fits, crate::proofs::Laws::digits_fit, crate::proofs::Laws::twice_fits, crate::proofs::Laws::share_fits, crate::proofs::Laws::share_is))]
fn divide(ms: u64, work: u64, whole: u64) -> Result<u64, TooLarge>
    requires { (ms ≤ 4000000000000) × (work ≤ 4000000000000) × (whole ≤ 4000000000000) }
    ensures { result ≡ limited (Some (share_of ms work whole)) }
{
    if whole == 0 {
        return Ok(ms);
    }
    let high = ms * (work / DIGIT);
    let high_digit = high / whole;
    if FIRST_TOO_LARGE <= high_digit {
        return Err(TooLarge);
    }
    let low = high % whole * DIGIT + ms * (work % DIGIT);
    let n = high_digit * DIGIT + low / whole + low % whole * 2 / whole;
    rounding::limit(n)
}

// The share of any times. No sheet has greater ones than those that are divided.
#[tactic(auto, unfolding(crate::specs::inner::Within::share_within, rounding::specs::inner::Limited::limited))]
pub fn share(ms: u64, work: u64, whole: u64) -> Result<u64, TooLarge>
    ensures { result ≡ limited (share_within ms work whole) }
{
    if ms <= LONGEST && work <= LONGEST && whole <= LONGEST {
        divide(ms, work, whole)
    } else {
        Err(TooLarge)
    }
}
