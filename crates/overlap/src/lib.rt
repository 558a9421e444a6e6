// How an activity overlaps the step of its task before it.
#![tactic(auto)]

ghost use Rattle.std.specs.Prelude.{◌≡◌, ◌/◌, ◌≤◌, T, pos, unsigned_abs};
ghost use Rattle.std.specs.Float.Ieee.Positive.{num, den};
ghost use Rattle.calendar.specs.Clock.{clock};
ghost use Rattle.overlap.specs.Bounds.{ceil_div, overlap_of, earliest_start, earliest_end};
ghost use Rattle.overlap.specs.inner.Shares.{product, is_share};

// The share of the previous step's span that must have passed before this one starts, in [0, 1],
// and the least time from the previous step's end to this one's.
#[derive(Clone, Copy)]
pub struct Overlap {
    pub start_after: f64,
    pub finish_after_ms: i64,
}

// A share of a span. An `Overlap` has a float as it stands in a row, which may be none, and `new` takes any.
#[derive(Clone, Copy)]
struct Share {
    value: f64,
    ghost in_range: { T (is_share value) },
}

impl Share {
    // value * span, rounded up.
    fn ceil_of(self, span: u64) -> u64
        requires { span ≤ 4000000000000 }
        ensures { (result ≡ ceil_div (num (product self.value span)) (den (product self.value span))) × (result ≤ span) }
    {
        let x = self.value * (span as f64);
        std::num::truncating_f64_to_u64(x.ceil())
    }

    // value * span, rounded down.
    fn floor_of(self, span: u64) -> u64
        requires { span ≤ 4000000000000 }
        ensures { (result ≡ num (product self.value span) / den (product self.value span)) × (result ≤ span) }
    {
        std::num::truncating_f64_to_u64(self.value * (span as f64))
    }
}

impl Overlap {
    // An overlap as a sheet has it, the share by its bits.
    pub fn new(bits: u64, lag: i64) -> Overlap
        ensures { result ≡ overlap_of bits lag }
    {
        Overlap {
            start_after: rounding::float_from_bits(bits),
            finish_after_ms: lag,
        }
    }

    // The earliest this step may start, given the previous step's span. It lies between the span's start and its end, also where the
    // end comes first.
    pub fn earliest_start(self, start: u64, end: u64) -> u64
        requires { T (is_share self.start_after) × (start ≤ 4000000000000) × (end ≤ 4000000000000) }
        ensures { (pos result ≡ earliest_start clock self (pos start) (pos end)) × (result ≤ 4000000000000) }
    {
        let share = Share {
            value: self.start_after,
        };
        if start <= end {
            start + share.ceil_of(end - start)
        } else {
            start - share.floor_of(start - end)
        }
    }

    // The earliest this step may end, given the previous step's end.
    pub fn earliest_end(self, end: u64) -> i64
        requires { (end ≤ 4000000000000) × (unsigned_abs self.finish_after_ms ≤ 4000000000000) }
        ensures { result ≡ earliest_end clock self (pos end) }
    {
        (end as i64) + self.finish_after_ms
    }
}
