// The time of a piece, an activity or one of its parts, on the resources that it runs on.
#![tactic(auto)]

ghost use Rattle.std.specs.Prelude.{◌≡◌, ◌+◌, ◌<◌, ◌^◌, Some, OkIff};
ghost use Rattle.rounding.specs.inner.Limited.{limited};
ghost use Rattle.resource_timing.specs.Durations.{total_ms, part_of, in_part, piece_duration, start, at_speed};
ghost use Rattle.resource_timing.specs.inner.Limits.{within, timed_of, longer_of, fixed_in, timed_with, derived_of};

use rounding::TooLarge;

// Time components of an activity.
#[derive(Clone, Copy)]
pub struct ActivityDuration {
    pub setup_ms: u64,
    pub process_ms: u64,
    pub teardown_ms: u64,
}

// A duration whose total is below 2^53, or word that it is refused.
pub type Derived = Result<ActivityDuration, TooLarge>;

// How an activity's time changes on one resource: processing runs at a speed, or the activity takes this long here.
#[derive(Clone, Copy)]
pub enum ResourceTiming {
    Speed(f64),
    Duration(ActivityDuration),
}

// One part of a split activity: how much of the processing it does, what the whole processing is, and what it adds to the teardown.
#[derive(Clone, Copy)]
pub struct PartTimes {
    pub work_ms: u64,
    pub whole_ms: u64,
    pub overhead_ms: u64,
}

// What a piece is judged as: the activity whole, or the part it is. No Option, since the whole activity is a piece too.
#[derive(Clone, Copy)]
pub enum Piece {
    Whole,
    InPart(PartTimes),
}

// What the resources of a piece have made of its time so far: the product of their speeds, and the fixed duration of greatest total, if
// there is any.
#[derive(Clone, Copy)]
pub struct Timed {
    speed: f64,
    fixed: Option<Derived>,
}

impl ActivityDuration {
    // Total duration (setup + process + teardown).
    #[tactic(auto, unfolding(rounding::specs::inner::Limited::limited))]
    pub fn total_ms(self) -> Result<u64, TooLarge>
        ensures { result ≡ limited (Some (total_ms self)) }
    {
        let sum = self.setup_ms.checked_add(self.process_ms).ok_or(TooLarge)?;
        rounding::limit(sum.checked_add(self.teardown_ms).ok_or(TooLarge)?)
    }

    // The duration where its total is below 2^53.
    #[tactic(auto, unfolding(rounding::specs::inner::Limited::limited, crate::specs::inner::Limits::within))]
    fn within(self) -> Derived
        ensures { result ≡ within (Some self) }
    {
        self.total_ms()?;
        Ok(self)
    }

    // The duration with its processing divided by a product of speeds; a product of 1.0 changes nothing.
    #[tactic(auto, unfolding(rounding::specs::inner::Limited::limited, crate::specs::inner::Limits::within, crate::specs::Durations::at_speed))]
    fn at_speed(self, speed: f64) -> Derived
        ensures { result ≡ within (at_speed self speed) }
    {
        if speed == 1.0 {
            return self.within();
        }
        let process_ms = rounding::divided(self.process_ms, speed)?;
        ActivityDuration { process_ms, ..self }.within()
    }
}

// The duration of greater total, the first of two equal ones. Not by `max_by_key`: it gives the last of equal ones, and either total may be refused.
#[tactic(auto, unfolding(rounding::specs::inner::Limited::limited, crate::specs::inner::Limits::longer_of, crate::specs::inner::Limits::time_of))]
fn longer(first: Derived, next: Derived) -> Derived
    ensures { result ≡ longer_of first next }
{
    let a = first?;
    let b = next?;
    if a.total_ms()? < b.total_ms()? {
        Ok(b)
    } else {
        Ok(a)
    }
}

// Part index of a split activity: its work, the activity's processing, and the split's overhead, which the parts after the first have.
pub fn part_of(index: i64, work: u64, whole: u64, overhead: u64) -> PartTimes
    ensures { result ≡ part_of index work whole overhead }
{
    PartTimes {
        work_ms: work,
        whole_ms: whole,
        overhead_ms: if 0 < index { overhead } else { 0 },
    }
}

impl PartTimes {
    // A duration with another processing time, and with the part's overhead in its teardown.
    fn of(self, d: ActivityDuration, process_ms: u64) -> Derived
        ensures { OkIff result (d.teardown_ms + self.overhead_ms < 2 ^ 64) (in_part d process_ms self) }
    {
        let teardown_ms = d.teardown_ms.checked_add(self.overhead_ms).ok_or(TooLarge)?;
        Ok(ActivityDuration {
            process_ms,
            teardown_ms,
            ..d
        })
    }
}

impl Piece {
    // The activity's duration, as the piece has it, at a product of speeds.
    #[tactic(auto, using(crate::proofs::Laws::at_beyond))]
    fn at_speed(self, base: ActivityDuration, speed: f64) -> Derived
        ensures { result ≡ within (at_speed (piece_duration self base) speed) }
    {
        match self {
            Piece::Whole => base.at_speed(speed),
            Piece::InPart(p) => p.of(base, p.work_ms)?.at_speed(speed),
        }
    }

    // A resource's own duration for the activity, as the piece has it.
    #[tactic(auto, unfolding(rounding::specs::inner::Limited::limited, crate::specs::inner::Limits::within))]
    fn fixed(self, d: ActivityDuration) -> Derived
        ensures { result ≡ within (fixed_in self d) }
    {
        match self {
            Piece::Whole => d.within(),
            Piece::InPart(p) => {
                let process_ms = part_share::share(d.process_ms, p.work_ms, p.whole_ms)?;
                p.of(d, process_ms)?.within()
            }
        }
    }
}

impl Timed {
    // Before the first resource.
    pub fn new() -> Timed
        ensures { result ≡ timed_of start }
    {
        Timed {
            speed: 1.0,
            fixed: None,
        }
    }

    // One resource more that the piece runs on, by the activity's timing there.
    #[tactic(auto, unfolding(crate::specs::inner::Limits::timed_with))]
    pub fn on(self, piece: Piece, timing: ResourceTiming) -> Timed
        ensures { result ≡ timed_with self piece timing }
    {
        match timing {
            ResourceTiming::Speed(s) => Timed {
                speed: self.speed * s,
                ..self
            },
            ResourceTiming::Duration(d) => {
                let next = piece.fixed(d);
                let fixed = match self.fixed {
                    Some(first) => longer(first, next),
                    None => next,
                };
                Timed {
                    fixed: Some(fixed),
                    ..self
                }
            }
        }
    }

    // The derived duration of the piece, once every resource has been seen. `base` is the activity's duration.
    pub fn duration(self, piece: Piece, base: ActivityDuration) -> Derived
        ensures { result ≡ derived_of self (piece_duration piece base) }
    {
        match self.fixed {
            Some(d) => d,
            None => piece.at_speed(base, self.speed),
        }
    }
}
