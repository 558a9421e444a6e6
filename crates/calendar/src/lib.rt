// Calendar time: sets of whole milliseconds that calendars list as windows.
//
// The windows of a calendar are lent as a slice. The windows of several calendars are lent as one slice, and each calendar as its places there:
// memory is fixed where calendars are laid out, so they are no slices of slices. Any places may be handed in.
#![tactic(auto)]

ghost use Rattle.std.specs.Prelude.{◌≡◌, true, false, cond, not, ◌&&◌, ◌||◌, [], ◌∷◌, ◌++◌, map, ℕ, ◌+◌, ◌-◌, min, ℤ, pos};
ghost use Rattle.calendar.specs.Clock.{clock};
ghost use Rattle.calendar.specs.Calendar.{Calendar, kind_of, opens, closes, contains, covers, hits, is_working_time, interval_fits, joint_working};
ghost use Rattle.calendar.specs.Amount.{joint_available_ms};
ghost use Rattle.calendar.specs.WorkEnd.{end_from, joint_work_end};
ghost use Rattle.calendar.specs.Layout.{window_of, windows_of, lists_of, calendars_of, saying};
ghost use Rattle.calendar.specs.Fit.{fit_of};
ghost use Rattle.calendar.specs.inner.Scan.{nearer, next_stop, last_instant, EndsBy, joint_look, AllEndBy};

// What a window says: work may run in it, or is blocked in it, or nothing.
#[derive(Clone, Copy, PartialEq, Eq)]
pub enum WindowKind {
    Open,
    Closure,
    Neither,
}

impl From<u64> for WindowKind {
    // Of the numbers of rows: 0 is an open window, 1 a closure.
    fn from(number: u64) -> WindowKind
        ensures { result ≡ kind_of number }
    {
        match number {
            0 => WindowKind::Open,
            1 => WindowKind::Closure,
            _ => WindowKind::Neither,
        }
    }
}

// A window [start, end).
#[derive(Clone, Copy)]
pub struct TimeWindow {
    pub kind: WindowKind,
    pub start: u64,
    pub end: u64,
}

impl TimeWindow {
    // Whether the instant t lies in the window.
    #[tactic(auto, unfolding(crate::specs::Calendar::contains))]
    fn contains(self, t: u64) -> bool
        ensures { result ≡ contains clock (pos t) (window_of self) }
    {
        self.start <= t && t < self.end
    }

    // Whether the window covers all of [a, e).
    #[tactic(auto, unfolding(crate::specs::Calendar::covers))]
    fn covers(self, a: u64, e: u64) -> bool
        ensures { result ≡ covers clock (pos a) (pos e) (window_of self) }
    {
        self.start <= a && e <= self.end
    }

    // Whether the window, as a closure, hits [a, e).
    #[tactic(auto, unfolding(crate::specs::Calendar::hits))]
    fn hits(self, a: u64, e: u64) -> bool
        ensures { result ≡ hits clock (pos a) (pos e) (window_of self) }
    {
        a < self.end && self.start < e
    }
}

// The places of a calendar's windows among those of several calendars: from `from` up to, not with, `to`. A place past the last window is the place
// of none.
#[derive(Clone, Copy)]
pub struct Places {
    pub from: usize,
    pub to: usize,
}

// What stands in room before a calendar is laid out there.
pub const NO_PLACES: Places = Places { from: 0, to: 0 };

impl Places {
    // Of all the windows, which are one calendar then.
    #[tactic(auto, using(crate::proofs::Windows::one_calendar))]
    pub fn all(windows: &[TimeWindow]) -> Places
        ensures { calendars_of windows.now (result ∷ []) ≡ map window_of windows.now ∷ [] }
    {
        Places {
            from: 0,
            to: windows.len(),
        }
    }

    // The windows at these places.
    #[tactic(auto, using(crate::proofs::Windows::slice_is))]
    pub fn windows_in(self, windows: &[TimeWindow]) -> &[TimeWindow]
        ensures { result.now ≡ windows_of windows.now self.from self.to }
    {
        let to = self.to.min(windows.len());
        let from = self.from.min(to);
        &windows[from..to]
    }
}

// When work ends: at an instant; or the start is no working time; or too little working time follows; or at an instant that is no u64.
// No Option or Result: that the work pauses at its start, or never ends, are answers of their own, and no refusal.
#[derive(Clone, Copy)]
pub enum WorkEnd {
    End(u64),
    Pause,
    Never,
    Beyond,
}

// ---- what windows say of a time

// What the windows of a calendar that were looked at say of a time: an open one is listed, an open one holds it, a closure hits it.
#[derive(Clone, Copy)]
struct Standing {
    listed: bool,
    held: bool,
    hit: bool,
}

impl Standing {
    // Before the first window.
    const NONE: Standing = Standing {
        listed: false,
        held: false,
        hit: false,
    };

    // With one window more, that would hold the time if it is open, and hit it if it is a closure.
    fn add(self, kind: WindowKind, holds: bool, hits: bool) -> Standing
        ensures { result ≡ record { listed = self.listed || opens kind; held = self.held || (opens kind && holds); hit = self.hit || (closes kind && hits) } }
    {
        let open = kind == WindowKind::Open;
        let closure = kind == WindowKind::Closure;
        Standing {
            listed: self.listed || open,
            held: self.held || open && holds,
            hit: self.hit || closure && hits,
        }
    }

    // Whether work may run in that time.
    fn allows(self) -> bool
        ensures { result ≡ ((not self.listed || self.held) && not self.hit) }
    {
        (!self.listed || self.held) && !self.hit
    }
}

// ---- whether an interval fits

// What the windows of a calendar that were looked at say of [start, end).
#[derive(Clone, Copy)]
pub struct Fit {
    start: u64,
    end: u64,
    standing: Standing,
}

impl Fit {
    // Before the first window.
    #[tactic(auto, unfolding(crate::specs::Fit::fit_of, crate::specs::Fit::standing_of, loops::specs::Lists::any_of))]
    pub fn over(start: u64, end: u64) -> Fit
        ensures { result ≡ fit_of [] start end }
    {
        Fit {
            start,
            end,
            standing: Standing::NONE,
        }
    }

    // With one window more.
    #[tactic(auto, using(crate::proofs::Windows::fit_more))]
    pub fn add(self, x: TimeWindow) -> Fit
        ensures { (l : Calendar ℤ) (a e : ℕ) → self ≡ fit_of l a e → result ≡ fit_of (l ++ window_of x ∷ []) a e }
    {
        let holds = x.covers(self.start, self.end);
        let hits = x.hits(self.start, self.end);
        Fit {
            standing: self.standing.add(x.kind, holds, hits),
            ..self
        }
    }

    // Whether [start, end) fits the calendar whole.
    #[tactic(auto, using(crate::proofs::Windows::fits_whole))]
    pub fn fits(self) -> bool
        ensures { (l : Calendar ℤ) (a e : ℕ) → self ≡ fit_of l a e → result ≡ interval_fits clock l (pos a) (pos e) }
    {
        self.standing.allows()
    }
}

// Whether [a, e) fits the calendar whole.
pub fn interval_fits(windows: &[TimeWindow], a: u64, e: u64) -> bool
    ensures { result ≡ interval_fits clock (map window_of windows.now) (pos a) (pos e) }
{
    let mut fit = Fit::over(a, e);
    for x in windows {
        fit = fit.add(*x);
    }
    fit.fits()
}

// ---- working time

// x if it lies between t and b, else b.
#[tactic(auto, unfolding(crate::specs::inner::Scan::nearer))]
fn nearer(t: u64, x: u64, b: u64) -> u64
    ensures { result ≡ nearer t x b }
{
    if t < x && x < b { x } else { b }
}

// Whether it is working time from an instant on, and the next instant at which that may change.
#[derive(Clone, Copy)]
struct Stretch {
    working: bool,
    stop: u64,
}

impl Stretch {
    // The working milliseconds from t up to the stop.
    fn gained(self, t: u64) -> u64
        ensures { result ≡ cond self.working (self.stop - t) 0 }
    {
        if self.working {
            self.stop.saturating_sub(t)
        } else {
            0
        }
    }
}

// The calendar from the instant t on, with its next stop if that is below b, else b.
#[tactic(auto, using(crate::proofs::Windows::works_is), unfolding(crate::specs::Fit::standing_of, loops::specs::Lists::any_of, crate::specs::inner::Scan::next_stop))]
fn look(windows: &[TimeWindow], t: u64, b: u64) -> Stretch
    ensures working { result.working ≡ is_working_time clock (map window_of windows.now) (pos t) }
    ensures stop { result.stop ≡ next_stop windows.now t b }
    ensures ends { EndsBy last_instant windows.now }
{
    let mut standing = Standing::NONE;
    let mut stop = b;
    for x in windows {
        let here = x.contains(t);
        standing = standing.add(x.kind, here, here);
        // The window's own stop comes first, so that only its comparison waits for the windows before: the processor looks at several at a time.
        stop = stop.min(nearer(t, x.end, nearer(t, x.start, u64::MAX)));
    }
    Stretch {
        working: standing.allows(),
        stop,
    }
}

// Whether t is working time of the calendar.
pub fn is_working_time(windows: &[TimeWindow], t: u64) -> bool
    ensures { result ≡ is_working_time clock (map window_of windows.now) (pos t) }
{
    look(windows, t, t).working
}

// Several calendars: the windows of all, and the places of each.
#[derive(Clone, Copy)]
pub struct Calendars<'a> {
    pub windows: &'a [TimeWindow],
    pub places: &'a [Places],
}

impl<'a> Calendars<'a> {
    // All of them from the instant t on, with their next stop if that is below b, else b.
    #[tactic(auto, unfolding(crate::specs::inner::Scan::joint_look, crate::specs::Layout::lists_of))]
    fn look(self, t: u64, b: u64) -> Stretch
        ensures value { result ≡ joint_look (lists_of self.entry.windows.now self.entry.places.now) t b }
        ensures ends { AllEndBy last_instant (lists_of self.entry.windows.now self.entry.places.now) }
    {
        let mut all = Stretch {
            working: true,
            stop: b,
        };
        for places in self.places {
            let here = look(places.windows_in(self.windows), t, all.stop);
            all = Stretch {
                working: all.working && here.working,
                stop: here.stop,
            };
        }
        all
    }

    // Whether t is working time of every one of the calendars.
    #[tactic(auto, using(crate::proofs::Stretches::looked_at))]
    pub fn joint_working(self, t: u64) -> bool
        ensures { result ≡ joint_working clock (calendars_of self.entry.windows.now self.entry.places.now) (pos t) }
    {
        self.look(t, t).working
    }

    // Joint working time within [a, e), in milliseconds.
    #[tactic(auto, using(crate::proofs::Answers::nearer_end))]
    pub fn joint_available_ms(self, a: u64, e: u64) -> u64
        ensures { result ≡ joint_available_ms clock (calendars_of self.entry.windows.now self.entry.places.now) (pos a) (pos e) }
    {
        let mut t = a;
        let mut sum = 0;
        // The walk goes from stop to stop, and counts no index.
        while t < e {
            let s = self.look(t, e);
            sum += s.gained(t);
            t = s.stop;
        }
        sum
    }

    // The first instant by which `work` milliseconds of joint working time have passed since `start`. A start in a pause is no obstacle here.
    #[tactic(auto, using(crate::proofs::Answers::nearer_end, crate::proofs::Answers::end_first_lem, crate::proofs::Answers::end_next, crate::proofs::Answers::answer_none, crate::proofs::Answers::answer_here, crate::proofs::Answers::answer_past, crate::proofs::Answers::answer_still))]
    pub fn end_from(self, start: u64, work: u64) -> WorkEnd
        ensures { result ≡ saying (end_from clock (calendars_of self.entry.windows.now self.entry.places.now) (pos start) work) }
    {
        if work == 0 {
            return WorkEnd::End(start);
        }
        let mut t = start;
        let mut left = work;
        // From stop to stop; at the last instant of a u64 every window has ended.
        while t < u64::MAX {
            let s = self.look(t, u64::MAX);
            let d = s.gained(t);
            if left <= d {
                return WorkEnd::End(t + left);
            }
            left -= d;
            t = s.stop;
        }
        if self.look(t, t).working {
            WorkEnd::Beyond
        } else {
            WorkEnd::Never
        }
    }

    // When `work` milliseconds of work started at `start` end, if it runs only while every one of the calendars works and pauses otherwise. Work below
    // zero counts as none.
    #[tactic(auto, using(crate::proofs::Answers::pause_here, crate::proofs::Answers::end_there, crate::proofs::Answers::amount_is))]
    pub fn joint_work_end(self, start: u64, work: i64) -> WorkEnd
        ensures { result ≡ saying (joint_work_end clock (calendars_of self.entry.windows.now self.entry.places.now) (pos start) work) }
    {
        if !self.joint_working(start) {
            return WorkEnd::Pause;
        }
        self.end_from(start, u64::try_from(work).unwrap_or(0))
    }
}
