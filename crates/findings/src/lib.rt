// Findings: the violations that the checks report, written to a lent buffer as lines of four numbers.
#![tactic(auto)]

ghost use Rattle.std.specs.Prelude.{◌≡◌, ◌<◌, true};
ghost use Rattle.loops.specs.Lists.{given};
ghost use Rattle.findings.specs.Kinds.{type_number, severity_of, violation_of};
ghost use Rattle.findings.specs.inner.Sink.{sink, put1, emit};
ghost use Rattle.findings.specs.inner.Told.{so_far, tell};

// The types of violations, by the source's names, each with its number.
#[derive(Clone, Copy, PartialEq, Eq)]
pub enum ViolationKind {
    DeadlineMiss = 1,
    CapacityExceeded = 2,
    PrecedenceViolation = 3,
    ResourceUnavailable = 4,
    SkillMismatch = 5,
    RequirementUnfilled = 6,
    TimeWindowViolation = 7,
    SynchronizeViolation = 8,
    UnknownActivity = 9,
    DurationTooShort = 10,
    EarlyStart = 11,
}

impl ViolationKind {
    // The number that a line has for it.
    pub fn number(self) -> u8
        ensures { result ≡ type_number self }
    {
        self as u8
    }

    pub fn severity(self) -> u8
        ensures { result ≡ severity_of self }
    {
        match self {
            ViolationKind::SkillMismatch => 70,
            ViolationKind::TimeWindowViolation | ViolationKind::SynchronizeViolation => 75,
            ViolationKind::DeadlineMiss => 80,
            ViolationKind::ResourceUnavailable => 85,
            ViolationKind::CapacityExceeded
            | ViolationKind::DurationTooShort
            | ViolationKind::EarlyStart => 90,
            ViolationKind::PrecedenceViolation
            | ViolationKind::RequirementUnfilled
            | ViolationKind::UnknownActivity => 95,
        }
    }
}

// A violation: the check that reports it, its type's number, the entity that it is of, and its severity. Type and severity are numbers: this is the record of
// the definition's lists, whose fields are a line's four numbers. Who reports one names a `ViolationKind`. That the entity is below 2^63 is asked where one is
// told: a ghost field would be asked of the definition's lists too.
#[derive(Clone, Copy, PartialEq, Eq)]
pub struct Violation {
    pub check: u8,
    pub kind: u8,
    pub entity: u64,
    pub severity: u8,
}

impl Violation {
    // What a check reports of an entity.
    pub fn of(check: u8, kind: ViolationKind, entity: u64) -> Violation
        ensures { result ≡ violation_of check kind entity }
    {
        Violation {
            check,
            kind: kind.number(),
            entity,
            severity: kind.severity(),
        }
    }
}

// One finding more: written where the buffer holds it, and counted in any case.
fn put(out: &mut [i64], n: usize, f: Violation) -> usize
    requires { f.entity < 9223372036854775808 }
    ensures { sink out.new result ≡ put1 (sink out.old n) f }
{
    let line = [
        i64::from(f.check),
        i64::from(f.kind),
        f.entity as i64,
        i64::from(f.severity),
    ];
    line_buffer::put(out, n, &line)
}

// The finding where the test holds, else nothing: of a lent buffer and a count that the caller keeps. `Findings` keeps both.
#[tactic(auto, using(crate::proofs::SinkLaws::emit_yes, crate::proofs::SinkLaws::emit_no))]
pub fn report(out: &mut [i64], n: usize, yes: bool, f: Violation) -> usize
    requires { f.entity < 9223372036854775808 }
    ensures { sink out.new result ≡ emit (sink out.old n) (given yes f) }
{
    if yes {
        return put(out, n, f);
    }
    n
}

// The findings so far: a lent buffer of lines, and how many were found.
#[derive(Drop)]
pub struct Findings<'a> {
    out: &'a mut [i64],
    found: usize,
}

impl<'a> Findings<'a> {
    // Nothing is found yet.
    pub fn new(out: &'a mut [i64]) -> Findings<'a>
        ensures { so_far result ≡ record { name = out.entry.ghost_name; sink = sink out.old 0 } }
    {
        Findings { out, found: 0 }
    }

    // So many were found before: the next line stands behind theirs.
    pub fn after(out: &'a mut [i64], found: usize) -> Findings<'a>
        ensures { so_far result ≡ record { name = out.entry.ghost_name; sink = sink out.old found } }
    {
        Findings { out, found }
    }

    // One finding more.
    pub fn tell(&mut self, f: Violation)
        requires { f.entity < 9223372036854775808 }
        ensures { so_far self.new ≡ tell (so_far self.old) (given true f) }
    {
        self.found = report(self.out, self.found, true, f);
    }

    // The finding where the test holds, else nothing.
    pub fn report(&mut self, yes: bool, f: Violation)
        requires { f.entity < 9223372036854775808 }
        ensures { so_far self.new ≡ tell (so_far self.old) (given yes f) }
    {
        self.found = report(self.out, self.found, yes, f);
    }

    // How many were found.
    pub fn len(&self) -> usize
        ensures { result ≡ self.now.found }
    {
        self.found
    }
}
