// The rows of a sheet: ten numbers each, a kind, its columns, then zeros. What each kind's columns are stands in one table, which the
// validation of rows and the text reader read.
#![tactic(auto)]

ghost use Rattle.std.specs.Prelude.{◌≡◌, suc, ◌<◌, [], eqb, get_or, Some, None, MatchResult};
ghost use Rattle.loops.specs.Numbers.{to_nat};
ghost use Rattle.rows.specs.Kinds.{kind_of, kind_number};
ghost use Rattle.rows.specs.declared.Class.{Class};
ghost use Rattle.rows.specs.Table.{columns, class_of, width};
ghost use Rattle.rows.specs.inner.Padded.{padded, is_blank};
ghost use Rattle.rows.specs.Ranges.{range, is_none, in_class};
ghost use Rattle.rows.specs.Cells.{row_count, cell, num, is};

use Class::{
    ActivityId, Blank, ConstraintPlace, Count, Duration, Flag, Id, Instant, Number,
    OptionalDuration, OptionalInstant, OptionalNumber, RequirementPlace, ResourceId, ShareBits,
    SignedTime, SpeedBits, TaskId,
};

// ---- kinds

// The kinds of rows. Each counts one more than the one before it, from 1.
#[derive(Clone, Copy, PartialEq, Eq)]
pub enum Kind {
    Task = 1,
    Activity,
    Overlap,
    Split,
    Requirement,
    Candidate,
    WantedSkill,
    Predecessor,
    Speed,
    FixedTiming,
    Resource,
    Skill,
    Companion,
    Transport,
    ResourceWindow,
    ActivityWindow,
    Precedence,
    Capacity,
    TimeWindow,
    NoOverlap,
    Synchronize,
    Member,
    Booking,
    TimeOnlySpan,
}

// A number that stands for no kind.
#[derive(Clone, Copy, PartialEq, Eq)]
pub struct UnknownKind;

impl TryFrom<u64> for Kind {
    type Error = UnknownKind;

    ghost try_from_gives = { λ n r. MatchResult r (λ kind. kind_of n ≡ Some kind) (λ _. kind_of n ≡ None) };

    fn try_from(number: u64) -> Result<Self, UnknownKind> {
        match number {
            1 => Ok(Kind::Task),
            2 => Ok(Kind::Activity),
            3 => Ok(Kind::Overlap),
            4 => Ok(Kind::Split),
            5 => Ok(Kind::Requirement),
            6 => Ok(Kind::Candidate),
            7 => Ok(Kind::WantedSkill),
            8 => Ok(Kind::Predecessor),
            9 => Ok(Kind::Speed),
            10 => Ok(Kind::FixedTiming),
            11 => Ok(Kind::Resource),
            12 => Ok(Kind::Skill),
            13 => Ok(Kind::Companion),
            14 => Ok(Kind::Transport),
            15 => Ok(Kind::ResourceWindow),
            16 => Ok(Kind::ActivityWindow),
            17 => Ok(Kind::Precedence),
            18 => Ok(Kind::Capacity),
            19 => Ok(Kind::TimeWindow),
            20 => Ok(Kind::NoOverlap),
            21 => Ok(Kind::Synchronize),
            22 => Ok(Kind::Member),
            23 => Ok(Kind::Booking),
            24 => Ok(Kind::TimeOnlySpan),
            _ => Err(UnknownKind),
        }
    }
}

impl Kind {
    // The number that stands for the kind. A method here and for reasons and types of findings, and no `From`: a line of numbers asks for it by the
    // definition's name.
    pub fn number(self) -> u64
        ensures { result ≡ kind_number self }
    {
        self as u64
    }
}

// ---- the classes of columns

// What a column holds. A column that names what must be in the sheet has a class of its own.
#[derive(Clone, Copy, PartialEq, Eq)]
pub enum Class {
    // past the columns of the row's kind
    Blank,
    // column 0
    RowKind,
    Id,
    Number,
    Count,
    Instant,
    Duration,
    // an amount of time that may be negative
    SignedTime,
    Flag,
    // the bits of a float
    ShareBits,
    SpeedBits,
    // these three may be none
    OptionalNumber,
    OptionalInstant,
    OptionalDuration,
    TaskId,
    ActivityId,
    ResourceId,
    RequirementPlace,
    ConstraintPlace,
}

// The columns of each kind, from column 1 on, and the blank ones behind them: a constant table of tables, as the project's paper asks (docs/DECISIONS.md, 25),
// at the number of the kind, and 0 is none. No references to lists of them: those would lie in a section of the static library that can be written to.
#[rattlefmt::skip]
const CLASSES: [[Class; 9]; 25] = [
    [Blank, Blank, Blank, Blank, Blank, Blank, Blank, Blank, Blank], // none
    [Id, OptionalInstant, OptionalInstant, Blank, Blank, Blank, Blank, Blank, Blank], // Task
    [Id, TaskId, Number, Duration, Duration, Duration, Flag, OptionalInstant, Blank], // Activity
    [ActivityId, ShareBits, SignedTime, Blank, Blank, Blank, Blank, Blank, Blank], // Overlap
    [ActivityId, Number, Duration, Duration, Blank, Blank, Blank, Blank, Blank], // Split
    [ActivityId, Id, Number, Count, Blank, Blank, Blank, Blank, Blank], // Requirement
    [ActivityId, RequirementPlace, Id, Blank, Blank, Blank, Blank, Blank, Blank], // Candidate
    [ActivityId, RequirementPlace, Id, Blank, Blank, Blank, Blank, Blank, Blank], // WantedSkill
    [ActivityId, Id, Blank, Blank, Blank, Blank, Blank, Blank, Blank], // Predecessor
    [ActivityId, Id, SpeedBits, Blank, Blank, Blank, Blank, Blank, Blank], // Speed
    [ActivityId, Id, Duration, Duration, Duration, Blank, Blank, Blank, Blank], // FixedTiming
    [Id, Id, Number, Blank, Blank, Blank, Blank, Blank, Blank], // Resource
    [ResourceId, Id, Blank, Blank, Blank, Blank, Blank, Blank, Blank], // Skill
    [ResourceId, Id, Blank, Blank, Blank, Blank, Blank, Blank, Blank], // Companion
    [ResourceId, Id, Duration, Blank, Blank, Blank, Blank, Blank, Blank], // Transport
    [ResourceId, Flag, Instant, Instant, Blank, Blank, Blank, Blank, Blank], // ResourceWindow
    [ActivityId, Flag, Instant, Instant, Blank, Blank, Blank, Blank, Blank], // ActivityWindow
    [Id, Id, SignedTime, Blank, Blank, Blank, Blank, Blank, Blank], // Precedence
    [Id, Number, Blank, Blank, Blank, Blank, Blank, Blank, Blank], // Capacity
    [Id, Instant, Instant, Blank, Blank, Blank, Blank, Blank, Blank], // TimeWindow
    [Id, Blank, Blank, Blank, Blank, Blank, Blank, Blank, Blank], // NoOverlap
    [Blank, Blank, Blank, Blank, Blank, Blank, Blank, Blank, Blank], // Synchronize
    [ConstraintPlace, Id, Blank, Blank, Blank, Blank, Blank, Blank, Blank], // Member
    [Id, Id, Id, Instant, Instant, Duration, OptionalNumber, OptionalDuration, Blank], // Booking
    [Id, Id, Instant, Instant, Blank, Blank, Blank, Blank, Blank], // TimeOnlySpan
];

// The classes of a kind's columns, from column 1 on, and of the blank ones behind them. The kind by its number, here and in the next two: where it stands for
// no kind all is blank, and no caller has to ask that first.
fn columns_of(kind: u64) -> &'static [Class; 9]
    ensures { result.now ≡ padded (get_or columns kind []) }
{
    if kind < 25 {
        &CLASSES[kind as usize]
    } else {
        &CLASSES[0]
    }
}

// The class of column c in a row of a kind. Each column past the last is read as the blank one: a test of where the columns end goes the other way from row to
// row, a sixteenth of the validation of a week.
pub fn class_of(kind: u64, c: usize) -> Class
    ensures { result ≡ class_of kind c }
{
    if c == 0 {
        return Class::RowKind;
    }
    columns_of(kind)[(c - 1).min(8)]
}

// Whether a row of a kind has n numbers, the kind's own among them: the last stands in one of its columns, and the next column is blank.
#[tactic(auto, using(crate::proofs::Tables::width_zero, crate::proofs::Tables::width_longer, crate::proofs::Tables::width_last))]
pub fn has_width(kind: u64, n: usize) -> bool
    ensures { result ≡ eqb n (suc (width kind)) }
{
    if n == 0 || !class_of(kind, n).is_blank() {
        return false;
    }
    !class_of(kind, n - 1).is_blank()
}

// Whether a number stands for none. No Option: a cell is a number, by the C interface, and this one lies in the range of no column behind the kind.
#[tactic(auto, unfolding(crate::specs::Ranges::is_none, crate::specs::Ranges::between))]
pub fn is_none(x: i64) -> bool
    ensures { result ≡ is_none x }
{
    x == i64::MIN
}

// By class the least number of a column, the greatest, and whether it may be none. (A match would be a jump at each cell of a sheet. A static: a constant array
// of tuples is laid out on the stack at each read, and the validation of a week takes three times as long.)
static RANGES: [(i64, i64, bool); 19] = [
    (0, 0, false), // Blank
    (i64::MIN, i64::MAX, false), // RowKind
    (0, 999_999_999, false), // Id
    (-1_000_000, 1_000_000, false), // Number
    (0, 1_000_000, false), // Count
    (0, 4_000_000_000_000, false), // Instant
    (0, 4_000_000_000_000, false), // Duration
    (-4_000_000_000_000, 4_000_000_000_000, false), // SignedTime
    (0, 1, false), // Flag
    (0, 0x3ff0_0000_0000_0000, false), // ShareBits
    (0x3f50_0000_0000_0000, 0x4090_0000_0000_0000, false), // SpeedBits
    (-1_000_000, 1_000_000, true), // OptionalNumber
    (0, 4_000_000_000_000, true), // OptionalInstant
    (0, 4_000_000_000_000, true), // OptionalDuration
    (0, 999_999_999, false), // TaskId
    (0, 999_999_999, false), // ActivityId
    (0, 999_999_999, false), // ResourceId
    (0, 1_000_000, false), // RequirementPlace
    (0, 1_000_000, false), // ConstraintPlace
];

impl Class {
    // Whether it is of what comes past a kind's columns.
    #[tactic(auto, using(crate::proofs::Tables::blank_only))]
    fn is_blank(self) -> bool
        ensures { result ≡ is_blank self }
    {
        matches!(self, Class::Blank)
    }

    fn range(self) -> (i64, i64, bool)
        ensures { result ≡ ((range self).least, (range self).greatest, (range self).none?) }
    {
        RANGES[self as usize]
    }

    // Whether x may stand in a column of the class.
    #[tactic(auto, unfolding(crate::specs::Ranges::in_class, crate::specs::Ranges::in_range, crate::specs::Ranges::between))]
    pub fn allows(self, x: i64) -> bool
        ensures { result ≡ in_class self x }
    {
        let (least, greatest, optional) = self.range();
        (least..=greatest).contains(&x) || optional && is_none(x)
    }
}

// ---- cells

// How many rows there are.
pub fn row_count(rows: &[i64]) -> usize
    ensures { result ≡ row_count rows.now }
{
    rows.len() / 10
}

// Column c of row k, 0 past the end as the definition's `cell`. Whole rows come first: where several cells of one are read, the compiler asks that once.
#[tactic(auto, unfolding(crate::specs::Cells::cell))]
pub fn cell_at(rows: &[i64], k: usize, c: usize) -> i64
    ensures { result ≡ cell rows.now k c }
{
    if c < 10 && k < row_count(rows) {
        return rows[k * 10 + c];
    }
    cell_past(rows, k, c)
}

// The same, also past the last whole row; kept out of its callers, which hardly ever get here.
#[tactic(auto, unfolding(crate::specs::Cells::cell))]
#[inline(never)]
fn cell_past(rows: &[i64], k: usize, c: usize) -> i64
    ensures { result ≡ cell rows.now k c }
{
    if c < 10 && k < rows.len() {
        rows.get(k * 10 + c).copied().unwrap_or(0)
    } else {
        0
    }
}

// A number as a natural number, 0 for a negative one: the definition's `to_nat`, under one name for all who read a number so.
pub fn nat(x: i64) -> u64
    ensures { result ≡ to_nat x }
{
    x.max(0) as u64
}

// Column c of row k as a natural number, with its bound: what is reported fits a signed number.
pub fn num_at(rows: &[i64], k: usize, c: usize) -> u64
    ensures value { result ≡ num rows.now k c }
    ensures bound { result < 9223372036854775808 }
{
    nat(cell_at(rows, k, c))
}

// Whether column c of row k is v.
#[tactic(auto, unfolding(crate::specs::Cells::is))]
pub fn is_at(rows: &[i64], k: usize, c: usize, v: u64) -> bool
    ensures { result ≡ is rows.now k c v }
{
    num_at(rows, k, c) == v
}

// The kind of row k, if it is one.
pub fn kind_at(rows: &[i64], k: usize) -> Option<Kind>
    ensures { result ≡ kind_of (num rows.now k 0) }
{
    Kind::try_from(num_at(rows, k, 0)).ok()
}

// Whether row k is of that kind.
pub fn is_of_kind(rows: &[i64], k: usize, kind: Kind) -> bool
    ensures { result ≡ is rows.now k 0 (kind_number kind) }
{
    is_at(rows, k, 0, kind.number())
}
