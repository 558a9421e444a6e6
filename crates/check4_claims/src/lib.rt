// What the requirements of an activity claim of a piece: the greedy claim of `check_piece_requirements` of scheduler/feasibility.rs, with marks
// in place of a list that gets shorter.
#![tactic(auto)]

ghost use Rattle.std.specs.Prelude.{◌≡◌, true, false, cond, [], ◌+◌, ◌<◌, ◌≤◌, length, set, None, Some};
ghost use Rattle.findings.specs.inner.Told.{so_far, tell};
ghost use Rattle.rows.specs.Cells.{row_count, num, is};
ghost use Rattle.sheet.specs.Places.{resource_place};
ghost use Rattle.sheet.specs.inner.Found.{found_of};
ghost use Rattle.check4_claims.specs.inner.Claims.{has_skill, candidate_of, lacking_of, claim_of, filled, claims_of, unclaimed_of, claimable, takes, requirement_rows, runs_on_in};

use check4_pieces::Piece;
use findings::{Findings, Violation, ViolationKind};
use owners::{LinkIndex, OwnerIndex, Owners};
use pieces::{HeldMarks, MarkedRows};
use rows::Kind;
use sheet::{Found, Rows};

// True at each booking of the piece that may be claimed. No heap: a mark for each of at most 800 rows.
fn free_in(rows: &MarkedRows, piece: Piece) -> [bool; 800]
    requires { piece.row ≤ row_count rows.now }
    ensures { unclaimed_of rows.now piece.row result ≡ runs_on_in rows.now piece.row piece.key }
{
    let mut free = [false; 800];
    for k in rows.owned_by(piece.row, Kind::Booking) {
        free[k] = check4_pieces::is_free(rows.as_slice(), rows.held(), piece.key, k);
    }
    free
}

// The row of booking k's resource, if it is a candidate of the requirement at row q. What is known of the two rows stands in three steps of one loop, this and
// the two that take it: a struct of them would be made in each turn of the loop and taken apart in each step.
fn candidate(rows: &Owners, q: usize, k: usize) -> Found
    requires { (q < row_count rows.now) × (is rows.now q 0 5 ≡ true) × (k < row_count rows.now) × (is rows.now k 0 23 ≡ true) }
    ensures { found_of result ≡ cond (candidate_of rows.now q (num rows.now k 3)) (resource_place rows.now (num rows.now k 3)) None }
{
    let Found::At(r) = rows.booked_resource(k) else {
        return Found::Nothing;
    };
    if candidates::is_candidate(&rows.by_owner(), q, r) {
        return Found::At(r);
    }
    Found::Nothing
}

// `has_skill` of the resource at row r.
fn has_skill(rows: &Owners, r: usize, skill: u64) -> bool
    requires { r ≤ row_count rows.now }
    ensures { result ≡ has_skill rows.now r skill }
{
    candidates::lists(&rows.by_owner(), r, Kind::Skill, 2, skill)
}

// The skills that the requirement at row q asks for and the resource x, of row r, lacks. Like `check4_pieces::report_missing` it is a walk with a test
// of its own, which is the contract: handed the test, one function of both would be these lines again.
#[tactic(auto, using(chains::proofs::PlaceLaws::left_all, findings::proofs::Reporting::tell_only, sheet::proofs::Lookups::place_low), unfolding(crate::specs::inner::Claims::lacking_for))]
fn report_lacking(rows: &Owners, q: usize, r: usize, x: u64, found: &mut Findings)
    requires { (q < row_count rows.now) × (resource_place rows.now x ≡ Some r) × (x < 9223372036854775808) }
    ensures { so_far found.new ≡ tell (so_far found.old) (lacking_of rows.now q x) }
{
    for k in rows.owned_by(q, Kind::WantedSkill) {
        found.report(
            !has_skill(rows, r, rows.num(k, 3)),
            Violation::of(4, ViolationKind::SkillMismatch, x),
        );
    }
}

// The row of booking k's resource, if k is marked and the resource is a candidate of the requirement at row q.
#[tactic(auto, unfolding(crate::specs::inner::Claims::claimable))]
fn claimant(rows: &Owners, free: &[bool; 800], q: usize, k: usize) -> Found
    requires { (q < row_count rows.now) × (is rows.now q 0 5 ≡ true) × (k < row_count rows.now) × (k < 800) × (is rows.now k 0 23 ≡ true) }
    ensures { found_of result ≡ cond (claimable rows.now q free.now k) (resource_place rows.now (num rows.now k 3)) None }
{
    if free[k] {
        return candidate(rows, q, k);
    }
    Found::Nothing
}

// Booking k, claimed where it may be and the requirement at row q is not filled yet; answers how many units that has claimed then.
#[tactic(auto, using(findings::proofs::SinkLaws::emit_none), unfolding(crate::specs::inner::Claims::takes, crate::specs::inner::Claims::claimable))]
fn claim_at(
    rows: &Owners,
    free: &mut [bool; 800],
    q: usize,
    units: u64,
    k: usize,
    found: &mut Findings,
) -> u64
    requires { (q < row_count rows.now) × (is rows.now q 0 5 ≡ true) × (k < row_count rows.now) × (k < 800) × (is rows.now k 0 23 ≡ true) }
    ensures wrote { so_far found.new ≡ tell (so_far found.old) (cond (takes rows.now q free.old units k) (lacking_of rows.now q (num rows.now k 3)) []) }
    ensures units { result ≡ units + cond (takes rows.now q free.old units k) 1 0 }
    ensures marks { free.new ≡ cond (takes rows.now q free.old units k) (set free.old k false) free.old }
{
    if units >= rows.num(q, 3) {
        return units;
    }
    let Found::At(r) = claimant(rows, free, q, k) else {
        return units;
    };
    free[k] = false;
    report_lacking(rows, q, r, rows.num(k, 3), found);
    units + 1
}

// What the requirement at row q claims of the bookings that are marked, and whether it is filled.
#[tactic(auto, using(model::proofs::OwnedLaws::owned_kind), unfolding(crate::proofs::Claiming::marks_from, crate::proofs::Claiming::told_from))]
fn fill(rows: &Owners, free: &mut [bool; 800], piece: Piece, q: usize, found: &mut Findings)
    requires { (piece.row ≤ row_count rows.now) × (q < row_count rows.now) × (is rows.now q 0 5 ≡ true) × (length free.old ≡ 800) }
    ensures wrote { so_far found.new ≡ tell (so_far found.old) (filled rows.now piece.activity q (unclaimed_of rows.now piece.row free.old)) }
    ensures left { unclaimed_of rows.now piece.row free.new ≡ (claim_of rows.now q (unclaimed_of rows.now piece.row free.old)).unclaimed }
    ensures size { length free.new ≡ 800 }
{
    let mut units: u64 = 0;
    for k in rows.owned_by(piece.row, Kind::Booking) {
        units = claim_at(rows, free, q, units, k, found);
    }
    found.report(
        units < rows.num(q, 3),
        Violation::of(4, ViolationKind::RequirementUnfilled, piece.activity),
    );
}

// The requirements in order, each of what those before it left.
#[tactic(auto, using(chains::proofs::PlaceLaws::left_all, model::proofs::OwnedLaws::owned_kind, crate::proofs::Claiming::asked, findings::proofs::SinkLaws::emit_none), unfolding(crate::specs::inner::Claims::claims_of))]
pub fn fill_all(rows: &MarkedRows, piece: Piece, found: &mut Findings)
    requires { piece.row ≤ row_count rows.now }
    ensures { so_far found.new ≡ tell (so_far found.old) (claims_of rows.now piece.activity (requirement_rows rows.now piece.row) (runs_on_in rows.now piece.row piece.key)) }
{
    let mut free = free_in(rows, piece);
    for q in rows.owned_by(piece.row, Kind::Requirement) {
        fill(rows.owners(), &mut free, piece, q, found);
    }
}
