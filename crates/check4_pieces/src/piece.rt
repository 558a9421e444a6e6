// What check 4 asks about a piece.
#![tactic(auto)]

ghost use Rattle.std.specs.Prelude.{◌<◌};

// A piece of an activity: the activity's row and id, and the key of the part index. That its row is one of the rows each function asks: a piece has no rows,
// which are `Owners` here and `MarkedRows` there.
#[derive(Clone, Copy)]
pub struct Piece {
    pub row: usize,
    pub activity: u64,
    pub key: u64,
    // Findings hold signed numbers.
    pub ghost small: { activity < 9223372036854775808 },
}
