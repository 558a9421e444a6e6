// Windows laid out one behind the other.
use calendar::{TimeWindow, WindowKind};
use lent_room::LentList;

// What stands in room before a window is laid out there. All zeros, so that a room of them is filled at once.
pub const NO_WINDOW: TimeWindow = TimeWindow {
    kind: WindowKind::Open,
    start: 0,
    end: 0,
};

// As many windows as a sheet has rows have room.
pub type WindowList<'a> = LentList<'a, TimeWindow, 800>;
