// Elements laid out one behind the other in room that is lent. What stands behind them stays, so that the lender knows all that it finds there afterwards.
#![tactic(auto, unfolding(crate::specs::Listed::listed, crate::specs::Listed::behind, crate::specs::Listed::past))]

ghost use Rattle.std.specs.Prelude.{◌≡◌, ◌≤◌, ◌<◌, [], ◌∷◌, ◌++◌, length};

// The library has no heap, and an array in a struct by value would be copied as it is handed on: the room is lent.
#[derive(Drop)]
pub struct LentList<'a, T: Copy, const N: usize> {
    room: &'a mut [T],
    count: usize,
    ghost size: { length room.now ≡ N },
    ghost within: { count ≤ N },
}

impl<'a, T: Copy, const N: usize> LentList<'a, T, N> {
    ghost use Rattle.lent_room.specs.Listed.{listed, behind, past, whole, room_of};

    // Without elements. The room comes as a slice, since an array that becomes one here would go by another name in the proofs.
    pub fn over(room: &'a mut [T]) -> LentList<'a, T, N>
        requires { length room.old ≡ N }
        ensures list { listed result ≡ [] }
        ensures behind { behind result ≡ room_of room.entry }
    {
        LentList { room, count: 0 }
    }

    // So many elements are laid out.
    pub fn len(&self) -> usize
        ensures { result ≡ length (listed self.now) }
    {
        self.count
    }

    pub fn clear(&mut self)
        ensures list { listed self.new ≡ [] }
        ensures behind { behind self.new ≡ whole self.old }
    {
        self.count = 0;
    }

    pub fn push(&mut self, x: T)
        requires { length (listed self.old) < N }
        ensures list { listed self.new ≡ listed self.old ++ x ∷ [] }
        ensures behind { behind self.new ≡ past 1 (behind self.old) }
    {
        self.room[self.count] = x;
        self.count += 1;
    }

    pub fn as_slice(&self) -> &[T]
        ensures list { result.now ≡ listed self.now }
        ensures few { length result.now ≤ N }
    {
        &self.room[..self.count]
    }
}
