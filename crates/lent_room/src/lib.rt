// Room that is lent: elements are put to it from a place on, as far as it goes, and the place after them is told, or the room's end; or it is a list, which
// knows how many elements it has. Room and place travel as two, and the answer is the next place: a struct of both would have to tell in each clause whose room
// it is, as `findings::Findings` does, where `Wrote` says all in one.
#![tactic(auto)]

ghost use Rattle.std.specs.Prelude.{[], ◌∷◌, ◌≤◌, length};
ghost use Rattle.loops.specs.inner.Wrote.{Wrote};

mod lent_list;

pub use lent_list::LentList;

// Whoever puts several has a `for` of its own (stored_numbers `put_zeros`, `put_pieces`, `put_lines`, stored_bytes `put_copies`, `put_texts`): one for all
// would take a closure that writes, and its contract would have to say what each writes.
pub fn put<T: Copy>(out: &mut [T], at: usize, x: T) -> usize
    requires { at ≤ length out.old }
    ensures { Wrote out.old at out.new result (x ∷ []) }
{
    if at == out.len() {
        return at;
    }
    out[at] = x;
    at + 1
}

pub fn put_all<T: Copy>(out: &mut [T], at: usize, xs: &[T]) -> usize
    requires { at ≤ length out.old }
    ensures { Wrote out.old at out.new result xs.now }
{
    let n = xs.len().min(out.len() - at);
    out[at..at + n].copy_from_slice(&xs[..n]);
    at + n
}
