// Chains of places: from a place to the next one that passes a test. A walk along a chain is an iterator over its places.
#![tactic(auto)]

ghost use Rattle.std.specs.Prelude.{◌≡◌, ◌≤◌, ℕ, Bool, true};
ghost use Rattle.std.specs.Iterator.{YieldsFirst, item_count};
ghost use Rattle.loops.specs.Lists.{head, keep, among};
ghost use Rattle.chains.specs.inner.Along.{Means};
ghost use Rattle.chains.specs.Places.{places};

mod chain_table;

pub use chain_table::ChainTable;
use std::marker::Model;

// The places below an end that pass a test, each of which leads to the next. The end stands for none, as in the tables: a walk may stop at an earlier end, and one
// comparison with that tells both.
pub trait Chain {
    ghost use Rattle.std.specs.Prelude.{◌≡◌, ◌<◌, suc, ℕ, Bool};
    ghost use Rattle.loops.specs.Search.{first_place};
    ghost use Rattle.loops.specs.inner.Chain.{First, Stands};

    ghost test: { Self → ℕ → Bool };

    ghost end: { Self → ℕ };

    // The place behind the last.
    fn end_place(&self) -> usize
        ensures { result ≡ end self.now };

    // The first place that passes the test, the end for none.
    fn first_place(&self) -> usize
        ensures { First (test self.now) 0 (end self.now) result };

    // The next place that does after place i, which does; the end for none.
    fn next_place(&self, i: usize) -> usize
        requires { Stands (test self.now) (end self.now) i × (i < end self.now) }
        ensures { First (test self.now) (suc i) (end self.now) result };

    // The first place, if there is one. A walk would look for the next as well.
    fn find_first(&self) -> Option<usize>
        ensures { result ≡ first_place (test self.now) (end self.now) }
    {
        let k = self.first_place();
        if k < self.end_place() {
            return Some(k);
        }
        None
    }
}

// The places of a chain that are left; seen as their list.
#[derive(Drop)]
pub struct Walk<C: Chain + Drop> {
    chain: C,
    at: usize,
    end: usize,
}

impl<C: Chain + Drop> Model for Walk<C> {
    ghost use Rattle.std.specs.Prelude.{List, ℕ, ◌≤◌};
    ghost use Rattle.loops.specs.inner.Chain.{Stands};
    ghost use Rattle.chains.specs.Places.{places};
    ghost use Rattle.chains.specs.inner.Left.{from};

    ghost Value = { List ℕ };

    ghost view = { λ w. places (from w.at (C.test w.chain)) w.end };

    ghost invariant = { λ w. Stands (C.test w.chain) (C.end w.chain) w.at × (w.end ≤ C.end w.chain) };
}

impl<C: Chain + Drop> Walk<C> {
    // The places of a chain.
    pub fn new(chain: C) -> Walk<C>
        ensures { result ≡ places (C.test chain) (C.end chain) }
    {
        let end = chain.end_place();
        Walk::below(chain, end)
    }

    // Those below a place.
    pub fn below(chain: C, end: usize) -> Walk<C>
        requires { end ≤ C.end chain }
        ensures { result ≡ places (C.test chain) end }
    {
        let at = chain.first_place();
        Walk { chain, at, end }
    }

    // The first of them, if there is one; the walk stays where it is. `next` would look for the place behind it as well.
    pub fn peek(&self) -> Option<usize>
        ensures { result ≡ head self.now }
    {
        if self.at < self.end {
            return Some(self.at);
        }
        None
    }

    // The first of them that passes a test, if one does; the walk stays where it is. A loop by hand: `find` and `any` ask for the next place before they test one,
    // and so look for the one behind that which they give.
    pub fn find_passing<F: Fn(usize) -> bool>(&self, test: F) -> Option<usize>
        requires callable { (k : ℕ) → among k self.now ≡ true → F.pre test k }
        ensures { (q : ℕ → Bool) → Means (λ k. among k self.now) q (F.post test) → result ≡ head (keep q self.now) }
    {
        let mut k = self.at;
        while k < self.end {
            if test(k) {
                return Some(k);
            }
            k = self.chain.next_place(k);
        }
        None
    }
}

impl<C: Chain + Drop> Iterator for Walk<C> {
    type Item = usize;

    ghost next_gives = { YieldsFirst (λ rest. rest) };

    ghost remaining = { item_count (λ rest. rest) };

    fn next(&mut self) -> Option<usize> {
        let k = self.at;
        if k < self.end {
            self.at = self.chain.next_place(k);
            return Some(k);
        }
        None
    }
}
