//! A pass for each of many callers, and all passes back at the end.
ghost use Rattle.std.specs.Prelude.{◌≡◌, ◌<◌, ◌≤◌, [], length, All, vec_len, vec_capacity};
ghost use Rattle.ossl_turn.specs.History.{IsHistory};
ghost use Rattle.ossl_turn.specs.Passes.{CameFrom, AreNumbered, Confirms, HasHistory, IsAfterSplits, IsFresh};

use crate::object::Object;
use crate::pass::Pass;
use crate::shared::Shared;
use std::alloc::Global;

impl<O: Object> Shared<O> {
    /// Splits off a pass for each of `count` callers, numbered from 1 on, into a list that has room for them and for
    /// the first pass. It takes no memory.
    pub fn split_all(&self, first: &mut Pass<O>, passes: &mut Vec<Pass<O>, Global>, count: usize)
        requires first { CameFrom self.now first.old × (first.old.number ≡ 0) × (first.old.made ≡ 0) }
        requires room { (passes.old.items ≡ []) × (count < vec_capacity passes.old) × (count < 65536) }
        ensures first { CameFrom self.now first.new × (first.new.number ≡ 0) × (first.new.made ≡ count) }
        ensures stays { IsAfterSplits count first.old first.new }
        ensures others { (length passes.new.items ≡ count) × All (CameFrom self.now) passes.new.items
            × AreNumbered passes.new.items }
        ensures fresh { All (IsFresh first.old) passes.new.items }

        // What each new pass has seen is lawful, and all in it is the first pass's own.
        ensures lawful { All (HasHistory (O.follows (O.fixed self.now.origin))) passes.new.items }
        ensures within { 0 < count → All (λ e. e.caller ≡ 0) first.old.seen }
        ensures room { vec_len passes.new < vec_capacity passes.new }
    {
        for _ in 0..count {
            let Ok(pass) = self.split(first) else {
                unreachable!()
            };
            passes.push_reserved(pass);
        }
    }

    /// Gives the object back, when the first pass and all that `split_all` made are back. It takes no memory.
    pub fn close_all(self, first: Pass<O>, mut passes: Vec<Pass<O>, Global>) -> O
        requires first { CameFrom self first × (first.number ≡ 0) × (first.made ≡ length passes.items) }
        requires others { All (CameFrom self) passes.items × AreNumbered passes.items }
        requires room { vec_len passes < vec_capacity passes }
        ensures fixed { O.fixed result ≡ O.fixed self.origin }
        ensures confirms_first { Confirms (O.history result) first }
        ensures confirms_others { All (Confirms (O.history result)) passes.items }
        ensures within { All (λ e. e.caller ≤ length passes.items) (O.history result) }
        ensures lawful { IsHistory (O.follows (O.fixed self.origin)) (O.history result) }
    {
        passes.push_reserved(first);
        self.close(passes)
    }
}
