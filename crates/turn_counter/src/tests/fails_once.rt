//! Any object, one call of which finds no memory.
use ossl_turn::Object;
use std::alloc::AllocError;

/// The object, of which the call after `left` others is refused as for want of memory.
#[derive(Drop)]
pub struct FailsOnce<O> {
    pub object: O,
    pub left: u64,
}

impl<O: Object> Object for FailsOnce<O> {
    type Call = O::Call;

    type Reply = O::Reply;

    ghost Fixed = { O.Fixed };

    ghost fixed = { λ f. O.fixed f.object };

    ghost history = { λ f. O.history f.object };

    ghost follows = { O.follows };

    ghost may_call = { O.may_call };

    ghost needs_no_memory = { λ _ _ _. ⊥ };

    fn apply(&mut self, caller: u64, call: &O::Call) -> Result<O::Reply, AllocError> {
        let refused = self.left == 0;
        self.left = self.left.wrapping_sub(1);
        if refused {
            return Err(AllocError);
        }
        self.object.apply(caller, call)
    }
}
