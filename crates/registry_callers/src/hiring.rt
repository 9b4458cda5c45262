//! Callers of passes, and their passes back.
ghost use Rattle.std.specs.Prelude.{◌≡◌, ◌≤◌, [], length, All, vec_len, vec_capacity};
ghost use Rattle.ossl_core.specs.Owned.{OwnsNothing};
ghost use Rattle.ossl_turn.specs.Passes.{CameFrom, AreNumbered};
ghost use Rattle.registry_callers.specs.Counted.{AreCounted};

use ossl_core::Caller;
use ossl_provider::provider::Provider;
use ossl_registry::Registry;
use ossl_turn::{Pass, Shared};
use std::alloc::Global;

/// Makes a caller of each pass, into a list that has room for them. It takes no memory.
pub fn hire<P: Provider + Send>(
    shared: &Shared<Registry<P>>,
    passes: &mut Vec<Pass<Registry<P>>, Global>,
    callers: &mut Vec<Caller<P>, Global>,
)
    requires from { All (CameFrom shared.now) passes.old.items }
    requires numbered { AreNumbered passes.old.items }
    requires fresh { All (λ p. p.own ≡ []) passes.old.items }
    requires room { (callers.old.items ≡ []) × (vec_len passes.old ≤ vec_capacity callers.old) }
    ensures passes { (passes.new.items ≡ []) × (vec_capacity passes.new ≡ vec_capacity passes.old) }
    ensures from { All (CameFrom shared.now) callers.new.items }
    ensures nothing { All (λ c. OwnsNothing c.own) callers.new.items }
    ensures counted { AreCounted (length passes.old.items) callers.new.items }
    ensures count { length callers.new.items ≡ length passes.old.items }
{
    while let Some(pass) = passes.pop() {
        callers.push_reserved(Caller::new(pass));
    }
}

/// Gives the passes back, in the order of their numbers, into a list that has room for them. It takes no memory.
pub fn dismiss<P: Provider + Send>(
    shared: &Shared<Registry<P>>,
    mut callers: Vec<Caller<P>, Global>,
    passes: &mut Vec<Pass<Registry<P>>, Global>,
)
    requires from { All (CameFrom shared.now) callers.items }
    requires nothing { All (λ c. OwnsNothing c.own) callers.items }
    requires counted { AreCounted (vec_len callers) callers.items }
    requires room { (passes.old.items ≡ []) × (vec_len callers ≤ vec_capacity passes.old) }
    ensures count { length passes.new.items ≡ length callers.items }
    ensures capacity { vec_capacity passes.new ≡ vec_capacity passes.old }
    ensures from { All (CameFrom shared.now) passes.new.items }
    ensures numbered { AreNumbered passes.new.items }
{
    while let Some(caller) = callers.pop() {
        passes.push_reserved(caller.into_pass());
    }
    callers.destroy_empty();
}
