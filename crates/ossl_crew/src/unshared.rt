//! The registry before it is shared, and when all callers are done.

ghost use Rattle.std.specs.Prelude.{◌≡◌, map};
ghost use Rattle.ossl_calls.specs.Registry.{HasSheets, fixed_of};
ghost use Rattle.ossl_state.specs.History.{IsLegal};

use ossl_ordered::Program;
use ossl_property::Steps;
use ossl_provider::provider::Provider;
use ossl_registry::Registry;
use ossl_state::call::{Call, Entry, Reply};
use std::alloc::AllocError;
use std::marker::Model;
use std::sync::ledger::Ledger;

/// A registry that nobody shares, with which the program makes the calls of its opening and those of its closing.
#[derive(Drop)]
pub struct Unshared<P: Provider, L: Ledger> {
    registry: Registry<P>,
    steps: Steps<L>,
}

impl<P: Provider, L: Ledger> Model for Unshared<P, L> {
    ghost use Rattle.ossl_calls.specs.Registry.{Shown};

    ghost Value = { Shown P };

    ghost view = { λ r. r.registry };
}

impl<P: Provider, L: Ledger> Unshared<P, L> {
    /// A registry, with a counter of steps for its fetches.
    pub fn new(registry: Registry<P>, steps: Steps<L>) -> Unshared<P, L>
        ensures left { result ≡ registry }
        ensures legal { IsLegal (fixed_of P.facts result) result.entries }
    {
        let _history = registry.history();
        Unshared { registry, steps }
    }

    /// The registry, to be shared, and the counter.
    pub fn into_parts(self) -> (Registry<P>, Steps<L>)
        ensures registry { result.0 ≡ self }
    {
        let Unshared { registry, steps } = self;
        (registry, steps)
    }

    /// The history, and the boxes as it left them.
    pub fn close(self) -> (Vec<Entry>, Vec<P>)
        ensures entries { result.0.items ≡ self.entries }
        ensures boxes { result.1.items ≡ self.boxes }
        ensures legal { IsLegal (fixed_of P.facts self) self.entries }
        ensures sheets { HasSheets (fixed_of P.facts self) (map P.sheet self.boxes) self.entries }
    {
        let Unshared { registry, steps: _ } = self;
        registry.close()
    }
}

impl<P: Provider, L: Ledger> Program for Unshared<P, L> {
    ghost use Rattle.ossl_calls.specs.Registry.{fixed_of};

    ghost fixed = { λ r. fixed_of P.facts r };

    ghost entries = { λ r. r.entries };

    fn call(&mut self, call: &Call) -> Result<Reply, AllocError> {
        self.registry.apply(0, call, &mut self.steps)
    }
}
