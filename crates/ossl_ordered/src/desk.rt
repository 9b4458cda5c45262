//! The registry of a run, and the counter that its fetches take.

ghost use Rattle.std.specs.Prelude.{◌≡◌, ◌≤◌, ◌<◌, ◌++◌, ◌∷◌, [], map, IsTrue, IsOk, IfOk, IfErr, OnErr};
ghost use Rattle.ossl_calls.specs.Registry.{HasSheets, IsCatalogue, fixed_of, state_of, takes_no_memory};
ghost use Rattle.ossl_state.specs.History.{IsAllowed, IsLegal};
ghost use Rattle.ossl_state.specs.Tokens.{entries_of};

use crate::program::Program;
use ossl_calls::plain::PlainRegistry;
use ossl_property::Steps;
use ossl_provider::provider::Provider;
use ossl_state::call::{Call, Entry, Reply};
use std::alloc::{AllocError, Global};
use std::marker::Model;
use std::sync::ledger::{Blank, Ledger};

/// A registry, and a counter of steps for its fetches.
#[derive(Drop)]
pub struct Desk<P: Provider, L: Ledger> {
    registry: PlainRegistry<P>,
    steps: Steps<L>,
}

impl<P: Provider, L: Ledger> Model for Desk<P, L> {
    ghost use Rattle.ossl_calls.specs.Registry.{Shown};

    ghost Value = { Shown P };

    ghost view = { λ d. d.registry };
}

/// Want of memory at the opening of a desk, with the boxes that were handed in.
#[derive(Drop)]
pub struct DeskRefused<P: Provider> {
    pub catalogue: Vec<P>,
}

impl<P: Provider, L: Ledger> Desk<P, L> {
    /// A registry over a catalogue of boxes, with 1 to 8 library contexts. Want of memory is the only refusal, and
    /// hands the boxes back.
    pub fn open(
        alloc: Global,
        blank: Blank,
        catalogue: Vec<P>,
        contexts: u64,
    ) -> Result<Desk<P, L>, DeskRefused<P>>
        requires name { blank.name ≡ L.name }
        requires parts { blank.parts ≡ L.parts }
        requires counted { 0 < L.parts }
        requires catalogue { IsCatalogue (map P.facts catalogue.items) (map P.sheet catalogue.items) }
        requires some { 1 ≤ contexts }
        requires few { contexts ≤ 8 }
        ensures ok { IfOk result (λ d. d ≡ record {
          boxes = catalogue.items;
          opened = map (λ b. (P.sheet b).faults) catalogue.items;
          contexts = contexts;
          entries = [];
        }) }
        ensures err { IfErr result (λ r. r.catalogue.items ≡ catalogue.items) }
    {
        match PlainRegistry::open(alloc, catalogue, contexts) {
            Ok(registry) => Ok(Desk {
                registry,
                steps: Steps::<L>::new(blank),
            }),
            Err(refused) => Err(DeskRefused {
                catalogue: refused.catalogue,
            }),
        }
    }

    /// Makes a call for a caller, and appends its entry.
    pub fn apply(&mut self, caller: u64, call: &Call) -> Result<Reply, AllocError>
        requires allowed { IsAllowed (fixed_of P.facts self.old) (entries_of caller self.old.entries) call.now }
        ensures entry { IfOk result (λ reply.
            self.new.entries ≡ self.old.entries ++ record { caller = caller; call = call.now; reply = reply } ∷ []) }
        ensures legal { IsLegal (fixed_of P.facts self.new) self.new.entries }
        ensures fixed { fixed_of P.facts self.new ≡ fixed_of P.facts self.old }
        ensures err { OnErr result (self.new ≡ self.old) }
        ensures no_memory { IsTrue (takes_no_memory (state_of P.facts self.old) call.now) → IsOk result }
    {
        self.registry.apply(caller, call, &mut self.steps)
    }

    /// The entries so far, each of them a step.
    pub fn history(&self) -> &[Entry]
        ensures entries { result.now ≡ self.now.entries }
        ensures legal { IsLegal (fixed_of P.facts self.now) self.now.entries }
    {
        self.registry.history()
    }

    /// The history, and the boxes as it left them.
    pub fn close(self) -> (Vec<Entry>, Vec<P>)
        ensures entries { result.0.items ≡ self.entries }
        ensures boxes { result.1.items ≡ self.boxes }
        ensures legal { IsLegal (fixed_of P.facts self) self.entries }
        ensures sheets { HasSheets (fixed_of P.facts self) (map P.sheet self.boxes) self.entries }
    {
        let Desk { registry, steps: _ } = self;
        registry.close()
    }
}

impl<P: Provider, L: Ledger> Program for Desk<P, L> {
    ghost use Rattle.ossl_calls.specs.Registry.{fixed_of};

    ghost fixed = { λ d. fixed_of P.facts d };

    ghost entries = { λ d. d.entries };

    fn call(&mut self, call: &Call) -> Result<Reply, AllocError> {
        self.apply(0, call)
    }
}
