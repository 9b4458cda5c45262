ghost use Rattle.std.specs.Prelude.{◌≡◌, ◌≤◌, ◌++◌, ◌∷◌, [], map, IsTrue, IsOk, IfOk, IfErr, OnErr};
ghost use Rattle.ossl_state.specs.History.{IsLegal, IsAllowed};
ghost use Rattle.ossl_calls.specs.Registry.{IsCatalogue, HasSheets, fixed_of, state_of, takes_no_memory};
ghost use Rattle.ossl_state.specs.Sound.{LegalIsSound};
ghost use Rattle.ossl_state.specs.Tokens.{entries_of};

use ossl_calls::{Call, Entry, OpenRefused, PlainRegistry, Reply};
use ossl_property::Steps;
use ossl_provider::boxed::Boxed;
use ossl_provider::provider::Provider;
use std::alloc::{AllocError, Global};
use std::marker::Model;
use std::sync::ledger::Ledger;

/// A registry over a catalogue of boxes. A clause sees its boxes, their counts of faults at the opening, the number of
/// its library contexts, and its history: the type keeps that it is legal, and that each box has done what it says.
#[derive(Drop)]
pub struct Registry<P: Provider = Boxed> {
    plain: PlainRegistry<P>,
}

impl<P: Provider> Model for Registry<P> {
    ghost use Rattle.ossl_calls.specs.Registry.{Shown};

    ghost Value = { Shown P };

    ghost view = { λ r. r.plain };
}

impl<P: Provider> Registry<P> {
    /// A registry over a catalogue of boxes, with 1 to 8 library contexts: at most 32 boxes, each with a name of its
    /// own, at most 256 rows and nothing ever started. Want of memory is the only refusal, and hands the boxes back.
    pub fn open(
        alloc: Global,
        catalogue: Vec<P>,
        contexts: u64,
    ) -> Result<Registry<P>, OpenRefused<P>>
        requires catalogue { IsCatalogue (map P.facts catalogue.items) (map P.sheet catalogue.items) }
        requires some { 1 ≤ contexts }
        requires few { contexts ≤ 8 }
        ensures ok { IfOk result (λ r. r ≡ record {
          boxes = catalogue.items;
          opened = map (λ b. (P.sheet b).faults) catalogue.items;
          contexts = contexts;
          entries = [];
        }) }
        ensures err { IfErr result (λ r. r.catalogue.items ≡ catalogue.items) }
    {
        let plain = PlainRegistry::open(alloc, catalogue, contexts)?;
        Ok(Registry { plain })
    }

    /// Makes a call for a caller, and appends its entry. The caller owns each token that the call names, and the
    /// library context that it names is one of the registry's.
    ///
    /// A call that is refused memory leaves all as it was. The calls that give something back are never refused it, nor
    /// is the closing of an open library context. `steps` is handed to the scores of a fetch; nothing is said of its
    /// number.
    pub fn apply<L: Ledger>(
        &mut self,
        caller: u64,
        call: &Call,
        steps: &mut Steps<L>,
    ) -> Result<Reply, AllocError>
        requires allowed { IsAllowed (fixed_of P.facts self.old) (entries_of caller self.old.entries) call.now }

        // One entry is appended, and it is a step of the definition.
        ensures entry { IfOk result (λ reply.
            self.new.entries ≡ self.old.entries ++ record { caller = caller; call = call.now; reply = reply } ∷ []) }
        ensures legal { IsLegal (fixed_of P.facts self.new) self.new.entries }

        // Each box has done what the history says: what is up, its starts, and its count of faults.
        ensures sheets { HasSheets (fixed_of P.facts self.new) (map P.sheet self.new.boxes) self.new.entries }
        ensures fixed { fixed_of P.facts self.new ≡ fixed_of P.facts self.old }
        ensures err { OnErr result (self.new ≡ self.old) }
        ensures no_memory { IsTrue (takes_no_memory (state_of P.facts self.old) call.now) → IsOk result }
    {
        self.plain.apply(caller, call, steps)
    }

    /// The entries so far, each of them a step.
    pub fn history(&self) -> &[Entry]
        ensures entries { result.now ≡ self.now.entries }
        ensures legal { IsLegal (fixed_of P.facts self.now) self.now.entries }
        ensures sheets { HasSheets (fixed_of P.facts self.now) (map P.sheet self.now.boxes) self.now.entries }
        // And what holds of every legal history: numbers are distinct, and a token that is owned is live.
        ensures sound { LegalIsSound }
    {
        self.plain.history()
    }

    /// The history, and the boxes as it left them.
    pub fn close(self) -> (Vec<Entry>, Vec<P>)
        ensures entries { result.0.items ≡ self.entries }
        ensures boxes { result.1.items ≡ self.boxes }
        ensures legal { IsLegal (fixed_of P.facts self) self.entries }
        ensures sheets { HasSheets (fixed_of P.facts self) (map P.sheet self.boxes) self.entries }
    {
        let Registry { plain } = self;
        plain.close()
    }
}
