ghost use Rattle.std.specs.Prelude.{◌≡◌, ◌≤◌, ◌+◌, ◌++◌, ◌∷◌, [], length, map, IsTrue, IsOk, IfOk, IfErr, OnErr};
ghost use Rattle.ossl_calls.specs.Change.{IsChangeable, changed};
ghost use Rattle.ossl_calls.specs.Events.{Appends, Keeps, Takes};
ghost use Rattle.ossl_calls.specs.Registry.{IsCatalogue, HasSheets, fixed_of, state_of, takes_no_memory};
ghost use Rattle.ossl_state.specs.Boxes.{facts_at};
ghost use Rattle.ossl_state.specs.Going.{answer_of, returned_by, without_going};
ghost use Rattle.ossl_state.specs.History.{IsLegal, IsAllowed, IsNext};
ghost use Rattle.ossl_state.specs.Next.{LegalIsEachNext};
ghost use Rattle.ossl_state.specs.Sound.{IsSound, LegalIsSound, giving_back, lent_after, lent_by};
ghost use Rattle.ossl_state.specs.State.{lib_at, up_instances};
ghost use Rattle.ossl_state.specs.Tokens.{entries_of};

mod elements;
mod fetches;
mod loads;

use crate::boxes::counts_of;
use crate::change::{Change, apply_change};
use crate::room::{ONE_MORE, record, reserve_room};
use crate::stopping::stop_going;
use ossl_property::Steps;
use ossl_provider::boxed::Boxed;
use ossl_provider::provider::Provider;
use ossl_state::call::{Call, Entry, Reply};
use ossl_state::element::name_at;
use ossl_state::going::{answer, returned, take_out};
use ossl_state::lookup::{is_open_lib, is_up_instance};
use ossl_state::opening::open_state;
use ossl_state::state::{Going, State};
use std::alloc::{AllocError, Global};
use std::marker::Model;
use std::sync::ledger::Ledger;

/// A registry that keeps plain lists: the definition's plain program. Its type keeps that the history is legal, that
/// each box has done what the history says, and that there is room for the entries by which all is given back.
///
/// It looks at all instances and all live elements at each call.
#[derive(Drop)]
pub struct PlainRegistry<P: Provider = Boxed> {
    alloc: Global,
    boxes: Vec<P>,
    opened: Vec<u64>,
    contexts: u64,
    state: State,
    // How many activations were handed out and not given back, at most: each takes an entry to give back.
    lent: usize,
    history: Vec<Entry>,
}

impl<P: Provider> Model for PlainRegistry<P> {
    ghost use Rattle.std.specs.Prelude.{◌+◌, ◌≤◌, length, map, vec_len, vec_capacity};
    ghost use Rattle.ossl_calls.specs.Kept.{IsKept};
    ghost use Rattle.ossl_calls.specs.Registry.{Shown};
    ghost use Rattle.ossl_state.specs.Sound.{giving_back, lent_after};

    ghost Value = { Shown P };

    ghost view = { λ r. record {
      boxes = r.boxes.items;
      opened = r.opened.items;
      contexts = r.contexts;
      entries = r.history.items;
    } };

    ghost invariant = { λ r.
        IsKept (record { facts = map P.facts r.boxes.items; contexts = r.contexts; opened = r.opened.items })
        (map P.sheet r.boxes.items) r.state r.history.items
        × (length (lent_after r.history.items) ≤ r.lent)
        × (vec_len r.history + giving_back r.state + r.lent ≤ vec_capacity r.history) };
}

/// Want of memory at the opening of a registry, with the boxes that were handed in.
#[derive(Drop)]
pub struct OpenRefused<P: Provider = Boxed> {
    pub catalogue: Vec<P>,
}

/// An instance that is up: its provider's place in the catalogue, and its number.
#[derive(Debug, Clone, Copy, PartialEq, Eq)]
pub struct Up {
    pub place: usize,
    pub number: u64,
}

impl<P: Provider> PlainRegistry<P> {
    /// A registry over a catalogue of boxes, with 1 to 8 library contexts: at most 32 boxes, each with a name of its
    /// own, at most 256 rows and nothing ever started. Want of memory is the only refusal, and hands the boxes back.
    pub fn open(
        alloc: Global,
        catalogue: Vec<P>,
        contexts: u64,
    ) -> Result<PlainRegistry<P>, OpenRefused<P>>
        requires catalogue { IsCatalogue (map P.facts catalogue.items) (map P.sheet catalogue.items) }
        requires some { 1 ≤ contexts }
        requires few { contexts ≤ 8 }
        ensures ok { IfOk result (λ r. r ≡ record {
          boxes = catalogue.items;
          opened = map (λ b. (P.sheet b).faults) catalogue.items;
          contexts = contexts;
          entries = [];
        }) }
        ensures err { IfErr result (λ r. r.catalogue.items ≡ catalogue.items) }
    {
        let Ok(opened) = counts_of(alloc, catalogue.as_slice()) else {
            return Err(OpenRefused { catalogue });
        };
        let Ok(state) = open_state(alloc, contexts) else {
            return Err(OpenRefused { catalogue });
        };
        let mut history = Vec::new(alloc);
        let Ok(()) = reserve_room(&mut history, &state, 0) else {
            return Err(OpenRefused { catalogue });
        };
        Ok(PlainRegistry {
            alloc,
            boxes: catalogue,
            opened,
            contexts,
            state,
            lent: 0,
            history,
        })
    }

    /// Makes a call for a caller, and appends its entry. The caller owns each token that the call names, and the
    /// library context that it names is one of the registry's.
    ///
    /// A call that is refused memory leaves all as it was. The calls that give something back are never refused it, nor
    /// is the closing of an open library context. `steps` is handed to the scores of a fetch; nothing is said of its
    /// number.
    pub fn apply<L: Ledger>(
        &mut self,
        caller: u64,
        call: &Call,
        steps: &mut Steps<L>,
    ) -> Result<Reply, AllocError>
        requires allowed { IsAllowed (fixed_of P.facts self.old) (entries_of caller self.old.entries) call.now }

        // One entry is appended, and it is a step of the definition.
        ensures entry { IfOk result (λ reply.
            self.new.entries ≡ self.old.entries ++ record { caller = caller; call = call.now; reply = reply } ∷ []) }
        ensures legal { IsLegal (fixed_of P.facts self.new) self.new.entries }

        // Each box has done what the history says: what is up, its starts, and its count of faults.
        ensures sheets { HasSheets (fixed_of P.facts self.new) (map P.sheet self.new.boxes) self.new.entries }
        ensures fixed { fixed_of P.facts self.new ≡ fixed_of P.facts self.old }
        ensures err { OnErr result (self.new ≡ self.old) }
        ensures no_memory { IsTrue (takes_no_memory (state_of P.facts self.old) call.now) → IsOk result }
    {
        let reply = match call {
            Call::Load { lib, name, retain } => self.load(caller, *lib, name, *retain),
            Call::Unload { token } => Ok(self.unload(caller, *token)),
            Call::SetDefault { lib, query } => self.set_default(caller, *lib, query),
            Call::Fetch {
                lib,
                op,
                name,
                query,
            } => self.fetch(caller, *lib, *op, name, query, steps),
            Call::UpRef { handle } => self.up_ref(caller, *handle),
            Call::Free { handle } => Ok(self.free(caller, *handle)),
            Call::NewCtx {
                handle,
                inner,
                key_len,
            } => self.new_ctx(caller, *handle, *inner, *key_len),
            Call::FreeCtx { handle } => Ok(self.free_ctx(caller, *handle)),
            Call::CloseLib { lib } => self.close_lib(caller, *lib),
        };
        // The type's facts are told of what is looked at.
        let _ = &self.history;
        reply
    }

    /// The entries so far, each of them a step.
    pub fn history(&self) -> &[Entry]
        ensures entries { result.now ≡ self.now.entries }
        ensures legal { IsLegal (fixed_of P.facts self.now) self.now.entries }
        ensures sheets { HasSheets (fixed_of P.facts self.now) (map P.sheet self.now.boxes) self.now.entries }
        // And what holds of every legal history: numbers are distinct, and a token that is owned is live.
        ensures sound { LegalIsSound }
        // A legal history is a list of which each entry may come next after those before it.
        ensures next { LegalIsEachNext }
    {
        self.history.as_slice()
    }

    /// The instances that are up, by increasing number.
    pub fn up(&self) -> Result<Vec<Up>, AllocError>
        ensures { IfOk result (λ ups.
            ups.items ≡ map (λ b. record { place = b.place; number = b.number })
            (up_instances (state_of P.facts self.now))) }
    {
        let state = &self.state;
        let born = state.born.as_slice();
        born.iter()
            .filter(|b| is_up_instance(state, b))
            .map(|b| Up {
                place: b.place,
                number: b.number,
            })
            .collect(self.alloc)
    }

    /// The name of the provider at a place of the catalogue, empty where there is none.
    pub fn provider_name(&self, place: usize) -> &[u8]
        ensures { result.now ≡ (facts_at (map P.facts self.now.boxes) place).name }
    {
        name_at(self.boxes.as_slice(), place)
    }

    /// The history, and the boxes as it left them.
    pub fn close(self) -> (Vec<Entry>, Vec<P>)
        ensures entries { result.0.items ≡ self.entries }
        ensures boxes { result.1.items ≡ self.boxes }
        ensures legal { IsLegal (fixed_of P.facts self) self.entries }
        ensures sheets { HasSheets (fixed_of P.facts self) (map P.sheet self.boxes) self.entries }
    {
        let PlainRegistry {
            alloc: _,
            boxes,
            opened: _,
            contexts: _,
            state: _,
            lent: _,
            history,
        } = self;
        (history, boxes)
    }

    /// The number of the next entry.
    fn next(&self) -> u64
        ensures { result ≡ (state_of P.facts self.now).next }
    {
        self.state.next
    }

    /// Whether a library context is open.
    fn is_open(&self, lib: u64) -> bool
        ensures open { result ≡ (lib_at (state_of P.facts self.now) lib).is_open }
        ensures sound { IsSound (fixed_of P.facts self.now) (state_of P.facts self.now) self.now.entries }
    {
        is_open_lib(self.state.libs.as_slice(), lib)
    }

    /// Appends an entry that starts and stops nothing.
    fn put(
        &mut self,
        caller: u64,
        call: Call,
        reply: Reply,
        change: Change,
    ) -> Result<Reply, AllocError>
        requires step { IsNext (fixed_of P.facts self.old) self.old.entries
            (record { caller = caller; call = call; reply = reply }) }
        requires there { IsChangeable (state_of P.facts self.old) change }
        requires keeps { let s = state_of P.facts self.old in
            Keeps (map P.facts self.old.boxes) s (record { caller = caller; call = call; reply = reply })
            (changed s change) }
        ensures entry { IfOk result (Appends self.old self.new caller call) }
        ensures fixed { fixed_of P.facts self.new ≡ fixed_of P.facts self.old }
        ensures err { OnErr result (self.new ≡ self.old) }
    {
        let answer = reply.copy(self.alloc)?;
        reserve_room(&mut self.history, &self.state, self.lent + ONE_MORE)?;
        apply_change(&mut self.state, change)?;
        record(
            &mut self.history,
            &mut self.lent,
            &mut self.state,
            caller,
            call,
            reply,
        );
        Ok(answer)
    }

    /// Appends an entry by which something goes, and stops each instance that goes with it.
    fn take_down(&mut self, caller: u64, call: Call, going: &Going) -> Reply
        requires step { IsNext (fixed_of P.facts self.old) self.old.entries
            (record { caller = caller; call = call; reply = answer_of going.now }) }
        requires takes { Takes (map P.facts self.old.boxes) (state_of P.facts self.old)
            (record { caller = caller; call = call; reply = answer_of going.now }) going.now }
        requires room { let s = state_of P.facts self.old in
            giving_back (without_going s going.now) + 1 ≤ giving_back s + returned_by going.now }
        requires returned { let lent = lent_after self.old.entries in
            length (lent_by lent caller call (answer_of going.now)) + returned_by going.now ≤ length lent }
        ensures entry { Appends self.old self.new caller call result }
        ensures fixed { fixed_of P.facts self.new ≡ fixed_of P.facts self.old }
    {
        stop_going(&mut self.boxes, &self.state, going);
        take_out(self.alloc, &mut self.state, going);
        self.lent -= returned(going);
        record(
            &mut self.history,
            &mut self.lent,
            &mut self.state,
            caller,
            call,
            answer(going),
        );
        answer(going)
    }
}
