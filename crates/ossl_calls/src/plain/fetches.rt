ghost use Rattle.std.specs.Prelude.{◌≡◌, None, Some, map, IsTrue, IfOk, OnErr};
ghost use Rattle.ossl_calls.specs.Events.{Appends, MayCall};
ghost use Rattle.ossl_calls.specs.Registry.{fixed_of, state_of};
ghost use Rattle.ossl_state.specs.State.{lib_at};
ghost use Rattle.ossl_state.specs.Step.{fallback_of};

use crate::change::Change;
use crate::plain::PlainRegistry;
use crate::room::{ONE_MORE, record, reserve_room};
use crate::starting::start_or_take_back;
use ossl_base::text::Text;
use ossl_codes::Operation;
use ossl_property::{Query, Steps};
use ossl_provider::provider::Provider;
use ossl_state::activation::{find_fallback, needs_start};
use ossl_state::call::{Call, Reply};
use ossl_state::element::{fall_back_and_find, find_method};
use std::alloc::AllocError;
use std::sync::ledger::Ledger;

impl<P: Provider> PlainRegistry<P> {
    /// The place of the provider that a fetch falls back to.
    fn fallback(&self, lib: u64) -> Option<usize>
        ensures { result ≡ fallback_of (map P.facts self.now.boxes) (lib_at (state_of P.facts self.now) lib) }
    {
        find_fallback(self.boxes.as_slice(), self.state.libs.as_slice(), lib)
    }

    /// Looks for the best method of a name.
    pub(super) fn fetch<L: Ledger>(
        &mut self,
        caller: u64,
        lib: u64,
        op: Operation,
        name: &Text,
        query: &Query,
        steps: &mut Steps<L>,
    ) -> Result<Reply, AllocError>
        requires allowed { MayCall P.facts self.old caller (Call.Fetch lib op name.now query.now) }
        ensures entry { IfOk result (Appends self.old self.new caller (Call.Fetch lib op name.now query.now)) }
        ensures fixed { fixed_of P.facts self.new ≡ fixed_of P.facts self.old }
        ensures err { OnErr result (self.new ≡ self.old) }
    {
        let call = Call::Fetch {
            lib,
            op,
            name: name.copy(self.alloc)?,
            query: query.copy(self.alloc)?,
        };
        if !self.is_open(lib) {
            return self.put(caller, call, Reply::NoLib, Change::Same);
        }
        let name = name.as_slice();
        match self.fallback(lib) {
            Some(place) => self.fetch_falling(caller, call, lib, op, name, query, place, steps),
            None => self.fetch_plain(caller, call, lib, op, name, query, steps),
        }
    }

    /// Looks for the best method of a name in an open library context that falls back to no provider.
    fn fetch_plain<L: Ledger>(
        &mut self,
        caller: u64,
        call: Call,
        lib: u64,
        op: Operation,
        name: &[u8],
        query: &Query,
        steps: &mut Steps<L>,
    ) -> Result<Reply, AllocError>
        requires is { call ≡ Call.Fetch lib op name.now query.now }
        requires allowed { MayCall P.facts self.old caller call }
        requires open { IsTrue (lib_at (state_of P.facts self.old) lib).is_open }
        requires found { fallback_of (map P.facts self.old.boxes) (lib_at (state_of P.facts self.old) lib) ≡ None }
        ensures entry { IfOk result (Appends self.old self.new caller call) }
        ensures fixed { fixed_of P.facts self.new ≡ fixed_of P.facts self.old }
        ensures err { OnErr result (self.new ≡ self.old) }
    {
        reserve_room(&mut self.history, &self.state, self.lent + ONE_MORE)?;
        let boxes = self.boxes.as_slice();
        let state = &mut self.state;
        let (reply, answer) = find_method(
            self.alloc, boxes, state, caller, lib, op, name, query, steps,
        )?;
        record(
            &mut self.history,
            &mut self.lent,
            &mut self.state,
            caller,
            call,
            reply,
        );
        Ok(answer)
    }

    /// Looks for the best method of a name in an open library context that falls back to a provider.
    fn fetch_falling<L: Ledger>(
        &mut self,
        caller: u64,
        call: Call,
        lib: u64,
        op: Operation,
        name: &[u8],
        query: &Query,
        place: usize,
        steps: &mut Steps<L>,
    ) -> Result<Reply, AllocError>
        requires is { call ≡ Call.Fetch lib op name.now query.now }
        requires allowed { MayCall P.facts self.old caller call }
        requires open { IsTrue (lib_at (state_of P.facts self.old) lib).is_open }
        requires found { fallback_of (map P.facts self.old.boxes) (lib_at (state_of P.facts self.old) lib)
            ≡ Some place }
        ensures entry { IfOk result (Appends self.old self.new caller call) }
        ensures fixed { fixed_of P.facts self.new ≡ fixed_of P.facts self.old }
        ensures err { OnErr result (self.new ≡ self.old) }
    {
        let provider = Text::of(Vec::from_slice(self.alloc, b"default")?);
        let refused = Reply::StartRefused { provider };
        let told = refused.copy(self.alloc)?;
        reserve_room(&mut self.history, &self.state, self.lent + ONE_MORE)?;
        let number = self.state.next;
        let starts = needs_start(&self.state, lib, place);
        let boxes = self.boxes.as_slice();
        let state = &mut self.state;
        let (mark, accepted, answer) = fall_back_and_find(
            self.alloc, boxes, state, place, caller, lib, op, name, query, steps,
        )?;
        match start_or_take_back(
            &mut self.boxes,
            &mut self.state,
            place,
            number,
            starts,
            mark,
        ) {
            Ok(()) => {
                record(
                    &mut self.history,
                    &mut self.lent,
                    &mut self.state,
                    caller,
                    call,
                    accepted,
                );
                Ok(answer)
            }
            Err(_) => {
                record(
                    &mut self.history,
                    &mut self.lent,
                    &mut self.state,
                    caller,
                    call,
                    refused,
                );
                Ok(told)
            }
        }
    }
}
