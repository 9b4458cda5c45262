ghost use Rattle.std.specs.Prelude.{◌≡◌, Some, map, IsTrue, IfOk, OnErr};
ghost use Rattle.ossl_calls.specs.Events.{Appends, MayCall, unloading};
ghost use Rattle.ossl_calls.specs.Registry.{fixed_of, state_of};
ghost use Rattle.ossl_state.specs.Boxes.{place_of};
ghost use Rattle.ossl_state.specs.State.{lib_at};

use crate::change::Change;
use crate::plain::PlainRegistry;
use crate::room::{ONE_MORE, record, reserve_room};
use crate::starting::start_or_take_back;
use ossl_base::text::Text;
use ossl_provider::provider::Provider;
use ossl_state::activation::{find_box, needs_start};
use ossl_state::call::{Call, Reply};
use ossl_state::load::{find_holder, find_kept, load, reply_of_load};
use ossl_state::state::Going;
use std::alloc::AllocError;

impl<P: Provider> PlainRegistry<P> {
    /// The place of the provider of a name.
    fn place_of(&self, name: &[u8]) -> Option<usize>
        ensures { result ≡ place_of name.now (map P.facts self.now.boxes) }
    {
        find_box(self.boxes.as_slice(), name)
    }

    /// Where a token's activation stands, and which box stays active there for the fallback.
    fn going_of(&self, token: u64) -> Going
        ensures { result ≡ unloading (map P.facts self.now.boxes) (state_of P.facts self.now) token }
    {
        let libs = self.state.libs.as_slice();
        match find_holder(libs, token) {
            Some(lib) => {
                let kept = find_kept(self.boxes.as_slice(), libs, lib as u64);
                Going::Activation { lib, token, kept }
            }
            None => Going::Nothing,
        }
    }

    /// Loads a provider.
    pub(super) fn load(
        &mut self,
        caller: u64,
        lib: u64,
        name: &Text,
        retain: bool,
    ) -> Result<Reply, AllocError>
        requires allowed { MayCall P.facts self.old caller (Call.Load lib name.now retain) }
        ensures entry { IfOk result (Appends self.old self.new caller (Call.Load lib name.now retain)) }
        ensures fixed { fixed_of P.facts self.new ≡ fixed_of P.facts self.old }
        ensures err { OnErr result (self.new ≡ self.old) }
    {
        let call = Call::Load {
            lib,
            name: name.copy(self.alloc)?,
            retain,
        };
        if !self.is_open(lib) {
            return self.put(caller, call, Reply::NoLib, Change::Same);
        }
        match self.place_of(name.as_slice()) {
            Some(place) => self.load_box(caller, call, lib, name, retain, place),
            None => self.put(caller, call, Reply::NoProvider, Change::Same),
        }
    }

    /// Loads the provider at a place into an open library context.
    fn load_box(
        &mut self,
        caller: u64,
        call: Call,
        lib: u64,
        name: &Text,
        retain: bool,
        place: usize,
    ) -> Result<Reply, AllocError>
        requires is { call ≡ Call.Load lib name.now retain }
        requires allowed { MayCall P.facts self.old caller call }
        requires open { IsTrue (lib_at (state_of P.facts self.old) lib).is_open }
        requires found { place_of name.now (map P.facts self.old.boxes) ≡ Some place }
        ensures entry { IfOk result (Appends self.old self.new caller call) }
        ensures fixed { fixed_of P.facts self.new ≡ fixed_of P.facts self.old }
        ensures err { OnErr result (self.new ≡ self.old) }
    {
        let provider = name.copy(self.alloc)?;
        let refused = Reply::StartRefused { provider };
        let told = refused.copy(self.alloc)?;
        reserve_room(&mut self.history, &self.state, self.lent + ONE_MORE)?;
        let number = self.state.next;
        let starts = needs_start(&self.state, lib, place);
        let boxes = self.boxes.as_slice();
        let mark = load(
            self.alloc,
            boxes,
            &mut self.state,
            caller,
            lib,
            retain,
            place,
        )?;
        let accepted = reply_of_load(&self.state, number, lib, place);
        let answer = reply_of_load(&self.state, number, lib, place);
        match start_or_take_back(
            &mut self.boxes,
            &mut self.state,
            place,
            number,
            starts,
            mark,
        ) {
            Ok(()) => {
                record(
                    &mut self.history,
                    &mut self.lent,
                    &mut self.state,
                    caller,
                    call,
                    accepted,
                );
                Ok(answer)
            }
            Err(_) => {
                record(
                    &mut self.history,
                    &mut self.lent,
                    &mut self.state,
                    caller,
                    call,
                    refused,
                );
                Ok(told)
            }
        }
    }

    /// Gives an activation back.
    pub(super) fn unload(&mut self, caller: u64, token: u64) -> Reply
        requires allowed { MayCall P.facts self.old caller (Call.Unload token) }
        ensures entry { Appends self.old self.new caller (Call.Unload token) result }
        ensures fixed { fixed_of P.facts self.new ≡ fixed_of P.facts self.old }
    {
        // The type's facts are told of what is looked at, here and in `free` and `free_ctx`.
        let _ = &self.state;
        let going = self.going_of(token);
        self.take_down(caller, Call::Unload { token }, &going)
    }
}
