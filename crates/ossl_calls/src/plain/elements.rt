ghost use Rattle.std.specs.Prelude.{◌≡◌, map, IsTrue, IsOk, IfOk, OnErr};
ghost use Rattle.std.specs.Option.{option_map};
ghost use Rattle.ossl_calls.specs.Events.{Appends, MayCall};
ghost use Rattle.ossl_calls.specs.Registry.{fixed_of, state_of};
ghost use Rattle.ossl_state.specs.State.{lib_at};
ghost use Rattle.ossl_state.specs.Step.{context_made, element_of, second_method};

use crate::change::Change;
use crate::plain::PlainRegistry;
use ossl_property::Query;
use ossl_provider::provider::Provider;
use ossl_state::call::{Call, Reply};
use ossl_state::element::{context_of, second_of};
use ossl_state::state::{Going, Live};
use std::alloc::AllocError;

impl<P: Provider> PlainRegistry<P> {
    /// A second method, as the one that a token names.
    fn second_of(&self, caller: u64, handle: u64) -> Result<Option<Live>, AllocError>
        ensures { IfOk result (λ made. let s = state_of P.facts self.now in
            made ≡ option_map (second_method s.next caller) (element_of s handle)) }
    {
        second_of(self.alloc, &self.state, caller, handle)
    }

    /// The operation context of a method, where its provider admits it.
    fn context_of(
        &self,
        caller: u64,
        handle: u64,
        inner: Option<u64>,
        key_len: u64,
    ) -> Result<Option<Live>, AllocError>
        ensures { IfOk result (λ made. let s = state_of P.facts self.now in
            made ≡ context_made (map P.facts self.now.boxes) s caller inner key_len (element_of s handle)) }
    {
        let boxes = self.boxes.as_slice();
        context_of(
            self.alloc,
            boxes,
            &self.state,
            caller,
            handle,
            inner,
            key_len,
        )
    }

    /// Makes a second method, as the one that a token names.
    pub(super) fn up_ref(&mut self, caller: u64, handle: u64) -> Result<Reply, AllocError>
        requires allowed { MayCall P.facts self.old caller (Call.UpRef handle) }
        ensures entry { IfOk result (Appends self.old self.new caller (Call.UpRef handle)) }
        ensures fixed { fixed_of P.facts self.new ≡ fixed_of P.facts self.old }
        ensures err { OnErr result (self.new ≡ self.old) }
    {
        let call = Call::UpRef { handle };
        let number = self.next();
        match self.second_of(caller, handle)? {
            Some(made) => self.put(caller, call, Reply::Made { number }, Change::Added(made)),
            None => self.put(caller, call, Reply::Made { number }, Change::Same),
        }
    }

    /// Makes an operation context of a method.
    pub(super) fn new_ctx(
        &mut self,
        caller: u64,
        handle: u64,
        inner: Option<u64>,
        key_len: u64,
    ) -> Result<Reply, AllocError>
        requires allowed { MayCall P.facts self.old caller (Call.NewCtx handle inner key_len) }
        ensures entry { IfOk result (Appends self.old self.new caller (Call.NewCtx handle inner key_len)) }
        ensures fixed { fixed_of P.facts self.new ≡ fixed_of P.facts self.old }
        ensures err { OnErr result (self.new ≡ self.old) }
    {
        let call = Call::NewCtx {
            handle,
            inner,
            key_len,
        };
        match self.context_of(caller, handle, inner, key_len)? {
            Some(made) => {
                let number = made.number;
                self.put(caller, call, Reply::Made { number }, Change::Added(made))
            }
            None => self.put(caller, call, Reply::NotAdmitted, Change::Same),
        }
    }

    /// Gives a method back.
    pub(super) fn free(&mut self, caller: u64, handle: u64) -> Reply
        requires allowed { MayCall P.facts self.old caller (Call.Free handle) }
        ensures entry { Appends self.old self.new caller (Call.Free handle) result }
        ensures fixed { fixed_of P.facts self.new ≡ fixed_of P.facts self.old }
    {
        let _ = &self.state;
        self.take_down(
            caller,
            Call::Free { handle },
            &Going::Element { token: handle },
        )
    }

    /// Gives an operation context back.
    pub(super) fn free_ctx(&mut self, caller: u64, handle: u64) -> Reply
        requires allowed { MayCall P.facts self.old caller (Call.FreeCtx handle) }
        ensures entry { Appends self.old self.new caller (Call.FreeCtx handle) result }
        ensures fixed { fixed_of P.facts self.new ≡ fixed_of P.facts self.old }
    {
        let _ = &self.state;
        self.take_down(
            caller,
            Call::FreeCtx { handle },
            &Going::Element { token: handle },
        )
    }

    /// Sets the default query of a library context.
    pub(super) fn set_default(
        &mut self,
        caller: u64,
        lib: u64,
        query: &Query,
    ) -> Result<Reply, AllocError>
        requires allowed { MayCall P.facts self.old caller (Call.SetDefault lib query.now) }
        ensures entry { IfOk result (Appends self.old self.new caller (Call.SetDefault lib query.now)) }
        ensures fixed { fixed_of P.facts self.new ≡ fixed_of P.facts self.old }
        ensures err { OnErr result (self.new ≡ self.old) }
    {
        let call = Call::SetDefault {
            lib,
            query: query.copy(self.alloc)?,
        };
        if self.is_open(lib) {
            let query = query.copy(self.alloc)?;
            let change = Change::Queried {
                lib: lib as usize,
                query,
            };
            self.put(caller, call, Reply::Done, change)
        } else {
            self.put(caller, call, Reply::NoLib, Change::Same)
        }
    }

    /// Closes a library context.
    pub(super) fn close_lib(&mut self, caller: u64, lib: u64) -> Result<Reply, AllocError>
        requires allowed { MayCall P.facts self.old caller (Call.CloseLib lib) }
        ensures entry { IfOk result (Appends self.old self.new caller (Call.CloseLib lib)) }
        ensures fixed { fixed_of P.facts self.new ≡ fixed_of P.facts self.old }
        ensures err { OnErr result (self.new ≡ self.old) }
        ensures no_memory { IsTrue (lib_at (state_of P.facts self.old) lib).is_open → IsOk result }
    {
        let call = Call::CloseLib { lib };
        if self.is_open(lib) {
            let going = Going::Library { lib: lib as usize };
            Ok(self.take_down(caller, call, &going))
        } else {
            self.put(caller, call, Reply::NoLib, Change::Same)
        }
    }
}
