//! The typed calls.
ghost use Rattle.std.specs.Prelude.{◌≡◌, ◌<◌, ℕ, IsTrue, IfOk, IfErr, OnErr};
ghost use Rattle.std.specs.Option.{option_map};
ghost use Rattle.ossl_calls.specs.Registry.{fixed_of};
ghost use Rattle.ossl_state.specs.Tokens.{Token, activation_token, method_token, context_token, owns, owns_inner};
ghost use Rattle.ossl_turn.specs.Passes.{CameFrom};
ghost use Rattle.ossl_core.specs.Answered.{Declines, HandsOut, IsStillOf, TakesBack};
ghost use Rattle.ossl_core.specs.Denials.{IsDenied};

use crate::caller::Caller;
use crate::denied::Denied;
use crate::tokens::{Activation, Context, Method};
use ossl_base::text::Text;
use ossl_calls::{Call, Reply};
use ossl_codes::Operation;
use ossl_property::Query;
use ossl_provider::provider::Provider;
use ossl_registry::Registry;
use ossl_turn::Shared;
use std::alloc::{AllocError, Global};
use std::sync::Wait;

impl<P: Provider + Send> Caller<P> {
    /// Loads a provider into a library context, and gives an activation of it (OSSL_PROVIDER_load(3)). With `retain`
    /// the fallback to the provider `default` is kept.
    pub fn load<R: Wait>(
        &mut self,
        rt: &R,
        shared: &Shared<Registry<P>>,
        lib: u64,
        name: Text,
        retain: bool,
    ) -> Result<Activation, Denied>
        requires from { CameFrom shared.now self.old }
        requires lib { lib < shared.now.origin.contexts }
        ensures from { IsStillOf shared.now self.old self.new }
        ensures loaded { IfOk result (λ token. (instance skipped : ℕ)
            × HandsOut (fixed_of P.facts shared.now.origin) self.old self.new
            (Call.Load lib name retain) (Reply.Loaded token instance skipped) token activation_token) }
        ensures denied { IfErr result (IsDenied (fixed_of P.facts shared.now.origin) self.old self.new
            (Call.Load lib name retain)) }
    {
        let call = Call::Load { lib, name, retain };
        match self.perform(rt, shared, &call)? {
            Reply::Loaded {
                number,
                instance: _,
                skipped: _,
            } => Ok(Activation { number }),
            reply => Err(Denied::By(reply)),
        }
    }

    /// Gives an activation back (OSSL_PROVIDER_unload(3)). It wants no memory.
    pub fn unload<R: Wait>(
        &mut self,
        rt: &R,
        shared: &Shared<Registry<P>>,
        token: Activation,
    ) -> Reply
        requires from { CameFrom shared.now self.old }
        requires own { IsTrue (owns self.old.own token activation_token) }
        ensures from { IsStillOf shared.now self.old self.new }
        ensures unloaded { TakesBack (fixed_of P.facts shared.now.origin) self.old self.new
            (Call.Unload token) result token activation_token }
    {
        let Activation { number } = token;
        match self.perform(rt, shared, &Call::Unload { token: number }) {
            Ok(reply) => reply,
            Err(AllocError) => unreachable!(),
        }
    }

    /// Fetches the best method of a name (EVP_MD_fetch(3)).
    pub fn fetch<R: Wait>(
        &mut self,
        rt: &R,
        shared: &Shared<Registry<P>>,
        lib: u64,
        op: Operation,
        name: Text,
        query: Query,
    ) -> Result<Method, Denied>
        requires from { CameFrom shared.now self.old }
        requires lib { lib < shared.now.origin.contexts }
        ensures from { IsStillOf shared.now self.old self.new }
        ensures fetched { IfOk result (λ m. (instance row : ℕ)
            × HandsOut (fixed_of P.facts shared.now.origin) self.old self.new (Call.Fetch lib op name query)
            (Reply.Fetched m.number m.provider instance row m.code) m.number method_token) }
        ensures denied { IfErr result (IsDenied (fixed_of P.facts shared.now.origin) self.old self.new
            (Call.Fetch lib op name query)) }
    {
        let call = Call::Fetch {
            lib,
            op,
            name,
            query,
        };
        match self.perform(rt, shared, &call)? {
            Reply::Fetched {
                number,
                provider,
                instance: _,
                row: _,
                code,
            } => Ok(Method {
                number,
                provider,
                code,
            }),
            reply => Err(Denied::By(reply)),
        }
    }

    /// A second method of the same provider and row, with a token of its own (EVP_MD_up_ref(3)). Want of memory is the
    /// only refusal.
    pub fn up_ref<R: Wait>(
        &mut self,
        rt: &R,
        alloc: Global,
        shared: &Shared<Registry<P>>,
        method: &Method,
    ) -> Result<Method, Denied>
        requires from { CameFrom shared.now self.old }
        requires own { IsTrue (owns self.old.own method.now.number method_token) }
        ensures from { IsStillOf shared.now self.old self.new }
        ensures made { IfOk result (λ m. HandsOut (fixed_of P.facts shared.now.origin) self.old self.new
            (Call.UpRef method.now.number) (Reply.Made m.number) m.number method_token) }
        ensures same { IfOk result (λ m. (m.provider ≡ method.now.provider) × (m.code ≡ method.now.code)) }
        ensures refused { IfErr result (λ denied. (denied ≡ Denied.NoMemory) × (self.new ≡ self.old)) }
    {
        let provider = method.provider.copy(alloc)?;
        let call = Call::UpRef {
            handle: method.number,
        };
        let Reply::Made { number } = self.perform(rt, shared, &call)? else {
            unreachable!()
        };
        Ok(Method {
            number,
            provider,
            code: method.code,
        })
    }

    /// Gives a method back (EVP_MD_free(3)). It wants no memory.
    pub fn free<R: Wait>(&mut self, rt: &R, shared: &Shared<Registry<P>>, method: Method) -> Reply
        requires from { CameFrom shared.now self.old }
        requires own { IsTrue (owns self.old.own method.number method_token) }
        ensures from { IsStillOf shared.now self.old self.new }
        ensures freed { TakesBack (fixed_of P.facts shared.now.origin) self.old self.new
            (Call.Free method.number) result method.number method_token }
    {
        let Method {
            number,
            provider: _,
            code: _,
        } = method;
        match self.perform(rt, shared, &Call::Free { handle: number }) {
            Ok(reply) => reply,
            Err(AllocError) => unreachable!(),
        }
    }

    /// Makes an operation context of a method, with the method of an inner algorithm where there is one
    /// (EVP_MAC_CTX_new(3)). `key_len` is the length of the key in bytes, 0 without one.
    pub fn new_ctx<R: Wait>(
        &mut self,
        rt: &R,
        shared: &Shared<Registry<P>>,
        method: &Method,
        inner: Option<&Method>,
        key_len: u64,
    ) -> Result<Context, Denied>
        requires from { CameFrom shared.now self.old }
        requires own { IsTrue (owns self.old.own method.now.number method_token) }
        requires inner { IsTrue (owns_inner self.old.own (option_map (λ m. m.now.number) inner)) }
        ensures from { IsStillOf shared.now self.old self.new }
        ensures made { IfOk result (λ token. HandsOut (fixed_of P.facts shared.now.origin) self.old self.new
            (Call.NewCtx method.now.number (option_map (λ m. m.now.number) inner.entry) key_len)
            (Reply.Made token) token context_token) }
        ensures denied { IfErr result (IsDenied (fixed_of P.facts shared.now.origin) self.old self.new
            (Call.NewCtx method.now.number (option_map (λ m. m.now.number) inner.entry) key_len)) }
    {
        let call = Call::NewCtx {
            handle: method.number,
            inner: number_of(inner),
            key_len,
        };
        match self.perform(rt, shared, &call)? {
            Reply::Made { number } => Ok(Context { number }),
            reply => Err(Denied::By(reply)),
        }
    }

    /// Gives an operation context back (EVP_MD_CTX_free(3)). It wants no memory.
    pub fn free_ctx<R: Wait>(
        &mut self,
        rt: &R,
        shared: &Shared<Registry<P>>,
        context: Context,
    ) -> Reply
        requires from { CameFrom shared.now self.old }
        requires own { IsTrue (owns self.old.own context context_token) }
        ensures from { IsStillOf shared.now self.old self.new }
        ensures freed { TakesBack (fixed_of P.facts shared.now.origin) self.old self.new
            (Call.FreeCtx context) result context context_token }
    {
        let Context { number } = context;
        match self.perform(rt, shared, &Call::FreeCtx { handle: number }) {
            Ok(reply) => reply,
            Err(AllocError) => unreachable!(),
        }
    }

    /// Closes a library context (OSSL_LIB_CTX_free(3)): its activations go, methods and operation contexts stay.
    pub fn close_lib<R: Wait>(
        &mut self,
        rt: &R,
        shared: &Shared<Registry<P>>,
        lib: u64,
    ) -> Result<Reply, AllocError>
        requires from { CameFrom shared.now self.old }
        requires lib { lib < shared.now.origin.contexts }
        ensures from { IsStillOf shared.now self.old self.new }
        ensures closed { IfOk result (λ reply. Declines (fixed_of P.facts shared.now.origin) self.old self.new
            (Call.CloseLib lib) reply) }
        ensures refused { OnErr result (self.new ≡ self.old) }
    {
        let reply = self.perform(rt, shared, &Call::CloseLib { lib })?;
        Ok(reply)
    }
}

fn number_of(method: Option<&Method>) -> Option<u64>
    ensures { result ≡ option_map (λ m. m.now.number) method.entry }
{
    match method {
        Some(method) => Some(method.number),
        None => None,
    }
}
