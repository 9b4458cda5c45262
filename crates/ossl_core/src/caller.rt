//! A caller, and the one call by which it reaches the registry.
ghost use Rattle.std.specs.Prelude.{◌≡◌, ℕ, IsTrue, IsOk, IfOk, OnErr};
ghost use Rattle.ossl_state.specs.History.{IsAllowed, IsNext};
ghost use Rattle.ossl_calls.specs.Registry.{Shown, fixed_of, state_of, takes_no_memory};
ghost use Rattle.ossl_state.specs.Tokens.{Token, gains_by, owns, owns_after_entry};
ghost use Rattle.ossl_turn.specs.History.{entry_of};
ghost use Rattle.ossl_turn.specs.Passes.{CameFrom, MayFind};
ghost use Rattle.ossl_core.specs.Answered.{IsAnswered, IsStillOf};
ghost use Rattle.ossl_core.specs.Owned.{IsFresh, OwnsNothing};

use ossl_calls::{Call, Reply};
use ossl_provider::boxed::Boxed;
use ossl_provider::provider::Provider;
use ossl_registry::Registry;
use ossl_turn::{Pass, Shared};
use std::alloc::AllocError;
use std::marker::Model;
use std::sync::Wait;

/// A caller of a shared registry. A clause sees its number, its own entries (`own`), by which it owns its tokens, and
/// the history that it has seen (`seen`). It stores neither list.
pub struct Caller<P: Provider + Send = Boxed> {
    pass: Pass<Registry<P>>,
}

impl<P: Provider + Send> Model for Caller<P> {
    ghost use Rattle.ossl_core.specs.Answered.{CallerFacts};

    ghost Value = { CallerFacts P };

    ghost view = { λ c. c.pass };
}

impl<P: Provider + Send> Caller<P> {
    /// The caller with this pass. It takes no memory.
    pub fn new(pass: Pass<Registry<P>>) -> Caller<P>
        ensures { result ≡ pass }
    {
        Caller { pass }
    }

    /// Its number in the history.
    pub fn number(&self) -> u64
        ensures { result ≡ self.now.number }
    {
        self.pass.number()
    }

    /// The pass, once all tokens are given back. It takes no memory.
    pub fn into_pass(self) -> Pass<Registry<P>>
        requires nothing { OwnsNothing self.own }
        ensures { result ≡ self }
    {
        let Caller { pass } = self;
        pass
    }

    /// Makes one call, when its turn has come. The caller owns each token that the call names, and the library context
    /// that it names is one of the registry's. Where there is no memory for it, all is as before.
    pub fn perform<R: Wait>(
        &mut self,
        rt: &R,
        shared: &Shared<Registry<P>>,
        call: &Call,
    ) -> Result<Reply, AllocError>
        requires from { CameFrom shared.now self.old }
        requires allowed { IsAllowed (fixed_of P.facts shared.now.origin) self.old.own call.now }
        ensures from { IsStillOf shared.now self.old self.new }
        ensures answered { IfOk result (λ reply.
            IsAnswered (fixed_of P.facts shared.now.origin) self.old self.new call.now reply) }

        // What the caller owns follows from the entry, and a token that it hands out is none that was owned.
        ensures owned { IfOk result (λ reply. (t : ℕ) (kind : Token) → owns self.new.own t kind
            ≡ owns_after_entry (owns self.old.own t kind) (entry_of self.old.number call.now reply) t kind) }
        ensures fresh { IfOk result (λ reply. (t : ℕ) (kind : Token) →
            IsTrue (gains_by call.now reply t kind) → IsFresh self.old.own t) }
        ensures refused { OnErr result (self.new ≡ self.old) }

        // Where no registry that the call may find wants memory for it, it is answered.
        ensures memory { ((r : Shown P) → MayFind (λ r. r.entries) (fixed_of P.facts) IsNext shared.now self.old r
            → IsTrue (takes_no_memory (state_of P.facts r) call.now)) → IsOk result }
    {
        shared.call(rt, &mut self.pass, call)
    }
}
