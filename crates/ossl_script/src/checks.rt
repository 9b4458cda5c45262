//! The checks with which commands begin.

ghost use Rattle.std.specs.Prelude.{◌≡◌, ⊤};
ghost use Rattle.ossl_script.specs.Course.{binds, reads, uses_activation, uses_context, uses_inner, uses_method};
ghost use Rattle.ossl_script.specs.Names.{Agree, bound_at};
ghost use Rattle.ossl_script.specs.Stages.{Checks};
ghost use Rattle.ossl_script.specs.declared.checks.Halt.{Halt};

use crate::bound::{Bound, Method, Names};
use crate::outcome::Outcome;
use ossl_base::text::Text;
use ossl_property::{Query, TextRefused};
use std::alloc::{AllocError, Global};

/// Why a command does not go on: this came of it, or memory is short.
#[derive(Drop)]
pub enum Halt {
    Said(Outcome),
    NoMemory,
}

impl From<AllocError> for Halt {
    ghost from_gives = { λ _ e. e ≡ Halt.NoMemory };

    fn from(_e: AllocError) -> Halt {
        Halt::NoMemory
    }
}

/// The query that a text says.
pub fn read_query(alloc: Global, text: &[u8]) -> Result<Query, Halt>
    ensures { Checks (λ bindings. ⊤) result (reads text.now) }
{
    match Query::parse(alloc, text) {
        Ok(query) => Ok(query),
        Err(TextRefused::NotInGrammar { place }) => Err(Halt::Said(Outcome::BadQuery { place })),
        Err(TextRefused::NoMemory) => Err(Halt::NoMemory),
    }
}

/// The activation that a name is bound to.
pub fn use_activation(alloc: Global, names: &Names, name: &Text) -> Result<u64, Halt>
    ensures { Checks (Agree names.now) result (uses_activation name.now) }
{
    let Some(bound) = names.get(name.as_slice()) else {
        return Err(Halt::Said(Outcome::NotLoaded {
            name: name.copy(alloc)?,
        }));
    };
    match bound {
        Bound::Activation(token) => Ok(*token),
        _ => Err(wrong_kind(name.copy(alloc)?)),
    }
}

/// The method that a name is bound to.
pub fn use_method(alloc: Global, names: &Names, name: &Text) -> Result<Method, Halt>
    ensures { Checks (Agree names.now) result (uses_method name.now) }
{
    let Some(bound) = names.get(name.as_slice()) else {
        return Err(unknown(name.copy(alloc)?));
    };
    match bound {
        Bound::Method(method) => Ok(*method),
        _ => Err(wrong_kind(name.copy(alloc)?)),
    }
}

/// The inner method that a name is bound to, where one is named.
pub fn use_inner(alloc: Global, names: &Names, name: &Option<Text>) -> Result<Option<Method>, Halt>
    ensures { Checks (Agree names.now) result (uses_inner name.now) }
{
    match name {
        Some(name) => Ok(Some(use_method(alloc, names, name)?)),
        None => Ok(None),
    }
}

/// The operation context that a name is bound to, whether it runs or is finished.
pub fn use_context(alloc: Global, names: &Names, name: &Text) -> Result<u64, Halt>
    ensures { Checks (Agree names.now) result (uses_context name.now) }
{
    let Some(bound) = names.get(name.as_slice()) else {
        return Err(unknown(name.copy(alloc)?));
    };
    match bound {
        Bound::Running(running) => Ok(running.token),
        Bound::Finished(token) => Ok(*token),
        _ => Err(wrong_kind(name.copy(alloc)?)),
    }
}

/// Whether a name that is to be bound is free.
pub fn must_be_free(alloc: Global, names: &Names, name: &Text) -> Result<(), Halt>
    ensures { Checks (Agree names.now) result (λ bindings go. binds name.now bindings (go tt)) }
{
    match names.get(name.as_slice()) {
        Some(_) => Err(Halt::Said(Outcome::Bound {
            name: name.copy(alloc)?,
        })),
        None => Ok(()),
    }
}

/// The name is bound to something of another kind.
pub fn wrong_kind(name: Text) -> Halt
    ensures { result ≡ Halt.Said (Outcome.WrongKind name) }
{
    Halt::Said(Outcome::WrongKind { name })
}

/// The name is not bound.
pub fn unknown(name: Text) -> Halt
    ensures { result ≡ Halt.Said (Outcome.UnknownName name) }
{
    Halt::Said(Outcome::UnknownName { name })
}
