ghost use Rattle.std.specs.Prelude.{◌≡◌, replicate, IfOk};
ghost use Rattle.ossl_state.specs.State.{fresh_lib, opening_state};

use crate::items::Items;
use crate::state::{Fallback, LibCtx, State};
use ossl_names::NameMap;
use ossl_property::Query;
use std::alloc::{AllocError, Global};

/// A library context at the start.
pub fn fresh_lib(alloc: Global) -> LibCtx
    ensures { result ≡ fresh_lib }
{
    LibCtx {
        is_open: true,
        fallback: Fallback::Armed,
        default: Query::empty(alloc),
        groups: NameMap::new(alloc),
        order: Items::new(alloc),
        given: Items::new(alloc),
    }
}

/// So many library contexts, each as at the start.
fn fresh_libs(alloc: Global, contexts: u64) -> Result<Items<LibCtx>, AllocError>
    ensures { IfOk result (λ libs. libs ≡ replicate contexts fresh_lib) }
{
    let mut libs = Items::new(alloc);
    for _ in 0..contexts {
        libs.push(fresh_lib(alloc))?;
    }
    Ok(libs)
}

/// The state at the start.
pub fn open_state(alloc: Global, contexts: u64) -> Result<State, AllocError>
    ensures { IfOk result (λ state. state ≡ opening_state contexts) }
{
    Ok(State {
        next: 1,
        libs: fresh_libs(alloc, contexts)?,
        born: Items::new(alloc),
        live: Items::new(alloc),
    })
}
