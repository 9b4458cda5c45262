ghost use Rattle.std.specs.Prelude.{◌≡◌, slice_index_or, IfOk};
ghost use Rattle.ossl_state.specs.State.{no_lib, is_active, is_held, is_up};

use crate::state::{Active, Born, LibCtx, Live, State};
use ossl_names::NameMap;
use std::alloc::{AllocError, Global};

/// The active providers of a library context.
pub fn order_of(libs: &[LibCtx], lib: u64) -> &[Active]
    ensures { result.now ≡ (slice_index_or libs.now lib no_lib).order }
{
    match libs.get(lib as usize) {
        Some(lib) => lib.order.as_slice(),
        None => &[],
    }
}

/// Whether a library context is open.
pub fn is_open_lib(libs: &[LibCtx], lib: u64) -> bool
    ensures { result ≡ (slice_index_or libs.now lib no_lib).is_open }
{
    match libs.get(lib as usize) {
        Some(lib) => lib.is_open,
        None => false,
    }
}

/// A copy of the groups of names of a library context.
pub fn copy_groups(alloc: Global, libs: &[LibCtx], lib: u64) -> Result<NameMap, AllocError>
    ensures { IfOk result (λ groups. groups ≡ (slice_index_or libs.now lib no_lib).groups) }
{
    match libs.get(lib as usize) {
        Some(lib) => lib.groups.copy(),
        None => Ok(NameMap::new(alloc)),
    }
}

pub fn is_active_instance(order: &[Active], instance: u64) -> bool
    ensures { result ≡ is_active instance order.now }
{
    order.iter().any(|a| a.instance == instance)
}

pub fn is_held_instance(live: &[Live], instance: u64) -> bool
    ensures { result ≡ is_held instance live.now }
{
    live.iter().any(|x| x.held.as_slice().contains(&instance))
}

/// Whether an instance is up.
pub fn is_up_instance(state: &State, b: &Born) -> bool
    ensures { result ≡ is_up state.now b.now }
{
    is_active_instance(order_of(state.libs.as_slice(), b.lib), b.number)
        || is_held_instance(state.live.as_slice(), b.number)
}
