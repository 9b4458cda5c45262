//! A registry that callers share, each in a thread of its own, until all of them are done.
ghost use Rattle.std.specs.Prelude.{◌≡◌, ◌≤◌, length, map, All, IfOk};
ghost use Rattle.ossl_calls.specs.Registry.{IsCatalogue};
ghost use Rattle.ossl_state.specs.History.{IsLegal};
ghost use Rattle.ossl_core.specs.Answered.{IsStillOf};
ghost use Rattle.ossl_core.specs.Owned.{HasKept, OwnsNothing};
ghost use Rattle.ossl_turn.specs.Passes.{CameFrom};
ghost use Rattle.registry_callers.specs.Counted.{AreCounted, fixed_over};

use crate::hiring::{dismiss, hire};
use crate::rounds::{Work, go};
use ossl_calls::Entry;
use ossl_core::Caller;
use ossl_provider::provider::Provider;
use ossl_registry::Registry;
use ossl_turn::{ShareRefused, Shared};
use std::alloc::{AllocError, Global};
use std::sync::Wait;
use std::thread::Threads;

/// The greatest number of callers.
pub const MOST: usize = 16;

/// Opens a registry with two library contexts over these boxes, lets so many callers do so many rounds each at the same
/// time, closes both contexts, and gives the history of it all with the boxes.
pub fn run<R: Threads + Wait + Sync, P: Provider + Send>(
    rt: &R,
    alloc: Global,
    boxes: Vec<P>,
    work: Work,
    count: usize,
    times: u64,
) -> Result<(Vec<Entry>, Vec<P>), AllocError>
    requires boxes { IsCatalogue (map P.facts boxes.items) (map P.sheet boxes.items) }
    requires few { count ≤ 16 }

    // What all callers did is one legal history.
    ensures legal { IfOk result (λ r. IsLegal (fixed_over P.facts P.sheet boxes.items) r.0.items) }
{
    let Ok(registry) = Registry::open(alloc, boxes, 2) else {
        return Err(AllocError);
    };
    let mut callers = Vec::with_capacity(alloc, count)?;
    let Ok(mut passes) = Vec::with_capacity(alloc, count + 1) else {
        callers.destroy_empty();
        return Err(AllocError);
    };
    let (shared, mut first) = match Shared::open(alloc, registry) {
        Ok(opened) => opened,
        Err(ShareRefused { object: _ }) => {
            callers.destroy_empty();
            passes.destroy_empty();
            return Err(AllocError);
        }
    };
    shared.split_all(&mut first, &mut passes, count);
    hire(&shared, &mut passes, &mut callers);
    let mut first = Caller::new(first);
    let done = work_and_close(rt, alloc, &shared, &mut first, &mut callers, work, times);
    dismiss(&shared, callers, &mut passes);
    let registry = shared.close_all(first.into_pass(), passes);
    done?;
    Ok(registry.close())
}

/// The work of all callers, and then the closing of both library contexts by the first.
fn work_and_close<R: Threads + Wait + Sync, P: Provider + Send>(
    rt: &R,
    alloc: Global,
    shared: &Shared<Registry<P>>,
    first: &mut Caller<P>,
    callers: &mut [Caller<P>],
    work: Work,
    times: u64,
) -> Result<(), AllocError>
    requires first { CameFrom shared.now first.old × OwnsNothing first.old.own }
    requires from { All (CameFrom shared.now) callers.old }
    requires nothing { All (λ c. OwnsNothing c.own) callers.old }
    requires counted { AreCounted (length callers.old) callers.old }
    requires contexts { shared.now.origin.contexts ≡ 2 }
    ensures first { IsStillOf shared.now first.old first.new }
    ensures owns { OwnsNothing first.new.own }
    ensures count { length callers.new ≡ length callers.old }
    ensures from { All (CameFrom shared.now) callers.new }
    ensures nothing { All (λ c. OwnsNothing c.own) callers.new }
    ensures counted { AreCounted (length callers.old) callers.new }
{
    let done = go(rt, alloc, shared, first, callers, work, times);
    close_both(rt, shared, first)?;
    done
}

/// Closes both library contexts.
fn close_both<R: Wait, P: Provider + Send>(
    rt: &R,
    shared: &Shared<Registry<P>>,
    caller: &mut Caller<P>,
) -> Result<(), AllocError>
    requires from { CameFrom shared.now caller.old }
    requires contexts { shared.now.origin.contexts ≡ 2 }
    ensures from { IsStillOf shared.now caller.old caller.new }
    ensures kept { HasKept caller.old.own caller.new.own }
{
    caller.close_lib(rt, shared, 0)?;
    caller.close_lib(rt, shared, 1)?;
    Ok(())
}
