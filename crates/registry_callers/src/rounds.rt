//! What a caller does again and again, by typed calls: it gives back all that it was handed.
ghost use Rattle.std.specs.Prelude.{◌≡◌, ◌<◌, length, All, IsTrue};
ghost use Rattle.ossl_state.specs.Tokens.{method_token, owns};
ghost use Rattle.ossl_core.specs.Answered.{IsStillOf};
ghost use Rattle.ossl_core.specs.Owned.{HasKept, OwnsNothing};
ghost use Rattle.ossl_turn.specs.Passes.{CameFrom};
ghost use Rattle.registry_callers.specs.Counted.{AreCounted};

use ossl_base::text::Text;
use ossl_codes::Operation;
use ossl_core::{Caller, Method};
use ossl_property::Query;
use ossl_provider::provider::Provider;
use ossl_registry::Registry;
use ossl_turn::Shared;
use std::alloc::{AllocError, Global};
use std::sync::Wait;
use std::thread::{Threads, for_each_mut};

/// What a round is.
#[derive(Debug, Clone, Copy, PartialEq, Eq)]
pub enum Work {
    /// Loads `default`, fetches SHA2-256, makes an operation context, and gives all three back: six calls.
    Use,
    /// Fetches SHA2-256 and gives it back: two calls.
    Fetch,
}

/// Makes an operation context of a method, and gives it back.
fn use_method<R: Wait, P: Provider + Send>(
    rt: &R,
    shared: &Shared<Registry<P>>,
    caller: &mut Caller<P>,
    method: &Method,
)
    requires from { CameFrom shared.now caller.old }
    requires own { IsTrue (owns caller.old.own method.now.number method_token) }
    ensures from { IsStillOf shared.now caller.old caller.new }
    ensures kept { HasKept caller.old.own caller.new.own }
{
    let Ok(context) = caller.new_ctx(rt, shared, method, None, 0) else {
        return;
    };
    let _done = caller.free_ctx(rt, shared, context);
}

/// Fetches a digest, uses it where the work asks for that, and gives it back.
pub fn fetch<R: Wait, P: Provider + Send>(
    rt: &R,
    alloc: Global,
    shared: &Shared<Registry<P>>,
    caller: &mut Caller<P>,
    lib: u64,
    work: Work,
) -> Result<(), AllocError>
    requires from { CameFrom shared.now caller.old }
    requires lib { lib < shared.now.origin.contexts }
    ensures from { IsStillOf shared.now caller.old caller.new }
    ensures kept { HasKept caller.old.own caller.new.own }
{
    let name = Text::of(Vec::from_slice(alloc, b"SHA2-256")?);
    let query = Query::empty(alloc);
    let Ok(method) = caller.fetch(rt, shared, lib, Operation::Digest, name, query) else {
        return Err(AllocError);
    };
    if work == Work::Use {
        use_method(rt, shared, caller, &method);
    }
    let _done = caller.free(rt, shared, method);
    Ok(())
}

/// Loads the provider `default`, fetches of it, and unloads it.
fn load_and_fetch<R: Wait, P: Provider + Send>(
    rt: &R,
    alloc: Global,
    shared: &Shared<Registry<P>>,
    caller: &mut Caller<P>,
    lib: u64,
) -> Result<(), AllocError>
    requires from { CameFrom shared.now caller.old }
    requires lib { lib < shared.now.origin.contexts }
    ensures from { IsStillOf shared.now caller.old caller.new }
    ensures kept { HasKept caller.old.own caller.new.own }
{
    let name = Text::of(Vec::from_slice(alloc, b"default")?);
    let Ok(activation) = caller.load(rt, shared, lib, name, false) else {
        return Err(AllocError);
    };
    let fetched = fetch(rt, alloc, shared, caller, lib, Work::Use);
    let _done = caller.unload(rt, shared, activation);
    fetched
}

/// So many rounds of a caller. One that finds no memory, or is refused, ends early.
pub fn go_round<R: Wait, P: Provider + Send>(
    rt: &R,
    alloc: Global,
    shared: &Shared<Registry<P>>,
    caller: &mut Caller<P>,
    lib: u64,
    work: Work,
    times: u64,
) -> Result<(), AllocError>
    requires from { CameFrom shared.now caller.old }
    requires lib { lib < shared.now.origin.contexts }
    ensures from { IsStillOf shared.now caller.old caller.new }
    ensures kept { HasKept caller.old.own caller.new.own }
    ensures nothing { OwnsNothing caller.old.own → OwnsNothing caller.new.own }
{
    for _ in 0..times {
        match work {
            Work::Use => load_and_fetch(rt, alloc, shared, caller, lib)?,
            Work::Fetch => fetch(rt, alloc, shared, caller, lib, work)?,
        }
    }
    Ok(())
}

/// The rounds of all callers at the same time, in two library contexts.
pub fn go_at_once<R: Threads + Wait + Sync, P: Provider + Send>(
    rt: &R,
    alloc: Global,
    shared: &Shared<Registry<P>>,
    callers: &mut [Caller<P>],
    work: Work,
    times: u64,
)
    requires from { All (CameFrom shared.now) callers.old }
    requires nothing { All (λ c. OwnsNothing c.own) callers.old }
    requires counted { AreCounted (length callers.old) callers.old }
    requires contexts { shared.now.origin.contexts ≡ 2 }
    ensures count { length callers.new ≡ length callers.old }
    ensures from { All (CameFrom shared.now) callers.new }
    ensures nothing { All (λ c. OwnsNothing c.own) callers.new }
    ensures counted { AreCounted (length callers.old) callers.new }
{
    let threads = callers.len().max(1);
    for_each_mut(
        rt,
        callers,
        threads,
        &|i, caller: &mut Caller<P>|
            requires { CameFrom shared.now caller.old × OwnsNothing caller.old.own × (shared.now.origin.contexts ≡ 2) }
            ensures from { IsStillOf shared.entry.now caller.old caller.new }
            ensures nothing { OwnsNothing caller.new.own }
        {
            let lib = (i % 2) as u64;
            let _ended = go_round(rt, alloc, shared, caller, lib, work, times);
        },
    );
}

/// The fetches of all callers at the same time, of the provider `default` that one more caller holds in both library
/// contexts. Where that caller is refused, none fetches.
pub fn fetch_held<R: Threads + Wait + Sync, P: Provider + Send>(
    rt: &R,
    alloc: Global,
    shared: &Shared<Registry<P>>,
    holder: &mut Caller<P>,
    callers: &mut [Caller<P>],
    times: u64,
) -> Result<(), AllocError>
    requires holder { CameFrom shared.now holder.old }
    requires from { All (CameFrom shared.now) callers.old }
    requires nothing { All (λ c. OwnsNothing c.own) callers.old }
    requires counted { AreCounted (length callers.old) callers.old }
    requires contexts { shared.now.origin.contexts ≡ 2 }
    ensures holder { IsStillOf shared.now holder.old holder.new }
    ensures kept { HasKept holder.old.own holder.new.own }
    ensures count { length callers.new ≡ length callers.old }
    ensures from { All (CameFrom shared.now) callers.new }
    ensures nothing { All (λ c. OwnsNothing c.own) callers.new }
    ensures counted { AreCounted (length callers.old) callers.new }
{
    let name = Text::of(Vec::from_slice(alloc, b"default")?);
    let again = name.copy(alloc)?;
    let Ok(first) = holder.load(rt, shared, 0, name, false) else {
        return Err(AllocError);
    };
    let Ok(second) = holder.load(rt, shared, 1, again, false) else {
        let _done = holder.unload(rt, shared, first);
        return Err(AllocError);
    };
    go_at_once(rt, alloc, shared, callers, Work::Fetch, times);
    let _done = holder.unload(rt, shared, second);
    let _done = holder.unload(rt, shared, first);
    Ok(())
}

/// The work of all callers at the same time; where it is to fetch, the holder holds what they fetch.
pub fn go<R: Threads + Wait + Sync, P: Provider + Send>(
    rt: &R,
    alloc: Global,
    shared: &Shared<Registry<P>>,
    holder: &mut Caller<P>,
    callers: &mut [Caller<P>],
    work: Work,
    times: u64,
) -> Result<(), AllocError>
    requires holder { CameFrom shared.now holder.old }
    requires from { All (CameFrom shared.now) callers.old }
    requires nothing { All (λ c. OwnsNothing c.own) callers.old }
    requires counted { AreCounted (length callers.old) callers.old }
    requires contexts { shared.now.origin.contexts ≡ 2 }
    ensures holder { IsStillOf shared.now holder.old holder.new }
    ensures kept { HasKept holder.old.own holder.new.own }
    ensures count { length callers.new ≡ length callers.old }
    ensures from { All (CameFrom shared.now) callers.new }
    ensures nothing { All (λ c. OwnsNothing c.own) callers.new }
    ensures counted { AreCounted (length callers.old) callers.new }
{
    match work {
        Work::Use => {
            go_at_once(rt, alloc, shared, callers, work, times);
            Ok(())
        }
        Work::Fetch => fetch_held(rt, alloc, shared, holder, callers, times),
    }
}
