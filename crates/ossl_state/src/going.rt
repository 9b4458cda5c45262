ghost use Rattle.std.specs.Prelude.{◌≡◌, ◌<◌, ◌&&◌, nat_eq, not, filter, length, slice_index_or, slice_set};
ghost use Rattle.std.specs.List.{list_any};
ghost use Rattle.ossl_provider.specs.Members.{is_in};
ghost use Rattle.ossl_state.specs.Going.{without_going, answer_of, returned_by, IsThere};
ghost use Rattle.ossl_state.specs.State.{is_active, is_up, no_lib};
ghost use Rattle.ossl_state.specs.Step.{closed_of, is_kept, is_named, is_of_token, stays_active, unloaded_of};

use crate::call::Reply;
use crate::items::Items;
use crate::lookup::{is_active_instance, is_held_instance, is_up_instance, order_of};
use crate::state::{Active, Born, Given, Going, LibCtx, Live, State};
use ossl_names::NameMap;
use std::alloc::Global;

/// Whether a live element other than the named one holds an instance.
fn is_held_by_another(live: &[Live], token: u64, instance: u64) -> bool
    ensures { result ≡ list_any (λ x. not (is_named token x) && is_in instance x.held) live.now }
{
    live.iter().any(|x| x.number != token && x.held.as_slice().contains(&instance))
}

/// Whether another activation than the token's is one of a provider.
fn has_another(given: &[Given], token: u64, place: usize) -> bool
    ensures { result ≡ list_any (λ g. not (is_of_token token g) && nat_eq g.place place) given.now }
{
    given.iter().any(|g| g.number != token && g.place == place)
}

fn is_kept_place(kept: Option<usize>, place: usize) -> bool
    ensures { result ≡ is_kept kept place }
{
    match kept {
        Some(at) => at == place,
        None => false,
    }
}

/// Whether another activation than the token's keeps a provider active, or the fallback does.
fn stays(given: &[Given], token: u64, kept: Option<usize>, a: &Active) -> bool
    ensures { result ≡ stays_active kept (filter (λ g. not (is_of_token token g)) given.now) a.now }
{
    has_another(given, token, a.place) || is_kept_place(kept, a.place)
}

/// Whether an instance stays active that stands in an order.
fn is_staying(
    order: &[Active],
    given: &[Given],
    token: u64,
    kept: Option<usize>,
    instance: u64,
) -> bool
    ensures { result ≡ list_any
        (λ a. stays_active kept (filter (λ g. not (is_of_token token g)) given.now) a && nat_eq a.instance instance)
        order.now }
{
    order
        .iter()
        .any(|a| stays(given, token, kept, a) && a.instance == instance)
}

/// Whether an instance stands in the order of a library context once a token's activation has gone.
fn is_active_unloaded(lib: &LibCtx, token: u64, kept: Option<usize>, instance: u64) -> bool
    ensures { result ≡ is_active instance (unloaded_of kept token lib.now).order }
{
    let given = lib.given.as_slice();
    is_staying(lib.order.as_slice(), given, token, kept, instance)
}

/// Whether an instance is up once something has gone.
pub fn is_up_without(state: &State, going: &Going, b: &Born) -> bool
    requires { IsThere state.now.libs going.now }
    ensures { result ≡ is_up (without_going state.now going.now) b.now }
{
    let is_active = is_active_instance(order_of(state.libs.as_slice(), b.lib), b.number);
    match *going {
        Going::Element { token } => {
            is_active || is_held_by_another(state.live.as_slice(), token, b.number)
        }
        Going::Activation { lib, token, kept } => {
            let unloaded = &state.libs.as_slice()[lib];
            let is_still_active = if b.lib == lib as u64 {
                is_active_unloaded(unloaded, token, kept, b.number)
            } else {
                is_active
            };
            is_still_active || is_held_instance(state.live.as_slice(), b.number)
        }
        Going::Nothing => is_active || is_held_instance(state.live.as_slice(), b.number),
        Going::Library { lib } => {
            (is_active && b.lib != lib as u64) || is_held_instance(state.live.as_slice(), b.number)
        }
    }
}

/// Takes out the live element that a token names.
fn drop_named(live: &mut Items<Live>, token: u64)
    ensures { live.new ≡ filter (λ x. not (is_named token x)) live.old }
{
    live.retain(|x| x.number != token);
}

/// Closes a library context: nothing is active in it any more.
fn close(alloc: Global, libs: &mut Items<LibCtx>, lib: usize)
    requires { lib < length libs.old }
    ensures { libs.new ≡ slice_set libs.old lib (closed_of (slice_index_or libs.old lib no_lib)) }
{
    let context = libs.at_mut(lib);
    context.is_open = false;
    context.groups = NameMap::new(alloc);
    context.order = Items::new(alloc);
    context.given = Items::new(alloc);
}

/// Takes out of an order what nothing else than the token's activation keeps active.
fn settle(order: &mut Items<Active>, given: &[Given], token: u64, kept: Option<usize>)
    ensures { order.new ≡ filter (stays_active kept (filter (λ g. not (is_of_token token g)) given.now)) order.old }
{
    order.retain(|a| stays(given, token, kept, a));
}

/// Takes a token's activation out of a library context, and what nothing else keeps active there.
fn unload(libs: &mut Items<LibCtx>, lib: usize, token: u64, kept: Option<usize>)
    requires { lib < length libs.old }
    ensures { libs.new ≡ slice_set libs.old lib (unloaded_of kept token (slice_index_or libs.old lib no_lib)) }
{
    let context = libs.at_mut(lib);
    settle(&mut context.order, context.given.as_slice(), token, kept);
    context.given.retain(|g| g.number != token);
}

/// What is answered where something goes.
pub fn answer(going: &Going) -> Reply
    ensures { result ≡ answer_of going.now }
{
    match going {
        Going::Nothing => Reply::NoLib,
        _ => Reply::Done,
    }
}

/// How many activations are given back where something goes.
pub fn returned(going: &Going) -> usize
    ensures { result ≡ returned_by going.now }
{
    match going {
        Going::Activation { .. } | Going::Nothing => 1,
        Going::Element { .. } | Going::Library { .. } => 0,
    }
}

/// Takes out what goes.
pub fn take_out(alloc: Global, state: &mut State, going: &Going)
    requires { IsThere state.old.libs going.now }
    ensures { state.new ≡ without_going state.old going.now }
{
    match *going {
        Going::Element { token } => drop_named(&mut state.live, token),
        Going::Activation { lib, token, kept } => unload(&mut state.libs, lib, token, kept),
        Going::Nothing => (),
        Going::Library { lib } => close(alloc, &mut state.libs, lib),
    }
}
