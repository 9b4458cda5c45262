ghost use Rattle.std.specs.Prelude.{◌≡◌, ◌<◌, length, map, position, slice_index_or, slice_set, IfOk, OnOk, OnErr};
ghost use Rattle.std.specs.List.{list_any};
ghost use Rattle.ossl_state.specs.Mark.{LeadsBack};
ghost use Rattle.ossl_state.specs.State.{no_lib};
ghost use Rattle.ossl_state.specs.Step.{after_load_of, fallback_after_load, instance_in, is_of_token, is_used, kept_of};
ghost use Rattle.ossl_state.specs.Step.{loaded_of, loaded_reply, skipped_of};

use crate::activation::{activate, fallback_at, find_box};
use crate::call::Reply;
use crate::items::Items;
use crate::lookup::order_of;
use crate::mark::{Mark, take_back};
use crate::state::{Active, Born, Fallback, Given, LibCtx, State};
use ossl_provider::provider::Provider;
use std::alloc::{AllocError, Global};

/// The fallback once a load is accepted: off where it was armed, unless the load retains it.
fn fallback_after_load(retain: bool, fallback: Fallback) -> Fallback
    ensures { result ≡ fallback_after_load retain fallback }
{
    match fallback {
        Fallback::Armed if !retain => Fallback::Off,
        fallback => fallback,
    }
}

/// Gives an activation of a library context.
fn give_activation(
    libs: &mut Items<LibCtx>,
    lib: usize,
    retain: bool,
    given: Given,
) -> Result<(), AllocError>
    requires { lib < length libs.old }
    ensures ok { OnOk result
        (libs.new ≡ slice_set libs.old lib (loaded_of retain given (slice_index_or libs.old lib no_lib))) }
    ensures err { OnErr result (libs.new ≡ libs.old) }
{
    let context = libs.at_mut(lib);
    context.given.push(given)?;
    context.fallback = fallback_after_load(retain, context.fallback);
    Ok(())
}

/// Puts into a state what an accepted load of the provider at a place leaves, and tells by what it is taken back.
pub fn load<P: Provider>(
    alloc: Global,
    boxes: &[P],
    state: &mut State,
    caller: u64,
    lib: u64,
    retain: bool,
    place: usize,
) -> Result<Mark, AllocError>
    requires lib { lib < length state.old.libs }
    requires place { place < length boxes.now }
    ensures ok { OnOk result (state.new ≡ after_load_of (map P.facts boxes.now) state.old caller lib retain place) }
    ensures mark { IfOk result (λ mark. LeadsBack mark lib state.old state.new) }
    ensures err { OnErr result (state.new ≡ state.old) }
{
    let mark = activate(alloc, boxes, state, lib, place)?;
    let given = Given {
        number: state.next,
        place,
        owner: caller,
    };
    match give_activation(&mut state.libs, lib as usize, retain, given) {
        Ok(()) => Ok(mark),
        Err(refused) => {
            take_back(state, mark);
            Err(refused)
        }
    }
}

/// The instance of a box in an order.
fn find_instance(order: &[Active], place: usize) -> u64
    ensures { result ≡ instance_in order.now place }
{
    let active = order.iter().find(|a| a.place == place);
    active.map(|a| a.instance).unwrap_or(0)
}

/// How many rows of an instance were left out.
fn find_skipped(born: &[Born], number: u64) -> u64
    ensures { result ≡ skipped_of born.now number }
{
    let instance = born.iter().find(|b| b.number == number);
    instance.map(|b| b.skipped).unwrap_or(0)
}

/// What a load answers once its provider is active.
pub fn reply_of_load(active: &State, number: u64, lib: u64, place: usize) -> Reply
    ensures { result ≡ loaded_reply active.now number lib place }
{
    let instance = find_instance(order_of(active.libs.as_slice(), lib), place);
    Reply::Loaded {
        number,
        instance,
        skipped: find_skipped(active.born.as_slice(), instance),
    }
}

fn has_activation(lib: &LibCtx, token: u64) -> bool
    ensures { result ≡ list_any (is_of_token token) lib.now.given }
{
    lib.given.as_slice().iter().any(|g| g.number == token)
}

/// The library context in which a token's activation was given.
pub fn find_holder(libs: &[LibCtx], token: u64) -> Option<usize>
    ensures { result ≡ position (λ lib. list_any (is_of_token token) lib.given) libs.now }
{
    libs.iter().position(|lib| has_activation(lib, token))
}

fn is_used_fallback(fallback: Fallback) -> bool
    ensures { result ≡ is_used fallback }
{
    matches!(fallback, Fallback::Used)
}

/// The place of the provider that the fallback of a library context keeps active.
pub fn find_kept<P: Provider>(boxes: &[P], libs: &[LibCtx], lib: u64) -> Option<usize>
    ensures { result ≡ kept_of (map P.facts boxes.now) (slice_index_or libs.now lib no_lib) }
{
    if is_used_fallback(fallback_at(libs, lib)) {
        find_box(boxes, b"default")
    } else {
        None
    }
}
