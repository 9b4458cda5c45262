ghost use Rattle.std.specs.Prelude.{◌≡◌, ◌<◌, length, map, position, slice_index_or, slice_set, IfOk, OnOk, OnErr};
ghost use Rattle.std.specs.Str.{bytes_eq};
ghost use Rattle.ossl_state.specs.Boxes.{place_of};
ghost use Rattle.ossl_state.specs.Rows.{offered};
ghost use Rattle.ossl_state.specs.Mark.{LeadsBack, with_started};
ghost use Rattle.ossl_state.specs.State.{is_active_box, lib_at, no_lib};
ghost use Rattle.ossl_state.specs.Step.{after_activation, fallback_of, grouped_of, held_instance, is_armed, joined_of};
ghost use Rattle.ossl_state.specs.Step.{needs_birth, used_of, with_fallback_used};

use crate::items::Items;
use crate::lookup::{copy_groups, is_held_instance, order_of};
use crate::mark::{Mark, mark_of};
use crate::offer::offer_all;
use crate::state::{Active, Born, Fallback, LibCtx, State};
use ossl_names::NameMap;
use ossl_provider::provider::Provider;
use std::alloc::{AllocError, Global};
use std::mem;

fn is_active_place(order: &[Active], place: usize) -> bool
    ensures { result ≡ is_active_box place order.now }
{
    order.iter().any(|a| a.place == place)
}

/// The instance of a box that was started in a library context and that a live element still holds.
fn find_held(state: &State, lib: u64, place: usize) -> Option<u64>
    ensures { result ≡ held_instance state.now lib place }
{
    let live = state.live.as_slice();
    let born = state.born.as_slice();
    born.iter()
        .find(|b| b.lib == lib && b.place == place && is_held_instance(live, b.number))
        .map(|b| b.number)
}

/// Whether an activation of a box starts it: it is not active in the library context, and no instance of it is held.
pub fn needs_start(state: &State, lib: u64, place: usize) -> bool
    ensures { result ≡ needs_birth state.now lib place }
{
    let order = order_of(state.libs.as_slice(), lib);
    !is_active_place(order, place) && find_held(state, lib, place).is_none()
}

fn is_armed_fallback(fallback: Fallback) -> bool
    ensures { result ≡ is_armed fallback }
{
    matches!(fallback, Fallback::Armed)
}

fn has_name<P: Provider>(provider: &P, name: &[u8]) -> bool
    ensures { result ≡ bytes_eq (P.facts provider.now).name name.now }
{
    provider.name() == name
}

fn first_named<P: Provider>(boxes: &[P], name: &[u8]) -> Option<usize>
    ensures { result ≡ position (λ b. bytes_eq (P.facts b).name name.now) boxes.now }
{
    boxes.iter().position(|b| has_name(b, name))
}

/// The place of the provider of a name.
pub fn find_box<P: Provider>(boxes: &[P], name: &[u8]) -> Option<usize>
    ensures { result ≡ place_of name.now (map P.facts boxes.now) }
{
    first_named(boxes, name)
}

pub fn fallback_at(libs: &[LibCtx], lib: u64) -> Fallback
    ensures { result ≡ (slice_index_or libs.now lib no_lib).fallback }
{
    match libs.get(lib as usize) {
        Some(lib) => lib.fallback,
        None => Fallback::Off,
    }
}

/// The place of the provider that a fetch in a library context falls back to.
pub fn find_fallback<P: Provider>(boxes: &[P], libs: &[LibCtx], lib: u64) -> Option<usize>
    ensures { result ≡ fallback_of (map P.facts boxes.now) (slice_index_or libs.now lib no_lib) }
{
    if is_armed_fallback(fallback_at(libs, lib)) {
        find_box(boxes, b"default")
    } else {
        None
    }
}

/// The instance that a start of a provider makes where these are the groups of names, and the groups once the names of
/// its rows have joined.
fn new_instance<P: Provider>(
    alloc: Global,
    provider: &P,
    groups: NameMap,
    number: u64,
    lib: u64,
    place: usize,
) -> Result<(Born, NameMap), AllocError>
    ensures instance { IfOk result (λ made. made.0 ≡ (let offer = offered groups (P.facts provider.now).rows in
        record { number = number; lib = lib; place = place; rows = offer.rows; skipped = offer.skipped })) }
    ensures groups { IfOk result (λ made. made.1 ≡ (offered groups (P.facts provider.now).rows).groups) }
{
    let offer = offer_all(alloc, provider, groups)?;
    let born = Born {
        number,
        lib,
        place,
        rows: offer.rows,
        skipped: offer.skipped,
    };
    Ok((born, offer.groups))
}

/// Puts a provider and its instance at the end of a library context's order.
fn join(libs: &mut Items<LibCtx>, lib: usize, place: usize, instance: u64) -> Result<(), AllocError>
    requires { lib < length libs.old }
    ensures ok { OnOk result
        (libs.new ≡ slice_set libs.old lib (joined_of (slice_index_or libs.old lib no_lib) place instance)) }
    ensures err { OnErr result (libs.new ≡ libs.old) }
{
    libs.at_mut(lib).order.push(Active { place, instance })
}

/// Puts other groups of names into a library context, and hands out those that were there.
fn replace_groups(libs: &mut Items<LibCtx>, lib: usize, groups: NameMap) -> NameMap
    requires { lib < length libs.old }
    ensures before { result ≡ (slice_index_or libs.old lib no_lib).groups }
    ensures after { libs.new ≡ slice_set libs.old lib (grouped_of (slice_index_or libs.old lib no_lib) groups) }
{
    mem::replace(&mut libs.at_mut(lib).groups, groups)
}

/// Marks the fallback of a library context as used.
pub fn use_fallback(libs: &mut Items<LibCtx>, lib: usize)
    requires { lib < length libs.old }
    ensures { libs.new ≡ slice_set libs.old lib (used_of (slice_index_or libs.old lib no_lib)) }
{
    libs.at_mut(lib).fallback = Fallback::Used;
}

/// Puts an instance that is started into a state, with the groups of names that it leaves, and hands out the groups
/// that were there.
fn bear(state: &mut State, instance: Born, groups: NameMap) -> Result<NameMap, AllocError>
    requires { instance.lib < length state.old.libs }
    ensures ok { OnOk result (state.new ≡ with_started state.old instance groups) }
    ensures before { IfOk result (λ before. before ≡ (lib_at state.old instance.lib).groups) }
    ensures err { OnErr result (state.new ≡ state.old) }
{
    let (lib, place, number) = (instance.lib as usize, instance.place, instance.number);
    let born = state.born.len();
    state.born.push(instance)?;
    match join(&mut state.libs, lib, place, number) {
        Ok(()) => Ok(replace_groups(&mut state.libs, lib, groups)),
        Err(refused) => {
            state.born.truncate(born);
            Err(refused)
        }
    }
}

/// Makes a provider active in a library context, and tells by what that is taken back.
pub fn activate<P: Provider>(
    alloc: Global,
    boxes: &[P],
    state: &mut State,
    lib: u64,
    place: usize,
) -> Result<Mark, AllocError>
    requires lib { lib < length state.old.libs }
    requires place { place < length boxes.now }
    ensures ok { OnOk result (state.new ≡ after_activation (map P.facts boxes.now) state.old lib place) }
    ensures mark { IfOk result (λ mark. LeadsBack mark lib state.old state.new) }
    ensures err { OnErr result (state.new ≡ state.old) }
{
    let mut mark = mark_of(state, lib as usize);
    if is_active_place(order_of(state.libs.as_slice(), lib), place) {
        return Ok(mark);
    }
    match find_held(state, lib, place) {
        Some(held) => {
            join(&mut state.libs, lib as usize, place, held)?;
            Ok(mark)
        }
        None => {
            let groups = copy_groups(alloc, state.libs.as_slice(), lib)?;
            let number = state.next;
            let (instance, groups) = new_instance(
                alloc,
                &boxes[place],
                groups,
                number,
                lib,
                place,
            )?;
            mark.groups = Some(bear(state, instance, groups)?);
            Ok(mark)
        }
    }
}

/// Brings a state to where a fetch looks that falls back to a provider, and tells by what that is taken back.
pub fn fall_back<P: Provider>(
    alloc: Global,
    boxes: &[P],
    state: &mut State,
    lib: u64,
    place: usize,
) -> Result<Mark, AllocError>
    requires lib { lib < length state.old.libs }
    requires place { place < length boxes.now }
    ensures ok { OnOk result
        (state.new ≡ with_fallback_used (after_activation (map P.facts boxes.now) state.old lib place) lib) }
    ensures mark { IfOk result (λ mark. LeadsBack mark lib state.old state.new) }
    ensures err { OnErr result (state.new ≡ state.old) }
{
    let mark = activate(alloc, boxes, state, lib, place)?;
    use_fallback(&mut state.libs, lib as usize);
    Ok(mark)
}
