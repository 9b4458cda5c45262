ghost use Rattle.std.specs.Prelude.{◌≡◌, ◌++◌, ◌<◌, find, length, map, IfOk, OnOk, OnErr};
ghost use Rattle.std.specs.Option.{option_copied, option_map};
ghost use Rattle.ossl_state.specs.Best.{best_method};
ghost use Rattle.ossl_state.specs.Boxes.{facts_at};
ghost use Rattle.ossl_state.specs.Mark.{LeadsBack, fallen_back};
ghost use Rattle.ossl_state.specs.Step.{context_made, element_of, fetched_of, held_by_inner, is_named, new_method};
ghost use Rattle.ossl_state.specs.Step.{second_method, with_method};

use crate::activation::fall_back;
use crate::best::best;
use crate::call::Reply;
use crate::items::Items;
use crate::mark::{Mark, take_back};
use crate::state::{Choice, Kind, Live, State};
use ossl_base::text::Text;
use ossl_codes::{Code, Operation};
use ossl_property::{Query, Steps};
use ossl_provider::provider::Provider;
use std::alloc::{AllocError, Global};
use std::sync::ledger::Ledger;

/// The name of the provider at a place, empty where there is none.
pub fn name_at<P: Provider>(boxes: &[P], place: usize) -> &[u8]
    ensures { result.now ≡ (facts_at (map P.facts boxes.now) place).name }
{
    match boxes.get(place) {
        Some(provider) => provider.name(),
        None => &[],
    }
}

/// Whether the provider at a place admits a code with a key of a length.
fn admits_at<P: Provider>(boxes: &[P], place: usize, code: Code, key_len: u64) -> bool
    ensures { result ≡ (facts_at (map P.facts boxes.now) place).admits code key_len }
{
    match boxes.get(place) {
        Some(provider) => provider.admits(code, key_len),
        None => false,
    }
}

/// What a fetch answers of its choice.
fn reply_of<P: Provider>(
    alloc: Global,
    boxes: &[P],
    number: u64,
    chosen: Option<Choice>,
) -> Result<Reply, AllocError>
    ensures { IfOk result (λ reply. reply ≡ fetched_of (map P.facts boxes.now) number chosen) }
{
    match chosen {
        Some(chosen) => Ok(Reply::Fetched {
            number,
            provider: Text::of(Vec::from_slice(alloc, name_at(boxes, chosen.place))?),
            instance: chosen.instance,
            row: chosen.row,
            code: chosen.code,
        }),
        None => Ok(Reply::Unsupported),
    }
}

/// The method of a chosen row.
fn make_method(alloc: Global, number: u64, caller: u64, chosen: Choice) -> Result<Live, AllocError>
    ensures { IfOk result (λ x. x ≡ new_method number caller chosen) }
{
    Ok(Live {
        number,
        owner: caller,
        kind: Kind::Method,
        held: Items::from_slice(alloc, &[chosen.instance])?,
        place: chosen.place,
        row: chosen.row,
        code: chosen.code,
    })
}

/// Adds the method of a chosen row to a state.
fn give_method(
    alloc: Global,
    state: &mut State,
    caller: u64,
    chosen: Option<Choice>,
) -> Result<(), AllocError>
    ensures ok { OnOk result (state.new ≡ with_method state.old caller chosen) }
    ensures err { OnErr result (state.new ≡ state.old) }
{
    if let Some(chosen) = chosen {
        let method = make_method(alloc, state.next, caller, chosen)?;
        state.live.push(method)?;
    }
    Ok(())
}

/// Looks for the best method of a name in a library context, and puts it into the state. What is answered is handed out
/// twice: for the caller and for its entry.
pub fn find_method<P: Provider, L: Ledger>(
    alloc: Global,
    boxes: &[P],
    state: &mut State,
    caller: u64,
    lib: u64,
    op: Operation,
    name: &[u8],
    query: &Query,
    steps: &mut Steps<L>,
) -> Result<(Reply, Reply), AllocError>
    ensures ok { OnOk result (
        state.new ≡ with_method state.old caller (best_method state.old lib op name.now query.now)) }
    ensures told { IfOk result (λ told. let chosen = best_method state.old lib op name.now query.now in
        told.0 ≡ fetched_of (map P.facts boxes.now) state.old.next chosen) }
    ensures twice { IfOk result (λ told. told.1 ≡ told.0) }
    ensures err { OnErr result (state.new ≡ state.old) }
{
    let chosen = best(alloc, state, lib, op, name, query, steps)?;
    let number = state.next;
    let told = (
        reply_of(alloc, boxes, number, chosen)?,
        reply_of(alloc, boxes, number, chosen)?,
    );
    give_method(alloc, state, caller, chosen)?;
    Ok(told)
}

/// Looks for the best method of a name where a fetch falls back to the provider at a place, and puts both into the
/// state. It tells by what that is taken back, and twice what is answered.
pub fn fall_back_and_find<P: Provider, L: Ledger>(
    alloc: Global,
    boxes: &[P],
    state: &mut State,
    place: usize,
    caller: u64,
    lib: u64,
    op: Operation,
    name: &[u8],
    query: &Query,
    steps: &mut Steps<L>,
) -> Result<(Mark, Reply, Reply), AllocError>
    requires lib { lib < length state.old.libs }
    requires place { place < length boxes.now }
    ensures ok { OnOk result (let left = fallen_back (map P.facts boxes.now) state.old lib place in
        state.new ≡ with_method left caller (best_method left lib op name.now query.now)) }
    ensures told { IfOk result (λ told. let left = fallen_back (map P.facts boxes.now) state.old lib place in
        told.1 ≡ fetched_of (map P.facts boxes.now) state.old.next (best_method left lib op name.now query.now)) }
    ensures twice { IfOk result (λ told. told.2 ≡ told.1) }
    ensures mark { IfOk result (λ told. LeadsBack told.0 lib state.old state.new) }
    ensures err { OnErr result (state.new ≡ state.old) }
{
    let mark = fall_back(alloc, boxes, state, lib, place)?;
    match find_method(alloc, boxes, state, caller, lib, op, name, query, steps) {
        Ok((reply, copy)) => Ok((mark, reply, copy)),
        Err(refused) => {
            take_back(state, mark);
            Err(refused)
        }
    }
}

/// The live element that a token names.
fn find_element(live: &[Live], token: u64) -> Option<&Live>
    ensures { option_copied result ≡ find (is_named token) live.now }
{
    live.iter().find(|x| x.number == token)
}

/// A second method, as the one that a token names.
pub fn second_of(
    alloc: Global,
    state: &State,
    caller: u64,
    handle: u64,
) -> Result<Option<Live>, AllocError>
    ensures { IfOk result (λ made. made
        ≡ option_map (second_method state.now.next caller) (element_of state.now handle)) }
{
    let Some(method) = find_element(state.live.as_slice(), handle) else {
        return Ok(None);
    };
    Ok(Some(Live {
        number: state.next,
        owner: caller,
        kind: method.kind,
        held: Items::from_slice(alloc, method.held.as_slice())?,
        place: method.place,
        row: method.row,
        code: method.code,
    }))
}

/// The instances that a method holds, and those of an inner one.
fn held_by_both(
    alloc: Global,
    state: &State,
    method: &Live,
    inner: Option<u64>,
) -> Result<Items<u64>, AllocError>
    ensures { IfOk result (λ held. held ≡ method.now.held ++ held_by_inner state.now inner) }
{
    let mut held = Items::from_slice(alloc, method.held.as_slice())?;
    if let Some(token) = inner {
        if let Some(x) = find_element(state.live.as_slice(), token) {
            held.extend_from_slice(x.held.as_slice())?;
        }
    }
    Ok(held)
}

/// The operation context of a method, where its provider admits it.
pub fn context_of<P: Provider>(
    alloc: Global,
    boxes: &[P],
    state: &State,
    caller: u64,
    handle: u64,
    inner: Option<u64>,
    key_len: u64,
) -> Result<Option<Live>, AllocError>
    ensures { IfOk result (λ made. made
        ≡ context_made (map P.facts boxes.now) state.now caller inner key_len (element_of state.now handle)) }
{
    let Some(method) = find_element(state.live.as_slice(), handle) else {
        return Ok(None);
    };
    if !admits_at(boxes, method.place, method.code, key_len) {
        return Ok(None);
    }
    let held = held_by_both(alloc, state, method, inner)?;
    Ok(Some(Live {
        number: state.next,
        owner: caller,
        kind: Kind::Context,
        held,
        place: method.place,
        row: method.row,
        code: method.code,
    }))
}
