//! The tokens that a caller holds, in a list that ascends: a look-up takes as many steps as the logarithm of its
//! length. A token that is given back leaves an empty place, which goes when no newer token is held.

ghost use Rattle.std.specs.Prelude.{◌≡◌, ◌<◌, IfOk, vec_capacity, vec_len};
ghost use Rattle.ossl_state.specs.declared.call.Reply.{Reply as TheReply};
ghost use Rattle.ossl_script.specs.Held.{give_back_call, held_after, left_by, with_token, without_texts};
ghost use Rattle.ossl_script.specs.Places.{Ascends, Takes, held_in};

use crate::held::{Held, TokenKind};
use ossl_base::text::Text;
use ossl_property::Query;
use ossl_state::{Call, Reply};
use std::alloc::{AllocError, Global};

/// A token that was handed out, and whether it is still held.
#[derive(Clone, Copy, Debug, PartialEq, Eq)]
pub struct Place {
    pub token: Held,
    pub kept: bool,
}

/// Holds one more token. There is room for it.
fn hold(places: &mut Vec<Place>, token: Held)
    requires room { vec_len places.old < vec_capacity places.old }
    requires ascends { Ascends places.old.items }
    ensures ascends { Ascends places.new.items }
    ensures held { held_in places.new.items ≡ with_token token (held_in places.old.items) }
{
    let number = token.number;
    let behind = places
        .as_slice()
        .partition_point(|place| place.token.number <= number);
    let place = Place { token, kept: true };
    let Ok(()) = places.insert(behind, place) else {
        unreachable!();
    };
}

/// Leaves the places of a token empty.
fn empty_places(places: &mut Vec<Place>, token: Held)
    requires ascends { Ascends places.old.items }
    ensures ascends { Ascends places.new.items }
    ensures held { (reply : TheReply)
        → held_in places.new.items ≡ left_by (give_back_call token) reply (held_in places.old.items) }
{
    let number = token.number;
    let mut place = places
        .as_slice()
        .partition_point(|place| place.token.number <= number);
    while place > 0 && places[place - 1].token.number == number {
        place -= 1;
        if places[place].token.kind == token.kind {
            places[place].kept = false;
        }
    }
}

/// Drops the places behind the newest token that is still held.
fn drop_empty(places: &mut Vec<Place>)
    requires ascends { Ascends places.old.items }
    ensures ascends { Ascends places.new.items }
    ensures held { held_in places.new.items ≡ held_in places.old.items }
{
    while let Some(place) = places.pop() {
        if place.kept {
            places.push_reserved(place);
            return;
        }
    }
}

/// Holds a token no more. Its place is left empty, and dropped where none behind it is held.
fn give_up(places: &mut Vec<Place>, token: Held)
    requires ascends { Ascends places.old.items }
    ensures ascends { Ascends places.new.items }
    ensures held { (reply : TheReply)
        → held_in places.new.items ≡ left_by (give_back_call token) reply (held_in places.old.items) }
{
    empty_places(places, token);
    drop_empty(places);
}

/// A call without its texts: as much of it as the tokens turn on.
pub fn without_texts(alloc: Global, call: &Call) -> Result<Call, AllocError>
    ensures { IfOk result (λ kept. kept ≡ without_texts call.now) }
{
    Ok(match call {
        Call::Load { lib, retain, .. } => Call::Load {
            lib: *lib,
            name: Text::of(Vec::new(alloc)),
            retain: *retain,
        },
        Call::SetDefault { lib, .. } => Call::SetDefault {
            lib: *lib,
            query: Query::empty(alloc),
        },
        Call::Fetch { lib, op, .. } => Call::Fetch {
            lib: *lib,
            op: *op,
            name: Text::of(Vec::new(alloc)),
            query: Query::empty(alloc),
        },
        call => call.copy(alloc)?,
    })
}

/// Holds what a call with its reply leaves. There is room for what it hands out.
pub fn take_answer(places: &mut Vec<Place>, call: &Call, reply: &Reply)
    requires room { vec_len places.old < vec_capacity places.old }
    requires ascends { Ascends places.old.items }
    ensures ascends { Ascends places.new.items }
    ensures held { held_in places.new.items ≡ held_after call.now reply.now (held_in places.old.items) }
{
    match call {
        Call::Unload { token } => {
            let kind = TokenKind::Activation;
            give_up(
                places,
                Held {
                    number: *token,
                    kind,
                },
            );
        }
        Call::Free { handle } => {
            let kind = TokenKind::Method;
            give_up(
                places,
                Held {
                    number: *handle,
                    kind,
                },
            );
        }
        Call::FreeCtx { handle } => {
            let kind = TokenKind::Context;
            give_up(
                places,
                Held {
                    number: *handle,
                    kind,
                },
            );
        }
        _ => {
            if let Some(token) = Held::handed_out(call, reply) {
                hold(places, token);
            }
        }
    }
}

/// Takes out the newest token that is still held.
pub fn take_newest(places: &mut Vec<Place>) -> Option<Held>
    requires ascends { Ascends places.old.items }
    ensures ascends { Ascends places.new.items }
    ensures taken { Takes (held_in places.old.items) result (held_in places.new.items) }
    ensures room { vec_len places.old < vec_capacity places.old → vec_len places.new < vec_capacity places.new }
{
    while let Some(place) = places.pop() {
        if place.kept {
            return Some(place.token);
        }
    }
    None
}
