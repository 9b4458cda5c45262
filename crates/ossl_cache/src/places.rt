//! Places that hold answers: which of them holds a key, which is free, and what goes from them.

ghost use Rattle.std.specs.Prelude.{◌≡◌, ◌<◌, None, Some, find, position, map, length, unwrap_or, option_map};
ghost use Rattle.ossl_cache.specs.Recent.{same_key};
ghost use Rattle.ossl_cache.specs.Marks.{mark_of};
ghost use Rattle.ossl_cache.specs.Places.{goes, emptied, held_at, holds_in, is_free, last_place, next_place};

use crate::held::Held;
use crate::key::{Kept, Key};
use crate::mark::mark_of;
use lru::LruCache;
use ossl_codes::Operation;
use ossl_names::Number;

/// A place: empty, or a key with what answered it.
pub type Slot = Option<Held>;

/// The places, the last used first.
pub type Order = LruCache<usize, ()>;

/// Which answers go.
#[derive(Clone, Copy)]
pub enum Going<'a> {
    All,
    Key(&'a Held),
    Asked(Operation, Number),
    Answered(u64),
}

/// Empties the places whose answers go.
pub fn empty(slots: &mut [Slot], going: Going)
    ensures { slots.new ≡ map (emptied (goes going.entry)) slots.old }
{
    for slot in slots.iter_mut() {
        empty_one(slot, going);
    }
}

fn empty_one(slot: &mut Slot, going: Going)
    ensures { slot.new ≡ emptied (goes going.entry) slot.old }
{
    if let Some(held) = slot
        && is_going(going, held)
    {
        *slot = None;
    }
}

fn is_going(going: Going, held: &Held) -> bool
    ensures { result ≡ goes going.entry held.now }
{
    match going {
        Going::All => true,
        Going::Key(other) => held.is_same(other),
        Going::Asked(op, number) => held.key().asks_for(op, number),
        Going::Answered(instance) => held.kept().instance == instance,
    }
}

/// The first place that holds a key, as the places stand, whatever their order of use.
pub fn place_of(slots: &[Slot], key: &Key) -> Option<usize>
    ensures { result ≡ position (holds_in (same_key key.now)) slots.now }
{
    let mark = mark_of(key);
    slots.iter().position(|slot| holds(slot, key, mark))
}

fn holds(slot: &Slot, key: &Key, mark: u64) -> bool
    requires { mark ≡ mark_of key.now }
    ensures { result ≡ holds_in (same_key key.now) slot.now }
{
    match slot {
        Some(held) => held.is_of(key, mark),
        None => false,
    }
}

/// What answered the key that a place holds.
pub fn kept_at(slots: &[Slot], place: usize) -> Option<Kept>
    ensures { result ≡ option_map (λ a. a.1) (held_at slots.now place) }
{
    match slots.get(place) {
        Some(Some(held)) => Some(held.kept()),
        _ => None,
    }
}

/// The place for a new answer: the first that holds nothing, or else the one used longest ago.
pub fn next_place(slots: &[Slot], order: &Order) -> usize
    ensures { result ≡ next_place slots.now order.now.entries }
{
    match first_free(slots, order) {
        Some(place) => place,
        None => last_place(order),
    }
}

fn first_free(slots: &[Slot], order: &Order) -> Option<usize>
    ensures { result ≡ find (is_free slots.now) (map (λ e. e.0) order.now.entries) }
{
    order
        .iter()
        .map(|e| *e.0)
        .find(|place| is_free(slots, *place))
}

fn is_free(slots: &[Slot], place: usize) -> bool
    ensures { result ≡ is_free slots.now place }
{
    match slots.get(place) {
        Some(slot) => slot.is_none(),
        None => true,
    }
}

fn last_place(order: &Order) -> usize
    ensures { result ≡ last_place order.now.entries }
{
    match order.peek_lru() {
        Some((place, _)) => *place,
        None => 0,
    }
}
