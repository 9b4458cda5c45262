//! The cache. A clause sees it as the list of its answers, the most recently used first.

ghost use Rattle.std.specs.Prelude.{◌≡◌, ◌≤◌, [], None, true, length, replicate, IfOk, OnOk, OnErr};
ghost use Rattle.ossl_cache.specs.Places.{are_places};
ghost use Rattle.std.specs.Map.{lookup};
ghost use Rattle.lru.specs.LruCache.{promoted};
ghost use Rattle.ossl_cache.specs.Recent.{most, same_key, with_answer, without, is_asked, is_answered};

use crate::held::Held;
use crate::key::{Kept, Key};
use crate::places::{Going, Order, Slot, empty, kept_at, next_place, place_of};
use lru::LruCache;
use ossl_codes::Operation;
use ossl_names::Number;
use std::alloc::{AllocError, Global};
use std::marker::Model;
use std::num::NonZeroUsize;

/// How many keys are kept.
const PLACES: usize = 64;

/// The answers to the last 64 keys, the most recently used first. A key that it holds holds no instance up.
#[derive(Drop)]
pub struct QueryCache {
    slots: Vec<Slot>,
    order: Order,
}

impl Model for QueryCache {
    ghost use Rattle.std.specs.Prelude.{List};
    ghost use Rattle.ossl_cache.specs.Recent.{Answer};
    ghost use Rattle.ossl_cache.specs.Places.{shown, IsPlaced};

    ghost Value = { List Answer };

    ghost view = { λ c. shown c.slots.items c.order.entries };

    ghost invariant = { λ c. IsPlaced c.slots.items c.order.entries };
}

impl QueryCache {
    /// A cache without a key. Only here it takes memory.
    pub fn new(alloc: Global) -> Result<QueryCache, AllocError>
        ensures empty { IfOk result (λ cache. cache ≡ []) }
    {
        Ok(QueryCache {
            slots: empty_slots(alloc)?,
            order: all_places(alloc)?,
        })
    }

    /// What answered the key, which goes to the front. It takes no memory.
    pub fn find(&mut self, key: &Key) -> Option<Kept>
        ensures found { result ≡ lookup (same_key key.now) self.old }
        ensures front { self.new ≡ promoted (same_key key.now) self.old }
    {
        let Some(place) = place_of(self.slots.as_slice(), key) else {
            return None;
        };
        self.order.promote(&place);
        kept_at(self.slots.as_slice(), place)
    }

    /// Puts a key and what answered it at the front. Where the cache is full, the last key goes.
    pub fn keep(&mut self, key: Key, kept: Kept)
        ensures first { self.new ≡ with_answer key kept self.old }
    {
        let held = Held::new(key, kept);
        empty(&mut self.slots, Going::Key(&held));
        let free = next_place(self.slots.as_slice(), &self.order);
        self.slots[free] = Some(held);
        self.order.promote(&free);
    }

    /// Takes every key out. It takes no memory.
    pub fn flush(&mut self)
        ensures empty { self.new ≡ [] }
    {
        empty(&mut self.slots, Going::All);
    }

    /// Takes out the keys of an operation and number. It takes no memory.
    pub fn drop_key(&mut self, op: Operation, number: Number)
        ensures rest { self.new ≡ without (is_asked op number) self.old }
    {
        empty(&mut self.slots, Going::Asked(op, number));
    }

    /// Takes out the keys that an instance answered. It takes no memory.
    pub fn drop_answered(&mut self, instance: u64)
        ensures rest { self.new ≡ without (is_answered instance) self.old }
    {
        empty(&mut self.slots, Going::Answered(instance));
    }
}

fn empty_slots(alloc: Global) -> Result<Vec<Slot>, AllocError>
    ensures { IfOk result (λ slots. slots.items ≡ replicate 64 None) }
{
    let mut slots = Vec::with_capacity(alloc, PLACES)?;
    for _place in 0..PLACES {
        slots.push(None)?;
    }
    Ok(slots)
}

/// An order of all places, the first in front: so the first are filled first, and a scan meets what is held soonest.
fn all_places(alloc: Global) -> Result<Order, AllocError>
    ensures { IfOk result (λ order. (length order.entries ≡ 64) × (are_places order.entries ≡ true)) }
{
    let Some(places) = NonZeroUsize::new(PLACES) else {
        unreachable!()
    };
    let mut order = LruCache::new(alloc, places)?;
    for place in (0..PLACES).rev() {
        order.put(place, ())?;
    }
    Ok(order)
}
