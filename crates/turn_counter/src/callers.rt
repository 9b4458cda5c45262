//! Callers that add to one counter, each in a thread of its own.
ghost use Rattle.std.specs.Prelude.{◌≡◌, ℕ, List, ◌+◌, ◌<◌, ◌≤◌, [], ◌∷◌, ◌++◌, length, map, All, IfOk, OnOk, OnErr};
ghost use Rattle.std.specs.Prelude.{IsSome, vec_len, vec_capacity, slice_index_or};
ghost use Rattle.ossl_turn.specs.Passes.{CameFrom, AreNumbered};
ghost use Rattle.turn_counter.specs.Adding.{AreCounted, HasAdded, HasHeard, IsStill};

use crate::counter::{Add, Counter};
use ossl_turn::{Pass, Shared};
use std::alloc::{AllocError, Global};
use std::sync::Wait;
use std::thread::{Threads, for_each_mut};

/// A caller: its pass, how much it adds at each call, and what it heard once all of its calls were answered.
pub struct Adder {
    pub pass: Pass<Counter>,
    pub amount: Add,
    pub heard: Option<Vec<u64, Global>>,
}

/// Adds so much, so often, and gives the replies. Where memory is wanting it stops early.
pub fn add_often<R: Wait>(
    alloc: Global,
    rt: &R,
    shared: &Shared<Counter>,
    pass: &mut Pass<Counter>,
    amount: Add,
    times: usize,
) -> Result<Vec<u64, Global>, AllocError>
    requires { CameFrom shared.now pass.old }
    ensures pass { CameFrom shared.now pass.new × (pass.new.number ≡ pass.old.number)
        × (pass.new.made ≡ pass.old.made) }
    ensures heard { IfOk result (λ v. map (λ e. e.reply) pass.new.own ≡ map (λ e. e.reply) pass.old.own ++ v.items) }
    ensures times { IfOk result (λ v. length v.items ≡ times) }
    ensures added { IfOk result (λ v. HasAdded amount v.items pass.old pass.new) }
    ensures short { OnErr result
        ((replies : List ℕ) × (length replies ≤ times) × HasAdded amount replies pass.old pass.new) }
{
    let mut heard = Vec::with_capacity(alloc, times)?;
    for _ in 0..times {
        let reply = shared.call(rt, pass, &amount)?;
        heard.push_reserved(reply);
    }
    Ok(heard)
}

/// Each caller adds its amount so often, all at the same time. Each has then heard all answers, unless memory was
/// wanting.
pub fn add_at_once<R: Threads + Wait + Sync>(
    alloc: Global,
    rt: &R,
    shared: &Shared<Counter>,
    adders: &mut [Adder],
    times: usize,
) -> Result<(), AllocError>
    requires came { All (λ a. CameFrom shared.now a.pass) adders.old }
    requires counted { AreCounted (length adders.old) adders.old }
    ensures came { All (λ a. CameFrom shared.now a.pass) adders.new }
    ensures counted { AreCounted (length adders.old) adders.new }
    ensures count { length adders.new ≡ length adders.old }
    ensures still { (i : ℕ) (d : _) → i < length adders.old
        → IsStill (slice_index_or adders.old i d) (slice_index_or adders.new i d) }
    ensures heard { (i : ℕ) (d : _) → i < length adders.old
        → HasHeard times (slice_index_or adders.old i d) (slice_index_or adders.new i d) }
    ensures all { OnOk result (All (λ a. IsSome a.heard) adders.new) }
{
    let threads = adders.len().max(1);
    for_each_mut(
        rt,
        adders,
        threads,
        &|_i, adder: &mut Adder|
            requires { CameFrom shared.now adder.old.pass }
            ensures still { IsStill adder.old adder.new }
            ensures heard { HasHeard times adder.old adder.new }
        {
            adder.heard = add_often(alloc, rt, shared, &mut adder.pass, adder.amount, times).ok();
        },
    );
    if adders.iter().all(|adder| adder.heard.is_some()) {
        Ok(())
    } else {
        Err(AllocError)
    }
}

/// Makes a caller of each pass, into a list that has room for them. It takes no memory.
pub fn hire(
    shared: &Shared<Counter>,
    passes: &mut Vec<Pass<Counter>, Global>,
    adders: &mut Vec<Adder, Global>,
    amount: Add,
)
    requires came { All (CameFrom shared.now) passes.old.items }
    requires numbered { AreNumbered passes.old.items }
    requires room { (adders.old.items ≡ []) × (vec_len passes.old ≤ vec_capacity adders.old) }
    ensures passes { (passes.new.items ≡ []) × (vec_capacity passes.new ≡ vec_capacity passes.old) }
    ensures came { All (λ a. CameFrom shared.now a.pass) adders.new.items }
    ensures counted { AreCounted (length passes.old.items) adders.new.items }
    ensures count { length adders.new.items ≡ length passes.old.items }
    ensures amount { All (λ a. a.amount ≡ amount) adders.new.items }
{
    while let Some(pass) = passes.pop() {
        adders.push_reserved(Adder {
            pass,
            amount,
            heard: None,
        });
    }
}

/// Gives the passes back, in the order of their numbers, and what each caller heard. Both lists have room for them.
pub fn dismiss(
    shared: &Shared<Counter>,
    mut adders: Vec<Adder, Global>,
    passes: &mut Vec<Pass<Counter>, Global>,
    heard: &mut Vec<Option<Vec<u64, Global>>, Global>,
)
    requires came { All (λ a. CameFrom shared.now a.pass) adders.items }
    requires counted { AreCounted (vec_len adders) adders.items }
    requires room { (passes.old.items ≡ []) × (vec_len adders ≤ vec_capacity passes.old) }
    requires heard { (heard.old.items ≡ []) × (vec_len adders ≤ vec_capacity heard.old) }
    ensures passes { (length passes.new.items ≡ length adders.items)
        × (vec_capacity passes.new ≡ vec_capacity passes.old) }
    ensures came { All (CameFrom shared.now) passes.new.items }
    ensures numbered { AreNumbered passes.new.items }
    ensures heard { length heard.new.items ≡ length adders.items }
{
    while let Some(adder) = adders.pop() {
        let Adder {
            pass,
            amount: _,
            heard: replies,
        } = adder;
        passes.push_reserved(pass);
        heard.push_reserved(replies);
    }
    adders.destroy_empty();
}
