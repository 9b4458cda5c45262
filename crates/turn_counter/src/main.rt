//! `turn_counter CALLERS CALLS`: so many callers, each in a thread of its own, add 1 to one shared counter, so often
//! each.
//! It promises what `ossl_turn` does of the object that comes back, and prints the number of entries and the total: the
//! same whatever the schedule.
//! The measure of what a turn costs (bench/turn) is this program. Its work grows with the number of calls alone.
#![tactic(auto)]

mod callers;
mod counter;
#[cfg(test)]
mod tests;

use callers::{add_at_once, dismiss, hire};
use counter::{Add, Counter};
use ossl_turn::{ShareRefused, Shared};
use std::alloc::AllocError;
use std::{env, io};

/// The greatest number of callers.
const MOST: usize = 16;

fn number(word: Option<String>) -> Option<usize> {
    word?.as_str().parse().ok()
}

fn main(rt: HostRuntime) -> io::Result<()> {
    let alloc = rt.alloc();
    let mut words = env::args(&rt)?.skip(1);
    let (Some(callers), Some(calls)) = (number(words.next()), number(words.next())) else {
        return println!(rt; "usage: turn_counter CALLERS CALLS");
    };
    let callers = callers.min(MOST);
    let mut heard = Vec::with_capacity(alloc, callers)?;
    let mut adders = Vec::with_capacity(alloc, callers)?;
    let Ok(mut passes) = Vec::with_capacity(alloc, callers + 1) else {
        adders.destroy_empty();
        return Err(AllocError.into());
    };
    let (shared, mut first) = match Shared::open(alloc, Counter::new(alloc)) {
        Ok(opened) => opened,
        Err(ShareRefused { object: _ }) => {
            adders.destroy_empty();
            passes.destroy_empty();
            return Err(AllocError.into());
        }
    };
    shared.split_all(&mut first, &mut passes, callers);
    hire(&shared, &mut passes, &mut adders, Add(1));
    let added = add_at_once(alloc, &rt, &shared, &mut adders, calls);
    dismiss(&shared, adders, &mut passes, &mut heard);
    let counter = shared.close_all(first, passes);
    added?;
    println!(rt;
        "{} entries, total {}",
        counter.entries().len(),
        counter.total()
    )
}
