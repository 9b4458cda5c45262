//! The instances that are up, with what keeps each of them up.

ghost use Rattle.std.specs.Prelude.{◌≡◌, ◌<◌, ◌-◌, ◌^◌, map, option_to_list, vec_len, vec_capacity, IsTrue, IfOk};
ghost use Rattle.ossl_watch.specs.Watched.{activated, after_use, are_below, birth, going_by, has_box, is_box_of};
ghost use Rattle.ossl_watch.specs.Watched.{is_used, left_after, up_of, with_box};

use crate::token::{Use, holds};
use crate::up::Up;
use std::alloc::{AllocError, Global};

/// An instance that is up.
#[derive(Debug, Clone, Copy)]
pub struct Running {
    pub number: u64,
    /// Its provider's place in the catalogue, and its library context.
    pub place: usize,
    pub lib: u64,
    /// How many activations its provider has in that context: those that loads gave, and the fallback's.
    pub activations: u64,
    /// How many live elements hold it.
    pub holders: u64,
}

/// An instance as it is told.
pub fn told(running: &Running) -> Up
    ensures { result ≡ up_of running.now }
{
    Up {
        place: running.place,
        number: running.number,
    }
}

/// Whether something keeps it up.
fn is_used(running: &Running) -> bool
    ensures { result ≡ is_used running.now }
{
    running.activations != 0 || running.holders != 0
}

fn is_box_of(lib: u64, place: usize, running: &Running) -> bool
    ensures { result ≡ is_box_of lib place running.now }
{
    running.lib == lib && running.place == place
}

/// Whether an instance of the box at a place is up in a library context.
pub fn has_box(lib: u64, place: usize, running: &[Running]) -> bool
    ensures { result ≡ has_box lib place running.now }
{
    running.iter().any(|r| is_box_of(lib, place, r))
}

/// What keeps an instance up once its uses have changed.
fn after_use(change: &Use, running: &Running) -> Running
    requires activations { running.now.activations < 2 ^ 64 - 1 }
    requires holders { running.now.holders < 2 ^ 64 - 1 }
    ensures { result ≡ after_use change.now running.now }
{
    match change {
        Use::Activated { lib, place } if is_box_of(*lib, *place, running) => Running {
            activations: running.activations + 1,
            ..*running
        },
        Use::Deactivated { lib, place } if is_box_of(*lib, *place, running) => Running {
            activations: running.activations.saturating_sub(1),
            ..*running
        },
        Use::Held(token) if holds(token, running.number) => Running {
            holders: running.holders + 1,
            ..*running
        },
        Use::Released(token) if holds(token, running.number) => Running {
            holders: running.holders.saturating_sub(1),
            ..*running
        },
        Use::Closed { lib } if running.lib == *lib => Running {
            activations: 0,
            ..*running
        },
        _ => *running,
    }
}

/// Changes the uses of all of them.
pub fn change_uses(running: &mut Vec<Running>, change: &Use)
    requires { IsTrue (are_below (2 ^ 64 - 1) running.old.items) }
    ensures { running.new.items ≡ map (after_use change.now) running.old.items }
{
    for at in 0..running.len() {
        running[at] = after_use(change, &running[at]);
    }
}

/// Those that nothing keeps up any more once their uses have changed.
pub fn going(alloc: Global, running: &[Running], change: &Use) -> Result<Vec<Up>, AllocError>
    requires { IsTrue (are_below (2 ^ 64 - 1) running.now) }
    ensures { IfOk result (λ ups. ups.items ≡ going_by change.now running.now) }
{
    let mut ups = Vec::new(alloc);
    for r in running {
        if !is_used(&after_use(change, r)) {
            ups.push(told(r))?;
        }
    }
    Ok(ups)
}

/// Changes the uses, and drops those that nothing keeps up any more.
pub fn settle(running: &mut Vec<Running>, change: &Use)
    requires { IsTrue (are_below (2 ^ 64 - 1) running.old.items) }
    ensures { running.new.items ≡ left_after change.now running.old.items }
{
    change_uses(running, change);
    running.retain(|r| is_used(r));
}

/// The box at a place becomes active in a library context, or has one activation more. Where no instance of it
/// is up there, one is
/// born under this number, which is told.
pub fn activate(running: &mut Vec<Running>, number: u64, lib: u64, place: usize) -> Option<Up>
    requires room { vec_len running.old < vec_capacity running.old }
    requires below { IsTrue (are_below (2 ^ 64 - 1) running.old.items) }
    ensures running { running.new.items ≡ activated number lib place running.old.items }
    ensures started { option_to_list result ≡ birth number lib place running.old.items }
{
    let started = bear(running, number, lib, place);
    change_uses(running, &Use::Activated { lib, place });
    started
}

/// An instance of a box is born, where none is up.
fn bear(running: &mut Vec<Running>, number: u64, lib: u64, place: usize) -> Option<Up>
    requires room { vec_len running.old < vec_capacity running.old }
    requires below { IsTrue (are_below (2 ^ 64 - 1) running.old.items) }
    ensures running { running.new.items ≡ with_box number lib place running.old.items }
    ensures started { option_to_list result ≡ birth number lib place running.old.items }
    ensures below { IsTrue (are_below (2 ^ 64 - 1) running.new.items) }
{
    if has_box(lib, place, running) {
        return None;
    }
    let born = Running {
        number,
        place,
        lib,
        activations: 0,
        holders: 0,
    };
    running.push_reserved(born);
    Some(told(&born))
}
