//! A gate that holds callers back until others have come as far.

use ossl_worker::Gate;
use std::alloc::{AllocError, Global};
use std::sync::{Condvar, Mutex, Wait};
use std::time::{Clock, Duration};

/// For how many seconds a caller is held back at most.
const PATIENCE: u64 = 20;

/// A call of a caller, counted from 1, that waits until another caller has come to a call of its own.
#[derive(Clone, Copy, Drop)]
pub struct Hold {
    pub caller: u64,
    pub call: u64,
    pub other: u64,
    pub theirs: u64,
}

/// What a gate has seen: to how many calls each caller came, from caller 0, and whether one was held back in vain.
#[derive(Drop)]
struct Seen {
    calls: Vec<u64>,
    in_vain: bool,
}

impl Seen {
    /// To how many calls a caller came.
    fn calls_of(&self, caller: u64) -> u64 {
        match self.calls.get(caller as usize) {
            Some(calls) => *calls,
            None => 0,
        }
    }

    /// Counts a call that a caller comes to, and tells its number.
    fn count(&mut self, caller: u64) -> u64 {
        match self.calls.get_mut(caller as usize) {
            Some(calls) => {
                *calls = calls.saturating_add(1);
                *calls
            }
            None => 0,
        }
    }
}

/// A gate with a list of calls that it holds back. A caller that is held back too long goes on, and so does everybody
/// from then on.
#[derive(Drop)]
pub struct Meeting<'a, R> {
    rt: &'a R,
    holds: Vec<Hold>,
    seen: Mutex<Seen>,
    changed: Condvar,
}

impl<'a, R: Wait + Clock> Meeting<'a, R> {
    /// A gate for the callers up to number 16.
    pub fn new(rt: &'a R, alloc: Global, holds: Vec<Hold>) -> Result<Meeting<'a, R>, AllocError> {
        let calls = Vec::from_array(alloc, [0u64; 17])?;
        Ok(Meeting {
            rt,
            holds,
            seen: Mutex::new(Seen {
                calls,
                in_vain: false,
            }),
            changed: Condvar::new(),
        })
    }

    /// Whether a caller was held back in vain.
    pub fn was_in_vain(&self) -> bool {
        self.seen.lock(self.rt).in_vain
    }

    /// Counts a call that a caller comes to, tells everybody who waits, and gives its number.
    fn come(&self, caller: u64) -> u64 {
        let call = self.seen.lock(self.rt).count(caller);
        self.changed.notify_all();
        call
    }

    /// Waits until the other caller of a hold has come to its call.
    fn hold_back(&self, hold: Hold) {
        let (mut seen, waited) = self.changed.wait_timeout_while(
            self.rt,
            self.seen.lock(self.rt),
            Duration::from_secs(PATIENCE),
            |seen| !seen.in_vain && seen.calls_of(hold.other) < hold.theirs,
        );
        if waited.timed_out() {
            seen.in_vain = true;
        }
    }
}

impl<'a, R: Wait + Clock + Sync> Gate for Meeting<'a, R> {
    fn before(&self, caller: u64) {
        let call = self.come(caller);
        for hold in self.holds.iter() {
            if hold.caller == caller && hold.call == call {
                self.hold_back(*hold);
            }
        }
    }
}
