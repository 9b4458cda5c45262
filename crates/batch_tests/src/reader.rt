//! A reader of printed runs: each caller's own calls in their order, its results, and each stop right behind the last
//! holder.

use crate::holders::{Holders, number};
use crate::script::{CALLERS, Caller, STEPS};
use std::alloc::{AllocError, Global};

/// The parts of a line of an order: its number, its caller, its call, and what stands behind that.
fn parts_of(line: &str) -> Option<(u64, u64, &str, &str)> {
    let (before, behind) = line.split_once(": ")?;
    let (first, rest) = before.split_once(' ')?;
    let (caller, call) = rest.split_once(' ')?;
    Some((number(Some(first))?, number(Some(caller))?, call, behind))
}

/// A run that is read.
#[derive(Drop)]
struct Reading {
    callers: Vec<Caller>,
    holders: Holders,
    closed: u64,
}

impl Reading {
    fn new(alloc: Global) -> Result<Reading, AllocError> {
        let mut callers = Vec::new(alloc);
        for place in 0..CALLERS {
            callers.push(Caller::new(alloc, place + 1))?;
        }
        Ok(Reading {
            callers,
            holders: Holders::none(alloc),
            closed: 0,
        })
    }

    /// Whether a call is its caller's next one; the program's are those that close the library contexts.
    fn is_next(
        &mut self,
        alloc: Global,
        place: u64,
        caller: u64,
        call: &str,
        reply: &str,
    ) -> Result<bool, AllocError> {
        if caller == 0 {
            let due = format!(in alloc; "closelib {}", self.closed)?;
            self.closed = self.closed.saturating_add(1);
            return Ok(due.as_str() == call);
        }
        match self.callers.get_mut((caller - 1) as usize) {
            Some(caller) => Ok(self.closed == 0 && caller.makes(alloc, place, call, reply)?),
            None => Ok(false),
        }
    }

    /// Reads the line of an order with this number, and says whether it may stand there.
    fn take(&mut self, alloc: Global, place: u64, line: &str) -> Result<bool, AllocError> {
        let Some((said, caller, call, behind)) = parts_of(line) else {
            return Ok(false);
        };
        let mut parts = behind.split("; ");
        let Some(reply) = parts.next() else {
            return Ok(false);
        };
        let mut right = said == place && self.is_next(alloc, place, caller, call, reply)?;
        right = self.holders.take(place, call, reply)? && right;
        for part in parts {
            let mut words = part.split(' ');
            let verb = words.next();
            let named = number(words.nth(1));
            right = right
                && match (verb, named) {
                    (Some("start"), Some(instance)) => self.holders.start(place, call, instance)?,
                    (Some("stop"), Some(instance)) => self.holders.stop(instance),
                    _ => false,
                };
        }
        Ok(right && self.holders.are_up())
    }

    /// Whether all callers are done, both library contexts were closed, and nothing is up.
    fn is_done(&mut self, alloc: Global) -> Result<bool, AllocError> {
        let mut done = self.closed == 2 && self.holders.are_none();
        for caller in self.callers.iter_mut() {
            done = caller.is_done(alloc)? && done;
        }
        Ok(done)
    }

    /// The line of the results for a caller's line at this step.
    fn result(
        &self,
        alloc: Global,
        step: usize,
        caller: usize,
    ) -> Result<Option<String>, AllocError> {
        let Some(result) = self
            .callers
            .get(caller)
            .and_then(|caller| caller.results.get(step))
        else {
            return Ok(None);
        };
        let line = (step as u64)
            .saturating_mul(CALLERS)
            .saturating_add(caller as u64)
            .saturating_add(1);
        Ok(Some(format!(in alloc; "line {line} {}", result)?))
    }
}

/// How many lines follow one that begins with this word.
fn count_behind(line: Option<&str>, word: &str) -> Option<u64> {
    let (first, count) = line?.split_once(' ')?;
    if first == word {
        number(Some(count))
    } else {
        None
    }
}

/// What is wrong with a printed run first, if anything is.
pub fn fault(alloc: Global, written: &str) -> Result<Option<&'static str>, AllocError> {
    let mut lines = written.lines();
    let Some(entries) = count_behind(lines.next(), "order") else {
        return Ok(Some("no order"));
    };
    let mut reading = Reading::new(alloc)?;
    for place in 0..entries {
        let line = lines.next().unwrap_or("");
        if !reading.take(alloc, place.saturating_add(1), line)? {
            return Ok(Some("a line of the order"));
        }
    }
    if !reading.is_done(alloc)? {
        return Ok(Some("a caller is not done"));
    }
    if count_behind(lines.next(), "results") != Some(STEPS.len() as u64 * CALLERS) {
        return Ok(Some("not as many results as lines"));
    }
    for step in 0..STEPS.len() {
        for caller in 0..CALLERS as usize {
            let due = reading.result(alloc, step, caller)?;
            if due.as_deref() != lines.next() {
                return Ok(Some("a result"));
            }
        }
    }
    match lines.next() {
        Some(_) => Ok(Some("a line too many")),
        None => Ok(None),
    }
}
