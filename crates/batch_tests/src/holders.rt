//! Who holds the instances of a printed order.

use std::alloc::{AllocError, Global};

/// What holds an instance: the number of the call that made it, and its library context where it is an activation.
#[derive(Clone, Copy, Drop)]
struct Holder {
    made: u64,
    instance: u64,
    context: Option<u64>,
}

/// What holds an instance so far, and the instances that are up.
#[derive(Drop)]
pub struct Holders {
    holders: Vec<Holder>,
    up: Vec<u64>,
}

/// The number that a word is.
pub fn number(word: Option<&str>) -> Option<u64> {
    word?.parse().ok()
}

impl Holders {
    pub fn none(alloc: Global) -> Holders {
        Holders {
            holders: Vec::new(alloc),
            up: Vec::new(alloc),
        }
    }

    fn add(
        &mut self,
        made: u64,
        instance: Option<u64>,
        context: Option<u64>,
    ) -> Result<bool, AllocError> {
        let Some(instance) = instance else {
            return Ok(false);
        };
        self.holders.push(Holder {
            made,
            instance,
            context,
        })?;
        Ok(true)
    }

    /// The instance that is held by what a call made.
    fn instance_of(&self, made: Option<u64>) -> Option<u64> {
        let made = made?;
        for holder in self.holders.iter() {
            if holder.made == made {
                return Some(holder.instance);
            }
        }
        None
    }

    /// Whether an instance is held.
    fn is_held(&self, instance: u64) -> bool {
        self.holders
            .iter()
            .any(|holder| holder.instance == instance)
    }

    /// Takes a call with its reply in, and says whether it can be read.
    pub fn take(&mut self, made: u64, call: &str, reply: &str) -> Result<bool, AllocError> {
        let mut words = call.split(' ');
        let verb = words.next();
        let named = number(words.next());
        let mut answers = reply.split(' ');
        let accepted = matches!(answers.next(), Some("ok"));
        match (verb, accepted) {
            (Some("load"), true) => self.add(made, number(answers.next()), named),
            (Some("fetch"), true) => self.add(made, number(answers.nth(1)), None),
            (Some("newctx"), true) => {
                let instance = self.instance_of(named);
                self.add(made, instance, None)
            }
            (Some("closelib"), true) => {
                self.holders.retain(|holder| holder.context.is_none() || holder.context != named);
                Ok(true)
            }
            (Some("unload" | "free" | "freectx"), _) => {
                self.holders.retain(|holder| Some(holder.made) != named);
                Ok(true)
            }
            _ => Ok(!accepted),
        }
    }

    /// Takes in that a call started an instance; where it is a fetch, its library context holds the instance too.
    pub fn start(&mut self, made: u64, call: &str, instance: u64) -> Result<bool, AllocError> {
        self.up.push(instance)?;
        let mut words = call.split(' ');
        if matches!(words.next(), Some("fetch")) {
            let context = number(words.next());
            return self.add(0, Some(instance), context);
        }
        Ok(made == instance)
    }

    /// Takes in that a call stopped an instance, and says whether it was up.
    pub fn stop(&mut self, instance: u64) -> bool {
        let before = self.up.len();
        self.up.retain(|other| *other != instance);
        self.up.len() < before
    }

    /// Whether exactly the instances that are held are up.
    pub fn are_up(&self) -> bool {
        self.holders
            .iter()
            .all(|holder| self.up.contains(&holder.instance))
            && self.up.iter().all(|instance| self.is_held(*instance))
    }

    /// Whether nothing is held and nothing is up.
    pub fn are_none(&self) -> bool {
        self.holders.is_empty() && self.up.is_empty()
    }
}
