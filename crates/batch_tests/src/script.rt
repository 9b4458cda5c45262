//! What each of sixteen callers of two library contexts asks for, and what comes of it.

use std::alloc::{AllocError, Global};

/// How many callers there are.
pub const CALLERS: u64 = 16;

/// A line of a caller's.
#[derive(Clone, Copy, Drop)]
pub enum Step {
    Load,
    Fetch,
    Open,
    Unload,
    Feed,
    Finish,
    Close,
    FetchElsewhere,
    Free,
}

/// The lines of each caller, in their order.
pub const STEPS: [Step; 9] = [
    Step::Load,
    Step::Fetch,
    Step::Open,
    Step::Unload,
    Step::Feed,
    Step::Finish,
    Step::Close,
    Step::FetchElsewhere,
    Step::Free,
];

/// The digest of `abc`.
const DIGEST: &str = "ok ba7816bf8f01cfea414140de5dae2223b00361a396177a9cb410ff61f20015ad";

/// The library context of a caller.
fn context_of(caller: u64) -> u64 {
    caller % 2
}

/// The other library context.
fn other_context(caller: u64) -> u64 {
    1 - caller % 2
}

/// The text of a line.
fn line_of(alloc: Global, caller: u64, step: Step) -> Result<String, AllocError> {
    let (own, other) = (context_of(caller), other_context(caller));
    match step {
        Step::Load => format!(in alloc; "{caller} load {own} default A\n"),
        Step::Fetch => format!(in alloc; "{caller} fetch {own} digest SHA2-256 M\n"),
        Step::Open => format!(in alloc; "{caller} open M X\n"),
        Step::Unload => format!(in alloc; "{caller} unload A\n"),
        Step::Feed => format!(in alloc; "{caller} feed X text:abc\n"),
        Step::Finish => format!(in alloc; "{caller} finish X\n"),
        Step::Close => format!(in alloc; "{caller} closelib {own}\n"),
        Step::FetchElsewhere => format!(in alloc; "{caller} fetch {other} digest MD5 N\n"),
        Step::Free => format!(in alloc; "{caller} free M\n"),
    }
}

/// The text of the batch: the first line of each caller, the second of each, and so on.
pub fn batch_text(alloc: Global) -> Result<Vec<u8>, AllocError> {
    let mut text = Vec::new(alloc);
    for step in STEPS {
        for caller in 1..CALLERS + 1 {
            let line = line_of(alloc, caller, step)?;
            text.extend_from_slice(line.as_bytes())?;
        }
    }
    Ok(text)
}

/// A caller in the middle of its lines: the number of the line that is next, from 0, what it holds, each by the number
/// of the call that made it, and the results of the lines that are done.
#[derive(Drop)]
pub struct Caller {
    number: u64,
    next: usize,
    activation: Option<u64>,
    method: Option<u64>,
    context: Option<u64>,
    elsewhere: Option<u64>,
    pub results: Vec<String>,
}

impl Caller {
    pub fn new(alloc: Global, number: u64) -> Caller {
        Caller {
            number,
            next: 0,
            activation: None,
            method: None,
            context: None,
            elsewhere: None,
            results: Vec::new(alloc),
        }
    }

    /// The call of a line, if it comes to one.
    fn call_of(&self, alloc: Global, step: Step) -> Result<Option<String>, AllocError> {
        let (own, other) = (context_of(self.number), other_context(self.number));
        let call = match (step, self.activation, self.method) {
            (Step::Load, _, _) => format!(in alloc; "load {own} default")?,
            (Step::Fetch, _, _) => format!(in alloc; "fetch {own} digest SHA2-256 []")?,
            (Step::Open, _, Some(method)) => format!(in alloc; "newctx {method} - 0")?,
            (Step::Unload, Some(activation), _) => format!(in alloc; "unload {activation}")?,
            (Step::Close, _, _) => format!(in alloc; "closelib {own}")?,
            (Step::FetchElsewhere, _, _) => format!(in alloc; "fetch {other} digest MD5 []")?,
            (Step::Free, _, Some(method)) => format!(in alloc; "free {method}")?,
            _ => return Ok(None),
        };
        Ok(Some(call))
    }

    /// The result of a line that comes to no call.
    fn result_without_call(&self, step: Step) -> &str {
        match (step, self.context) {
            (Step::Feed, Some(_)) => "ok",
            (Step::Finish, Some(_)) => DIGEST,
            (Step::Feed | Step::Finish, None) => "error unknown X",
            (Step::Unload, _) => "error not loaded A",
            _ => "error unknown M",
        }
    }

    /// Notes what a line's call with this number and this reply made, and the line's result.
    fn take(
        &mut self,
        alloc: Global,
        step: Step,
        number: u64,
        reply: &str,
    ) -> Result<(), AllocError> {
        let accepted = reply == "ok" || reply.starts_with("ok ");
        let made = if accepted { Some(number) } else { None };
        match step {
            Step::Load => self.activation = made,
            Step::Fetch => self.method = made,
            Step::Open => self.context = made,
            Step::Unload => self.activation = None,
            Step::FetchElsewhere => self.elsewhere = made,
            Step::Free => self.method = None,
            Step::Feed | Step::Finish | Step::Close => {}
        }
        let result = match (accepted, step) {
            (false, _) => format!(in alloc; "error {reply}")?,
            (true, Step::Load) => String::from_str(alloc, "ok skipped 0")?,
            (true, Step::Fetch | Step::FetchElsewhere) => String::from_str(alloc, "ok default")?,
            (true, _) => String::from_str(alloc, "ok")?,
        };
        self.results.push(result)?;
        self.next = self.next.saturating_add(1);
        Ok(())
    }

    /// Goes past the lines that come to no call, and gives the next one that does with its call.
    fn go_on(&mut self, alloc: Global) -> Result<Option<(Step, String)>, AllocError> {
        for step in &STEPS[self.next.min(STEPS.len())..] {
            if let Some(call) = self.call_of(alloc, *step)? {
                return Ok(Some((*step, call)));
            }
            let result = String::from_str(alloc, self.result_without_call(*step))?;
            self.results.push(result)?;
            self.next = self.next.saturating_add(1);
        }
        Ok(None)
    }

    /// The next call by which it gives back what it holds, the newest first, once its lines are done.
    fn give_back(&mut self, alloc: Global) -> Result<Option<String>, AllocError> {
        if let Some(method) = self.elsewhere.take() {
            return Ok(Some(format!(in alloc; "free {method}")?));
        }
        match self.context.take() {
            Some(context) => Ok(Some(format!(in alloc; "freectx {context}")?)),
            None => Ok(None),
        }
    }

    /// Whether this call, with this number and this reply, is its next one.
    pub fn makes(
        &mut self,
        alloc: Global,
        number: u64,
        call: &str,
        reply: &str,
    ) -> Result<bool, AllocError> {
        if let Some((step, due)) = self.go_on(alloc)? {
            self.take(alloc, step, number, reply)?;
            return Ok(due.as_str() == call);
        }
        match self.give_back(alloc)? {
            Some(due) => Ok(due.as_str() == call && reply == "ok"),
            None => Ok(false),
        }
    }

    /// Whether its lines are done and it holds nothing.
    pub fn is_done(&mut self, alloc: Global) -> Result<bool, AllocError> {
        let done = self.go_on(alloc)?.is_none();
        Ok(
            done && self.activation.is_none()
                && self.method.is_none()
                && self.give_back(alloc)?.is_none(),
        )
    }
}
