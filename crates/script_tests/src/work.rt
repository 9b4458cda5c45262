//! A caller at work by replies that were written before.

ghost use Rattle.std.specs.Prelude.{◌≡◌, true, false, IfOk, OnOk};
ghost use Rattle.ossl_script.specs.View.{GoesOn};

use ossl_base::Text;
use ossl_codes::Code;
use ossl_commands::Script;
use ossl_script::{Next, ScriptCaller};
use ossl_state::put::put_numbered;
use ossl_state::{Reply, put_call};
use std::alloc::{AllocError, Global};

/// A reply of a registry whose only provider is `default`. Its rows are fetched of instance 1.
#[derive(Clone, Copy)]
pub enum Answer {
    Loaded { number: u64, instance: u64 },
    Fetched { number: u64, row: u64, code: Code },
    Made { number: u64 },
    Done,
    NoProvider,
}

impl Answer {
    fn reply(&self, alloc: Global) -> Result<Reply, AllocError> {
        Ok(match self {
            Answer::Loaded { number, instance } => Reply::Loaded {
                number: *number,
                instance: *instance,
                skipped: 0,
            },
            Answer::Fetched { number, row, code } => Reply::Fetched {
                number: *number,
                provider: Text::of(Vec::from_slice(alloc, b"default")?),
                instance: 1,
                row: *row,
                code: *code,
            },
            Answer::Made { number } => Reply::Made { number: *number },
            Answer::Done => Reply::Done,
            Answer::NoProvider => Reply::NoProvider,
        })
    }
}

/// Appends each call of the lines, behind the number of its line, and takes the reply to it. Whether there is a reply
/// to each call, and a call to each reply.
fn do_lines(
    alloc: Global,
    work: &mut ScriptCaller,
    answers: &[Answer],
    out: &mut Vec<u8>,
) -> Result<bool, AllocError>
    requires { GoesOn work.old false }
    ensures { IfOk result (λ all. all ≡ true → work.new.ended ≡ true) }
{
    for answer in answers {
        let Next::Call { line, call } = work.next_call()? else {
            return Ok(false);
        };
        put_numbered(alloc, out, b"", line)?;
        out.extend_from_slice(b" ")?;
        put_call(alloc, out, &call)?;
        out.extend_from_slice(b"\n")?;
        work.take_reply(answer.reply(alloc)?)?;
    }
    Ok(work.next_call()?.is_end())
}

/// Appends each call that gives back.
fn give_back(alloc: Global, work: &mut ScriptCaller, out: &mut Vec<u8>) -> Result<(), AllocError>
    ensures { OnOk result (work.new.ended ≡ work.old.ended) }
{
    while let Some(call) = work.give_back() {
        put_call(alloc, out, &call)?;
        out.extend_from_slice(b"\n")?;
    }
    Ok(())
}

/// Appends all calls. Whether the replies are as many as the calls of the lines.
fn make_calls(
    alloc: Global,
    work: &mut ScriptCaller,
    answers: &[Answer],
    out: &mut Vec<u8>,
) -> Result<bool, AllocError>
    requires { GoesOn work.old false }
    ensures { IfOk result (λ all. all ≡ true → work.new.ended ≡ true) }
{
    let all = do_lines(alloc, work, answers, out)?;
    give_back(alloc, work, out)?;
    Ok(all)
}

/// Appends what is printed of each line.
fn put_results(alloc: Global, work: ScriptCaller, out: &mut Vec<u8>) -> Result<(), AllocError>
    requires { work.ended ≡ true }
{
    for result in &work.results() {
        put_numbered(alloc, out, b"line ", result.line)?;
        out.extend_from_slice(b" ")?;
        out.extend_from_slice(result.text.as_slice())?;
        out.extend_from_slice(b"\n")?;
    }
    Ok(())
}

/// What caller 1 of a batch does by these replies: its calls, those that give back, and its results. There are no
/// results where the replies are not as many as its calls.
pub fn worked(alloc: Global, script: &Script, answers: &[Answer]) -> Result<Vec<u8>, AllocError> {
    let mut work = ScriptCaller::new(alloc, script, &[], 1)?;
    let mut out = Vec::new(alloc);
    if make_calls(alloc, &mut work, answers, &mut out)? {
        put_results(alloc, work, &mut out)?;
    }
    Ok(out)
}
