//! The commands on an operation that runs: `feed` and `finish`.

ghost use Rattle.std.specs.Prelude.{◌≡◌};
ghost use Rattle.ossl_commands.specs.declared.command.Command.{Command as TheCommand};
ghost use Rattle.ossl_script.specs.Commands.{course_of};
ghost use Rattle.ossl_script.specs.Given.{content_by};
ghost use Rattle.ossl_script.specs.Outcome.{finished_outcome};
ghost use Rattle.ossl_script.specs.Stages.{TakesRunning, Tells, course_in};

use crate::bound::{Bound, Names, Running, bind, unbind};
use crate::checks::{Halt, unknown, wrong_kind};
use crate::feeding;
use crate::outcome::Outcome;
use ossl_base::text::{Bytes, Text};
use ossl_commands::Argument;
use ossl_op::FinishRefused;
use std::alloc::Global;

/// Takes the operation that runs under a name away from it.
fn take_running(alloc: Global, names: &mut Names, name: &Text) -> Result<Running, Halt>
    ensures { TakesRunning names.old names.new name.now result }
{
    match unbind(names, name.as_slice()) {
        Some(Bound::Running(running)) => Ok(running),
        Some(bound) => {
            bind(alloc, names, name.as_slice(), bound)?;
            Err(wrong_kind(name.copy(alloc)?))
        }
        None => Err(unknown(name.copy(alloc)?)),
    }
}

/// The command `feed`.
pub fn feed(
    alloc: Global,
    names: &mut Names,
    contents: &[Bytes],
    name: &Text,
    arguments: &[Argument],
) -> Result<Outcome, Halt>
    ensures { Tells names.old names.new result
        (λ bindings. course_of (content_by contents.now) bindings (TheCommand.Feed name.now arguments.now)) }
{
    let mut running = take_running(alloc, names, name)?;
    feeding::feed_all(
        &mut running.context,
        &mut running.given,
        arguments,
        contents,
    )?;
    bind(alloc, names, name.as_slice(), Bound::Running(running))?;
    Ok(Outcome::Done)
}

/// The command `finish`.
pub fn finish(alloc: Global, names: &mut Names, name: &Text) -> Result<Outcome, Halt>
    ensures { Tells names.old names.new result (course_in (TheCommand.Finish name.now)) }
{
    let running = take_running(alloc, names, name)?;
    bind(
        alloc,
        names,
        name.as_slice(),
        Bound::Finished(running.token),
    )?;
    let ended = feeding::finish(running.context, running.given)?;
    Ok(finished_outcome(ended))
}

/// What comes of an operation at its end.
fn finished_outcome(ended: Result<Bytes, FinishRefused>) -> Outcome
    ensures { result ≡ finished_outcome ended }
{
    match ended {
        Ok(bytes) => Outcome::Finished { bytes },
        Err(refusal) => Outcome::NotFinished { refusal },
    }
}
