//! What each command does up to its first call.

ghost use Rattle.std.specs.Prelude.{◌≡◌, IfOk};
ghost use Rattle.ossl_commands.specs.Counts.{arguments_in};
ghost use Rattle.ossl_script.specs.Bindings.{Bindings};
ghost use Rattle.ossl_script.specs.Commands.{course_of};
ghost use Rattle.ossl_script.specs.Given.{content_by, fed_by};
ghost use Rattle.ossl_script.specs.Names.{Agree};
ghost use Rattle.ossl_script.specs.Stages.{IsAsked, IsTold, Leads};

use crate::begin::{
    close, close_lib, fetch, free, load, open, perform, set_default, unload, up_ref,
};
use crate::bound::Names;
use crate::checks::Halt;
use crate::outcome::Outcome;
use crate::running::{feed, finish};
use crate::stage::{Asking, Course};
use ossl_base::text::Bytes;
use ossl_commands::{Argument, Command};
use std::alloc::{AllocError, Global};

/// The words of a command behind its fixed ones.
pub fn arguments_in(command: &Command) -> &[Argument]
    ensures { result.now ≡ arguments_in command.now }
{
    match command {
        Command::Open { arguments, .. }
        | Command::Feed { arguments, .. }
        | Command::Perform { arguments, .. } => arguments.as_slice(),
        _ => &[],
    }
}

/// What is left of a command that asks for a call, or halted.
fn asked(started: Result<Asking, Halt>) -> Result<Course, AllocError>
    ensures { IfOk result (IsAsked started) }
{
    match started {
        Ok(asking) => Ok(Course::Asks(asking)),
        Err(Halt::Said(outcome)) => Ok(Course::Said(outcome)),
        Err(Halt::NoMemory) => Err(AllocError),
    }
}

/// What is left of a command that makes no call.
fn told(outcome: Result<Outcome, Halt>) -> Result<Course, AllocError>
    ensures { IfOk result (IsTold outcome) }
{
    match outcome {
        Ok(outcome) | Err(Halt::Said(outcome)) => Ok(Course::Said(outcome)),
        Err(Halt::NoMemory) => Err(AllocError),
    }
}

/// A command up to its first call, or to its end.
pub fn begin(
    alloc: Global,
    names: &mut Names,
    contents: &[Bytes],
    command: &Command,
) -> Result<Course, AllocError>
    ensures { IfOk result (λ course. (bindings : Bindings) → Agree names.old bindings
        → Leads (fed_by (content_by contents.now) (arguments_in command.now)) names.new course
        (course_of (content_by contents.now) bindings command.now)) }
{
    match command {
        Command::Load {
            lib,
            provider,
            name,
            retain,
        } => asked(load(alloc, names, *lib, provider, name, *retain)),
        Command::Unload { name } => asked(unload(alloc, names, name)),
        Command::Default { lib, query } => asked(set_default(alloc, *lib, query)),
        Command::Fetch {
            lib,
            operation,
            algorithm,
            name,
            query,
        } => asked(fetch(alloc, names, *lib, *operation, algorithm, name, query)),
        Command::UpRef { method, name } => asked(up_ref(alloc, names, method, name)),
        Command::Free { name } => asked(free(alloc, names, name)),
        Command::Open {
            method,
            name,
            arguments,
        } => asked(open(alloc, names, contents, method, name, arguments.as_slice())),
        Command::Feed { name, arguments } => {
            told(feed(alloc, names, contents, name, arguments.as_slice()))
        }
        Command::Finish { name } => told(finish(alloc, names, name)),
        Command::Close { name } => asked(close(alloc, names, name)),
        Command::CloseLib { lib } => Ok(Course::Asks(close_lib(*lib))),
        Command::Perform {
            operation,
            algorithm,
            arguments,
            query,
        } => asked(perform(
            alloc,
            contents,
            *operation,
            algorithm,
            arguments.as_slice(),
            query,
        )),
    }
}
