//! How commands begin: their checks, in order, and then the call that they ask for.

ghost use Rattle.std.specs.Prelude.{◌≡◌, [], ⊤, Ok};
ghost use Rattle.ossl_commands.specs.declared.command.Command.{Command as TheCommand};
ghost use Rattle.ossl_script.specs.Given.{content_by, fed_by};
ghost use Rattle.ossl_script.specs.Names.{Agree};
ghost use Rattle.ossl_script.specs.Stages.{Begins, Starts, course_in};
ghost use Rattle.ossl_script.specs.Commands.{course_of};
ghost use Rattle.ossl_script.specs.Whole as whole;

use crate::bound::{Method, Names};
use crate::checks::{
    Halt, must_be_free, read_query, use_activation, use_context, use_inner, use_method,
};
use crate::options::Options;
use crate::outcome::Outcome;
use crate::stage::{Asked, Asking, KeptParams, Request, Stage};
use ossl_base::text::{Bytes, Text};
use ossl_codes::{Code, Operation};
use ossl_commands::Argument;
use ossl_op::{BeginRefused, Params, judge};
use ossl_state::Call;
use std::alloc::Global;

/// The command `load`.
pub fn load(
    alloc: Global,
    names: &Names,
    lib: u32,
    provider: &Text,
    name: &Text,
    retain: bool,
) -> Result<Asking, Halt>
    ensures { Starts [] (Agree names.now) result (course_in (TheCommand.Load lib provider.now name.now retain)) }
{
    must_be_free(alloc, names, name)?;
    let provider = provider.copy(alloc)?;
    let name = name.copy(alloc)?;
    Ok(Asking {
        call: Call::Load {
            lib: u64::from(lib),
            name: provider,
            retain,
        },
        stage: Stage::Load { name },
    })
}

/// The command `unload`.
pub fn unload(alloc: Global, names: &Names, name: &Text) -> Result<Asking, Halt>
    ensures { Starts [] (Agree names.now) result (course_in (TheCommand.Unload name.now)) }
{
    let token = use_activation(alloc, names, name)?;
    let name = name.copy(alloc)?;
    Ok(Asking {
        call: Call::Unload { token },
        stage: Stage::GiveBack { name },
    })
}

/// The command `default`.
pub fn set_default(alloc: Global, lib: u32, query: &Text) -> Result<Asking, Halt>
    ensures { Starts [] (λ bindings. ⊤) result (course_in (TheCommand.Default lib query.now)) }
{
    let query = read_query(alloc, query.as_slice())?;
    Ok(Asking {
        call: Call::SetDefault {
            lib: u64::from(lib),
            query,
        },
        stage: Stage::Unbound,
    })
}

/// The command `fetch`.
pub fn fetch(
    alloc: Global,
    names: &Names,
    lib: u32,
    operation: Operation,
    algorithm: &Text,
    name: &Text,
    query: &Text,
) -> Result<Asking, Halt>
    ensures { Starts [] (Agree names.now) result
        (course_in (TheCommand.Fetch lib operation algorithm.now name.now query.now)) }
{
    let query = read_query(alloc, query.as_slice())?;
    must_be_free(alloc, names, name)?;
    let algorithm = algorithm.copy(alloc)?;
    let name = name.copy(alloc)?;
    Ok(Asking {
        call: Call::Fetch {
            lib: u64::from(lib),
            op: operation,
            name: algorithm,
            query,
        },
        stage: Stage::Fetch { name },
    })
}

/// The command `upref`.
pub fn up_ref(alloc: Global, names: &Names, method: &Text, name: &Text) -> Result<Asking, Halt>
    ensures { Starts [] (Agree names.now) result (course_in (TheCommand.UpRef method.now name.now)) }
{
    let used = use_method(alloc, names, method)?;
    must_be_free(alloc, names, name)?;
    let name = name.copy(alloc)?;
    Ok(Asking {
        call: Call::UpRef { handle: used.token },
        stage: Stage::UpRef {
            name,
            code: used.code,
        },
    })
}

/// The command `free`.
pub fn free(alloc: Global, names: &Names, name: &Text) -> Result<Asking, Halt>
    ensures { Starts [] (Agree names.now) result (course_in (TheCommand.Free name.now)) }
{
    let used = use_method(alloc, names, name)?;
    let name = name.copy(alloc)?;
    Ok(Asking {
        call: Call::Free { handle: used.token },
        stage: Stage::GiveBack { name },
    })
}

/// The command `close`.
pub fn close(alloc: Global, names: &Names, name: &Text) -> Result<Asking, Halt>
    ensures { Starts [] (Agree names.now) result (course_in (TheCommand.Close name.now)) }
{
    let token = use_context(alloc, names, name)?;
    let name = name.copy(alloc)?;
    Ok(Asking {
        call: Call::FreeCtx { handle: token },
        stage: Stage::GiveBack { name },
    })
}

/// The command `closelib`.
pub fn close_lib(lib: u32) -> Asking
    ensures { Starts [] (λ bindings. ⊤) (Ok result) (course_in (TheCommand.CloseLib lib)) }
{
    Asking {
        call: Call::CloseLib {
            lib: u64::from(lib),
        },
        stage: Stage::Unbound,
    }
}

/// The code of an inner method, where there is one.
pub fn code_of(inner: Option<Method>) -> Option<Code>
    ensures { result ≡ whole.code_of inner }
{
    match inner {
        Some(used) => Some(used.code),
        None => None,
    }
}

/// Its token.
fn token_of(inner: Option<Method>) -> Option<u64>
    ensures { result ≡ whole.token_of inner }
{
    match inner {
        Some(used) => Some(used.token),
        None => None,
    }
}

/// The call that makes a context on these methods, where the operation may begin.
pub fn begun(used: Method, inner: Option<Method>, params: &Params) -> Result<Call, BeginRefused>
    ensures { Begins used inner params.now result }
{
    judge(used.code, code_of(inner), params)?;
    let key_len = match &params.key {
        Some(key) => key.as_slice().len() as u64,
        None => 0,
    };
    Ok(Call::NewCtx {
        handle: used.token,
        inner: token_of(inner),
        key_len,
    })
}

/// The command `open`.
pub fn open(
    alloc: Global,
    names: &Names,
    contents: &[Bytes],
    method: &Text,
    name: &Text,
    arguments: &[Argument],
) -> Result<Asking, Halt>
    ensures { Starts (fed_by (content_by contents.now) arguments.now) (Agree names.now) result
        (λ bindings. course_of (content_by contents.now) bindings (TheCommand.Open method.now name.now arguments.now)) }
{
    let options = Options::of(alloc, arguments, contents)?;
    let used = use_method(alloc, names, method)?;
    let inner = use_inner(alloc, names, &options.method)?;
    must_be_free(alloc, names, name)?;
    let name = name.copy(alloc)?;
    match begun(used, inner, &options.params) {
        Ok(call) => Ok(Asking {
            call,
            stage: Stage::Open {
                name,
                code: used.code,
                inner: code_of(inner),
                params: KeptParams::of(alloc, options.params)?,
            },
        }),
        Err(refusal) => Err(Halt::Said(Outcome::NotBegun { refusal })),
    }
}

/// A whole operation.
pub fn perform(
    alloc: Global,
    contents: &[Bytes],
    operation: Operation,
    algorithm: &Text,
    arguments: &[Argument],
    query: &Text,
) -> Result<Asking, Halt>
    ensures { Starts (fed_by (content_by contents.now) arguments.now) (λ bindings. ⊤) result
        (λ bindings. course_of (content_by contents.now) bindings
        (TheCommand.Perform operation algorithm.now arguments.now query.now)) }
{
    let query = read_query(alloc, query.as_slice())?;
    let options = Options::of(alloc, arguments, contents)?;
    let asked = query.copy(alloc)?;
    let algorithm = algorithm.copy(alloc)?;
    let lib = options.lib;
    let request = Request::of(alloc, Asked { options, query })?;
    Ok(Asking {
        call: Call::Fetch {
            lib,
            op: operation,
            name: algorithm,
            query: asked,
        },
        stage: Stage::Method { request },
    })
}
