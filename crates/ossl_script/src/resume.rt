//! What commands do with the replies to their calls.

ghost use Rattle.std.specs.Prelude.{◌≡◌, IfOk, ℕ, List};
ghost use Rattle.ossl_script.specs.Bindings.{Bindings};
ghost use Rattle.ossl_script.specs.Commands.{after_fetch, after_giving, after_load, after_open, after_up_ref};
ghost use Rattle.ossl_script.specs.Given.{content_by, fed_by};
ghost use Rattle.ossl_script.specs.Names.{Agree};
ghost use Rattle.ossl_script.specs.Stages.{IsSaid, Leads, Settles, after, opening_with};

use crate::bound::{Bound, Method, Names, Running, bind, unbind};
use crate::outcome::Outcome;
use crate::stage::{Course, Stage};
use crate::whole::{ended, fetched_inner, fetched_method, made_context};
use ossl_base::text::{Bytes, Text};
use ossl_codes::Code;
use ossl_commands::Argument;
use ossl_op::{OpCtx, Params};
use ossl_state::Reply;
use std::alloc::{AllocError, Global};

/// Behind the call of `load`.
fn loaded(
    alloc: Global,
    names: &mut Names,
    name: &Text,
    reply: &Reply,
) -> Result<Outcome, AllocError>
    ensures { IfOk result (λ outcome. Settles names.old names.new outcome
        (λ bindings. after_load name.now bindings reply.now)) }
{
    match reply {
        Reply::Loaded {
            number,
            skipped,
            ..
        } => {
            bind(alloc, names, name.as_slice(), Bound::Activation(*number))?;
            Ok(Outcome::Loaded { skipped: *skipped })
        }
        _ => Ok(Outcome::of(reply.copy(alloc)?)),
    }
}

/// Behind the call of `fetch`.
fn fetched(
    alloc: Global,
    names: &mut Names,
    name: &Text,
    reply: &Reply,
) -> Result<Outcome, AllocError>
    ensures { IfOk result (λ outcome. Settles names.old names.new outcome
        (λ bindings. after_fetch name.now bindings reply.now)) }
{
    match reply {
        Reply::Fetched {
            number,
            provider,
            code,
            ..
        } => {
            let method = Method {
                token: *number,
                code: *code,
            };
            bind(alloc, names, name.as_slice(), Bound::Method(method))?;
            let provider = provider.copy(alloc)?;
            Ok(Outcome::Fetched { provider })
        }
        _ => Ok(Outcome::of(reply.copy(alloc)?)),
    }
}

/// Behind the call of `upref`.
fn doubled(
    alloc: Global,
    names: &mut Names,
    name: &Text,
    code: Code,
    reply: &Reply,
) -> Result<Outcome, AllocError>
    ensures { IfOk result (λ outcome. Settles names.old names.new outcome
        (λ bindings. after_up_ref name.now code bindings reply.now)) }
{
    match reply {
        Reply::Made { number } => {
            let method = Method {
                token: *number,
                code,
            };
            bind(alloc, names, name.as_slice(), Bound::Method(method))?;
            Ok(Outcome::Done)
        }
        _ => Ok(Outcome::of(reply.copy(alloc)?)),
    }
}

/// Behind the call of `open`.
fn opened(
    alloc: Global,
    names: &mut Names,
    name: &Text,
    code: Code,
    inner: Option<Code>,
    params: &Params,
    reply: &Reply,
) -> Result<Outcome, AllocError>
    ensures { IfOk result (λ outcome. Settles names.old names.new outcome
        (λ bindings. after_open name.now (opening_with code inner params.now) bindings reply.now)) }
{
    match reply {
        Reply::Made { number } => {
            let Ok(context) = OpCtx::begin(alloc, code, inner, params) else {
                return Err(AllocError);
            };
            let running = Running {
                token: *number,
                context,
                given: Vec::new(alloc),
            };
            bind(alloc, names, name.as_slice(), Bound::Running(running))?;
            Ok(Outcome::Done)
        }
        _ => Ok(Outcome::of(reply.copy(alloc)?)),
    }
}

/// Behind the call of `unload`, `free` or `close`.
fn given_back(
    alloc: Global,
    names: &mut Names,
    name: &Text,
    reply: &Reply,
) -> Result<Outcome, AllocError>
    ensures { IfOk result (λ outcome. Settles names.old names.new outcome
        (λ bindings. after_giving name.now bindings reply.now)) }
{
    let _ = unbind(names, name.as_slice());
    Ok(Outcome::of(reply.copy(alloc)?))
}

/// The course of a command that came to its end.
fn said(outcome: Result<Outcome, AllocError>) -> Result<Course, AllocError>
    ensures { IfOk result (IsSaid outcome) }
{
    Ok(Course::Said(outcome?))
}

/// What is left of a command behind the reply to its call.
pub fn resume(
    alloc: Global,
    names: &mut Names,
    contents: &[Bytes],
    arguments: &[Argument],
    stage: Stage,
    reply: &Reply,
) -> Result<Course, AllocError>
    ensures { IfOk result (λ course. (bindings : Bindings) → Agree names.old bindings
        → Leads (fed_by (content_by contents.now) arguments.now) names.new course
        (after (fed_by (content_by contents.now) arguments.now) bindings stage reply.now)) }
{
    match stage {
        Stage::Load { name } => said(loaded(alloc, names, &name, reply)),
        Stage::Fetch { name } => said(fetched(alloc, names, &name, reply)),
        Stage::UpRef { name, code } => said(doubled(alloc, names, &name, code, reply)),
        Stage::Open {
            name,
            code,
            inner,
            params,
        } => said(opened(alloc, names, &name, code, inner, params.params(), reply)),
        Stage::GiveBack { name } => said(given_back(alloc, names, &name, reply)),
        Stage::Unbound => Ok(Course::Said(Outcome::of(reply.copy(alloc)?))),
        Stage::Method { request } => fetched_method(alloc, request, reply),
        Stage::Inner {
            request,
            provider,
            used,
        } => fetched_inner(alloc, request, provider, used, reply),
        Stage::Context {
            request,
            provider,
            used,
            inner,
        } => made_context(
            alloc, contents, arguments, request, provider, used, inner, reply,
        ),
        Stage::Ending { unfreed, outcome } => Ok(ended(unfreed, outcome)),
    }
}
