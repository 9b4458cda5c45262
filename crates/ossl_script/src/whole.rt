//! The steps of a whole operation, from the fetch of its method to the last method that is freed.

ghost use Rattle.std.specs.Prelude.{◌≡◌, IfOk, ℕ, List};
ghost use Rattle.ossl_script.specs.Bindings.{Bindings};
ghost use Rattle.ossl_script.specs.Given.{content_by, fed_by};
ghost use Rattle.ossl_script.specs.Outcome.{performed_outcome};
ghost use Rattle.ossl_script.specs.Stages.{meant, tokens_in, whole_of};
ghost use Rattle.ossl_script.specs.Whole.{after_context, after_fetch, after_inner, freed, on_method, on_methods};
ghost use Rattle.ossl_script.specs.Whole.{tokens_of};

use crate::begin::{begun, code_of};
use crate::bound::Method;
use crate::feeding::perform;
use crate::outcome::Outcome;
use crate::stage::{Asking, Course, Request, Stage, Unfreed};
use ossl_base::text::{Bytes, Text};
use ossl_commands::Argument;
use ossl_op::FinishRefused;
use ossl_state::{Call, Reply};
use std::alloc::{AllocError, Global};

/// Frees the methods one after the other, and then tells what came of the operation.
pub fn ended(unfreed: Unfreed, outcome: Outcome) -> Course
    ensures { (fed : List ℕ) (bindings : Bindings)
        → freed (tokens_in unfreed) outcome bindings ≡ meant fed bindings result }
{
    match unfreed {
        Unfreed::Nothing => Course::Said(outcome),
        Unfreed::One(last) => Course::Asks(Asking {
            call: Call::Free { handle: last },
            stage: Stage::Ending {
                unfreed: Unfreed::Nothing,
                outcome,
            },
        }),
        Unfreed::Two { first, last } => Course::Asks(Asking {
            call: Call::Free { handle: first },
            stage: Stage::Ending {
                unfreed: Unfreed::One(last),
                outcome,
            },
        }),
    }
}

/// The methods of an operation, the inner one first.
fn unfreed(used: Method, inner: Option<Method>) -> Unfreed
    ensures { tokens_in result ≡ tokens_of used inner }
{
    match inner {
        None => Unfreed::One(used.token),
        Some(inner) => Unfreed::Two {
            first: inner.token,
            last: used.token,
        },
    }
}

/// All methods are fetched: the operation begins.
fn on_methods(request: Request, provider: Text, used: Method, inner: Option<Method>) -> Course
    ensures { (fed : List ℕ) (bindings : Bindings)
        → on_methods (whole_of fed bindings request) provider used inner ≡ meant fed bindings result }
{
    match begun(used, inner, &request.asked().options.params) {
        Ok(call) => Course::Asks(Asking {
            call,
            stage: Stage::Context {
                request,
                provider,
                used,
                inner,
            },
        }),
        Err(refusal) => ended(unfreed(used, inner), Outcome::NotBegun { refusal }),
    }
}

/// The method is fetched: then the inner algorithm, where one is named.
fn on_method(
    alloc: Global,
    request: Request,
    provider: Text,
    used: Method,
) -> Result<Course, AllocError>
    ensures { IfOk result (λ course. (fed : List ℕ) (bindings : Bindings)
        → on_method (whole_of fed bindings request) provider used request.options.algorithm
        ≡ meant fed bindings course) }
{
    let call = match &request.asked().options.algorithm {
        None => return Ok(on_methods(request, provider, used, None)),
        Some((operation, name)) => Call::Fetch {
            lib: request.asked().options.lib,
            op: *operation,
            name: name.copy(alloc)?,
            query: request.asked().query.copy(alloc)?,
        },
    };
    Ok(Course::Asks(Asking {
        call,
        stage: Stage::Inner {
            request,
            provider,
            used,
        },
    }))
}

/// Behind the fetch of the method.
pub fn fetched_method(alloc: Global, request: Request, reply: &Reply) -> Result<Course, AllocError>
    ensures { IfOk result (λ course. (fed : List ℕ) (bindings : Bindings)
        → after_fetch (whole_of fed bindings request) reply.now ≡ meant fed bindings course) }
{
    match reply {
        Reply::Fetched {
            number,
            provider,
            code,
            ..
        } => {
            let used = Method {
                token: *number,
                code: *code,
            };
            on_method(alloc, request, provider.copy(alloc)?, used)
        }
        _ => Ok(Course::Said(Outcome::of(reply.copy(alloc)?))),
    }
}

/// Behind the fetch of the inner method.
pub fn fetched_inner(
    alloc: Global,
    request: Request,
    provider: Text,
    used: Method,
    reply: &Reply,
) -> Result<Course, AllocError>
    ensures { IfOk result (λ course. (fed : List ℕ) (bindings : Bindings)
        → after_inner (whole_of fed bindings request) provider used reply.now ≡ meant fed bindings course) }
{
    match reply {
        Reply::Fetched { number, code, .. } => {
            let inner = Method {
                token: *number,
                code: *code,
            };
            Ok(on_methods(request, provider, used, Some(inner)))
        }
        _ => Ok(ended(Unfreed::One(used.token), Outcome::of(reply.copy(alloc)?))),
    }
}

/// Behind the call for a context: the work is done, and the context is given back before the methods.
pub fn made_context(
    alloc: Global,
    contents: &[Bytes],
    arguments: &[Argument],
    request: Request,
    provider: Text,
    used: Method,
    inner: Option<Method>,
    reply: &Reply,
) -> Result<Course, AllocError>
    ensures { IfOk result (λ course. (bindings : Bindings)
        → after_context (whole_of (fed_by (content_by contents.now) arguments.now) bindings request) provider used inner
        reply.now
        ≡ meant (fed_by (content_by contents.now) arguments.now) bindings course) }
{
    match reply {
        Reply::Made { number } => {
            let params = &request.asked().options.params;
            let bytes = perform(
                alloc,
                used.code,
                code_of(inner),
                params,
                arguments,
                contents,
            )?;
            Ok(Course::Asks(Asking {
                call: Call::FreeCtx { handle: *number },
                stage: Stage::Ending {
                    unfreed: unfreed(used, inner),
                    outcome: performed(provider, bytes),
                },
            }))
        }
        _ => Ok(ended(unfreed(used, inner), Outcome::of(reply.copy(alloc)?))),
    }
}

/// What comes of a whole operation, by a method of this provider.
fn performed(provider: Text, bytes: Result<Bytes, FinishRefused>) -> Outcome
    ensures { result ≡ performed_outcome provider bytes }
{
    match bytes {
        Ok(bytes) => Outcome::Performed { provider, bytes },
        Err(refusal) => Outcome::NotFinished { refusal },
    }
}
