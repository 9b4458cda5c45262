//! A caller's lines, worked through from call to call.

ghost use Rattle.std.specs.Prelude.{◌≡◌, ◌∷◌, ◌++◌, ◌+◌, ◌<◌, ◌-◌, ◌^◌, [], IfOk, IfSome, List, None, OnErr, OnOk, Some, drop};
ghost use Rattle.std.specs.Prelude.{option_map, vec_capacity, vec_len};
ghost use Rattle.ossl_commands.specs.declared.command.Line.{Line as TheLine};
ghost use Rattle.ossl_script.specs.Caller.{Standing, call_in, line_result};
ghost use Rattle.ossl_script.specs.Given.{content_by};
ghost use Rattle.ossl_script.specs.Held.{held_after, without_texts};
ghost use Rattle.ossl_script.specs.Places.{Ascends, held_in};
ghost use Rattle.ossl_script.specs.Progress.{Answered, Arrives, HasLine, Moves, Ready, Settled, Stands, Steps};

use crate::bound::Names;
use crate::caller::{LineResult, Next};
use crate::commands::{arguments_in, begin};
use crate::outcome::{Outcome, put_outcome};
use crate::resume::resume;
use crate::stage::{Asking, Course, Stage};
use crate::tokens::{Place, take_answer, without_texts};
use ossl_base::text::{Bytes, Text};
use ossl_commands::{Line, OwnLines};
use ossl_state::{Call, Reply};
use std::alloc::{AllocError, Global};

/// How far a caller came with its lines.
#[derive(Drop)]
pub struct Progress {
    /// The results of the lines that are done.
    pub told: Vec<LineResult>,
    /// What its names are bound to.
    pub names: Names,
    /// Where its line stands, if a call of it was made.
    pub stage: Option<Stage>,
    /// The place of the line that is not done.
    pub line: usize,
}

/// Stands at a call, and gives it.
fn wait(progress: &mut Progress, asking: Asking) -> Call
    ensures call { result ≡ asking.call }
    ensures stage { progress.new ≡ record progress.old { stage = Some asking.stage } }
{
    let Asking { call, stage } = asking;
    progress.stage = Some(stage);
    call
}

/// Tells what came of a line, and goes to the next.
fn tell(
    alloc: Global,
    progress: &mut Progress,
    number: u64,
    outcome: &Outcome,
) -> Result<(), AllocError>
    requires { progress.old.line < 2 ^ 64 - 1 }
    ensures told { OnOk result (progress.new.told.items
        ≡ progress.old.told.items ++ line_result number outcome.now ∷ []) }
    ensures names { OnOk result (progress.new.names ≡ progress.old.names) }
    ensures idle { OnOk result (progress.new.stage ≡ None) }
    ensures next { OnOk result (progress.new.line ≡ progress.old.line + 1) }
{
    let mut text = Vec::with_capacity(alloc, outcome.room())?;
    put_outcome(alloc, &mut text, outcome)?;
    progress.told.push(LineResult {
        line: number,
        text: Text::of(text),
    })?;
    progress.stage = None;
    progress.line += 1;
    Ok(())
}

/// Tells what came of a line, or stands at its call.
fn settle(
    alloc: Global,
    progress: &mut Progress,
    number: u64,
    course: Course,
) -> Result<Option<Call>, AllocError>
    requires { progress.old.line < 2 ^ 64 - 1 }
    ensures { IfOk result (Settled progress.old progress.new number course) }
{
    match course {
        Course::Asks(asking) => Ok(Some(wait(progress, asking))),
        Course::Said(outcome) => {
            tell(alloc, progress, number, &outcome)?;
            Ok(None)
        }
    }
}

/// Begins the next line.
fn begin_line(
    alloc: Global,
    progress: &mut Progress,
    contents: &[Bytes],
    line: &Line,
) -> Result<Option<Call>, AllocError>
    requires { progress.old.line < 2 ^ 64 - 1 }
    ensures steps { IfOk result (λ call. (standing : Standing) (lines behind : List TheLine)
        → drop progress.old.line lines ≡ line.now ∷ behind
        → Ready (content_by contents.now) lines progress.old standing
        → Steps (content_by contents.now) lines progress.new standing line.now call) }
    ensures moves { IfOk result (Moves progress.old progress.new) }
{
    let course = begin(alloc, &mut progress.names, contents, &line.command)?;
    settle(alloc, progress, line.number, course)
}

/// Goes on with a line behind the reply to its call.
fn resume_line(
    alloc: Global,
    progress: &mut Progress,
    contents: &[Bytes],
    line: &Line,
    stage: Stage,
    reply: &Reply,
) -> Result<Option<Call>, AllocError>
    requires { progress.old.line < 2 ^ 64 - 1 }
    ensures steps { IfOk result (λ call. (standing : Standing) (lines behind : List TheLine)
        → drop progress.old.line lines ≡ line.now ∷ behind
        → Answered (content_by contents.now) progress.old standing line.now behind stage reply.now
        → Steps (content_by contents.now) lines progress.new standing line.now call) }
{
    let arguments = arguments_in(&line.command);
    let course = resume(
        alloc,
        &mut progress.names,
        contents,
        arguments,
        stage,
        reply,
    )?;
    settle(alloc, progress, line.number, course)
}

/// Begins lines up to the next call, or to their end.
fn next_line(
    alloc: Global,
    progress: &mut Progress,
    contents: &[Bytes],
    lines: &OwnLines,
) -> Result<Next, AllocError>
    ensures { IfOk result (λ next. (standing : Standing)
        → Ready (content_by contents.now) lines.now progress.old standing
        → Arrives (content_by contents.now) lines.now progress.new standing next) }
{
    while let Some(line) = lines.get(progress.line) {
        if let Some(call) = begin_line(alloc, progress, contents, line)? {
            return Ok(Next::Call {
                line: line.number,
                call,
            });
        }
    }
    Ok(Next::End)
}

/// Goes on behind the last reply, up to the next call or to the end of the lines.
pub fn go_on(
    alloc: Global,
    progress: &mut Progress,
    contents: &[Bytes],
    lines: &OwnLines,
    replies: &[Reply],
) -> Result<Next, AllocError>
    requires { HasLine progress.old lines.now replies.now }
    ensures { IfOk result (λ next. (standing : Standing)
        → Stands (content_by contents.now) lines.now replies.now progress.old standing
        → Arrives (content_by contents.now) lines.now progress.new standing next) }
{
    let Some(stage) = progress.stage.take() else {
        return next_line(alloc, progress, contents, lines);
    };
    let Some(line) = lines.get(progress.line) else {
        unreachable!()
    };
    let reply = &replies[replies.len() - 1];
    match resume_line(alloc, progress, contents, line, stage, reply)? {
        Some(call) => Ok(Next::Call {
            line: line.number,
            call,
        }),
        None => next_line(alloc, progress, contents, lines),
    }
}

/// Goes on to the next call, with room for its reply and for a token; or to the end of the lines.
pub fn go_on_with_room(
    alloc: Global,
    progress: &mut Progress,
    contents: &[Bytes],
    lines: &OwnLines,
    replies: &mut Vec<Reply>,
    places: &mut Vec<Place>,
    asked: &mut Option<Call>,
) -> Result<Next, AllocError>
    requires line { HasLine progress.old lines.now replies.old.items }
    requires idle { asked.old ≡ None }
    ensures replies { replies.new.items ≡ replies.old.items }
    ensures places { places.new.items ≡ places.old.items }
    ensures asked { IfOk result (λ next. asked.new ≡ option_map without_texts (call_in next)) }
    ensures refused { OnErr result (asked.new ≡ None) }
    ensures room_for_token { OnOk result (IfSome asked.new (λ call. vec_len places.new < vec_capacity places.new)) }
    ensures room_for_reply { OnOk result (IfSome asked.new (λ call. vec_len replies.new < vec_capacity replies.new)) }
    ensures arrives { IfOk result (λ next. (standing : Standing)
        → Stands (content_by contents.now) lines.now replies.old.items progress.old standing
        → Arrives (content_by contents.now) lines.now progress.new standing next) }
{
    let next = go_on(alloc, progress, contents, lines, replies.as_slice())?;
    if let Next::Call { call, .. } = &next {
        let kept = without_texts(alloc, call)?;
        replies.reserve(1)?;
        places.reserve(1)?;
        *asked = Some(kept);
    }
    Ok(next)
}

/// Takes the reply to the call that waits: holds what the two leave. There is room for both.
pub fn take_in(
    asked: &mut Option<Call>,
    places: &mut Vec<Place>,
    replies: &mut Vec<Reply>,
    reply: Reply,
)
    requires place { IfSome asked.old (λ call. vec_len places.old < vec_capacity places.old) }
    requires reply { IfSome asked.old (λ call. vec_len replies.old < vec_capacity replies.old) }
    requires ascends { Ascends places.old.items }
    ensures idle { asked.new ≡ None }
    ensures ascends { Ascends places.new.items }
    ensures held { IfSome asked.old (λ call.
        held_in places.new.items ≡ held_after call reply (held_in places.old.items)) }
    ensures replies { IfSome asked.old (λ call. replies.new.items ≡ replies.old.items ++ reply ∷ []) }
{
    if let Some(call) = asked.take() {
        take_answer(places, &call, &reply);
        replies.push_reserved(reply);
    }
}
