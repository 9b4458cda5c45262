//! Operations at work: they are fed the pieces of a line, with no copy of what a file holds, and give their result.

ghost use Rattle.std.specs.Prelude.{◌≡◌, IfOk, OnOk, replicate};
ghost use Rattle.ossl_commands.specs.Contents.{content_by, data_bytes};
ghost use Rattle.ossl_op.specs.Standard.{standard_result};
ghost use Rattle.ossl_script.specs.Feeding.{Ends, Fed};
ghost use Rattle.ossl_script.specs.Given.{fed_by};

use ossl_base::text::Bytes;
use ossl_codes::Code;
use ossl_commands::{Argument, Data};
use ossl_op::{FinishRefused, OpCtx, Params};
use std::alloc::{AllocError, Global};

/// How many copies of a byte are fed at once.
const CHUNK: usize = 512;

/// Feeds so many copies of a byte.
fn feed_copies(
    context: &mut OpCtx,
    given: &mut Vec<u8>,
    count: u32,
    byte: u8,
) -> Result<(), AllocError>
    ensures { OnOk result (Fed context.old context.new (replicate count byte) given.old.items given.new.items) }
{
    let chunk = [byte; CHUNK];
    let mut left = count as usize;
    while left > 0 {
        let size = left.min(CHUNK);
        context.feed(&chunk[..size], given)?;
        left -= size;
    }
    Ok(())
}

/// Feeds the bytes that data stands for.
fn feed_data(
    context: &mut OpCtx,
    given: &mut Vec<u8>,
    piece: &Data,
    contents: &[Bytes],
) -> Result<(), AllocError>
    ensures { OnOk result (Fed context.old context.new (data_bytes (content_by contents.now) piece.now) given.old.items
        given.new.items) }
{
    match piece {
        Data::Bytes(bytes) => context.feed(bytes.as_slice(), given),
        Data::Copies { count, byte } => feed_copies(context, given, *count, *byte),
        Data::File(place) => match contents.get(*place as usize) {
            Some(content) => context.feed(content.as_slice(), given),
            None => Ok(()),
        },
    }
}

/// Feeds all pieces among the arguments, in their order.
pub fn feed_all(
    context: &mut OpCtx,
    given: &mut Vec<u8>,
    arguments: &[Argument],
    contents: &[Bytes],
) -> Result<(), AllocError>
    ensures { OnOk result (Fed context.old context.new (fed_by (content_by contents.now) arguments.now) given.old.items
        given.new.items) }
{
    for argument in arguments {
        if let Argument::Piece(piece) = argument {
            feed_data(context, given, piece, contents)?;
        }
    }
    Ok(())
}

/// The result of an operation of all bytes that it was fed, where it gave this before.
pub fn finish(
    context: OpCtx,
    mut given: Vec<u8>,
) -> Result<Result<Bytes, FinishRefused>, AllocError>
    ensures { IfOk result (Ends context given.items) }
{
    match context.finish(&mut given) {
        Ok(()) => Ok(Ok(Bytes::of(given))),
        Err(FinishRefused::NoMemory) => Err(AllocError),
        Err(refusal) => Ok(Err(refusal)),
    }
}

/// The result of a whole operation of all pieces among the arguments. It may begin with these parameters.
pub fn perform(
    alloc: Global,
    code: Code,
    inner: Option<Code>,
    params: &Params,
    arguments: &[Argument],
    contents: &[Bytes],
) -> Result<Result<Bytes, FinishRefused>, AllocError>
    ensures { IfOk result (λ bytes. standard_result code inner params.now
        (fed_by (content_by contents.now) arguments.now) ≡ bytes) }
{
    let Ok(mut context) = OpCtx::begin(alloc, code, inner, params) else {
        return Err(AllocError);
    };
    let mut given = Vec::new(alloc);
    feed_all(&mut context, &mut given, arguments, contents)?;
    finish(context, given)
}
