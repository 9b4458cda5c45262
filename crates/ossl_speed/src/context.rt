//! Any algorithm through an operation context.

ghost use Rattle.std.specs.Prelude.{◌≡◌, IfOk, OnOk};
ghost use Rattle.ossl_speed.specs.Contexts.{IsContextFed, IsEndOf};
ghost use Rattle.ossl_speed.specs.Message.{message};

use crate::cipher::{KEPT, keep_last};
use crate::message::{PIECE, front};
use ossl_codes::Code;
use ossl_op::{OpCtx, Params};
use std::alloc::{AllocError, Global};

// Feeds an operation the message of so many bytes where its context stands, and keeps the text's last bytes.
fn feed_message(
    context: &mut OpCtx,
    piece: &[u8],
    length: usize,
    out: &mut Vec<u8>,
) -> Result<(), AllocError>
    requires { piece.now ≡ message PIECE }
    ensures { OnOk result (IsContextFed context.old out.old.items (message length) context.new out.new.items) }
{
    for _i in 0..length / PIECE {
        keep_last(out);
        context.feed(piece, out)?;
    }
    keep_last(out);
    context.feed(front(piece, length % PIECE), out)
}

/// The last bytes of what an operation gives of the message of so many bytes. An operation that may not begin, or whose
/// end is refused, is answered as want of memory is.
pub fn end_in_context(
    alloc: Global,
    code: Code,
    inner: Option<Code>,
    params: &Params,
    piece: &[u8],
    length: usize,
) -> Result<Vec<u8>, AllocError>
    requires { piece.now ≡ message PIECE }
    ensures { IfOk result (λ end. IsEndOf code inner params.now (message length) end.items) }
{
    let Ok(mut context) = OpCtx::begin(alloc, code, inner, params) else {
        return Err(AllocError);
    };
    let mut out = Vec::with_capacity(alloc, PIECE + KEPT)?;
    feed_message(&mut context, piece, length, &mut out)?;
    let Ok(()) = context.finish(&mut out) else {
        return Err(AllocError);
    };
    keep_last(&mut out);
    Ok(out)
}
