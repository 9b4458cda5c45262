//! A whole operation.

ghost use Rattle.std.specs.Prelude.{◌≡◌};
ghost use Rattle.ossl_op_run.specs.Whole.{RunsTo, fed, joined, not_begun, not_finished};

use ossl_codes::Code;
use ossl_op::{BeginRefused, FinishRefused, OpCtx, Params};
use std::alloc::Global;

/// Why a whole operation gave no result.
#[derive(Clone, Copy, Debug, PartialEq, Eq)]
pub enum RunRefused {
    /// It may not begin: the first refusal in the order of the checks.
    NotBegun(BeginRefused),
    /// The bytes fed cannot end where they do.
    NotFinished(FinishRefused),
    /// Memory was refused.
    NoMemory,
}

/// Begins an operation, feeds it the pieces and finishes it: appends the standard's result of the pieces joined.
/// `inner` is the digest or cipher that a MAC or a key derivation runs on. Where the end is refused, what was appended
/// is a beginning of the text without its last check.
pub fn run(
    alloc: Global,
    code: Code,
    inner: Option<Code>,
    params: &Params,
    pieces: &[&[u8]],
    out: &mut Vec<u8>,
) -> Result<(), RunRefused>
    ensures { RunsTo out.old.items out.new.items result (fed code inner params.now (joined pieces.now)) }
{
    let mut context = match OpCtx::begin(alloc, code, inner, params) {
        Ok(context) => context,
        Err(refusal) => return Err(not_begun(refusal)),
    };
    for piece in pieces {
        match context.feed(piece, out) {
            Ok(()) => {}
            Err(_) => return Err(RunRefused::NoMemory),
        }
    }
    match context.finish(out) {
        Ok(()) => Ok(()),
        Err(refusal) => Err(not_finished(refusal)),
    }
}

fn not_begun(refusal: BeginRefused) -> RunRefused
    ensures { result ≡ not_begun refusal }
{
    match refusal {
        BeginRefused::NoMemory => RunRefused::NoMemory,
        _ => RunRefused::NotBegun(refusal),
    }
}

fn not_finished(refusal: FinishRefused) -> RunRefused
    ensures { result ≡ not_finished refusal }
{
    match refusal {
        FinishRefused::NoMemory => RunRefused::NoMemory,
        _ => RunRefused::NotFinished(refusal),
    }
}
