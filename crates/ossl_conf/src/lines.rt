//! The logical lines of a text.

ghost use Rattle.std.specs.Prelude.{◌≡◌, ℕ, ◌+◌, ◌<◌, ◌≤◌, [], length, IfOk};
ghost use Rattle.std.specs.Option.{option_copied, ForSome};
ghost use Rattle.ossl_conf.specs.Lines.{without_return};
ghost use Rattle.ossl_conf.specs.Private.{BeginsWith};

use crate::run::{Class, past, run_len};
use std::alloc::AllocError;

/// How a logical line was read.
#[derive(Clone, Copy)]
pub(crate) struct LineRead<'a> {
    /// How many lines it is made of, where none of them is the last one.
    pub lines: u64,
    /// What follows it; none behind the last one.
    pub rest: Option<&'a [u8]>,
}

/// Reads the first logical line of a text into `line`, which is empty before.
pub(crate) fn read_line<'a>(text: &'a [u8], line: &mut Vec<u8>) -> Result<LineRead<'a>, AllocError>
    requires { line.old.items ≡ [] }
    ensures read { IfOk result (λ read. (number : ℕ) →
        BeginsWith number text.now line.new.items read.lines (option_copied read.rest)) }
    ensures within { IfOk result (λ read. read.lines ≤ length text.now) }
    ensures shorter { IfOk result (λ read.
        ForSome read.rest (λ rest.
        (0 < read.lines) × (read.lines + length rest.now ≤ length text.now))) }
{
    let mut rest = text;
    let mut lines = 0;
    let mut at = run_len(Class::Not(b'\n'), rest);
    'pieces: while at < rest.len() {
        let piece = without_return(&rest[..at]);
        rest = past(at + 1, rest);
        lines += 1;
        let Some(begun) = piece.strip_suffix(b"\\") else {
            line.extend_from_slice(piece)?;
            return Ok(LineRead {
                lines,
                rest: Some(rest),
            });
        };
        line.extend_from_slice(begun)?;
        at = run_len(Class::Not(b'\n'), rest);
    }
    line.extend_from_slice(rest)?;
    Ok(LineRead { lines, rest: None })
}

// A carriage return right before the line feed belongs to the line's end.
fn without_return(piece: &[u8]) -> &[u8]
    ensures { result.now ≡ without_return piece.now }
{
    piece.strip_suffix(b"\r").unwrap_or(piece)
}
