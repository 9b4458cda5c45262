//! The error line of a refusal.

ghost use Rattle.std.specs.Prelude.{◌≡◌, ◌++◌, IfOk, OnErr, OnOk};
ghost use Rattle.ossl_conf.specs.Refused.{file_text, refusal_text, shown, shown_byte};

use crate::refusal::ConfRefused;
use ossl_base::{FileRefusal, put_decimal};
use std::alloc::{AllocError, Global};

/// Appends the error line of a refusal, with its line feed, and nothing for want of memory. A byte of a name or a word
/// outside 33 to 126 is shown as `?`. Where memory is refused, `out` is as it was.
pub fn put_refusal(
    alloc: Global,
    out: &mut Vec<u8>,
    refusal: &ConfRefused,
) -> Result<(), AllocError>
    ensures ok { OnOk result (out.new.items ≡ out.old.items ++ refusal_text refusal.now) }
    ensures err { OnErr result (out.new.items ≡ out.old.items) }
{
    let line = line_of(alloc, refusal)?;
    out.extend_from_slice(line.as_slice())
}

// The line in a vector of its own.
fn line_of(alloc: Global, refusal: &ConfRefused) -> Result<Vec<u8>, AllocError>
    ensures { IfOk result (λ line. line.items ≡ refusal_text refusal.now) }
{
    let mut line = Vec::new(alloc);
    match refusal {
        ConfRefused::Line { number, kind } => {
            line.extend_from_slice(b"error configuration line ")?;
            put_decimal(alloc, &mut line, *number)?;
            line.extend_from_slice(b" ")?;
            line.extend_from_slice(kind.word())?;
        }
        ConfRefused::NoVariable { number, name } => {
            line.extend_from_slice(b"error configuration line ")?;
            put_decimal(alloc, &mut line, *number)?;
            line.extend_from_slice(b" variable ")?;
            put_shown(&mut line, name.as_slice())?;
        }
        ConfRefused::NoSection { name } => {
            line.extend_from_slice(b"error configuration section ")?;
            put_shown(&mut line, name.as_slice())?;
        }
        ConfRefused::BadActivate { word } => {
            line.extend_from_slice(b"error configuration activate ")?;
            put_shown(&mut line, word.as_slice())?;
        }
        ConfRefused::BadQuery { place } => {
            line.extend_from_slice(b"error configuration query ")?;
            put_decimal(alloc, &mut line, *place)?;
        }
        ConfRefused::File { refusal, .. } => {
            line.extend_from_slice(file_text(refusal))?;
            return Ok(line);
        }
        ConfRefused::NoMemory => return Ok(line),
    }
    line.push(b'\n')?;
    Ok(line)
}

// The line of a file that was not read.
fn file_text(refusal: &FileRefusal) -> &'static [u8]
    ensures { result.now ≡ file_text refusal.now }
{
    match refusal {
        FileRefusal::Failed => b"error read\n",
        FileRefusal::TooLong => b"error limit configuration\n",
        FileRefusal::NoMemory => b"",
    }
}

/// Appends the bytes of a name or a word as an error line shows them, each outside 33 to 126 as `?`.
pub fn put_shown(line: &mut Vec<u8>, text: &[u8]) -> Result<(), AllocError>
    ensures { OnOk result (line.new.items ≡ line.old.items ++ shown text.now) }
{
    for byte in text {
        line.push(shown_byte(*byte))?;
    }
    Ok(())
}

fn shown_byte(byte: u8) -> u8
    ensures { result ≡ shown_byte byte }
{
    if byte.is_ascii_graphic() { byte } else { b'?' }
}
