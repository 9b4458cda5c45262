//! The parts of a value.

ghost use Rattle.std.specs.Prelude.{◌≡◌, ◌≤◌, ◌+◌, length};
ghost use Rattle.ossl_conf.specs.Values.{bare_len, bracketed_at, escaped, escaped_at, part_at, quoted_at, variable_at};
ghost use Rattle.ossl_conf.specs.Private.{shown_part};

use crate::run::{Class, before_first, past, run_len};
use crate::said::begins_with_colons;

/// A part of a value.
#[derive(Clone, Copy)]
pub(crate) enum Part<'a> {
    /// Bytes that are taken as they stand.
    Bytes(&'a [u8]),
    /// One byte, as it stands or as an escape means it.
    Byte(u8),
    /// A variable by its name as written.
    Variable(&'a [u8]),
    /// A bracketed name whose closing bracket is missing.
    Unclosed(&'a [u8]),
}

/// A part, and how many of the bytes behind its first one belong to it.
#[derive(Clone, Copy)]
pub(crate) struct Taken<'a> {
    pub part: Part<'a>,
    pub count: usize,
}

/// The first part of a value, by its first byte and what stands behind that.
pub(crate) fn part_at(first: u8, text: &[u8]) -> Taken<'_>
    ensures { shown_part result ≡ part_at first text.now }
{
    match first {
        b'\'' | b'"' => {
            let inner = before_first(first, text);
            Taken {
                part: Part::Bytes(inner),
                count: inner.len() + 1,
            }
        }
        b'\\' => escaped_at(text),
        b'$' => variable_at(text),
        _ => Taken {
            part: Part::Byte(first),
            count: 0,
        },
    }
}

// Behind a `\`.
fn escaped_at(text: &[u8]) -> Taken<'_>
    ensures { shown_part result ≡ escaped_at text.now }
{
    match text.first() {
        Some(byte) => Taken {
            part: Part::Byte(escaped(*byte)),
            count: 1,
        },
        None => Taken {
            part: Part::Bytes(text),
            count: 0,
        },
    }
}

// What `\` and this byte stand for.
fn escaped(byte: u8) -> u8
    ensures { result ≡ escaped byte }
{
    match byte {
        b'n' => b'\n',
        b'r' => b'\r',
        b't' => b'\t',
        b'b' => 8,
        _ => byte,
    }
}

// Behind a `$`.
fn variable_at(text: &[u8]) -> Taken<'_>
    ensures { shown_part result ≡ variable_at text.now }
{
    match text.split_first() {
        Some((b'{', behind)) => bracketed_at(b'}', behind),
        Some((b'(', behind)) => bracketed_at(b')', behind),
        _ => {
            let count = bare_len(text);
            Taken {
                part: Part::Variable(&text[..count]),
                count,
            }
        }
    }
}

// Behind an opening bracket.
fn bracketed_at(close: u8, text: &[u8]) -> Taken<'_>
    ensures { shown_part result ≡ bracketed_at close text.now }
{
    if text.contains(&close) {
        let name = before_first(close, text);
        return Taken {
            part: Part::Variable(name),
            count: name.len() + 2,
        };
    }
    Taken {
        part: Part::Unclosed(text),
        count: text.len() + 1,
    }
}

// How long a bare name is: a run of letters, digits and `_`, and, where `::` follows, that and the next run.
fn bare_len(text: &[u8]) -> usize
    ensures len { result ≡ bare_len text.now }
    ensures within { result ≤ length text.now }
{
    let run = run_len(Class::Word, text);
    let behind = past(run, text);
    if begins_with_colons(behind) {
        return run + 2 + run_len(Class::Word, past(2, behind));
    }
    run
}
