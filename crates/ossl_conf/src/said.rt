//! What a logical line says.

ghost use Rattle.std.specs.Prelude.{◌≡◌};
ghost use Rattle.std.specs.Option.{option_map};
ghost use Rattle.ossl_conf.specs.Said.{begins_name, directive_said, opens_named, past_equals, said, section_said};
ghost use Rattle.ossl_conf.specs.Said.{sets_named, setting_said};
ghost use Rattle.ossl_conf.specs.Values.{begins_with_colons, cut_at_colons};
ghost use Rattle.ossl_conf.specs.Private.{shown_said};

use crate::counted::{counted_line, counted_value, trimmed};
use crate::kind::ConfKind;
use crate::run::{after_first, before_first, is_blank, past, past_blanks};

/// What a logical line says. Names are trimmed, and values are still to be read.
pub(crate) enum Statement<'a> {
    Nothing,
    /// The section of this name is opened.
    Opens(&'a [u8]),
    /// A name is set, in the current section or in one that is named.
    Sets {
        section: Option<&'a [u8]>,
        name: &'a [u8],
        value: &'a [u8],
    },
    /// A file of this name is included.
    Includes(&'a [u8]),
    /// The line cannot be read.
    Faulty(ConfKind),
}

/// What the line says.
pub(crate) fn said(text: &[u8]) -> Statement<'_>
    ensures { shown_said result ≡ said text.now }
{
    let text = past_blanks(text);
    let line = counted_line(text);
    let Some((first, behind)) = line.split_first() else {
        return Statement::Nothing;
    };
    match *first {
        b'[' => section_said(behind),
        b'.' => directive_said(text, behind),
        _ => setting_said(text, line),
    }
}

// Behind a `[`: what follows the `]` is passed over.
fn section_said(text: &[u8]) -> Statement<'_>
    ensures { shown_said result ≡ section_said text.now }
{
    if !text.contains(&b']') {
        return Statement::Faulty(ConfKind::Bracket);
    }
    let name = trimmed(before_first(b']', text));
    if name.is_empty() {
        return Statement::Faulty(ConfKind::Bracket);
    }
    Statement::Opens(name)
}

// Behind a `.`, by the whole line and what counts of it behind the `.`.
fn directive_said<'a>(text: &'a [u8], line: &[u8]) -> Statement<'a>
    ensures { shown_said result ≡ directive_said text.now line.now }
{
    if line.starts_with(b"include") && begins_name(past(7, line)) {
        let name = past_equals(past_blanks(past(8, text)));
        return Statement::Includes(counted_value(name));
    }
    Statement::Faulty(ConfKind::Directive)
}

// A blank or a `=` comes next.
fn begins_name(text: &[u8]) -> bool
    ensures { result ≡ begins_name text.now }
{
    match text.first() {
        Some(byte) => is_blank(*byte) || *byte == b'=',
        None => false,
    }
}

// Behind one `=`, where that comes next.
fn past_equals(text: &[u8]) -> &[u8]
    ensures { result.now ≡ past_equals text.now }
{
    match text.split_first() {
        Some((b'=', behind)) => behind,
        _ => text,
    }
}

// `name = value`, by the whole line and what counts of it.
fn setting_said<'a>(text: &'a [u8], line: &'a [u8]) -> Statement<'a>
    ensures { shown_said result ≡ setting_said text.now line.now }
{
    if !line.contains(&b'=') {
        return Statement::Faulty(ConfKind::Equals);
    }
    let name = trimmed(before_first(b'=', line));
    sets_named(name, counted_value(after_first(b'=', text)))
}

// A name is not empty, and neither are its parts beside the first `::`.
fn sets_named<'a>(name: &'a [u8], value: &'a [u8]) -> Statement<'a>
    ensures { shown_said result ≡ sets_named name.now value.now }
{
    if name.is_empty() {
        return Statement::Faulty(ConfKind::Name);
    }
    let Some((section, name)) = cut_at_colons(name) else {
        return Statement::Sets {
            section: None,
            name,
            value,
        };
    };
    if section.is_empty() || name.is_empty() {
        return Statement::Faulty(ConfKind::Name);
    }
    Statement::Sets {
        section: Some(section),
        name,
        value,
    }
}

/// The part of a name before the first `::` and the part behind it, where there is one.
pub(crate) fn cut_at_colons(name: &[u8]) -> Option<(&[u8], &[u8])>
    ensures { option_map (λ cut. (cut.0.now, cut.1.now)) result ≡ cut_at_colons name.now }
{
    for at in 0..name.len() {
        if begins_with_colons(past(at, name)) {
            return Some((&name[..at], past(at + 2, name)));
        }
    }
    None
}

/// `::` comes next.
pub(crate) fn begins_with_colons(text: &[u8]) -> bool
    ensures { result ≡ begins_with_colons text.now }
{
    text.starts_with(b"::")
}
