//! The options, and how the value of each is read.

ghost use Rattle.std.specs.Prelude.{◌≡◌, IfOk, option_map};
ghost use Rattle.std.specs.Char.{is_ascii_lowercase};
ghost use Rattle.std.specs.List.{list_all};
ghost use Rattle.ossl_commands.specs.Words.{is_lower, name_of, option_form, option_kind_of, option_word, some_text};

use crate::command::{Argument, Data};
use crate::data::cut_at;
use crate::files::NamedFiles;
use crate::table::look_up;
use crate::word::{is_name, number};
use ossl_base::text::Text;
use ossl_codes::{Direction, KdfMode};
use std::alloc::{AllocError, Global};

/// An option.
#[derive(Clone, Copy)]
pub enum OptionKind {
    Lib,
    Digest,
    Cipher,
    Inner,
    Key,
    Iv,
    Direction,
    Pad,
    Salt,
    Info,
    Mode,
    Len,
}

const OPTIONS: [(&str, OptionKind); 12] = [
    ("lib", OptionKind::Lib),
    ("digest", OptionKind::Digest),
    ("cipher", OptionKind::Cipher),
    ("inner", OptionKind::Inner),
    ("key", OptionKind::Key),
    ("iv", OptionKind::Iv),
    ("dir", OptionKind::Direction),
    ("pad", OptionKind::Pad),
    ("salt", OptionKind::Salt),
    ("info", OptionKind::Info),
    ("mode", OptionKind::Mode),
    ("len", OptionKind::Len),
];

const DIRECTIONS: [(&str, Direction); 2] = [
    ("encrypt", Direction::Encrypt),
    ("decrypt", Direction::Decrypt),
];

const PADS: [(&str, bool); 2] = [("yes", true), ("no", false)];

const MODES: [(&str, KdfMode); 3] = [
    ("both", KdfMode::Both),
    ("extract", KdfMode::Extract),
    ("expand", KdfMode::Expand),
];

/// The name and the value of an option word: one or more lower-case letters, and what stands behind a `=`.
pub fn option_word(word: &[u8]) -> Option<(&[u8], &[u8])>
    ensures { option_map (λ parts. (parts.0.now, parts.1.now)) result ≡ option_word word.now }
{
    let (name, value) = cut_at(word, b'=')?;
    if is_lower(name) {
        Some((name, value))
    } else {
        None
    }
}

/// Whether the text is one or more lower-case letters.
fn is_lower(name: &[u8]) -> bool
    ensures { result ≡ is_lower name.now }
{
    !name.is_empty() && are_lower(name)
}

fn are_lower(name: &[u8]) -> bool
    ensures { result ≡ list_all is_ascii_lowercase name.now }
{
    for byte in name {
        if !byte.is_ascii_lowercase() {
            return false;
        }
    }
    true
}

// The argument that a value makes, where there is one.
macro_rules! made {
    ($value:expr, $make:path) => {
        match $value {
            Some(value) => Ok(Some($make(value))),
            None => Ok(None),
        }
    };
}

impl OptionKind {
    /// The option of this name, if there is one.
    pub fn of(name: &[u8]) -> Option<OptionKind>
        ensures kind { result ≡ option_kind_of name.now }
    {
        look_up(&OPTIONS, name)
    }

    /// The argument that the option makes with its value, where the value is good.
    pub fn read(
        self,
        alloc: Global,
        files: &mut NamedFiles,
        value: &[u8],
    ) -> Result<Option<Argument>, AllocError>
        ensures read { IfOk result (λ read.
            option_map (λ said. (said, files.new)) read ≡ option_form self files.old value.now) }
    {
        match self {
            OptionKind::Lib => made!(number(value), Argument::Lib),
            OptionKind::Digest => made!(some_text(alloc, value)?, Argument::Digest),
            OptionKind::Cipher => made!(some_text(alloc, value)?, Argument::Cipher),
            OptionKind::Inner => made!(name(alloc, value)?, Argument::Inner),
            OptionKind::Key => made!(Data::of(alloc, files, value)?, Argument::Key),
            OptionKind::Iv => made!(Data::of(alloc, files, value)?, Argument::Iv),
            OptionKind::Direction => made!(look_up(&DIRECTIONS, value), Argument::Direction),
            OptionKind::Pad => made!(look_up(&PADS, value), Argument::Pad),
            OptionKind::Salt => made!(Data::of(alloc, files, value)?, Argument::Salt),
            OptionKind::Info => made!(Data::of(alloc, files, value)?, Argument::Info),
            OptionKind::Mode => made!(look_up(&MODES, value), Argument::Mode),
            OptionKind::Len => made!(number(value), Argument::Len),
        }
    }
}

/// A text that is not empty.
fn some_text(alloc: Global, value: &[u8]) -> Result<Option<Text>, AllocError>
    ensures { IfOk result (λ text. text ≡ some_text value.now) }
{
    match value {
        [] => Ok(None),
        _ => Ok(Some(Text::of(Vec::from_slice(alloc, value)?))),
    }
}

/// A name.
fn name(alloc: Global, value: &[u8]) -> Result<Option<Text>, AllocError>
    ensures { IfOk result (λ name. name ≡ name_of value.now) }
{
    if is_name(value) {
        Ok(Some(Text::of(Vec::from_slice(alloc, value)?)))
    } else {
        Ok(None)
    }
}
