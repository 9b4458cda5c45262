//! The words behind the fixed ones, one by one from the left.

ghost use Rattle.std.specs.Prelude.{◌≡◌, [], Ok, IfOk, MatchResult, map, option_map};
ghost use Rattle.std.specs.List.{list_any};
ghost use Rattle.std.specs.Str.{bytes_eq};
ghost use Rattle.ossl_commands.specs.Judging.{IsFault, argument_of, arguments_of, excludes, is_inner, option_argument};
ghost use Rattle.ossl_commands.specs.Judging.{other_argument};
ghost use Rattle.ossl_commands.specs.Table.{row_of};
ghost use Rattle.ossl_commands.specs.Words.{option_name, option_word};

use crate::command::{Argument, Data, Verb};
use crate::files::NamedFiles;
use crate::kind::{LineKind, LineRefused};
use crate::option::{OptionKind, option_word};
use crate::table::Others;
use crate::text::Words;
use std::alloc::{AllocError, Global};

impl Argument {
    /// The name of an option; another argument has an empty one.
    fn option_name(&self) -> &'static str
        ensures { result.now ≡ option_name self.now }
    {
        match self {
            Argument::Piece(_) | Argument::Retain => "",
            Argument::Lib(_) => "lib",
            Argument::Digest(_) => "digest",
            Argument::Cipher(_) => "cipher",
            Argument::Inner(_) => "inner",
            Argument::Key(_) => "key",
            Argument::Iv(_) => "iv",
            Argument::Direction(_) => "dir",
            Argument::Pad(_) => "pad",
            Argument::Salt(_) => "salt",
            Argument::Info(_) => "info",
            Argument::Mode(_) => "mode",
            Argument::Len(_) => "len",
        }
    }
}

/// Whether the option names an inner algorithm.
fn is_inner(option: &[u8]) -> bool
    ensures { result ≡ is_inner option.now }
{
    option == b"digest".as_slice() || option == b"cipher".as_slice()
}

/// Whether two options may not stand in one line.
fn excludes(option: &[u8], other: &[u8]) -> bool
    ensures { result ≡ excludes option.now other.now }
{
    option == other || (is_inner(option) && is_inner(other))
}

/// Whether an argument excludes the option.
fn is_excluded(option: &[u8], before: &[Argument]) -> bool
    ensures { result ≡ list_any (λ argument. excludes option.now (option_name argument)) before.now }
{
    for argument in before {
        if excludes(option, argument.option_name().as_bytes()) {
            return true;
        }
    }
    false
}

impl Verb {
    /// Whether the command has the option.
    fn has_option(self, option: &[u8]) -> bool
        ensures { result ≡ list_any (bytes_eq option.now) (row_of self).options }
    {
        is_among(self.options(), option)
    }
}

/// Whether the word is among these.
fn is_among(words: &[&str], word: &[u8]) -> bool
    ensures { result ≡ list_any (bytes_eq word.now) (map (λ one. one.now) words.now) }
{
    for one in words {
        if word == one.as_bytes() {
            return true;
        }
    }
    false
}

/// An option of the command, that no argument before it excludes, with a good value.
fn option_argument(
    alloc: Global,
    files: &mut NamedFiles,
    verb: Verb,
    before: &[Argument],
    option: &[u8],
    value: &[u8],
) -> Result<Option<Argument>, AllocError>
    ensures { IfOk result (λ read. option_map (λ said. (said, files.new)) read
        ≡ option_argument (row_of verb) files.old before.now option.now value.now) }
{
    if !verb.has_option(option) || is_excluded(option, before) {
        return Ok(None);
    }
    match OptionKind::of(option) {
        Some(kind) => kind.read(alloc, files, value),
        None => Ok(None),
    }
}

/// A word that is no option.
fn other_argument(
    alloc: Global,
    files: &mut NamedFiles,
    others: Others,
    before: &[Argument],
    word: &[u8],
) -> Result<Argument, LineRefused>
    ensures { MatchResult result (λ said. other_argument others files.old before.now word.now ≡ Ok (said, files.new))
        (λ e. IsFault e (other_argument others files.old before.now word.now)) }
{
    match others {
        Others::Nothing => Err(LineRefused::Faulty(LineKind::Arguments)),
        Others::Retain => {
            if before.is_empty() && word == b"retain".as_slice() {
                Ok(Argument::Retain)
            } else {
                Err(LineRefused::Faulty(LineKind::Arguments))
            }
        }
        Others::Pieces | Others::SomePieces => match Data::of(alloc, files, word)? {
            Some(data) => Ok(Argument::Piece(data)),
            None => Err(LineRefused::Faulty(LineKind::Data)),
        },
    }
}

/// What a word behind the fixed ones says.
fn argument(
    alloc: Global,
    files: &mut NamedFiles,
    verb: Verb,
    before: &[Argument],
    word: &[u8],
) -> Result<Argument, LineRefused>
    ensures { MatchResult result (λ said.
        argument_of (row_of verb) files.old before.now word.now (option_word word.now) ≡ Ok (said, files.new))
        (λ e. IsFault e (argument_of (row_of verb) files.old before.now word.now (option_word word.now))) }
{
    match option_word(word) {
        None => other_argument(alloc, files, verb.others(), before, word),
        Some((name, value)) => match option_argument(alloc, files, verb, before, name, value)? {
            Some(said) => Ok(said),
            None => Err(LineRefused::Faulty(LineKind::Option)),
        },
    }
}

/// What the words behind the fixed ones say, or the first fault among them.
pub fn arguments(
    alloc: Global,
    files: &mut NamedFiles,
    verb: Verb,
    words: &mut Words<'_>,
) -> Result<Vec<Argument>, LineRefused>
    ensures { MatchResult result (λ said.
        arguments_of (row_of verb) files.old [] words.old ≡ Ok (said.items, files.new))
        (λ e. IsFault e (arguments_of (row_of verb) files.old [] words.old)) }
{
    let mut said = Vec::new(alloc);
    while let Some(word) = words.next() {
        let next = argument(alloc, files, verb, said.as_slice(), word)?;
        said.push(next)?;
    }
    said.shrink_to_fit();
    Ok(said)
}
