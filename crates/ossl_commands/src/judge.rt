//! One line: its caller and its command, or its first fault.

ghost use Rattle.std.specs.Prelude.{◌≡◌, [], Ok, IfOk, MatchResult, option_map, unwrap_or};
ghost use Rattle.ossl_commands.specs.Judging.{IsFault, command_in, is_enough, is_placed, judged};

use crate::argument::arguments;
use crate::command::{Command, Verb};
use crate::files::NamedFiles;
use crate::kind::{LineKind, LineRefused};
use crate::table::{Colon, Others};
use crate::text::{Words, are_allowed, cut_query};
use crate::word::caller_number;
use ossl_base::text::Text;
use std::alloc::{AllocError, Global};

/// Whether a `:` stands or not, as it has to.
fn is_placed(colon: Colon, query: Option<&[u8]>) -> bool
    ensures { result ≡ is_placed colon (option_map (λ text. text.now) query.entry) }
{
    match colon {
        Colon::Never => query.is_none(),
        Colon::May => true,
        Colon::Must => query.is_some(),
    }
}

/// Whether a word stands behind the fixed ones where one has to.
fn is_enough(others: Others, words: &Words<'_>) -> bool
    ensures { result ≡ is_enough others words.now }
{
    match others {
        Others::SomePieces => !words.is_empty(),
        _ => true,
    }
}

/// The command that the words and the query say.
fn command(
    alloc: Global,
    files: &mut NamedFiles,
    verb: Verb,
    words: &mut Words<'_>,
    query: Option<&[u8]>,
) -> Result<Command, LineRefused>
    ensures { let text = option_map (λ text. text.now) query.entry in
        MatchResult result (λ said. command_in verb files.old words.old text ≡ Ok (said, files.new))
        (λ e. IsFault e (command_in verb files.old words.old text)) }
{
    let faulty = LineRefused::Faulty(LineKind::Arguments);
    let Some(begun) = Command::begin(alloc, verb, words)? else {
        return Err(faulty);
    };
    if !is_placed(verb.colon(), query) {
        return Err(faulty);
    }
    if !is_enough(verb.others(), words) {
        return Err(faulty);
    }
    let arguments = arguments(alloc, files, verb, words)?;
    let query = query_text(alloc, query)?;
    Ok(begun.with(arguments, query))
}

/// The text of a query, empty where there is none.
fn query_text(alloc: Global, query: Option<&[u8]>) -> Result<Text, AllocError>
    ensures { IfOk result (λ text. text ≡ unwrap_or (option_map (λ text. text.now) query.entry) []) }
{
    match query {
        Some(query) => Ok(Text::of(Vec::from_slice(alloc, query)?)),
        None => Ok(Text::of(Vec::new(alloc))),
    }
}

/// The caller and the command of a line that is not skipped.
pub fn judge(
    alloc: Global,
    files: &mut NamedFiles,
    line: &[u8],
) -> Result<(u32, Command), LineRefused>
    ensures { MatchResult result (λ said.
        judged files.old line.now ≡ Ok (record { caller = said.0; command = said.1; files = files.new }))
        (λ e. IsFault e (judged files.old line.now)) }
{
    if !are_allowed(line) {
        return Err(LineRefused::Faulty(LineKind::Byte));
    }
    let (before, query) = cut_query(line);
    let mut words = Words::of(before);
    let Some(caller) = words.next().and_then(|word| caller_number(word)) else {
        return Err(LineRefused::Faulty(LineKind::Caller));
    };
    let Some(verb) = words.next().and_then(|word| Verb::of(word)) else {
        return Err(LineRefused::Faulty(LineKind::Command));
    };
    let command = command(alloc, files, verb, &mut words, query)?;
    Ok((caller, command))
}
