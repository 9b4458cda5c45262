//! From words to a job.

ghost use Rattle.std.specs.Prelude.{◌≡◌, IfOk, [], option_and_then, option_map};
ghost use Rattle.std.specs.List.{list_any};
ghost use Rattle.std.specs.String.{string_bytes};
ghost use Rattle.clap.specs.Words.{first_of, rows_of, subcommand_rows_of};
ghost use Rattle.clap.specs.Matches.{found_of};
ghost use Rattle.ossl_words.specs.Answers.{Answers, ParsesTo};
ghost use Rattle.ossl_words.specs.Apps.{words_app};
ghost use Rattle.ossl_words.specs.Commands.{bytes_of, is_bare, job_of, lines_of, name_of, seed_of};
ghost use Rattle.ossl_words.specs.Commands.{read_if_given, read_or};
ghost use Rattle.ossl_words.specs.Numbers.{caller_of, order_of};
ghost use Rattle.ossl_words.specs.Rows.{run_rows, gen_rows, rows_job};

use crate::command::command;
use crate::job::{Job, Order, WordsRefused};
use crate::number::{MOST_CALLERS, number, order};
use clap::ArgMatches;
use clap::error::ErrorKind;
use ossl_base::Text;
use std::alloc::Global;

/// The greatest number of lines of a generated batch.
const MOST_LINES: u64 = 65_536;

/// The name of a file, which is not empty.
fn name(alloc: Global, text: &str) -> Result<Text, WordsRefused>
    ensures { Answers result (name_of text.now) }
{
    if text.is_empty() {
        return Err(WordsRefused::Usage);
    }
    match Vec::from_slice(alloc, text.as_bytes()) {
        Ok(bytes) => Ok(Text::of(bytes)),
        Err(_) => Err(WordsRefused::NoMemory),
    }
}

/// The first value that was found under a name.
fn value<'a>(found: &ArgMatches<'a>, name: &str) -> Option<&'a str>
    ensures { option_map (λ text. text.now) result ≡ first_of name.now (rows_of (found_of found.now)) }
{
    found.get_str(name)
}

fn conf_given(alloc: Global, text: Option<&str>) -> Result<Option<Text>, WordsRefused>
    ensures { Answers result (read_if_given name_of (option_map (λ t. t.now) text.entry)) }
{
    match text {
        Some(text) => Ok(Some(name(alloc, text)?)),
        None => Ok(None),
    }
}

fn order_given(alloc: Global, text: Option<&str>) -> Result<Order, WordsRefused>
    ensures { Answers result (read_or [] order_of (option_map (λ t. t.now) text.entry)) }
{
    match text {
        Some(text) => order(alloc, text),
        None => Ok(Order::of(Vec::new(alloc))),
    }
}

fn run(alloc: Global, found: &ArgMatches<'_>) -> Result<Job, WordsRefused>
    ensures { Answers result (run_rows (rows_of (found_of found.now))) }
{
    let conf = conf_given(alloc, value(found, "conf"))?;
    let order = order_given(alloc, value(found, "order"))?;
    Ok(Job::Run {
        conf,
        order,
        hits: false,
    })
}

fn lines_given(text: Option<&str>) -> Option<u64>
    ensures { result ≡ option_and_then lines_of (option_map (λ t. t.now) text.entry) }
{
    number(text?, 1, MOST_LINES)
}

fn seed_given(text: Option<&str>) -> Option<u64>
    ensures { result ≡ option_and_then seed_of (option_map (λ t. t.now) text.entry) }
{
    number(text?, 0, u64::MAX)
}

fn callers_given(text: Option<&str>) -> Option<u64>
    ensures { result ≡ read_or 1 caller_of (option_map (λ t. t.now) text.entry) }
{
    match text {
        Some(text) => number(text, 1, MOST_CALLERS),
        None => Some(1),
    }
}

fn generate(found: &ArgMatches<'_>) -> Option<Job>
    ensures { result ≡ gen_rows (rows_of (found_of found.now)) }
{
    let lines = lines_given(value(found, "lines"))?;
    let seed = seed_given(value(found, "seed"))?;
    let callers = callers_given(value(found, "callers"))?;
    Some(Job::Gen {
        lines,
        seed,
        callers,
    })
}

fn job_from(alloc: Global, found: &ArgMatches<'_>) -> Result<Job, WordsRefused>
    ensures { Answers result (rows_job (subcommand_rows_of found.now)) }
{
    match found.subcommand() {
        Some(("run", inner)) => run(alloc, inner),
        Some(("gen", inner)) => generate(inner).ok_or(WordsRefused::Usage),
        _ => Err(WordsRefused::Usage),
    }
}

fn parse<'a>(
    alloc: Global,
    words: &'a [String],
    threads: bool,
) -> Result<ArgMatches<'a>, WordsRefused>
    ensures { ParsesTo (words_app threads) (bytes_of words.entry.now) result }
{
    let Ok(command) = command(alloc, threads) else {
        return Err(WordsRefused::NoMemory);
    };
    match command.try_get_matches_from(words) {
        Ok(found) => Ok(found),
        Err(error) => match error.kind() {
            ErrorKind::OutOfMemory => Err(WordsRefused::NoMemory),
            _ => Err(WordsRefused::Usage),
        },
    }
}

/// Whether a word is empty, `-` or `--`, which stand nowhere.
fn is_bare(word: &str) -> bool
    ensures { result ≡ is_bare word.now }
{
    word.is_empty() || word == "-" || word == "--"
}

fn any_bare(words: &[String]) -> bool
    ensures { result ≡ list_any (λ word. is_bare (string_bytes word)) words.now }
{
    words.iter().any(|word| is_bare(word.as_str()))
}

/// The job that the words ask for, which are those after the program's name. `threads` says whether the program runs
/// callers in threads, so that it takes no `--order`.
///
/// They are refused as usage exactly where they are outside the command set.
pub fn read_words(alloc: Global, words: &[String], threads: bool) -> Result<Job, WordsRefused>
    ensures job { IfOk result (λ job. job_of threads (bytes_of words.now) ≡ Some job) }
    ensures usage { result ≡ Err WordsRefused.Usage → job_of threads (bytes_of words.now) ≡ None }
{
    if any_bare(words) {
        return Err(WordsRefused::Usage);
    }
    match parse(alloc, words, threads) {
        Ok(found) => job_from(alloc, &found),
        Err(refused) => Err(refused),
    }
}
