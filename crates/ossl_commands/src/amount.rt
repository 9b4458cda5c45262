//! How much lines name and declare, and the first limit that is passed.

ghost use Rattle.std.specs.Prelude.{◌≡◌, filter_map, is_some, map, sum};
ghost use Rattle.ossl_commands.specs.Counts.{arguments_in, callers_of, contexts_of, greatest, lib_in, libs_in};
ghost use Rattle.ossl_commands.specs.Fits.{amounts, capped, data_length, declared_by, declared_in, first_passed};
ghost use Rattle.ossl_commands.specs.Fits.{passed_limit};
ghost use Rattle.ossl_commands.specs.declared.limit.Limit.TheVariants as limits;

use crate::command::{Argument, Command, Data, Line};
use crate::limit::Limit;

impl Command {
    /// The words behind the fixed ones.
    pub fn arguments(&self) -> &[Argument]
        ensures arguments { result.now ≡ arguments_in self.now }
    {
        match self {
            Command::Open { arguments, .. }
            | Command::Feed { arguments, .. }
            | Command::Perform { arguments, .. } => arguments.as_slice(),
            _ => &[],
        }
    }

    /// The greatest library context that the command names, 0 where it names none.
    fn greatest_lib(&self) -> u32
        ensures { result ≡ greatest (libs_in self.now) }
    {
        match self {
            Command::Load { lib, .. }
            | Command::Default { lib, .. }
            | Command::Fetch { lib, .. }
            | Command::CloseLib { lib } => *lib,
            _ => greatest_lib_among(self.arguments()),
        }
    }
}

fn greatest_lib_among(arguments: &[Argument]) -> u32
    ensures { result ≡ greatest (filter_map lib_in arguments.now) }
{
    let mut most = 0u32;
    for argument in arguments {
        if let Argument::Lib(lib) = argument {
            most = most.max(*lib);
        }
    }
    most
}

/// The greatest caller that the lines name, 0 where there are none.
pub fn callers(lines: &[Line]) -> u64
    ensures callers { result ≡ callers_of lines.now }
{
    let mut most = 0u32;
    for line in lines {
        most = most.max(line.caller);
    }
    u64::from(most)
}

/// 1 and the greatest library context that the lines name, at least 1.
pub fn contexts(lines: &[Line]) -> u64
    ensures contexts { result ≡ contexts_of lines.now }
{
    let mut most = 0u32;
    for line in lines {
        most = most.max(line.command.greatest_lib());
    }
    1 + u64::from(most)
}

/// The bytes that data stands for, with these lengths of files.
fn data_len(given: &Data, lengths: &[u64]) -> u64
    ensures { result ≡ data_length lengths.now given.now }
{
    match given {
        Data::Bytes(bytes) => bytes.as_slice().len() as u64,
        Data::Copies { count, .. } => u64::from(*count),
        Data::File(place) => lengths.get(*place as usize).copied().unwrap_or(0),
    }
}

/// The bytes that an argument declares.
fn declared_by(argument: &Argument, lengths: &[u64]) -> u64
    ensures { result ≡ declared_by lengths.now argument.now }
{
    match argument {
        Argument::Len(n) => u64::from(*n),
        Argument::Piece(given)
        | Argument::Key(given)
        | Argument::Iv(given)
        | Argument::Salt(given)
        | Argument::Info(given) => data_len(given, lengths),
        _ => 0,
    }
}

/// The bytes that a line declares.
fn declared_in(line: &Line, lengths: &[u64]) -> u64
    ensures { result ≡ capped (declared_in lengths.now line.now) }
{
    let mut total = 0u64;
    for argument in line.command.arguments() {
        total = total.saturating_add(declared_by(argument, lengths));
    }
    total
}

/// The bytes that the line declares that declares most.
fn greatest_declared(lines: &[Line], lengths: &[u64]) -> u64
    ensures { result ≡ capped (greatest (map (declared_in lengths.now) lines.now)) }
{
    let mut most = 0u64;
    for line in lines {
        most = most.max(declared_in(line, lengths));
    }
    most
}

/// The bytes that all lines declare.
fn total_declared(lines: &[Line], lengths: &[u64]) -> u64
    ensures { result ≡ capped (sum (map (declared_in lengths.now) lines.now)) }
{
    let mut total = 0u64;
    for line in lines {
        total = total.saturating_add(declared_in(line, lengths));
    }
    total
}

/// The first of these amounts that passes its limit.
fn first_passed(amounts: &[(u64, Limit)]) -> Option<Limit>
    ensures { result ≡ first_passed amounts.now }
{
    for (amount, limit) in amounts {
        if limit.most() < *amount {
            return Some(*limit);
        }
    }
    None
}

/// The first limit that so many lines of a text with these commands pass, with these lengths of files.
fn passed(all: u64, lines: &[Line], lengths: &[u64]) -> Option<Limit>
    ensures { result ≡ first_passed (amounts all lines.now lengths.now) }
{
    first_passed(&[
        (all, Limit::Lines),
        (callers(lines), Limit::Callers),
        (contexts(lines), Limit::Contexts),
        (greatest_declared(lines, lengths), Limit::Line),
        (total_declared(lines, lengths), Limit::Total),
    ])
}

/// Whether a file of one of these lengths passes its limit.
fn is_file_passed(lengths: &[u64]) -> bool
    ensures { result ≡ is_some (first_passed (map (λ size. (size, limits.File)) lengths.now)) }
{
    for length in lengths {
        if Limit::File.most() < *length {
            return true;
        }
    }
    false
}

/// The first limit that is passed: what the text alone amounts to, then each file, and then the whole with these
/// lengths.
pub fn passed_limit(all: u64, lines: &[Line], lengths: &[u64]) -> Option<Limit>
    ensures limit { result ≡ passed_limit all lines.now lengths.now }
{
    let by_text = passed(all, lines, &[]);
    if by_text.is_some() || lengths.is_empty() {
        return by_text;
    }
    if is_file_passed(lengths) {
        return Some(Limit::File);
    }
    passed(all, lines, lengths)
}
