//! The fixed words of each command, and what a command is with the words behind them.

ghost use Rattle.std.specs.Prelude.{◌≡◌, ℕ, List, None, IfOk, MatchOption, option_map};
ghost use Rattle.ossl_codes.specs.declared.code.Operation.{Operation};
ghost use Rattle.ossl_commands.specs.Table.{Begun, filled, lib, name, op, performs, row_of, word};

use crate::command::{Argument, Arguments, Command, Verb};
use crate::table::operation;
use crate::text::Words;
use crate::word::{is_name, number};
use ossl_base::text::Text;
use ossl_codes::Operation;
use std::alloc::{AllocError, Global};

impl<'a> Words<'a> {
    /// The number of a library context, the next fixed word.
    fn lib(&mut self) -> Option<u32>
        ensures { MatchOption result ((next : ℕ → List (List ℕ) → Begun) → lib next self.old ≡ None)
            (λ n. (next : ℕ → List (List ℕ) → Begun) → lib next self.old ≡ next n self.new) }
    {
        number(self.next()?)
    }

    /// An operation, the next fixed word.
    fn operation(&mut self) -> Option<Operation>
        ensures { MatchOption result ((next : Operation → List (List ℕ) → Begun) → op next self.old ≡ None)
            (λ o. (next : Operation → List (List ℕ) → Begun) → op next self.old ≡ next o self.new) }
    {
        operation(self.next()?)
    }

    /// Any word, the next fixed one.
    fn word(&mut self) -> Option<&'a [u8]>
        ensures { MatchOption result ((next : List ℕ → List (List ℕ) → Begun) → word next self.old ≡ None)
            (λ w. (next : List ℕ → List (List ℕ) → Begun) → word next self.old ≡ next w.now self.new) }
    {
        self.next()
    }

    /// A name, the next fixed word.
    fn name(&mut self) -> Option<&'a [u8]>
        ensures { MatchOption result ((next : List ℕ → List (List ℕ) → Begun) → name next self.old ≡ None)
            (λ w. (next : List ℕ → List (List ℕ) → Begun) → name next self.old ≡ next w.now self.new) }
    {
        let word = self.next()?;
        if is_name(word) { Some(word) } else { None }
    }
}

fn text(alloc: Global, word: &[u8]) -> Result<Text, AllocError>
    ensures { IfOk result (λ text. text ≡ word.now) }
{
    Ok(Text::of(Vec::from_slice(alloc, word)?))
}

impl Command {
    /// The command that its fixed words make, where each is there in its form; the words behind these are left.
    pub(crate) fn begin(
        alloc: Global,
        verb: Verb,
        words: &mut Words<'_>,
    ) -> Result<Option<Command>, AllocError>
        ensures begun { IfOk result (λ begun.
            option_map (λ command. (command, words.new)) begun ≡ (row_of verb).fixed words.old) }
    {
        match verb {
            Verb::Load => load(alloc, words),
            Verb::Unload => unload(alloc, words),
            Verb::Default => default(alloc, words),
            Verb::Fetch => fetch(alloc, words),
            Verb::UpRef => up_ref(alloc, words),
            Verb::Free => free(alloc, words),
            Verb::Open => open(alloc, words),
            Verb::Feed => feed(alloc, words),
            Verb::Finish => finish(alloc, words),
            Verb::Close => close(alloc, words),
            Verb::CloseLib => close_lib(words),
            Verb::Dgst => perform(alloc, Operation::Digest, words),
            Verb::Mac => perform(alloc, Operation::Mac, words),
            Verb::Enc => perform(alloc, Operation::Cipher, words),
            Verb::Kdf => perform(alloc, Operation::Kdf, words),
        }
    }

    /// The command with the words behind its fixed ones, and with its query.
    pub(crate) fn with(self, arguments: Vec<Argument>, query: Text) -> Command
        ensures filled { result ≡ filled arguments.items query self }
    {
        match self {
            Command::Load {
                lib,
                provider,
                name,
                ..
            } => Command::Load {
                lib,
                provider,
                name,
                retain: !arguments.is_empty(),
            },
            Command::Default { lib, .. } => Command::Default { lib, query },
            Command::Fetch {
                lib,
                operation,
                algorithm,
                name,
                ..
            } => Command::Fetch {
                lib,
                operation,
                algorithm,
                name,
                query,
            },
            Command::Open { method, name, .. } => Command::Open {
                method,
                name,
                arguments: Arguments::of(arguments),
            },
            Command::Feed { name, .. } => Command::Feed {
                name,
                arguments: Arguments::of(arguments),
            },
            Command::Perform {
                operation,
                algorithm,
                ..
            } => Command::Perform {
                operation,
                algorithm,
                arguments: Arguments::of(arguments),
                query,
            },
            command => command,
        }
    }
}

fn load(alloc: Global, words: &mut Words<'_>) -> Result<Option<Command>, AllocError>
    ensures { IfOk result (λ begun.
        option_map (λ command. (command, words.new)) begun ≡ (row_of Verb.Load).fixed words.old) }
{
    let Some(lib) = words.lib() else {
        return Ok(None);
    };
    let Some(provider) = words.word() else {
        return Ok(None);
    };
    let Some(name) = words.name() else {
        return Ok(None);
    };
    Ok(Some(Command::Load {
        lib,
        provider: text(alloc, provider)?,
        name: text(alloc, name)?,
        retain: false,
    }))
}

fn unload(alloc: Global, words: &mut Words<'_>) -> Result<Option<Command>, AllocError>
    ensures { IfOk result (λ begun.
        option_map (λ command. (command, words.new)) begun ≡ (row_of Verb.Unload).fixed words.old) }
{
    let Some(name) = words.name() else {
        return Ok(None);
    };
    Ok(Some(Command::Unload {
        name: text(alloc, name)?,
    }))
}

fn default(alloc: Global, words: &mut Words<'_>) -> Result<Option<Command>, AllocError>
    ensures { IfOk result (λ begun.
        option_map (λ command. (command, words.new)) begun ≡ (row_of Verb.Default).fixed words.old) }
{
    let Some(lib) = words.lib() else {
        return Ok(None);
    };
    Ok(Some(Command::Default {
        lib,
        query: Text::of(Vec::new(alloc)),
    }))
}

fn fetch(alloc: Global, words: &mut Words<'_>) -> Result<Option<Command>, AllocError>
    ensures { IfOk result (λ begun.
        option_map (λ command. (command, words.new)) begun ≡ (row_of Verb.Fetch).fixed words.old) }
{
    let Some(lib) = words.lib() else {
        return Ok(None);
    };
    let Some(operation) = words.operation() else {
        return Ok(None);
    };
    let Some(algorithm) = words.word() else {
        return Ok(None);
    };
    let Some(name) = words.name() else {
        return Ok(None);
    };
    Ok(Some(Command::Fetch {
        lib,
        operation,
        algorithm: text(alloc, algorithm)?,
        name: text(alloc, name)?,
        query: Text::of(Vec::new(alloc)),
    }))
}

fn up_ref(alloc: Global, words: &mut Words<'_>) -> Result<Option<Command>, AllocError>
    ensures { IfOk result (λ begun.
        option_map (λ command. (command, words.new)) begun ≡ (row_of Verb.UpRef).fixed words.old) }
{
    let Some(method) = words.name() else {
        return Ok(None);
    };
    let Some(name) = words.name() else {
        return Ok(None);
    };
    Ok(Some(Command::UpRef {
        method: text(alloc, method)?,
        name: text(alloc, name)?,
    }))
}

fn free(alloc: Global, words: &mut Words<'_>) -> Result<Option<Command>, AllocError>
    ensures { IfOk result (λ begun.
        option_map (λ command. (command, words.new)) begun ≡ (row_of Verb.Free).fixed words.old) }
{
    let Some(name) = words.name() else {
        return Ok(None);
    };
    Ok(Some(Command::Free {
        name: text(alloc, name)?,
    }))
}

fn open(alloc: Global, words: &mut Words<'_>) -> Result<Option<Command>, AllocError>
    ensures { IfOk result (λ begun.
        option_map (λ command. (command, words.new)) begun ≡ (row_of Verb.Open).fixed words.old) }
{
    let Some(method) = words.name() else {
        return Ok(None);
    };
    let Some(name) = words.name() else {
        return Ok(None);
    };
    Ok(Some(Command::Open {
        method: text(alloc, method)?,
        name: text(alloc, name)?,
        arguments: Arguments::of(Vec::new(alloc)),
    }))
}

fn feed(alloc: Global, words: &mut Words<'_>) -> Result<Option<Command>, AllocError>
    ensures { IfOk result (λ begun.
        option_map (λ command. (command, words.new)) begun ≡ (row_of Verb.Feed).fixed words.old) }
{
    let Some(name) = words.name() else {
        return Ok(None);
    };
    Ok(Some(Command::Feed {
        name: text(alloc, name)?,
        arguments: Arguments::of(Vec::new(alloc)),
    }))
}

fn finish(alloc: Global, words: &mut Words<'_>) -> Result<Option<Command>, AllocError>
    ensures { IfOk result (λ begun.
        option_map (λ command. (command, words.new)) begun ≡ (row_of Verb.Finish).fixed words.old) }
{
    let Some(name) = words.name() else {
        return Ok(None);
    };
    Ok(Some(Command::Finish {
        name: text(alloc, name)?,
    }))
}

fn close(alloc: Global, words: &mut Words<'_>) -> Result<Option<Command>, AllocError>
    ensures { IfOk result (λ begun.
        option_map (λ command. (command, words.new)) begun ≡ (row_of Verb.Close).fixed words.old) }
{
    let Some(name) = words.name() else {
        return Ok(None);
    };
    Ok(Some(Command::Close {
        name: text(alloc, name)?,
    }))
}

fn close_lib(words: &mut Words<'_>) -> Result<Option<Command>, AllocError>
    ensures { IfOk result (λ begun.
        option_map (λ command. (command, words.new)) begun ≡ (row_of Verb.CloseLib).fixed words.old) }
{
    let Some(lib) = words.lib() else {
        return Ok(None);
    };
    Ok(Some(Command::CloseLib { lib }))
}

fn perform(
    alloc: Global,
    operation: Operation,
    words: &mut Words<'_>,
) -> Result<Option<Command>, AllocError>
    ensures { IfOk result (λ begun. option_map (λ command. (command, words.new)) begun ≡ performs operation words.old) }
{
    let Some(algorithm) = words.word() else {
        return Ok(None);
    };
    Ok(Some(Command::Perform {
        operation,
        algorithm: text(alloc, algorithm)?,
        arguments: Arguments::of(Vec::new(alloc)),
        query: Text::of(Vec::new(alloc)),
    }))
}
