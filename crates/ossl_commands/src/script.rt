//! A batch text as its commands.

ghost use Rattle.std.specs.Prelude.{◌≡◌, ℕ, ◌+◌, List, ◌∷◌, IfOk, IfErr, OnOk};
ghost use Rattle.ossl_commands.specs.Counts.{callers_of, contexts_of, line_count, lines_of};
ghost use Rattle.ossl_commands.specs.Fits.{passed_limit};
ghost use Rattle.ossl_commands.specs.Judging.{IsRefusal, commands_from, commands_of, continued};

use crate::amount::{callers, contexts, passed_limit};
use crate::command::Line;
use crate::files::NamedFiles;
use crate::judge::judge;
use crate::kind::ScriptRefused;
use crate::limit::Limit;
use crate::own::{OwnLines, copy_places, own_places};
use crate::text::{cut_line, is_skipped};
use ossl_base::text::Text;
use std::alloc::{AllocError, Global};
use std::collections::BTreeMap;
use std::marker::Model;
use std::sync::Arc;

/// The commands that a batch text says. Each is kept once, without the text beside it.
#[derive(Drop)]
pub struct Script {
    lines: u64,
    commands: Arc<Vec<Line>, Global>,
    files: Vec<Text>,
    own: BTreeMap<u64, Vec<u64>>,
}

impl Model for Script {
    ghost use Rattle.std.specs.Prelude.{◌≡◌, ℕ};
    ghost use Rattle.ossl_commands.specs.View.{ScriptView, places_in};
    ghost use Rattle.ossl_commands.specs.Counts.{own_places};

    ghost Value = { ScriptView };

    ghost view = { λ s. record { lines = s.lines; commands = s.commands.value.items; files = s.files.items } };

    ghost invariant = { λ s. (caller : ℕ) → places_in s.own caller ≡ own_places caller 0 s.commands.value.items };
}

impl Script {
    /// The commands of a text, or its first faulty line.
    pub fn parse(alloc: Global, text: &[u8]) -> Result<Script, ScriptRefused>
        ensures commands { IfOk result (λ s.
            commands_of text.now ≡ Ok (record { lines = s.commands; files = s.files })) }
        ensures lines { IfOk result (λ s. s.lines ≡ line_count text.now) }
        ensures refused { IfErr result (λ e. IsRefusal e (commands_of text.now)) }
    {
        let mut files = NamedFiles::new(alloc);
        let mut commands = Vec::new(alloc);
        let mut number = 0u64;
        let mut rest = text;
        while !rest.is_empty() {
            let (line, behind) = cut_line(rest);
            number += 1;
            read_line(alloc, &mut files, &mut commands, number, line)?;
            rest = behind;
        }
        let own = own_places(alloc, commands.as_slice())?;
        let files = files.into_names();
        Ok(Script {
            lines: number,
            commands: Arc::new(alloc, commands)?,
            files,
            own,
        })
    }

    /// How many lines the text has, skipped ones too.
    pub fn lines(&self) -> u64
        ensures lines { result ≡ self.now.lines }
    {
        self.lines
    }

    /// The commands, in the order of the text.
    pub fn commands(&self) -> &[Line]
        ensures commands { result.now ≡ self.now.commands }
    {
        self.commands.as_slice()
    }

    /// The files that the commands name, each once, in the order of their first naming.
    pub fn files(&self) -> &[Text]
        ensures files { result.now ≡ self.now.files }
    {
        self.files.as_slice()
    }

    /// The greatest caller that is named, 0 where there is no command.
    pub fn callers(&self) -> u64
        ensures callers { result ≡ callers_of self.now.commands }
    {
        callers(self.commands.as_slice())
    }

    /// 1 and the greatest library context that is named, at least 1.
    pub fn contexts(&self) -> u64
        ensures contexts { result ≡ contexts_of self.now.commands }
    {
        contexts(self.commands.as_slice())
    }

    /// The first limit that the batch passes with these lengths of its files, in the order of their first naming; a
    /// file without a length counts 0.
    pub fn fits(&self, lengths: &[u64]) -> Option<Limit>
        ensures limit { result ≡ passed_limit self.now.lines self.now.commands lengths.now }
    {
        passed_limit(self.lines, self.commands.as_slice(), lengths)
    }

    /// The commands of a caller, in the order of the text: shared with the script, and found by the caller's number
    /// without a look at the other lines.
    pub fn own_lines(&self, alloc: Global, caller: u64) -> Result<OwnLines, AllocError>
        ensures lines { IfOk result (λ own. own ≡ lines_of caller self.now.commands) }
    {
        let places = copy_places(alloc, &self.own, caller)?;
        Ok(OwnLines::of(caller, self.commands.clone()?, places))
    }
}

/// Appends the command of a line of this number, where it is not skipped.
fn read_line(
    alloc: Global,
    files: &mut NamedFiles,
    commands: &mut Vec<Line>,
    number: u64,
    line: &[u8],
) -> Result<(), ScriptRefused>
    ensures ok { OnOk result ((behind : List (List ℕ)) →
        continued commands.old.items (commands_from number files.old (line.now ∷ behind))
        ≡ continued commands.new.items (commands_from (number + 1) files.new behind)) }
    ensures refused { IfErr result (λ e. (behind : List (List ℕ)) →
        IsRefusal e (continued commands.old.items (commands_from number files.old (line.now ∷ behind)))) }
{
    if is_skipped(line) {
        return Ok(());
    }
    match judge(alloc, files, line) {
        Ok((caller, command)) => {
            commands.push(Line {
                number,
                caller,
                command,
            })?;
            Ok(())
        }
        Err(refused) => Err(refused.at(number)),
    }
}
