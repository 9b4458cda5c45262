//! A batch that is ready to be run.

ghost use Rattle.std.specs.Prelude.{◌≡◌, ◌≤◌, ℕ, [], length, map};
ghost use Rattle.std.specs.Option.{option_copied};
ghost use Rattle.ossl_conf.specs.Answers.{mapped};
ghost use Rattle.ossl_prepare.specs.Answered.{ButForMemory, DueIsTold, IsDue, ReadIsCounted, telling};
ghost use Rattle.ossl_prepare.specs.Due.{fitting, script_of};

use crate::contents::{lengths_of, read_contents};
use crate::error_line::ErrorLine;
use crate::refused::Refused;
use crate::settings::read_settings;
use ossl_base::{Bytes, Files, Text};
use ossl_commands::{Script, ScriptRefused};
use ossl_conf::Settings;
use std::alloc::Global;
use std::marker::Model;

/// A batch that is ready to be run: its commands, what its files hold, and what its configuration sets.
#[derive(Drop)]
pub struct Prepared {
    script: Script,
    contents: Vec<Bytes>,
    settings: Settings,
}

impl Model for Prepared {
    ghost use Rattle.std.specs.Prelude.{◌≡◌, length};
    ghost use Rattle.ossl_prepare.specs.View.{PreparedView};

    ghost Value = { PreparedView };

    ghost view = { λ p. record { script = p.script; contents = p.contents.items; settings = p.settings } };

    ghost invariant = { λ p. length p.contents.items ≡ length p.script.files };
}

impl Prepared {
    /// Its commands.
    pub fn script(&self) -> &Script
        ensures script { result.now ≡ self.now.script }
    {
        &self.script
    }

    /// What its files hold, in the order of their first naming.
    pub fn contents(&self) -> &[Bytes]
        ensures contents { result.now ≡ self.now.contents }
        ensures each { length self.now.contents ≡ length self.now.script.files }
    {
        self.contents.as_slice()
    }

    /// What its configuration sets.
    pub fn settings(&self) -> &Settings
        ensures settings { result.now ≡ self.now.settings }
    {
        &self.settings
    }
}

/// The commands of a text, or its first faulty line.
fn read_script(alloc: Global, text: &[u8]) -> Result<Script, Refused>
    ensures { ButForMemory result (λ answer. answer ≡ script_of text.now) }
{
    match Script::parse(alloc, text) {
        Ok(script) => Ok(script),
        Err(ScriptRefused::Line { number, kind }) => {
            Err(Refused::Error(ErrorLine::Batch { number, kind }))
        }
        Err(ScriptRefused::NoMemory) => Err(Refused::NoMemory),
    }
}

/// Whether a batch passes no limit with these lengths of its files, or which is the first.
fn check_limits(script: &Script, lengths: &[u64]) -> Result<(), Refused>
    ensures { ButForMemory result (λ answer. answer ≡ fitting script.now lengths.now) }
{
    match script.fits(lengths) {
        None => Ok(()),
        Some(limit) => Err(Refused::Error(ErrorLine::Limit(limit))),
    }
}

/// All that the run of a batch of this text needs, with the configuration of this name, where one is named; or the
/// first error in the order of the checks. A file is asked for once, and only where no check before refuses.
///
/// Where the files tell what they hold, and none that is there fails, the answer follows from that and the text alone.
#[tactic(auto, using(crate::proofs::DueLaws::due_is_told, crate::proofs::DueLaws::read_is_counted))]
pub fn prepare<F: Files>(
    alloc: Global,
    text: &[u8],
    conf: Option<&Text>,
    files: &mut F,
) -> Result<Prepared, Refused>
    ensures due { (before after : ℕ) → before ≤ F.faults files.old → F.faults files.new ≤ after →
        ButForMemory result (IsDue (telling (F.entries files.old) before after) (option_copied conf.entry) text.now) }
    ensures kept { F.entries files.new ≡ F.entries files.old }
    ensures later { F.faults files.old ≤ F.faults files.new }
    ensures told { DueIsTold }
    ensures counted { ReadIsCounted }
{
    let script = read_script(alloc, text)?;
    check_limits(&script, &[])?;
    let contents = read_contents(alloc, files, script.files())?;
    let lengths = lengths_of(alloc, contents.as_slice())?;
    check_limits(&script, lengths.as_slice())?;
    let settings = read_settings(alloc, files, conf)?;
    Ok(Prepared {
        script,
        contents,
        settings,
    })
}
