//! What a configuration sets.

ghost use Rattle.std.specs.Prelude.{◌≡◌, ◌≤◌, ℕ};
ghost use Rattle.std.specs.Option.{option_copied};
ghost use Rattle.ossl_prepare.specs.Answered.{AreSettings, ButForMemory, telling};
ghost use Rattle.ossl_prepare.specs.ErrorLine.{configuration_refused};

use crate::contents::read_content;
use crate::error_line::ErrorLine;
use crate::refused::Refused;
use ossl_base::{FileRefusal, Files, Text};
use ossl_commands::Limit;
use ossl_conf::{ConfRefused, Settings, read_conf};
use std::alloc::Global;

/// Why a configuration is refused, as an error line says it.
fn refused(refusal: ConfRefused) -> Refused
    ensures { result ≡ configuration_refused refusal }
{
    match refusal {
        ConfRefused::NoMemory => Refused::NoMemory,
        ConfRefused::File {
            refusal: FileRefusal::Failed,
            ..
        } => Refused::Error(ErrorLine::Read),
        ConfRefused::File {
            refusal: FileRefusal::TooLong,
            ..
        } => Refused::Error(ErrorLine::Limit(Limit::Configuration)),
        ConfRefused::File {
            refusal: FileRefusal::NoMemory,
            ..
        } => Refused::NoMemory,
        refusal => Refused::Error(ErrorLine::Configuration(refusal)),
    }
}

/// What the configuration of this name sets, where one is named.
pub fn read_settings<F: Files>(
    alloc: Global,
    files: &mut F,
    conf: Option<&Text>,
) -> Result<Settings, Refused>
    ensures settings { (before after : ℕ) → before ≤ F.faults files.old → F.faults files.new ≤ after →
        ButForMemory result (AreSettings (telling (F.entries files.old) before after) (option_copied conf.entry)) }
    ensures kept { F.entries files.new ≡ F.entries files.old }
    ensures later { F.faults files.old ≤ F.faults files.new }
{
    let Some(name) = conf else {
        return Ok(Settings::new(Vec::new(alloc), None));
    };
    let text = read_content(alloc, files, name, Limit::Configuration)?;
    match read_conf(alloc, text.as_slice(), files) {
        Ok(settings) => Ok(settings),
        Err(refusal) => Err(refused(refusal)),
    }
}
