//! The error lines.

ghost use Rattle.std.specs.Prelude.{◌≡◌, ◌++◌, codes, IfOk, OnErr, OnOk};
ghost use Rattle.ossl_prepare.specs.ErrorLine.{error_status, error_text};

use ossl_base::Text;
use ossl_base::digits::put_decimal;
use ossl_commands::{Limit, LineKind};
use ossl_conf::{ConfRefused, put_refusal, put_shown};
use std::alloc::{AllocError, Global};

/// Why a batch is not run, as the program says it in one line.
#[derive(Drop)]
pub enum ErrorLine {
    /// The words are not in the command set.
    Usage,
    /// The input or a file could not be read.
    Read,
    /// The configuration is refused by its format.
    Configuration(ConfRefused),
    /// The first faulty line of the batch, counted from 1, and its kind.
    Batch { number: u64, kind: LineKind },
    /// The first limit that is passed.
    Limit(Limit),
    /// A provider that the configuration activates is not in the catalogue, or refused to start.
    Provider(Text),
}

impl ErrorLine {
    /// The status with which the program ends.
    pub fn status(&self) -> u8
        ensures status { result ≡ error_status self.now }
    {
        match self {
            ErrorLine::Usage => 2,
            ErrorLine::Read => 3,
            ErrorLine::Configuration(_) => 5,
            ErrorLine::Batch { .. } => 6,
            ErrorLine::Limit(_) => 7,
            ErrorLine::Provider(_) => 8,
        }
    }

    /// The line, with its line feed.
    pub fn line(&self, alloc: Global) -> Result<Vec<u8>, AllocError>
        ensures line { IfOk result (λ line. line.items ≡ error_text self.now) }
    {
        let mut line = Vec::new(alloc);
        match self {
            ErrorLine::Usage => line.extend_from_slice(b"error usage\n")?,
            ErrorLine::Read => line.extend_from_slice(b"error read\n")?,
            ErrorLine::Configuration(refusal) => put_refusal(alloc, &mut line, refusal)?,
            ErrorLine::Batch { number, kind } => {
                line.extend_from_slice(b"error batch line ")?;
                put_decimal(alloc, &mut line, *number)?;
                line.extend_from_slice(b" ")?;
                put_word(&mut line, kind.word())?;
            }
            ErrorLine::Limit(limit) => {
                line.extend_from_slice(b"error limit ")?;
                put_word(&mut line, limit.word())?;
            }
            ErrorLine::Provider(name) => {
                line.extend_from_slice(b"error provider ")?;
                put_shown(&mut line, name.as_slice())?;
                line.push(b'\n')?;
            }
        }
        Ok(line)
    }
}

/// Appends a word that ends its line.
fn put_word(line: &mut Vec<u8>, word: &str) -> Result<(), AllocError>
    ensures { OnOk result (line.new.items ≡ line.old.items ++ word.now ++ codes "\n") }
{
    line.extend_from_slice(word.as_bytes())?;
    line.extend_from_slice(b"\n")
}
