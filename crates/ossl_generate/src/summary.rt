//! What is told of a generated batch that was run.

ghost use Rattle.std.specs.Prelude.{◌≡◌, ◌++◌, IfOk, OnOk};
ghost use Rattle.ossl_generate.specs.Summary.{batch_line, digest_line, entries_line, is_good, lines_line, summary_text};

use crate::digits::put_decimal;
use ossl_base::put_hex;
use sha2::{Digest, Sha256};
use std::alloc::{AllocError, Global};

/// The numbers of a generated batch and of its run.
#[derive(Drop)]
pub struct Summary {
    /// How many lines it has.
    pub lines: u64,
    /// From which number its lines were drawn.
    pub seed: u64,
    /// How many callers made them in turn.
    pub callers: u64,
    /// How many results are good.
    pub good: u64,
    /// How many entries the history of the run has.
    pub entries: u64,
}

/// Whether the text of a result is that of a good one: it begins with `ok`.
pub fn is_good(text: &[u8]) -> bool
    ensures good { result ≡ is_good text.now }
{
    text.starts_with(b"ok")
}

/// The text of a summary, where `results` is what is printed of the run from `results` on.
pub fn summary_text(alloc: Global, told: &Summary, results: &[u8]) -> Result<Vec<u8>, AllocError>
    ensures text { IfOk result (λ text. text.items ≡ summary_text told.now results.now) }
{
    let mut text = Vec::new(alloc);
    put_batch(&mut text, told)?;
    put_lines(&mut text, told)?;
    put_entries(&mut text, told)?;
    put_digest(alloc, &mut text, results)?;
    Ok(text)
}

fn put_batch(out: &mut Vec<u8>, told: &Summary) -> Result<(), AllocError>
    ensures { OnOk result (out.new.items ≡ out.old.items ++ batch_line told.now) }
{
    out.extend_from_slice(b"gen ")?;
    put_decimal(out, told.lines)?;
    out.extend_from_slice(b" ")?;
    put_decimal(out, told.seed)?;
    out.extend_from_slice(b" callers ")?;
    put_decimal(out, told.callers)?;
    out.extend_from_slice(b"\n")
}

fn put_lines(out: &mut Vec<u8>, told: &Summary) -> Result<(), AllocError>
    ensures { OnOk result (out.new.items ≡ out.old.items ++ lines_line told.now) }
{
    out.extend_from_slice(b"lines ")?;
    put_decimal(out, told.lines)?;
    out.extend_from_slice(b" ok ")?;
    put_decimal(out, told.good)?;
    out.extend_from_slice(b"\n")
}

fn put_entries(out: &mut Vec<u8>, told: &Summary) -> Result<(), AllocError>
    ensures { OnOk result (out.new.items ≡ out.old.items ++ entries_line told.now) }
{
    out.extend_from_slice(b"entries ")?;
    put_decimal(out, told.entries)?;
    out.extend_from_slice(b"\n")
}

fn put_digest(alloc: Global, out: &mut Vec<u8>, results: &[u8]) -> Result<(), AllocError>
    ensures { OnOk result (out.new.items ≡ out.old.items ++ digest_line results.now) }
{
    out.extend_from_slice(b"sha256 ")?;
    put_hex(alloc, out, &Sha256::digest(results))?;
    out.extend_from_slice(b"\n")
}
