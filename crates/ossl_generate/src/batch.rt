//! The text of a generated batch.

ghost use Rattle.std.specs.Prelude.{◌≡◌, ◌≤◌, ◌++◌, codes, IfOk, OnOk};
ghost use Rattle.std.specs.Fmt.{decimal};
ghost use Rattle.ossl_generate.specs.Generator.{command_text, generated};

use crate::command::{next_state, put_command};
use crate::digits::put_decimal;
use std::alloc::{AllocError, Global};

/// The text of a batch of `lines` lines that `callers` callers make in turn, drawn from a seed.
pub fn generate(alloc: Global, lines: u64, seed: u64, callers: u64) -> Result<Vec<u8>, AllocError>
    requires callers { 1 ≤ callers }
    ensures text { IfOk result (λ text. text.items ≡ generated lines seed callers) }
{
    let mut text = Vec::new(alloc);
    let mut state = seed;
    for line in 0..lines {
        state = next_state(state);
        put_line(&mut text, line % callers + 1, state)?;
    }
    Ok(text)
}

/// Appends the line of a caller, by the state of the generator.
fn put_line(out: &mut Vec<u8>, caller: u64, state: u64) -> Result<(), AllocError>
    ensures { let line = decimal caller ++ codes " " ++ command_text state ++ codes "\n" in
        OnOk result (out.new.items ≡ out.old.items ++ line) }
{
    put_decimal(out, caller)?;
    out.extend_from_slice(b" ")?;
    put_command(out, state)?;
    out.extend_from_slice(b"\n")
}
