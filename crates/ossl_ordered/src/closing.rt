//! The program's closing.

ghost use Rattle.std.specs.Prelude.{◌≡◌, ◌<◌, ◌∷◌, [], ℕ, List, false, OnOk};
ghost use Rattle.ossl_base.specs.declared.entry.Entry.{Entry};
ghost use Rattle.ossl_state.specs.declared.call.Call.{Call};
ghost use Rattle.ossl_state.specs.declared.call.Reply.{Reply};
ghost use Rattle.ossl_state.specs.History.{IsLegal, state_after};
ghost use Rattle.ossl_state.specs.State.{lib_at};
ghost use Rattle.ossl_ordered.specs.Owned.{AddsCalls, AreClosed, Closes, ClosesBy, Follow, OwnsAll, Unloads};

use crate::program::Program;
use ossl_state::call::Call;
use std::alloc::AllocError;

/// Gives activations back, the last one first. It takes no memory.
fn unload_all<C: Program>(program: &mut C, mut tokens: Vec<u64>)
    requires legal { IsLegal (C.fixed program.old) (C.entries program.old) }
    requires owned { OwnsAll tokens.items (C.entries program.old) }
    ensures unloaded { Unloads tokens.items (C.entries program.old) (C.entries program.new) }
    ensures legal { IsLegal (C.fixed program.new) (C.entries program.new) }
    ensures fixed { C.fixed program.new ≡ C.fixed program.old }
{
    while let Some(token) = tokens.pop() {
        match program.call(&Call::Unload { token }) {
            Ok(_) => {}
            Err(_) => unreachable!(),
        }
    }
}

/// Closes a library context. Where it is closed already its entry may want memory, and is then left out.
fn close_one<C: Program>(program: &mut C, lib: u64) -> Result<(), AllocError>
    requires legal { IsLegal (C.fixed program.old) (C.entries program.old) }
    requires there { lib < (C.fixed program.old).contexts }
    ensures closed { OnOk result (AddsCalls (Call.CloseLib lib ∷ []) (C.entries program.old) (C.entries program.new)) }
    ensures follow { (closing : List (Entry Call Reply))
        × Follow (C.entries program.old) (C.entries program.new) closing }
    ensures down { (lib_at (state_after (C.fixed program.new) (C.entries program.new)) lib).is_open ≡ false }
    ensures others { (l : ℕ) → (lib_at (state_after (C.fixed program.old) (C.entries program.old)) l).is_open ≡ false →
        (lib_at (state_after (C.fixed program.new) (C.entries program.new)) l).is_open ≡ false }
    ensures legal { IsLegal (C.fixed program.new) (C.entries program.new) }
    ensures fixed { C.fixed program.new ≡ C.fixed program.old }
{
    program.call(&Call::CloseLib { lib })?;
    Ok(())
}

/// Closes the library contexts, from 0 up.
fn close_all<C: Program>(program: &mut C, contexts: u64) -> Result<(), AllocError>
    requires legal { IsLegal (C.fixed program.old) (C.entries program.old) }
    requires contexts { contexts ≡ (C.fixed program.old).contexts }
    ensures closed { OnOk result (Closes contexts (C.entries program.old) (C.entries program.new)) }
    ensures follow { (closing : List (Entry Call Reply))
        × Follow (C.entries program.old) (C.entries program.new) closing }
    ensures down { AreClosed contexts (C.fixed program.new) (C.entries program.new) }
    ensures legal { IsLegal (C.fixed program.new) (C.entries program.new) }
    ensures fixed { C.fixed program.new ≡ C.fixed program.old }
{
    let mut outcome = Ok(());
    for lib in 0..contexts {
        let closed = close_one(program, lib);
        outcome = outcome.and(closed);
    }
    outcome
}

/// Makes the calls with which the program ends: the activations of its opening go back, newest first, and then each
/// library context is closed, from 0 up. Nothing that the calls need takes memory, but for the entry of a library
/// context that is closed already: whatever the result, all library contexts are closed then.
pub fn close<C: Program>(program: &mut C, tokens: Vec<u64>, contexts: u64) -> Result<(), AllocError>
    requires legal { IsLegal (C.fixed program.old) (C.entries program.old) }
    requires owned { OwnsAll tokens.items (C.entries program.old) }
    requires contexts { contexts ≡ (C.fixed program.old).contexts }
    ensures closed { OnOk result (ClosesBy contexts tokens.items (C.entries program.old) (C.entries program.new)) }
    ensures follow { (closing : List (Entry Call Reply))
        × Follow (C.entries program.old) (C.entries program.new) closing }
    ensures down { AreClosed contexts (C.fixed program.new) (C.entries program.new) }
    ensures legal { IsLegal (C.fixed program.new) (C.entries program.new) }
    ensures fixed { C.fixed program.new ≡ C.fixed program.old }
{
    unload_all(program, tokens);
    close_all(program, contexts)
}
