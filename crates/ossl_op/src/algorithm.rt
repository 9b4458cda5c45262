//! What every algorithm of an operation context does, and what it appends at the end.

ghost use Rattle.std.specs.Prelude.{◌≡◌, ◌++◌, OnOk, OnErr, IfErr};
ghost use Rattle.ossl_op.specs.Work.{Appends, CarriesOn, EndsRefused, EndsWell, GaveBeginning, Work};

use ossl_modes::FinishRefused;
use std::alloc::AllocError;

/// An algorithm at work: it is fed bytes in any pieces, and appends its text.
pub(crate) trait Algorithm: Drop {
    // The state runs this work.
    ghost runs: { Self → Work → Type 0 };

    /// Takes the next bytes in, and appends what text is known by now.
    fn feed(&mut self, bytes: &[u8], out: &mut Vec<u8>) -> Result<(), AllocError>
        ensures appends { Appends out.old.items out.new.items }
        ensures runs { OnOk result (CarriesOn (runs self.old) (runs self.new) bytes.now out.old.items out.new.items) }
        ensures unchanged { OnErr result ((self.new ≡ self.old) × (out.new.items ≡ out.old.items)) };

    /// Appends what is left of the text, or refuses and appends nothing.
    fn finish(self, out: &mut Vec<u8>) -> Result<(), FinishRefused>
        ensures appends { Appends out.old.items out.new.items }
        ensures accepted { OnOk result (EndsWell (runs self) out.old.items out.new.items) }
        ensures refused { IfErr result (EndsRefused (runs self)) }
        ensures unchanged { OnErr result (out.new.items ≡ out.old.items) }
        ensures beginning { OnErr result (GaveBeginning (runs self)) };
}

/// Appends the bytes, or nothing where there is no memory for them.
pub(crate) fn append(out: &mut Vec<u8>, bytes: &[u8]) -> Result<(), FinishRefused>
    ensures appends { Appends out.old.items out.new.items }
    ensures appended { OnOk result (out.new.items ≡ out.old.items ++ bytes.now) }
    ensures refused { IfErr result (λ refusal. (refusal ≡ FinishRefused.NoMemory) × (out.new.items ≡ out.old.items)) }
{
    match out.extend_from_slice(bytes) {
        Ok(()) => Ok(()),
        Err(_) => Err(FinishRefused::NoMemory),
    }
}
