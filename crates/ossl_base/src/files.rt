ghost use Rattle.std.specs.Prelude.{ℕ, ◌≡◌, ◌≤◌, ◌⊎◌, List, length, IfOk, Err};
ghost use Rattle.std.specs.declared.option.Option.{Option};
ghost use Rattle.ossl_base.specs.Causes.{Rose};
ghost use Rattle.ossl_base.specs.Files.{Entries, HasContent, LacksName, IsLonger};

use std::alloc::Global;

/// Why a file was not read.
#[derive(Debug, Drop)]
pub enum FileRefusal {
    /// There is no such file, or a read failed, which the files count.
    Failed,
    /// The content has more bytes than the limit.
    TooLong,
    /// No memory for the content.
    NoMemory,
}

/// Files by their names.
pub trait Files {
    /// The files there are, where the object tells them: each name beside its content.
    ghost entries: { Self → Option Entries };

    /// The count of faults. It never falls.
    ghost faults: { Self → ℕ };

    /// The whole content of a file, of at most `limit` bytes.
    fn read_whole(&mut self, alloc: Global, name: &[u8], limit: u64) -> Result<Vec<u8>, FileRefusal>
        ensures kept { entries self.new ≡ entries self.old }
        ensures content { IfOk result (λ v. HasContent (entries self.old) name.now v.items) }
        ensures within { IfOk result (λ v. length v.items ≤ limit) }
        ensures too_long { result ≡ Err FileRefusal.TooLong → IsLonger (entries self.old) name.now limit }

        // A name that is not there fails and is not counted; every other failure is.
        ensures lacking { LacksName (entries self.old) name.now → result ≡ Err FileRefusal.Failed }
        ensures uncounted { LacksName (entries self.old) name.now → faults self.new ≡ faults self.old }
        ensures failed { result ≡ Err FileRefusal.Failed →
            Rose (faults self.old) (faults self.new) ⊎ LacksName (entries self.old) name.now }
        ensures later { faults self.old ≤ faults self.new };
}
