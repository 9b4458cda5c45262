ghost use Rattle.std.specs.Prelude.{◌≡◌, ◌<◌, ◌^◌, ◌+◌, ◌-◌, length, map, slice_get, Some, IsTrue, IsFalse, OnOk};
ghost use Rattle.std.specs.Prelude.{OnErr};
ghost use Rattle.ossl_provider.specs.Members.{is_in};
ghost use Rattle.ossl_provider.specs.Sheet.{Facts, Sheet, IsSheet, after_start, after_refusal, after_stop, stops_of};

use ossl_codes::Code;

/// A start that a provider refused. The provider counts it.
#[derive(Debug, Drop)]
pub struct Refused;

/// A provider: what never changes in it, its facts, and what was done with it, its sheet.
/// No call takes memory.
pub trait Provider: Drop {
    /// The name, the rows, and which codes it admits at which lengths of key.
    ghost facts: { Self → Facts };

    /// The instances up, the accepted starts, and the count of faults.
    ghost sheet: { Self → Sheet };

    /// The name by which a library context loads it.
    fn name(&self) -> &[u8]
        ensures name { result.now ≡ (facts self.now).name };

    /// How many rows it has.
    fn row_count(&self) -> usize
        ensures rows { result ≡ length (facts self.now).rows };

    /// The names of a row's algorithm, with `:` between them.
    fn row_names(&self, index: usize) -> &[u8]
        requires in_table { index < length (facts self.now).rows }
        ensures names { slice_get (map (λ row. row.names) (facts self.now).rows) index ≡ Some result.now };

    /// The property definition of a row (property(7)).
    fn row_definition(&self, index: usize) -> &[u8]
        requires in_table { index < length (facts self.now).rows }
        ensures definition { slice_get (map (λ row. row.definition) (facts self.now).rows) index ≡ Some result.now };

    /// The algorithm of a row.
    fn row_code(&self, index: usize) -> Code
        requires in_table { index < length (facts self.now).rows }
        ensures code { slice_get (map (λ row. row.code) (facts self.now).rows) index ≡ Some result };

    /// Whether it lets an operation begin with a key of so many bytes, 0 where there is none.
    fn admits(&self, code: Code, key_len: u64) -> bool
        ensures rule { result ≡ (facts self.now).admits code key_len };

    /// Starts an instance, or refuses and counts the fault.
    fn start(&mut self, instance: u64) -> Result<(), Refused>
        requires fresh { IsFalse (is_in instance (sheet self.old).up) }
        requires room { length (sheet self.old).up < 65536 }
        requires few { (sheet self.old).starts < 2 ^ 64 - 1 }
        ensures facts { facts self.new ≡ facts self.old }
        ensures ok { OnOk result (sheet self.new ≡ after_start (sheet self.old) instance) }
        ensures err { OnErr result (sheet self.new ≡ after_refusal (sheet self.old)) };

    /// Stops an instance that is up.
    fn stop(&mut self, instance: u64)
        requires up { IsTrue (is_in instance (sheet self.old).up) }
        ensures facts { facts self.new ≡ facts self.old }
        ensures stopped { sheet self.new ≡ after_stop (sheet self.old) instance }
        ensures stops { stops_of (sheet self.new) ≡ stops_of (sheet self.old) + 1 };

    /// The count of faults. It stops at its greatest value.
    fn faults(&self) -> u64
        ensures count { result ≡ (sheet self.now).faults }
        ensures sheet { IsSheet (sheet self.now) };
}
