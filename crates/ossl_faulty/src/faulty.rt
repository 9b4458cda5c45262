//! The provider that refuses chosen starts.

ghost use Rattle.std.specs.Prelude.{◌≡◌};

use ossl_codes::Code;
use ossl_provider::{Provider, Refused, TableProvider};
use std::marker::Model;

/// A provider whose rows stand in a table, and that refuses the starts of chosen numbers. All starts are
/// counted, from 1, the refused
/// ones too.
#[derive(Drop)]
pub struct Faulty {
    inner: TableProvider,
    refused: Vec<u64>,
    /// How many starts were asked for.
    asked: u64,
    faults: u64,
}

impl Model for Faulty {
    ghost use Rattle.ossl_faulty.specs.Faulty.{FaultyView};

    ghost Value = { FaultyView };

    ghost view = { λ f. record { table = f.inner; refused = f.refused.items; asked = f.asked; faults = f.faults } };
}

impl Faulty {
    /// A provider of this table that refuses the starts of these numbers, from 1. None was asked for so far.
    pub fn new(inner: TableProvider, refused: Vec<u64>) -> Faulty
        ensures made { result ≡ record { table = inner; refused = refused.items; asked = 0; faults = 0 } }
    {
        Faulty {
            inner,
            refused,
            asked: 0,
            faults: 0,
        }
    }
}

impl Provider for Faulty {
    ghost use Rattle.std.specs.Prelude.{◌<◌, ◌-◌, ◌^◌, length, true, false, IsFalse, OnOk, OnErr};
    ghost use Rattle.ossl_faulty.specs.Faulty.{after_asking, faulty_facts, faulty_sheet, refuses};
    ghost use Rattle.ossl_provider.specs.Members.{is_in};
    ghost use Rattle.ossl_provider.specs.Sheet.{after_start, after_refusal};

    ghost facts = { faulty_facts };

    ghost sheet = { faulty_sheet };

    fn name(&self) -> &[u8] {
        self.inner.name()
    }

    fn row_count(&self) -> usize {
        self.inner.row_count()
    }

    fn row_names(&self, index: usize) -> &[u8] {
        self.inner.row_names(index)
    }

    fn row_definition(&self, index: usize) -> &[u8] {
        self.inner.row_definition(index)
    }

    fn row_code(&self, index: usize) -> Code {
        self.inner.row_code(index)
    }

    fn admits(&self, code: Code, key_len: u64) -> bool {
        self.inner.admits(code, key_len)
    }

    fn start(&mut self, instance: u64) -> Result<(), Refused>
        requires fresh { IsFalse (is_in instance (faulty_sheet self.old).up) }
        requires room { length (faulty_sheet self.old).up < 65536 }
        requires few { (faulty_sheet self.old).starts < 2 ^ 64 - 1 }
        ensures facts { faulty_facts self.new ≡ faulty_facts self.old }
        ensures ok { OnOk result (faulty_sheet self.new ≡ after_start (faulty_sheet self.old) instance) }
        ensures err { OnErr result (faulty_sheet self.new ≡ after_refusal (faulty_sheet self.old)) }
        // It is refused exactly where its number is listed.
        ensures listed { OnErr result (refuses self.old ≡ true) }
        ensures others { OnOk result (refuses self.old ≡ false) }
        ensures asked { (self.new.refused ≡ self.old.refused) × (self.new.asked ≡ after_asking self.old) }
    {
        self.asked = self.asked.saturating_add(1);
        if self.refused.contains(&self.asked) {
            self.faults = self.faults.saturating_add(1);
            return Err(Refused);
        }
        self.inner.start(instance)
    }

    fn stop(&mut self, instance: u64) {
        self.inner.stop(instance)
    }

    fn faults(&self) -> u64 {
        let _ = self.inner.faults();
        self.faults
    }
}
