ghost use Rattle.std.specs.Prelude.{◌≡◌, [], IfOk, vec_capacity};
ghost use Rattle.ossl_provider.specs.Members.{without};

use crate::provider::{Provider, Refused};
use ossl_base::text::Text;
use ossl_codes::Code;
use std::alloc::{AllocError, Global};
use std::marker::Model;

/// The instances of a provider that can be up at once.
const PLACES: usize = 65_536;

/// A row of a provider: the names of an algorithm with `:` between them, the properties of this
/// implementation (property(7)), and the algorithm itself.
#[derive(Drop)]
pub struct TableRow {
    pub names: Text,
    pub definition: Text,
    pub code: Code,
}

/// A provider whose rows stand in a table. It refuses no start.
#[derive(Drop)]
pub struct TableProvider {
    name: Text,
    rows: Vec<TableRow>,
    /// The length in bytes from which on keys of HMAC and HKDF are admitted; 0 admits every key.
    least_key: u64,
    up: Vec<u64>,
    starts: u64,
}

impl Model for TableProvider {
    ghost use Rattle.std.specs.Prelude.{◌≤◌, vec_capacity};
    ghost use Rattle.ossl_provider.specs.Table.{TableView};
    ghost use Rattle.ossl_provider.specs.Sheet.{IsSheet};

    ghost Value = { TableView };

    ghost view = { λ t. record {
      name = t.name;
      rows = t.rows.items;
      least_key = t.least_key;
      up = t.up.items;
      starts = t.starts;
    } };

    ghost invariant = { λ t. (65536 ≤ vec_capacity t.up)
        × IsSheet (record { up = t.up.items; starts = t.starts; faults = 0 }) };
}

impl TableProvider {
    /// A provider with these rows and no instance up. It admits HMAC and HKDF with keys of `least_key`
    /// bytes or more, and every other code with any key or none; `least_key` 0 admits everything, and 14
    /// is the 112 bits that SP 800-131A asks of a key. It reserves its 65,536 places.
    pub fn new(
        alloc: Global,
        name: Text,
        rows: Vec<TableRow>,
        least_key: u64,
    ) -> Result<TableProvider, AllocError>
        ensures made { IfOk result (λ table. table ≡ record {
          name = name;
          rows = rows.items;
          least_key = least_key;
          up = [];
          starts = 0;
        }) }
    {
        Ok(TableProvider {
            name,
            rows,
            least_key,
            up: Vec::with_capacity(alloc, PLACES)?,
            starts: 0,
        })
    }
}

impl Provider for TableProvider {
    ghost use Rattle.ossl_provider.specs.Table.{table_facts, table_sheet};

    ghost facts = { table_facts };

    ghost sheet = { table_sheet };

    fn name(&self) -> &[u8] {
        self.name.as_slice()
    }

    fn row_count(&self) -> usize {
        self.rows.len()
    }

    fn row_names(&self, index: usize) -> &[u8] {
        self.rows[index].names.as_slice()
    }

    fn row_definition(&self, index: usize) -> &[u8] {
        self.rows[index].definition.as_slice()
    }

    fn row_code(&self, index: usize) -> Code {
        self.rows[index].code
    }

    fn admits(&self, code: Code, key_len: u64) -> bool {
        match code {
            Code::Hmac | Code::Hkdf => key_len >= self.least_key,
            _ => true,
        }
    }

    fn start(&mut self, instance: u64) -> Result<(), Refused> {
        self.up.push_reserved(instance);
        self.starts += 1;
        Ok(())
    }

    fn stop(&mut self, instance: u64) {
        take_out(&mut self.up, instance);
    }

    fn faults(&self) -> u64 {
        let _ = &self.up;
        0
    }
}

/// Takes a number out of a list. The room of the list stays.
fn take_out(numbers: &mut Vec<u64>, number: u64)
    ensures numbers { numbers.new.items ≡ without number numbers.old.items }
    ensures room { vec_capacity numbers.new ≡ vec_capacity numbers.old }
{
    numbers.retain(|other| *other != number);
}
