//! A provider whose starts and stops can be read while a registry has it.
use ossl_codes::Code;
use ossl_provider::TableProvider;
use ossl_provider::provider::{Provider, Refused};
use std::alloc::{AllocError, Global};
use std::sync::Arc;
use std::sync::atomic::{AtomicU64, Ordering};

/// How often a provider was started, and stopped.
#[derive(Drop)]
pub struct Counts {
    starts: AtomicU64,
    stops: AtomicU64,
}

impl Counts {
    pub fn none(alloc: Global) -> Result<Arc<Counts, Global>, AllocError> {
        let counts = Counts {
            starts: AtomicU64::new(0),
            stops: AtomicU64::new(0),
        };
        Ok(Arc::new(alloc, counts)?)
    }

    /// The starts and the stops so far.
    pub fn read(&self) -> (u64, u64) {
        (
            self.starts.load(Ordering::SeqCst),
            self.stops.load(Ordering::SeqCst),
        )
    }
}

/// A provider that counts its starts and stops.
#[derive(Drop)]
pub struct Counting {
    pub table: TableProvider,
    pub counts: Arc<Counts, Global>,
}

impl Provider for Counting {
    ghost use Rattle.ossl_provider.specs.Table.{table_facts, table_sheet};

    ghost facts = { λ c. table_facts c.table };

    ghost sheet = { λ c. table_sheet c.table };

    fn name(&self) -> &[u8] {
        self.table.name()
    }

    fn row_count(&self) -> usize {
        self.table.row_count()
    }

    fn row_names(&self, index: usize) -> &[u8] {
        self.table.row_names(index)
    }

    fn row_definition(&self, index: usize) -> &[u8] {
        self.table.row_definition(index)
    }

    fn row_code(&self, index: usize) -> Code {
        self.table.row_code(index)
    }

    fn admits(&self, code: Code, key_len: u64) -> bool {
        self.table.admits(code, key_len)
    }

    fn start(&mut self, instance: u64) -> Result<(), Refused> {
        self.counts.starts.fetch_add(1, Ordering::SeqCst);
        self.table.start(instance)
    }

    fn stop(&mut self, instance: u64) {
        self.counts.stops.fetch_add(1, Ordering::SeqCst);
        self.table.stop(instance)
    }

    fn faults(&self) -> u64 {
        self.table.faults()
    }
}
