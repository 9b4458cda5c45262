ghost use Rattle.std.specs.Prelude.{◌≡◌, ◌<◌};

use ossl_codes::{Code, Operation};
use ossl_property::{Definition, Query, Steps};
use ossl_store::{Offered, Store};
use std::alloc::{AllocError, Global};
use std::sync::ledger::{Blank, Ledger};

/// How many rows have the name that is asked for.
const SAME: u64 = 4;

fn row(alloc: Global, row: u64) -> Result<Offered, AllocError> {
    let Ok(definition) = Definition::parse(alloc, b"provider=default,fips=no,input=any") else {
        return Err(AllocError);
    };
    Ok(Offered {
        op: Operation::Digest,
        number: if row < SAME { 1 } else { row },
        row,
        code: Code::Md5,
        definition,
    })
}

/// The sum of the rows that so many questions are answered with, of so many rows.
pub fn best_of<L: Ledger>(
    alloc: Global,
    blank: Blank,
    size: u64,
    count: u64,
) -> Result<u64, AllocError>
    requires name { blank.name ≡ L.name }
    requires parts { blank.parts ≡ L.parts }
    requires some { 0 < L.parts }
{
    let mut steps = Steps::<L>::new(blank);
    let Ok(query) = Query::parse(alloc, b"fips=no,?provider=default,?input=none") else {
        return Err(AllocError);
    };
    let mut rows = Vec::new(alloc);
    for place in 0..size {
        rows.push(row(alloc, place)?)?;
    }
    let mut store = Store::new(alloc);
    store.offer(1, 1, rows)?;
    let mut sum = 0u64;
    for _question in 0..count {
        if let Some((instance, row, _)) = store.best(Operation::Digest, 1, &query, &mut steps) {
            sum = sum.wrapping_add(instance).wrapping_add(row);
        }
    }
    Ok(sum)
}
