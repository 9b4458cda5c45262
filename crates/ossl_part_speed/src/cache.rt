use ossl_cache::{Kept, Key, QueryCache};
use ossl_codes::{Code, Operation};
use ossl_property::Query;
use std::alloc::{AllocError, Global};

/// A key of three clauses of the name with this number; `last` makes keys of one name differ in their last clause.
fn key(alloc: Global, number: u64, last: u64) -> Result<Key, AllocError> {
    let text = format!(in alloc; "fips=yes,?provider=default,?last={last}")?;
    let Ok(query) = Query::parse(alloc, text.as_bytes()) else {
        return Err(AllocError);
    };
    Ok(Key {
        op: Operation::Digest,
        number,
        query,
    })
}

/// The sum of the rows that so many questions are answered with, each for the key used longest ago, of so many keys: of
/// one name, or each of a name of its own.
pub fn recent_of(alloc: Global, one_name: bool, size: u64, count: u64) -> Result<u64, AllocError> {
    let mut cache = QueryCache::new(alloc)?;
    let mut keys = Vec::new(alloc);
    for row in 0..size {
        let (number, last) = if one_name { (1, row) } else { (row, 1) };
        cache.keep(
            key(alloc, number, last)?,
            Kept {
                instance: 1,
                row,
                code: Code::Md5,
            },
        );
        keys.push(key(alloc, number, last)?)?;
    }
    let mut sum = 0u64;
    let mut next = 0;
    for _question in 0..count {
        let Some(key) = keys.as_slice().get(next) else {
            return Ok(sum);
        };
        if let Some(kept) = cache.find(key) {
            sum = sum.wrapping_add(kept.row);
        }
        next = if next + 1 < keys.len() { next + 1 } else { 0 };
    }
    Ok(sum)
}
