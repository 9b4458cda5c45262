use super::*;
use ossl_codes::{Code, Operation};
use ossl_property::Query;
use std::alloc::Global;
use std::test::Fail;

fn key(alloc: Global, op: Operation, number: u64, text: &[u8]) -> Result<Key, Fail> {
    match Query::parse(alloc, text) {
        Ok(query) => Ok(Key { op, number, query }),
        Err(_) => Err("no query".into()),
    }
}

fn kept(row: u64) -> Kept {
    Kept {
        instance: 1,
        row,
        code: Code::Md5,
    }
}

#[test]
fn keys_that_differ_in_one_part_are_apart(rt: HostRuntime) -> Result<(), Fail> {
    let alloc = rt.alloc();
    let table: [(Operation, u64, &[u8]); 12] = [
        (Operation::Digest, 1, b"fips=yes,?a=1"),
        (Operation::Cipher, 1, b"fips=yes,?a=1"),
        (Operation::Digest, 2, b"fips=yes,?a=1"),
        (Operation::Digest, 1, b"fip=yes,?a=1"),
        (Operation::Digest, 1, b"fips!=yes,?a=1"),
        (Operation::Digest, 1, b"-fips,?a=1"),
        (Operation::Digest, 1, b"fips='Yes',?a=1"),
        (Operation::Digest, 1, b"fips=yes,?a=2"),
        (Operation::Digest, 1, b"fips=yes,a=1"),
        (Operation::Digest, 1, b"fips=yes"),
        (Operation::Digest, 1, b"?a=1,fips=yes"),
        (Operation::Digest, 1, b"fips=yes,?a=1,b=1"),
    ];
    let mut cache = QueryCache::new(alloc)?;
    for (row, (op, number, text)) in table.iter().enumerate() {
        let asked = key(alloc, *op, *number, text)?;
        assert_eq!(rt; cache.find(&asked), None);
        cache.keep(asked, kept(row as u64));
    }
    for (row, (op, number, text)) in table.iter().enumerate() {
        assert_eq!(rt;
            cache.find(&key(alloc, *op, *number, text)?),
            Some(kept(row as u64))
        );
    }
    cache.drop_key(Operation::Digest, 1);
    assert_eq!(rt;
        cache.find(&key(alloc, Operation::Digest, 1, b"fips=yes")?),
        None
    );
    assert_eq!(rt;
        cache.find(&key(alloc, Operation::Digest, 2, b"fips=yes,?a=1")?),
        Some(kept(2))
    );
    cache.drop_answered(1);
    assert_eq!(rt;
        cache.find(&key(alloc, Operation::Digest, 2, b"fips=yes,?a=1")?),
        None
    );
    Ok(())
}

#[test]
fn the_65th_key_drops_the_one_used_longest_ago(rt: HostRuntime) -> Result<(), Fail> {
    let alloc = rt.alloc();
    let mut cache = QueryCache::new(alloc)?;
    for number in 0..65u64 {
        cache.keep(key(alloc, Operation::Digest, number, b"")?, kept(number));
    }
    assert_eq!(rt; cache.find(&key(alloc, Operation::Digest, 0, b"")?), None);
    assert_eq!(rt;
        cache.find(&key(alloc, Operation::Digest, 1, b"")?),
        Some(kept(1))
    );
    cache.keep(key(alloc, Operation::Mac, 0, b"")?, kept(65));
    assert_eq!(rt;
        cache.find(&key(alloc, Operation::Digest, 1, b"")?),
        Some(kept(1))
    );
    assert_eq!(rt; cache.find(&key(alloc, Operation::Digest, 2, b"")?), None);
    cache.flush();
    assert_eq!(rt; cache.find(&key(alloc, Operation::Mac, 0, b"")?), None);
    Ok(())
}
