//! Two callers, each of which is held back until the other has come as far.

use crate::meeting::{Hold, Meeting};
use crate::runs::run;
use std::test::Fail;

const BATCH: &[u8] = b"1 dgst SHA2-256 hex:616263\n2 dgst MD5\n";

/// Caller 1 begins when caller 2 has come to its second call, and caller 2 makes its third call when caller 1 has come
/// to its second.
const HOLDS: [Hold; 2] = [
    Hold {
        caller: 1,
        call: 1,
        other: 2,
        theirs: 2,
    },
    Hold {
        caller: 2,
        call: 3,
        other: 1,
        theirs: 2,
    },
];

const FIRST: &str = "1 2 fetch 0 digest MD5 []: ok default 1 7; start default 1";

const RESULTS: &str = "results 2\n\
    line 1 ok default ba7816bf8f01cfea414140de5dae2223b00361a396177a9cb410ff61f20015ad\n\
    line 2 ok default d41d8cd98f00b204e9800998ecf8427e\n";

/// The place of the line of an order that ends its call with these words, among all lines.
fn place_of(written: &str, call: &str) -> Option<usize> {
    written.lines().position(|line| line.contains(call))
}

#[test]
fn callers_meet_at_a_gate(rt: HostRuntime) -> Result<(), Fail> {
    let alloc = rt.alloc();
    let gate = Meeting::new(&rt, alloc, Vec::from_slice(alloc, &HOLDS)?)?;
    let (status, written) = run(&rt, alloc, BATCH, &gate)?;
    assert!(rt; !gate.was_in_vain());
    assert_eq!(rt; status, 0);
    let Ok(written) = str::from_utf8(written.as_slice()) else {
        return Err("not a text")?;
    };
    assert_eq!(rt; written.lines().next(), Some("order 9"));
    assert_eq!(rt; written.lines().nth(1), Some(FIRST));
    let (Some(fetched), Some(freed)) = (
        place_of(written, " 1 fetch 0 digest SHA2-256 []: ok default 1 0"),
        place_of(written, " 2 freectx "),
    ) else {
        return Err("a call is not in the order")?;
    };
    assert!(rt; fetched < freed);
    assert!(rt; written.ends_with(RESULTS));
    Ok(())
}
