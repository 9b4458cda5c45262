//! Sixteen callers that load, fetch, unload and close the same two library contexts, again and again.

use crate::meeting::{Hold, Meeting};
use crate::reader::fault;
use crate::runs::run;
use crate::script::{CALLERS, batch_text};
use std::alloc::{AllocError, Global};
use std::test::Fail;

const RUNS: u64 = 200;

/// Everybody's call of this number waits until all others have come to that one of theirs.
fn all_meet(holds: &mut Vec<Hold>, call: u64, theirs: u64) -> Result<(), AllocError> {
    for caller in 1..CALLERS + 1 {
        for other in 1..CALLERS + 1 {
            holds.push(Hold {
                caller,
                call,
                other,
                theirs,
            })?;
        }
    }
    Ok(())
}

/// All begin at once; and in every second run nobody comes to a fifth call, in which a library context may be closed,
/// before all have loaded and fetched.
fn holds_of(alloc: Global, run: u64) -> Result<Vec<Hold>, AllocError> {
    let mut holds = Vec::new(alloc);
    all_meet(&mut holds, 1, 1)?;
    if run % 2 == 1 {
        all_meet(&mut holds, 5, 3)?;
    }
    Ok(holds)
}

#[test]
fn each_printed_run_can_be_read_back(rt: HostRuntime) -> Result<(), Fail> {
    let alloc = rt.alloc();
    let text = batch_text(alloc)?;
    for number in 0..RUNS {
        let gate = Meeting::new(&rt, alloc, holds_of(alloc, number)?)?;
        let (status, written) = run(&rt, alloc, text.as_slice(), &gate)?;
        assert!(rt; !gate.was_in_vain());
        assert_eq!(rt; status, 0);
        let Ok(written) = str::from_utf8(written.as_slice()) else {
            return Err("not a text")?;
        };
        assert_eq!(rt; fault(alloc, written)?, None);
    }
    Ok(())
}
