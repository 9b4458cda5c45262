//! Printed runs of which something is left out, each of which the reader must refuse.

use crate::reader::fault;
use crate::runs::run;
use crate::script::batch_text;
use ossl_worker::OpenGate;
use std::alloc::{AllocError, Global};
use std::test::Fail;

/// A text of which one line, the one behind so many others that have this part, is left without it and all that stands
/// behind it; and how many lines have it.
fn without(
    alloc: Global,
    text: &str,
    part: &str,
    others: u64,
) -> Result<(String, u64), AllocError> {
    let mut changed = String::new(alloc);
    let mut found = 0u64;
    for line in text.lines() {
        let kept = match line.split_once(part) {
            Some((before, _)) => {
                found = found.saturating_add(1);
                if found == others.saturating_add(1) {
                    before
                } else {
                    line
                }
            }
            None => line,
        };
        changed.push_str(kept)?;
        changed.push('\n')?;
    }
    Ok((changed, found))
}

#[test]
fn what_is_left_out_of_a_line_is_seen(rt: HostRuntime) -> Result<(), Fail> {
    let alloc = rt.alloc();
    let text = batch_text(alloc)?;
    let (status, written) = run(&rt, alloc, text.as_slice(), &OpenGate)?;
    assert_eq!(rt; status, 0);
    let Ok(written) = str::from_utf8(written.as_slice()) else {
        return Err("not a text")?;
    };
    assert_eq!(rt; fault(alloc, written)?, None);
    for part in ["; start ", "; stop ", " default", ": "] {
        let (_, found) = without(alloc, written, part, 0)?;
        assert!(rt; found > 0, "{part}");
        for others in 0..found {
            let (changed, _) = without(alloc, written, part, others)?;
            assert!(rt;
                fault(alloc, changed.as_str())?.is_some(),
                "{part} {others}"
            );
        }
    }
    Ok(())
}
