//! What is printed of a line, and what a caller holds.

use ossl_base::text::{Bytes, Text};
use ossl_op::{BeginRefused, FinishRefused};
use ossl_script::{Held, Next, Outcome, TokenKind};
use ossl_state::{Call, Reply};
use std::test::Fail;

// Each sort of result once, in its printed form.
#[test]
fn results_are_printed(rt: HostRuntime) -> Result<(), Fail> {
    let alloc = rt.alloc();
    let bytes = Bytes::of(Vec::from_slice(alloc, &[0, 255])?);
    let name = Text::of(Vec::from_slice(alloc, b"A")?);
    let mut out = Vec::new(alloc);
    Outcome::of(Reply::Done).put(alloc, &mut out)?;
    Outcome::of(Reply::NoLib).put(alloc, &mut out)?;
    Outcome::Finished { bytes }.put(alloc, &mut out)?;
    Outcome::NotLoaded { name }.put(alloc, &mut out)?;
    let refusal = BeginRefused::KeyLength { got: 15 };
    Outcome::NotBegun { refusal }.put(alloc, &mut out)?;
    let refusal = FinishRefused::WrongFinalBlock { rest: 15 };
    Outcome::NotFinished { refusal }.put(alloc, &mut out)?;
    let text =
        "okerror no contextok 00fferror not loaded Aerror key length 15error wrong final block 15";
    assert_eq!(rt; out.as_slice(), text.as_bytes());
    Ok(())
}

// A method is handed out, and the call that gives it back names it.
#[test]
fn a_token_is_handed_out_and_given_back(rt: HostRuntime) -> Result<(), Fail> {
    let up_ref = Call::UpRef { handle: 2 };
    let held = Held::handed_out(&up_ref, &Reply::Made { number: 7 }).ok_or("none")?;
    assert_eq!(rt;
        held,
        Held {
            number: 7,
            kind: TokenKind::Method
        }
    );
    assert!(rt; matches!(held.give_back(), Call::Free { handle: 7 }));
    let next = Next::Call {
        line: 1,
        call: up_ref,
    };
    assert!(rt; matches!(next.call(), Some(Call::UpRef { handle: 2 })));
    assert!(rt; Next::End.call().is_none());
    Ok(())
}
