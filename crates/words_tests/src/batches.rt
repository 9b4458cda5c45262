//! Batches that are drawn from a seed, and the summary of one.

use ossl_generate::{Summary, generate, is_good, summary_text};
use std::test::Fail;

#[test]
fn a_batch_is_drawn_from_its_seed(rt: HostRuntime) -> Result<(), Fail> {
    let batches = [
        (
            1,
            7,
            1,
            "1 mac HMAC digest=SHA2-256 key=rep:20:7e rep:128:7e\n",
        ),
        (0, 7, 1, ""),
        (
            4,
            u64::MAX,
            3,
            "1 dgst SHA2-256 rep:191:bb : ?g25\n2 enc AES-128-CTR key=rep:16:b1 iv=rep:16:b1 rep:21:b1\n\
             3 dgst MD5 rep:14:8f\n1 mac HMAC digest=SHA2-256 key=rep:20:6b rep:0:6b\n",
        ),
        (
            3,
            0,
            2,
            "1 enc AES-128-CTR key=rep:16:14 iv=rep:16:14 rep:123:14\n2 dgst SHA2-256 rep:22:1a : ?g27\n\
             1 dgst MD5 rep:40:9a\n",
        ),
    ];
    for (lines, seed, callers, text) in batches {
        let batch = generate(rt.alloc(), lines, seed, callers)?;
        assert_eq!(rt;
            batch.as_slice(),
            text.as_bytes(),
            "{lines} {seed} {callers}"
        );
    }
    Ok(())
}

#[test]
fn a_summary_tells_its_run(rt: HostRuntime) -> Result<(), Fail> {
    let told = Summary {
        lines: 2,
        seed: u64::MAX,
        callers: 16,
        good: 1,
        entries: 7,
    };
    let results = "results 2\nline 1 ok default \
                   ba7816bf8f01cfea414140de5dae2223b00361a396177a9cb410ff61f20015ad\nline 2 error unsupported\n";
    let text = summary_text(rt.alloc(), &told, results.as_bytes())?;
    let wanted = "gen 2 18446744073709551615 callers 16\nlines 2 ok 1\nentries 7\n\
                  sha256 45869618c921e2bc5b5df312901189e1e317cfbd12ca1bc917514fd3374307ba\n";
    assert_eq!(rt; text.as_slice(), wanted.as_bytes());
    Ok(())
}

#[test]
fn good_results_begin_with_ok(rt: HostRuntime) -> Result<(), Fail> {
    for (text, good) in [
        ("ok", true),
        ("ok default", true),
        ("o", false),
        ("error ok", false),
        ("", false),
    ] {
        assert_eq!(rt; is_good(text.as_bytes()), good, "{text}");
    }
    Ok(())
}
