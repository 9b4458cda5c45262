//! Scripts with the replies to their calls, and what comes of them.

use crate::work::{Answer, worked};
use ossl_codes::{AesMode, Bits, Code};
use ossl_commands::Script;
use std::test::Fail;

/// A batch, the replies to the calls of its caller, and what the caller does.
#[derive(Clone, Copy)]
struct Worked {
    batch: &'static [u8],
    answers: &'static [Answer],
    written: &'static [u8],
}

/// An HMAC with its inner method (RFC 4231, 4.3), from the case `hmac_in_steps`. Its method is left, and given back.
const HMAC_IN_STEPS: Worked = Worked {
    batch: b"1 fetch 0 mac HMAC M\n\
        1 fetch 0 digest SHA2-256 D\n\
        1 open M X inner=D key=text:Jefe\n\
        1 free D\n\
        1 feed X hex:7768617420646f2079612077616e7420 hex:666f72206e6f7468696e673f\n\
        1 finish X\n",
    answers: &[
        Answer::Fetched {
            number: 1,
            row: 24,
            code: Code::Hmac,
        },
        Answer::Fetched {
            number: 2,
            row: 0,
            code: Code::Sha256,
        },
        Answer::Made { number: 3 },
        Answer::Done,
    ],
    written: b"1 fetch 0 mac HMAC []\n\
        2 fetch 0 digest SHA2-256 []\n\
        3 newctx 1 2 4\n\
        4 free 2\n\
        freectx 3\n\
        free 1\n\
        line 1 ok default\n\
        line 2 ok default\n\
        line 3 ok\n\
        line 4 ok\n\
        line 5 ok\n\
        line 6 ok 5bdcc146bf60754e6a042426089575c75a003f089d2739839dec58b964ec3843\n",
};

/// A second method of the same row, which outlives the first, from the case `second_method`. Nothing is left.
const SECOND_METHOD: Worked = Worked {
    batch: b"1 fetch 0 digest SHA2-256 M\n\
        1 upref M N\n\
        1 free M\n\
        1 open N X\n\
        1 free N\n\
        1 feed X text:abc\n\
        1 finish X\n\
        1 close X\n",
    answers: &[
        Answer::Fetched {
            number: 1,
            row: 0,
            code: Code::Sha256,
        },
        Answer::Made { number: 2 },
        Answer::Done,
        Answer::Made { number: 4 },
        Answer::Done,
        Answer::Done,
    ],
    written: b"1 fetch 0 digest SHA2-256 []\n\
        2 upref 1\n\
        3 free 1\n\
        4 newctx 2 - 0\n\
        5 free 2\n\
        8 freectx 4\n\
        line 1 ok default\n\
        line 2 ok\n\
        line 3 ok\n\
        line 4 ok\n\
        line 5 ok\n\
        line 6 ok\n\
        line 7 ok ba7816bf8f01cfea414140de5dae2223b00361a396177a9cb410ff61f20015ad\n\
        line 8 ok\n",
};

const AES_128_CBC: Code = Code::Aes {
    bits: Bits::B128,
    mode: AesMode::Cbc,
};

/// Commands that are refused before their first call, behind a fetch, and by a reply, from the case `commands_refused`.
const REFUSED: Worked = Worked {
    batch: b"1 unload A\n\
        1 free M\n\
        1 enc AES-128-CBC key=rep:15:00 iv=rep:16:00\n\
        1 enc AES-128-CBC key=rep:15:00\n\
        1 mac CMAC digest=MD5 key=rep:16:00\n\
        1 dgst MD5 : a=1,b,A=2\n\
        1 load 0 nosuch P\n\
        1 load 0 default A\n\
        1 load 0 default A\n\
        1 fetch 0 cipher AES-128-CBC M\n\
        1 unload M\n\
        1 open M X key=rep:16:00 iv=rep:15:00\n\
        1 open M X key=rep:16:00 iv=rep:16:00\n\
        1 finish X\n\
        1 feed X text:abc\n",
    answers: &[
        Answer::Fetched {
            number: 1,
            row: 9,
            code: AES_128_CBC,
        },
        Answer::Done,
        Answer::Fetched {
            number: 3,
            row: 9,
            code: AES_128_CBC,
        },
        Answer::Done,
        Answer::Fetched {
            number: 5,
            row: 25,
            code: Code::Cmac,
        },
        Answer::Fetched {
            number: 6,
            row: 7,
            code: Code::Md5,
        },
        Answer::Done,
        Answer::Done,
        Answer::NoProvider,
        Answer::Loaded {
            number: 10,
            instance: 1,
        },
        Answer::Fetched {
            number: 11,
            row: 9,
            code: AES_128_CBC,
        },
        Answer::Made { number: 12 },
    ],
    written: b"3 fetch 0 cipher AES-128-CBC []\n\
        3 free 1\n\
        4 fetch 0 cipher AES-128-CBC []\n\
        4 free 3\n\
        5 fetch 0 mac CMAC []\n\
        5 fetch 0 digest MD5 []\n\
        5 free 6\n\
        5 free 5\n\
        7 load 0 nosuch\n\
        8 load 0 default\n\
        10 fetch 0 cipher AES-128-CBC []\n\
        13 newctx 11 - 16\n\
        freectx 12\n\
        free 11\n\
        unload 10\n\
        line 1 error not loaded A\n\
        line 2 error unknown M\n\
        line 3 error key length 15\n\
        line 4 error missing iv\n\
        line 5 error wrong inner\n\
        line 6 error query 7\n\
        line 7 error no provider\n\
        line 8 ok skipped 0\n\
        line 9 error bound A\n\
        line 10 ok default\n\
        line 11 error wrong kind M\n\
        line 12 error iv length 15\n\
        line 13 ok\n\
        line 14 ok 0143db63ee66b0cdff9f69917680151e\n\
        line 15 error wrong kind X\n",
};

/// A load that is refused leaves its name free, and one that is carried out does not (docs/manual/batch.md).
const NAME_LEFT_FREE: Worked = Worked {
    batch: b"1 load 0 nosuch A\n1 unload A\n1 load 0 default A\n1 load 0 nosuch A\n",
    answers: &[
        Answer::NoProvider,
        Answer::Loaded {
            number: 2,
            instance: 2,
        },
    ],
    written: b"1 load 0 nosuch\n\
        3 load 0 default\n\
        unload 2\n\
        line 1 error no provider\n\
        line 2 error not loaded A\n\
        line 3 ok skipped 0\n\
        line 4 error bound A\n",
};

/// What the lines leave is given back, the greatest number first, from the case `tokens_left`.
const TOKENS_LEFT: Worked = Worked {
    batch: b"1 load 0 default A\n\
        1 fetch 0 mac HMAC M\n\
        1 fetch 0 digest SHA2-256 D\n\
        1 open M X inner=D key=text:Jefe\n",
    answers: &[
        Answer::Loaded {
            number: 1,
            instance: 1,
        },
        Answer::Fetched {
            number: 2,
            row: 24,
            code: Code::Hmac,
        },
        Answer::Fetched {
            number: 3,
            row: 0,
            code: Code::Sha256,
        },
        Answer::Made { number: 4 },
    ],
    written: b"1 load 0 default\n\
        2 fetch 0 mac HMAC []\n\
        3 fetch 0 digest SHA2-256 []\n\
        4 newctx 2 3 4\n\
        freectx 4\n\
        free 3\n\
        free 2\n\
        unload 1\n\
        line 1 ok skipped 0\n\
        line 2 ok default\n\
        line 3 ok default\n\
        line 4 ok\n",
};

#[test]
fn calls_and_results_follow_the_replies(rt: HostRuntime) -> Result<(), Fail> {
    let alloc = rt.alloc();
    let scripts = [
        HMAC_IN_STEPS,
        SECOND_METHOD,
        REFUSED,
        NAME_LEFT_FREE,
        TOKENS_LEFT,
    ];
    for Worked {
        batch,
        answers,
        written,
    } in scripts {
        let script = Script::parse(alloc, batch).map_err(|_| "refused")?;
        let out = worked(alloc, &script, answers)?;
        assert_eq!(rt; out.as_slice(), written);
    }
    Ok(())
}
