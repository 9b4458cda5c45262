use crate::{FinishRefused, ModeKind, run};
use ossl_aes::Aes;
use std::test::Fail;

// SP 800-38A, appendix F: the key of 128 bits and the plaintext.
const KEY: [u8; 16] = [
    0x2b, 0x7e, 0x15, 0x16, 0x28, 0xae, 0xd2, 0xa6, 0xab, 0xf7, 0x15, 0x88, 0x09, 0xcf, 0x4f, 0x3c,
];

const TEXT: [u8; 64] = [
    0x6b, 0xc1, 0xbe, 0xe2, 0x2e, 0x40, 0x9f, 0x96, 0xe9, 0x3d, 0x7e, 0x11, 0x73, 0x93, 0x17, 0x2a,
    0xae, 0x2d, 0x8a, 0x57, 0x1e, 0x03, 0xac, 0x9c, 0x9e, 0xb7, 0x6f, 0xac, 0x45, 0xaf, 0x8e, 0x51,
    0x30, 0xc8, 0x1c, 0x46, 0xa3, 0x5c, 0xe4, 0x11, 0xe5, 0xfb, 0xc1, 0x19, 0x1a, 0x0a, 0x52, 0xef,
    0xf6, 0x9f, 0x24, 0x45, 0xdf, 0x4f, 0x9b, 0x17, 0xad, 0x2b, 0x41, 0x7b, 0xe6, 0x6c, 0x37, 0x10,
];

const IV: [u8; 16] = [
    0x00, 0x01, 0x02, 0x03, 0x04, 0x05, 0x06, 0x07, 0x08, 0x09, 0x0a, 0x0b, 0x0c, 0x0d, 0x0e, 0x0f,
];

// The examples there: the mode, the initial value and the ciphertext's four blocks.
macro_rules! examples {
    ($($kind:ident $iv:literal: $($block:literal)*;)*) => {
        [$((ModeKind::$kind, $iv, [$($block),*])),*]
    };
}

const EXAMPLES: [(ModeKind, u128, [u128; 4]); 5] = examples! {
    Ecb 0x0001_0203_0405_0607_0809_0a0b_0c0d_0e0f:
        0x3ad7_7bb4_0d7a_3660_a89e_caf3_2466_ef97
        0xf5d3_d585_03b9_699d_e785_895a_96fd_baaf
        0x43b1_cd7f_598e_ce23_881b_00e3_ed03_0688
        0x7b0c_785e_27e8_ad3f_8223_2071_0472_5dd4;
    Cbc 0x0001_0203_0405_0607_0809_0a0b_0c0d_0e0f:
        0x7649_abac_8119_b246_cee9_8e9b_12e9_197d
        0x5086_cb9b_5072_19ee_95db_113a_9176_78b2
        0x73be_d6b8_e3c1_743b_7116_e69e_2222_9516
        0x3ff1_caa1_681f_ac09_120e_ca30_7586_e1a7;
    Cfb 0x0001_0203_0405_0607_0809_0a0b_0c0d_0e0f:
        0x3b3f_d92e_b72d_ad20_3334_49f8_e83c_fb4a
        0xc8a6_4537_a0b3_a93f_cde3_cdad_9f1c_e58b
        0x2675_1f67_a3cb_b140_b180_8cf1_87a4_f4df
        0xc04b_0535_7c5d_1c0e_eac4_c66f_9ff7_f2e6;
    Ofb 0x0001_0203_0405_0607_0809_0a0b_0c0d_0e0f:
        0x3b3f_d92e_b72d_ad20_3334_49f8_e83c_fb4a
        0x7789_508d_1691_8f03_f53c_52da_c54e_d825
        0x9740_051e_9c5f_ecf6_4344_f7a8_2260_edcc
        0x304c_6528_f659_c778_66a5_10d9_c1d6_ae5e;
    Ctr 0xf0f1_f2f3_f4f5_f6f7_f8f9_fafb_fcfd_feff:
        0x874d_6191_b620_e326_1bef_6864_990d_b6ce
        0x9806_f66b_7970_fdff_8617_187b_b9ff_fdff
        0x5ae4_df3e_dbd5_d35e_5b4f_0902_0db0_3eab
        0x1e03_1dda_2fbe_03d1_7921_70a0_f300_9cee;
};

const KINDS: [ModeKind; 5] = [
    ModeKind::Ecb,
    ModeKind::Cbc,
    ModeKind::Cfb,
    ModeKind::Ofb,
    ModeKind::Ctr,
];

// The text of the pieces under the key of 128 bits.
fn text(
    rt: &HostRuntime,
    kind: ModeKind,
    iv: [u8; 16],
    decrypt: bool,
    pad: bool,
    pieces: &[&[u8]],
) -> Result<Vec<u8>, FinishRefused> {
    let cipher: Aes<4, 44> = Aes::expand(&KEY);
    let mut out = Vec::new(rt.alloc());
    run(cipher, kind, iv, decrypt, pad, pieces, &mut out)?;
    Ok(out)
}

// The bytes of four blocks.
fn bytes_of(blocks: [u128; 4]) -> [u8; 64] {
    let mut bytes = [0; 64];
    for i in 0..4usize {
        bytes[16 * i..16 * i + 16].copy_from_slice(&blocks[i].to_be_bytes());
    }
    bytes
}

#[test]
fn examples_of_the_standard(rt: HostRuntime) -> Result<(), Fail> {
    for (kind, iv, blocks) in EXAMPLES {
        let image = bytes_of(blocks);
        let there = text(&rt, kind, iv.to_be_bytes(), false, false, &[&TEXT])?;
        assert_eq!(rt; there.as_slice(), image.as_slice(), "{kind:?}");
        let back = text(&rt, kind, iv.to_be_bytes(), true, false, &[&image])?;
        assert_eq!(rt; back.as_slice(), TEXT.as_slice(), "{kind:?}");
    }
    Ok(())
}

// 48 bytes, cut at each two places, in each mode and direction, with padding and without. What is decrypted with padding
// was encrypted with it.
#[test]
fn cuts_change_nothing(rt: HostRuntime) -> Result<(), Fail> {
    for kind in KINDS {
        for (decrypt, pad) in [(false, false), (true, false), (false, true), (true, true)] {
            let input = if decrypt && pad {
                text(&rt, kind, IV, false, true, &[&TEXT[..40]])?
            } else {
                TEXT[..48].to_vec(rt.alloc())?
            };
            let bytes = input.as_slice();
            let whole = text(&rt, kind, IV, decrypt, pad, &[bytes])?;
            for end in 0..=bytes.len() {
                for start in 0..=end {
                    let pieces = [&bytes[..start], &bytes[start..end], &bytes[end..]];
                    let cut = text(&rt, kind, IV, decrypt, pad, &pieces)?;
                    assert_eq!(rt;
                        cut.as_slice(),
                        whole.as_slice(),
                        "{kind:?} {decrypt} {pad} {start} {end}"
                    );
                }
            }
        }
    }
    Ok(())
}

// Texts of 0 to 33 bytes there and back, and what is refused of them.
#[test]
fn lengths_and_refusals(rt: HostRuntime) -> Result<(), Fail> {
    for kind in KINDS {
        let stream = !matches!(kind, ModeKind::Ecb | ModeKind::Cbc);
        for n in 0..=33usize {
            let plain = &TEXT[..n];
            let rest = n as u64 % 16;
            let padded = text(&rt, kind, IV, false, true, &[plain])?;
            assert_eq!(rt; padded.len(), if stream { n } else { n + 16 - n % 16 });
            let back = text(&rt, kind, IV, true, true, &[padded.as_slice()])?;
            assert_eq!(rt; back.as_slice(), plain, "{kind:?} {n}");
            for decrypt in [false, true] {
                let bare = text(&rt, kind, IV, decrypt, false, &[plain]);
                if stream || rest == 0 {
                    assert_eq!(rt; bare?.len(), n);
                } else {
                    assert_eq!(rt;
                        bare.err(),
                        Some(FinishRefused::WrongFinalBlock { rest }),
                        "{kind:?} {n}"
                    );
                }
            }
            if !stream && (rest != 0 || n == 0) {
                let short = text(&rt, kind, IV, true, true, &[plain]);
                assert_eq!(rt;
                    short.err(),
                    Some(FinishRefused::WrongFinalBlock { rest }),
                    "{kind:?} {n}"
                );
            }
        }
    }
    Ok(())
}

// A block that decrypts to 00112233445566778899aabbccddeeff before the IV, with a key of 192 bits: which of its last
// bytes are a padding depends on the IV. Fifteen bytes and none are no whole block.
#[test]
fn paddings(rt: HostRuntime) -> Result<(), Fail> {
    let key = 0x0001_0203_0405_0607_0809_0a0b_0c0d_0e0f_u128.to_be_bytes();
    let block = 0xdda9_7ca4_864c_dfe0_6eaf_70a0_ec0d_7191_u128.to_be_bytes();
    let plain = 0x0011_2233_4455_6677_8899_aabb_ccdd_eeff_u128.to_be_bytes();
    let mut long = [0; 24];
    long[..16].copy_from_slice(&key);
    long[16..].copy_from_slice(&0x1011_1213_1415_1617_u64.to_be_bytes());
    let bytes: &[u8] = &block;
    let zeros: &[u8] = &[0; 15];
    for (iv, data, wanted) in [
        (0xfe, bytes, Ok(15)),
        (0xecfd, bytes, Ok(14)),
        (0x1001_3223_5445_7667_9889_baab_dccd_feef, bytes, Ok(0)),
        (0, bytes, Err(FinishRefused::BadDecrypt)),
        (0xff, bytes, Err(FinishRefused::BadDecrypt)),
        (0xee, bytes, Err(FinishRefused::BadDecrypt)),
        (0xfd, bytes, Err(FinishRefused::BadDecrypt)),
        (0, zeros, Err(FinishRefused::WrongFinalBlock { rest: 15 })),
        (0, &[], Err(FinishRefused::WrongFinalBlock { rest: 0 })),
    ] {
        let cipher: Aes<6, 52> = Aes::expand(&long);
        let iv: u128 = iv;
        let mut out = Vec::new(rt.alloc());
        let ended = run(
            cipher,
            ModeKind::Cbc,
            iv.to_be_bytes(),
            true,
            true,
            &[data],
            &mut out,
        );
        assert_eq!(rt; ended.map(|()| out.len()), wanted, "{iv:x}");
        if let Ok(n) = wanted {
            assert!(rt; n <= 16);
            assert_eq!(rt; out.as_slice(), &plain[..n]);
        } else {
            assert_eq!(rt; out.len(), 0);
        }
    }
    Ok(())
}

// The counter goes on from the block of ones to zero.
#[test]
fn counter_wraps(rt: HostRuntime) -> Result<(), Fail> {
    let cipher: Aes<8, 60> = Aes::expand(&[0; 32]);
    let mut out = Vec::new(rt.alloc());
    run(
        cipher,
        ModeKind::Ctr,
        [0xff; 16],
        false,
        false,
        &[&[0; 48]],
        &mut out,
    )?;
    assert_eq!(rt; out.len(), 48);
    let tail = [
        0xdc95_c078_a240_8989_ad48_a214_9284_2087_u128.to_be_bytes(),
        0x530f_8afb_c745_36b9_a963_b4f1_c4cb_738b_u128.to_be_bytes(),
    ];
    assert_eq!(rt; &out[16..32], tail[0].as_slice());
    assert_eq!(rt; &out[32..48], tail[1].as_slice());
    Ok(())
}
