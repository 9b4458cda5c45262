use crate::Cmac;
use ossl_aes::Aes;

// SP 800-38B's example: the key of 128 bits and the message.
const KEY: [u8; 16] = [
    0x2b, 0x7e, 0x15, 0x16, 0x28, 0xae, 0xd2, 0xa6, 0xab, 0xf7, 0x15, 0x88, 0x09, 0xcf, 0x4f, 0x3c,
];

const MESSAGE: [u8; 64] = [
    0x6b, 0xc1, 0xbe, 0xe2, 0x2e, 0x40, 0x9f, 0x96, 0xe9, 0x3d, 0x7e, 0x11, 0x73, 0x93, 0x17, 0x2a,
    0xae, 0x2d, 0x8a, 0x57, 0x1e, 0x03, 0xac, 0x9c, 0x9e, 0xb7, 0x6f, 0xac, 0x45, 0xaf, 0x8e, 0x51,
    0x30, 0xc8, 0x1c, 0x46, 0xa3, 0x5c, 0xe4, 0x11, 0xe5, 0xfb, 0xc1, 0x19, 0x1a, 0x0a, 0x52, 0xef,
    0xf6, 0x9f, 0x24, 0x45, 0xdf, 0x4f, 0x9b, 0x17, 0xad, 0x2b, 0x41, 0x7b, 0xe6, 0x6c, 0x37, 0x10,
];

fn code(pieces: &[&[u8]]) -> u128 {
    let cipher: Aes<4, 44> = Aes::expand(&KEY);
    let mut cmac = Cmac::new(cipher);
    for piece in pieces {
        cmac.feed(piece);
    }
    u128::from_be_bytes(cmac.finish())
}

// The codes of the first bytes of the message (SP 800-38B's examples, RFC 4493).
#[test]
fn examples_of_the_standard(rt: HostRuntime) {
    for (n, wanted) in [
        (0usize, 0xbb1d_6929_e959_3728_7fa3_7d12_9b75_6746_u128),
        (16, 0x070a_16b4_6b4d_4144_f79b_dd9d_d04a_287c),
        (40, 0xdfa6_6747_de9a_e630_30ca_3261_1497_c827),
        (64, 0x51f0_bebf_7e3b_9d92_fc49_7417_7936_3cfe),
    ] {
        assert_eq!(rt; code(&[&MESSAGE[..n]]), wanted, "{n} bytes");
    }
}

// The first 40 and 48 bytes, cut at each two places.
#[test]
fn cuts_change_nothing(rt: HostRuntime) {
    for n in [40usize, 48] {
        let bytes = &MESSAGE[..n];
        let whole = code(&[bytes]);
        for end in 0..=bytes.len() {
            for start in 0..=end {
                assert_eq!(rt;
                    code(&[&bytes[..start], &bytes[start..end], &bytes[end..]]),
                    whole,
                    "{start} {end}"
                );
            }
        }
    }
}
