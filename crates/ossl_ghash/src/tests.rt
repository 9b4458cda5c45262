use crate::{HashKey, product};

// The hash subkey of AES-128 under the key of zeros (the GCM specification's test case 2).
const KEY: u128 = 0x66e9_4bd4_ef8a_2c3b_884c_fa59_ca34_2b2e;

#[test]
fn products(rt: HostRuntime) {
    for (x, wanted) in [
        (0u128, 0u128),
        (0x8000_0000_0000_0000_0000_0000_0000_0000, KEY),
        (
            0x0388_dace_60b6_a392_f328_c2b9_71b2_fe78,
            0x5e2e_c746_9170_6288_2c85_b068_5353_deb7,
        ),
    ] {
        assert_eq!(rt; product(x, KEY), wanted, "{x:x}");
        assert_eq!(rt; HashKey::new(KEY).product(x), wanted, "{x:x} by the table");
    }
}

#[test]
fn a_text(rt: HostRuntime) {
    let text = [
        0x03, 0x88, 0xda, 0xce, 0x60, 0xb6, 0xa3, 0x92, 0xf3, 0x28, 0xc2, 0xb9, 0x71, 0xb2, 0xfe,
        0x78, 0, 0, 0, 0, 0, 0, 0, 0, 0, 0, 0, 0, 0, 0, 0, 0x80,
    ];
    let key = HashKey::new(KEY);
    assert_eq!(rt;
        key.hash_text(0, &text),
        0xf38c_bb1a_d692_23dc_c345_7ae5_b6b0_f885
    );
    assert_eq!(rt;
        key.hash_blocks(0, &text),
        0xf38c_bb1a_d692_23dc_c345_7ae5_b6b0_f885
    );
}
