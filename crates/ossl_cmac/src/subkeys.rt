//! The subkeys and the last block (SP 800-38B, 6.1 and 6.2).

ghost use Rattle.std.specs.Prelude.{◌≡◌, ◌<◌, ◌-◌, ◌∷◌, ◌++◌, take, replicate};
ghost use Rattle.ossl_cmac.specs.Cmac.{shifted_left, next_subkey};

fn shifted_left(n: u128) -> u128
    ensures { result ≡ shifted_left n }
{
    if n < 0x8000_0000_0000_0000_0000_0000_0000_0000 {
        2 * n
    } else {
        n.wrapping_mul(2) ^ 0x87
    }
}

/// The subkey after a block.
pub fn next_subkey(b: [u8; 16]) -> [u8; 16]
    ensures { result ≡ next_subkey b }
{
    shifted_left(u128::from_be_bytes(b)).to_be_bytes()
}

/// The first bytes of a block, completed by 0x80 and zeros.
pub fn completed_block(block: [u8; 16], count: usize) -> [u8; 16]
    requires { count < 16 }
    ensures { result ≡ take count block ++ 0x80 ∷ replicate (15 - count) 0 }
{
    let mut last = block;
    last[count] = 0x80;
    for i in count + 1..16 {
        last[i] = 0;
    }
    last
}
