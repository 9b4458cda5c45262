//! The padding of the last block: n bytes of value n (RFC 5652, 6.3).

ghost use Rattle.std.specs.Prelude.{◌≡◌, ◌-◌, ◌<◌, ◌≤◌, ◌++◌, length, take, drop, replicate, nat_eq, MatchOption};
ghost use Rattle.std.specs.List.{list_all};
ghost use Rattle.ossl_modes.specs.Modes.{unpadded_len};

use crate::kinds::FinishRefused;

// Whether each byte from the place on is n.
fn ends_in(block: &[u8], start: usize, n: u8) -> bool
    requires { start ≤ length block.now }
    ensures { result ≡ list_all (λ x. nat_eq x n) (drop start block.now) }
{
    block[start..].iter().all(|&x| x == n)
}

/// How many bytes of a last block are no padding; none where it does not end in one.
pub fn unpadded_len(block: &[u8; 16]) -> Option<usize>
    ensures { MatchOption result (unpadded_len block.now ≡ Err FinishRefused.BadDecrypt)
        (λ n. (unpadded_len block.now ≡ Ok n) × (n ≤ 16)) }
{
    let n = block[15];
    if n < 1 || n > 16 {
        return None;
    }
    let start = 16 - n as usize;
    if ends_in(block, start, n) {
        Some(start)
    } else {
        None
    }
}

/// The first bytes of a block, and their padding.
pub fn padded_block(block: [u8; 16], count: usize) -> [u8; 16]
    requires { count < 16 }
    ensures { result ≡ take count block ++ replicate (16 - count) (16 - count) }
{
    let n = 16 - count as u8;
    let mut last = block;
    for i in count..16 {
        last[i] = n;
    }
    last
}
