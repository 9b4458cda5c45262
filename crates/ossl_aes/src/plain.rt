//! The cipher written plainly, in loops over the field and with no table: the tests hold the tables against it.

ghost use Rattle.std.specs.Prelude.{◌≡◌, ◌*◌, ◌<◌, ◌≤◌, length};

pub fn double(b: u8) -> u8 {
    b.wrapping_mul(2) ^ if b < 128 { 0 } else { 0x1b }
}

pub fn mul(a: u8, b: u8) -> u8 {
    let mut sum = 0;
    let mut left = a;
    let mut right = b;
    for _ in 0u32..8 {
        if right % 2 != 0 {
            sum ^= left;
        }
        left = double(left);
        right /= 2;
    }
    sum
}

fn inverse(b: u8) -> u8 {
    let mut product = 1;
    for _ in 0u32..254 {
        product = mul(product, b);
    }
    product
}

pub fn sub(b: u8) -> u8 {
    let b = inverse(b);
    b ^ b.rotate_left(1) ^ b.rotate_left(2) ^ b.rotate_left(3) ^ b.rotate_left(4) ^ 0x63
}

pub fn unsub(b: u8) -> u8 {
    inverse(b.rotate_left(1) ^ b.rotate_left(3) ^ b.rotate_left(6) ^ 0x05)
}

fn sub_bytes(s: [u8; 16], back: bool) -> [u8; 16] {
    let mut changed = s;
    for i in 0..16usize {
        changed[i] = if back { unsub(s[i]) } else { sub(s[i]) };
    }
    changed
}

// Row r moves left by r places, or right.
fn shift_rows(s: [u8; 16], back: bool) -> [u8; 16] {
    let mut shifted = s;
    for c in 0..4usize {
        for r in 0..4usize {
            let from = if back { c + 4 - r } else { c + r };
            shifted[4 * c + r] = s[4 * (from % 4) + r];
        }
    }
    shifted
}

// Each column times the matrix with this first row.
fn mix_columns(s: [u8; 16], first: [u8; 4]) -> [u8; 16] {
    let mut mixed = [0; 16];
    for c in 0..4usize {
        for r in 0..4usize {
            let mut sum = 0;
            for k in 0..4usize {
                sum ^= mul(first[(k + 4 - r) % 4], s[4 * c + k]);
            }
            mixed[4 * c + r] = sum;
        }
    }
    mixed
}

fn add_round_key(s: [u8; 16], keys: &[u8; 240], round: usize) -> [u8; 16]
    requires { round < 15 }
{
    let mut sum = s;
    for i in 0..16usize {
        sum[i] ^= keys[16 * round + i];
    }
    sum
}

// The round keys, one after another.
fn expand(key: &[u8], nk: usize) -> [u8; 240]
    requires size { 4 ≤ nk }
    requires small { nk ≤ 8 }
    requires fits { length key.now ≡ 4 * nk }
{
    let mut keys = [0; 240];
    for i in 0..4 * nk {
        keys[i] = key[i];
    }
    let mut constant = 1;
    for i in nk..60 {
        let [a, b, c, d] = [
            keys[4 * i - 4],
            keys[4 * i - 3],
            keys[4 * i - 2],
            keys[4 * i - 1],
        ];
        let temp = if i % nk == 0 {
            [sub(b) ^ constant, sub(c), sub(d), sub(a)]
        } else if nk == 8 && i % nk == 4 {
            [sub(a), sub(b), sub(c), sub(d)]
        } else {
            [a, b, c, d]
        };
        if i % nk == 0 {
            constant = double(constant);
        }
        for r in 0..4usize {
            keys[4 * i + r] = keys[4 * (i - nk) + r] ^ temp[r];
        }
    }
    keys
}

pub fn encrypt(key: &[u8], nk: usize, block: [u8; 16]) -> [u8; 16]
    requires size { 4 ≤ nk }
    requires small { nk ≤ 8 }
    requires fits { length key.now ≡ 4 * nk }
{
    let keys = expand(key, nk);
    let mut s = add_round_key(block, &keys, 0);
    for round in 1..nk + 6 {
        let mixed = mix_columns(shift_rows(sub_bytes(s, false), false), [2, 3, 1, 1]);
        let next = add_round_key(mixed, &keys, round);
        s = next;
    }
    add_round_key(shift_rows(sub_bytes(s, false), false), &keys, nk + 6)
}

pub fn decrypt(key: &[u8], nk: usize, block: [u8; 16]) -> [u8; 16]
    requires size { 4 ≤ nk }
    requires small { nk ≤ 8 }
    requires fits { length key.now ≡ 4 * nk }
{
    let keys = expand(key, nk);
    let mut s = add_round_key(block, &keys, nk + 6);
    for round in 1..nk + 6 {
        let keyed = add_round_key(sub_bytes(shift_rows(s, true), true), &keys, nk + 6 - round);
        let next = mix_columns(keyed, [14, 11, 13, 9]);
        s = next;
    }
    add_round_key(sub_bytes(shift_rows(s, true), true), &keys, 0)
}
