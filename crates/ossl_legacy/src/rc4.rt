ghost use Rattle.std.specs.Prelude.{◌≡◌, ℕ, ◌+◌, ◌%◌, ◌<◌, ◌↔◌, List, ◌++◌, IsOk, IfOk, IfErr, OnOk, OnErr, length};
ghost use Rattle.std.specs.Prelude.{slice_index, swap};
ghost use Rattle.std.specs.List.{range_with_len};
ghost use Rattle.ossl_legacy.specs.Rc4State.{IsKeyLength, first_of, key_byte, key_schedule, scheduled, text_of, rc4};

use std::alloc::AllocError;
use std::marker::Model;

// The values of a byte, and so the length of the table and the most bytes of a key.
const VALUES: usize = 256;

/// A key of `got` bytes, where RC4 takes 1 to 256.
#[derive(Clone, Copy, Debug, PartialEq, Eq)]
pub struct KeyLength {
    pub got: u64,
}

/// An RC4 stream. Encryption and decryption are the same.
#[derive(Drop)]
pub struct Rc4 {
    table: [u8; 256],
    i: u8,
    j: u8,
}

impl Model for Rc4 {
    ghost use Rattle.ossl_legacy.specs.Rc4State.{Rc4State};

    ghost Value = { Rc4State };

    ghost view = { λ r. record { table = r.table; i = r.i; j = r.j } };
}

// The table with which the key schedule begins.
fn ordered_table() -> [u8; 256]
    ensures { result ≡ range_with_len 0 256 }
{
    let mut table = [0u8; 256];
    for i in 0..VALUES {
        table[i] = i as u8;
    }
    table
}

// The place behind a place in a key, which begins anew behind its end.
#[inline(always)]
fn next_place(at: usize, len: usize) -> usize
    requires { at < len }
    ensures { result ≡ (at + 1) % len }
{
    let next = at + 1;
    if next == len { 0 } else { next }
}

// The table after the key schedule.
#[inline(never)]
fn scheduled_table(key: &[u8]) -> [u8; 256]
    requires { IsKeyLength (length key.now) }
    ensures { result ≡ (scheduled key.now 256).0 }
{
    let mut table = ordered_table();
    let mut j = 0u8;
    let mut at = 0;
    for i in 0..VALUES {
        j = j.wrapping_add(table[i]).wrapping_add(key[at]);
        table.swap(i, j as usize);
        at = next_place(at, key.len());
    }
    table
}

// Exchanges S[i], which is `first`, and S[j], and gives the key byte S[S[i] + S[j]], and S[i] of the byte after it.
// That one is read ahead, so that a processor need not wait for the exchange.
#[inline(always)]
fn exchange(table: &mut [u8; 256], i: u8, j: u8, first: u8) -> (u8, u8)
    requires { first ≡ slice_index table.old i }
    ensures exchanged { table.new ≡ swap table.old i j }
    ensures byte { result.0 ≡ key_byte (record { table = table.new; i = i; j = j }) }
    ensures ahead { result.1 ≡ first_of (record { table = table.new; i = i; j = j }) }
{
    let second = table[j as usize];
    let after = i.wrapping_add(1);
    let ahead = table[after as usize];
    table[i as usize] = second;
    table[j as usize] = first;
    let key_byte = table[first.wrapping_add(second) as usize];
    (key_byte, if j == after { first } else { ahead })
}

impl Rc4 {
    /// The stream of a key of 1 to 256 bytes. It takes no memory.
    pub fn new(key: &[u8]) -> Result<Self, KeyLength>
        ensures accepted { IsOk result ↔ IsKeyLength (length key.now) }
        ensures schedule { IfOk result (λ stream. stream ≡ key_schedule key.now) }
        ensures whole { IfOk result (λ stream. (bytes : List ℕ) → text_of stream bytes ≡ rc4 key.now bytes) }
        ensures refused { IfErr result (λ refusal. refusal.got ≡ length key.now) }
    {
        if key.is_empty() || key.len() > VALUES {
            return Err(KeyLength {
                got: key.len() as u64,
            });
        }
        Ok(Rc4 {
            table: scheduled_table(key),
            i: 0,
            j: 0,
        })
    }

    // Xors the next bytes of the key stream into the text. The indices are kept apart from the table meanwhile, so that
    // a processor need not read back what it has just stored.
    fn crypt(&mut self, text: &mut [u8])
        ensures text { text.new ≡ text_of self.old text.old }
        ensures goes_on { (rest : List ℕ)
            → text_of self.old (text.old ++ rest) ≡ text_of self.old text.old ++ text_of self.new rest }
    {
        let (mut i, mut j) = (self.i, self.j);
        let mut first = self.table[i.wrapping_add(1) as usize];
        for byte in text.iter_mut() {
            i = i.wrapping_add(1);
            j = j.wrapping_add(first);
            let (key_byte, ahead) = exchange(&mut self.table, i, j, first);
            *byte ^= key_byte;
            first = ahead;
        }
        self.i = i;
        self.j = j;
    }

    /// Appends the text of the bytes: each is xored with the next byte of the key stream. Where memory is refused, the
    /// stream and `out` are as they were.
    pub fn apply(&mut self, bytes: &[u8], out: &mut Vec<u8>) -> Result<(), AllocError>
        ensures appended { OnOk result (out.new.items ≡ out.old.items ++ text_of self.old bytes.now) }
        ensures goes_on { OnOk result
            ((rest : List ℕ) → text_of self.old (bytes.now ++ rest) ≡ text_of self.old bytes.now
            ++ text_of self.new rest) }
        ensures unchanged { OnErr result ((self.new ≡ self.old) × (out.new.items ≡ out.old.items)) }
    {
        let start = out.len();
        out.extend_from_slice(bytes)?;
        self.crypt(out.slice_mut(start..));
        Ok(())
    }
}
