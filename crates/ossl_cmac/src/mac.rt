//! A message's code: its start, its pieces, its end.

ghost use Rattle.std.specs.Prelude.{◌≡◌, ℕ, ◌*◌, ◌/◌, ◌%◌, List, [], ◌++◌, length};
ghost use Rattle.ossl_cmac.specs.Cmac.{cmac, chained};
ghost use Rattle.ossl_cmac.specs.Run.{mac_of};

use crate::state::{Chain, Cmac};
use crate::subkeys::{completed_block, next_subkey};
use ossl_aes::{Block, xor_blocks};
use ossl_blocks::{BlockTaker, Buffer};

// The chain over whole blocks, begun with the value.
fn chain_blocks<C: Block>(cipher: &C, value: &mut [u8; 16], bytes: &[u8])
    requires { length bytes.now % 16 ≡ 0 }
    ensures { value.new ≡ chained (C.enc cipher.now) (length bytes.now / 16) value.old bytes.now }
{
    'block: for i in 0..bytes.len() / 16 {
        let mut block = [0; 16];
        block.copy_from_slice(&bytes[16 * i..16 * i + 16]);
        let next = cipher.encrypt(xor_blocks(block, *value));
        *value = next;
    }
}

impl<C: Block> BlockTaker<16> for Chain<C> {
    ghost use Rattle.ossl_cmac.specs.Run.{HasChained};
    ghost use Rattle.ossl_cmac.specs.Laws.{chained_nothing};

    type Out = ();

    ghost has_room = { λ _ _. Unit {0} };

    ghost taken = { λ chain _ bytes after _. HasChained (C.enc chain.cipher) chain bytes after };

    fn take(&mut self, first: &[u8], rest: &[u8], _out: &mut ()) {
        chain_blocks(&self.cipher, &mut self.value, first);
        chain_blocks(&self.cipher, &mut self.value, rest);
    }

    ghost nothing = { λ chain _. chained_nothing (C.enc chain.cipher) chain };
}

impl<C: Block> Cmac<C> {
    /// The start of a message.
    pub fn new(cipher: C) -> Self
        ensures { (bytes : List ℕ) → mac_of result bytes ≡ cmac (C.enc cipher) bytes }
    {
        Cmac {
            chain: Chain {
                cipher,
                value: [0; 16],
            },
            buffer: Buffer::new(),
        }
    }

    /// Takes the next bytes of the message in.
    pub fn feed(&mut self, bytes: &[u8])
        // Whatever bytes come yet, the code of these bytes and them is what the new state makes of them.
        ensures { (rest : List ℕ) → mac_of self.old (bytes.now ++ rest) ≡ mac_of self.new rest }
    {
        self.buffer.feed(bytes, &mut self.chain, &mut ());
    }

    /// The code of all bytes fed.
    pub fn finish(self) -> [u8; 16]
        ensures { result ≡ mac_of self [] }
    {
        self.code()
    }

    /// The code of the bytes fed so far.
    pub fn code(&self) -> [u8; 16]
        ensures { result ≡ mac_of self.now [] }
    {
        let Chain { cipher, value } = &self.chain;
        let count = self.buffer.len();
        let held = *self.buffer.block();
        let subkey_1 = next_subkey(cipher.encrypt([0; 16]));
        let last = if count == 16 {
            xor_blocks(held, subkey_1)
        } else {
            xor_blocks(completed_block(held, count), next_subkey(subkey_1))
        };
        cipher.encrypt(xor_blocks(last, *value))
    }
}
