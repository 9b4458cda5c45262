//! Blocks through a mode.

ghost use Rattle.std.specs.Prelude.{◌≡◌, ◌+◌, ◌*◌, ◌/◌, ◌%◌, ◌≤◌, ◌++◌, length, vec_len, vec_capacity};
ghost use Rattle.ossl_modes.specs.Modes.{block_out, block_next, blocks, value_after};
ghost use Rattle.ossl_modes.specs.Steps.{stepped, value_by};

use crate::kinds::ModeKind;
use crate::state::BlockMode;
use crate::step::{
    CbcDecryption, CbcEncryption, CfbDecryption, CfbEncryption, Ctr, EcbDecryption, EcbEncryption,
    Ofb, Step,
};
use ossl_aes::Block;
use ossl_blocks::BlockTaker;

/// Whole blocks through a mode in one direction, in place.
pub fn each_through<S: Step, C: Block>(cipher: &C, value: &mut [u8; 16], room: &mut [u8])
    requires whole { length room.old % 16 ≡ 0 }
    ensures gives { room.new
        ≡ stepped (S.out (C.enc cipher.now) (C.dec cipher.now)) (S.next (C.enc cipher.now)) (length room.old / 16)
        value.old room.old }
    ensures next { value.new
        ≡ value_by (S.out (C.enc cipher.now) (C.dec cipher.now)) (S.next (C.enc cipher.now)) (length room.old / 16)
        value.old room.old }
{
    'block: for i in 0..room.len() / 16 {
        S::step_in_place(cipher, value, &mut room[16 * i..16 * i + 16]);
    }
}

impl<C: Block> BlockMode<C> {
    /// A block through the mode. The mode itself stays at this block.
    pub fn through(&self, block: [u8; 16]) -> [u8; 16]
        ensures { result ≡ block_out (C.enc self.now.cipher) (C.dec self.now.cipher) self.now.kind self.now.decrypt
            self.now.value block }
    {
        let mut value = self.value;
        let cipher = &self.cipher;
        match (self.kind, self.decrypt) {
            (ModeKind::Ecb, false) => EcbEncryption::step(cipher, &mut value, block),
            (ModeKind::Ecb, true) => EcbDecryption::step(cipher, &mut value, block),
            (ModeKind::Cbc, false) => CbcEncryption::step(cipher, &mut value, block),
            (ModeKind::Cbc, true) => CbcDecryption::step(cipher, &mut value, block),
            (ModeKind::Cfb, false) => CfbEncryption::step(cipher, &mut value, block),
            (ModeKind::Cfb, true) => CfbDecryption::step(cipher, &mut value, block),
            (ModeKind::Ofb, _) => Ofb::step(cipher, &mut value, block),
            (ModeKind::Ctr, _) => Ctr::step(cipher, &mut value, block),
        }
    }

    // Whole blocks through the mode, in place. Each mode and direction has a loop of its own, so that no block asks
    // which it is.
    #[tactic(auto, using(crate::proofs::Turns::blocks_stepped, crate::proofs::Turns::value_stepped))]
    fn through_all(&mut self, room: &mut [u8])
        requires whole { length room.old % 16 ≡ 0 }
        ensures gives { room.new
            ≡ blocks (C.enc self.old.cipher) (C.dec self.old.cipher) self.old.kind self.old.decrypt
            (length room.old / 16) self.old.value room.old }
        ensures next { self.new ≡ record self.old {
          value = value_after (C.enc self.old.cipher) (C.dec self.old.cipher) self.old.kind self.old.decrypt
              (length room.old / 16) self.old.value room.old;
        } }
    {
        let (cipher, value) = (&self.cipher, &mut self.value);
        match (self.kind, self.decrypt) {
            (ModeKind::Ecb, false) => each_through::<EcbEncryption, C>(cipher, value, room),
            (ModeKind::Ecb, true) => each_through::<EcbDecryption, C>(cipher, value, room),
            (ModeKind::Cbc, false) => each_through::<CbcEncryption, C>(cipher, value, room),
            (ModeKind::Cbc, true) => each_through::<CbcDecryption, C>(cipher, value, room),
            (ModeKind::Cfb, false) => each_through::<CfbEncryption, C>(cipher, value, room),
            (ModeKind::Cfb, true) => each_through::<CfbDecryption, C>(cipher, value, room),
            (ModeKind::Ofb, _) => each_through::<Ofb, C>(cipher, value, room),
            (ModeKind::Ctr, _) => each_through::<Ctr, C>(cipher, value, room),
        }
    }
}

/// Appends the bytes, for which there is room.
pub fn append_within(out: &mut Vec<u8>, bytes: &[u8])
    requires { vec_len out.old + length bytes.now ≤ vec_capacity out.old }
    ensures items { out.new.items ≡ out.old.items ++ bytes.now }
    ensures len { vec_len out.new ≡ vec_len out.old + length bytes.now }
    ensures capacity { vec_capacity out.old ≤ vec_capacity out.new }
{
    match out.extend_from_slice(bytes) {
        Ok(()) => {}
        Err(_) => unreachable!(),
    }
}

impl<C: Block> BlockTaker<16> for BlockMode<C> {
    ghost use Rattle.ossl_modes.specs.Run.{HasGiven};
    ghost use Rattle.ossl_modes.specs.Laws.{given_nothing};

    type Out = Vec<u8>;

    ghost has_room = { λ out n. vec_len out + n ≤ vec_capacity out };

    ghost taken = { λ mode out bytes after new. HasGiven (C.enc mode.cipher) (C.dec mode.cipher) mode out.items bytes
        after new.items };

    // They are appended first, and then go through the mode where they stand.
    fn take(&mut self, first: &[u8], rest: &[u8], out: &mut Vec<u8>) {
        let start = out.len();
        append_within(out, first);
        append_within(out, rest);
        self.through_all(out.slice_mut(start..));
    }

    ghost nothing = { λ mode out. given_nothing (C.enc mode.cipher) (C.dec mode.cipher) mode out.items };
}
