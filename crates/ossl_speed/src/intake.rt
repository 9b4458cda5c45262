ghost use Rattle.std.specs.Prelude.{◌≡◌, ℕ, List, [], ◌++◌, OnOk};
ghost use Rattle.ossl_speed.specs.Message.{message};

use crate::message::{PIECE, front};
use ossl_aes::Block;
use ossl_cmac::Cmac;
use ossl_digests::Digester;
use ossl_hmac::Hmac;
use std::alloc::AllocError;

/// What takes a message in by pieces.
pub trait Intake {
    // How it may stand after some bytes, by how it stood before them.
    ghost fed: { Self → List ℕ → Self → Type 0 };

    /// Takes a piece in.
    fn take_piece(&mut self, bytes: &[u8]) -> Result<(), AllocError>
        ensures { OnOk result (fed self.old bytes.now self.new) };

    // No bytes change nothing.
    ghost nothing: { (a : Self) → fed a [] a };

    // Two pieces are as good as both joined.
    ghost joined: { (a b c : Self) (x y : List ℕ) → fed a x b → fed b y c → fed a (x ++ y) c };
}

/// Takes in the message of so many bytes, whose pieces are all as the given one.
pub fn take_message<I: Intake>(
    intake: &mut I,
    piece: &[u8],
    length: usize,
) -> Result<(), AllocError>
    requires { piece.now ≡ message PIECE }
    ensures { OnOk result (I.fed intake.old (message length) intake.new) }
{
    for _i in 0..length / PIECE {
        intake.take_piece(piece)?;
    }
    intake.take_piece(front(piece, length % PIECE))
}

impl Intake for Digester {
    ghost use Rattle.ossl_speed.specs.Fed.{IsDigesterFed};
    ghost use Rattle.ossl_speed.specs.FedLaws.{digester-nothing, digester-joined};

    ghost fed = { IsDigesterFed };

    ghost nothing = { digester-nothing };

    ghost joined = { digester-joined };

    #[inline(always)]
    fn take_piece(&mut self, bytes: &[u8]) -> Result<(), AllocError> {
        self.feed(bytes);
        Ok(())
    }
}

impl Intake for Hmac {
    ghost use Rattle.ossl_speed.specs.Fed.{IsHmacFed};
    ghost use Rattle.ossl_speed.specs.FedLaws.{hmac-nothing, hmac-joined};

    ghost fed = { IsHmacFed };

    ghost nothing = { hmac-nothing };

    ghost joined = { hmac-joined };

    #[inline(always)]
    fn take_piece(&mut self, bytes: &[u8]) -> Result<(), AllocError> {
        self.feed(bytes);
        Ok(())
    }
}

impl<C: Block> Intake for Cmac<C> {
    ghost use Rattle.ossl_speed.specs.Fed.{IsCmacFed};
    ghost use Rattle.ossl_speed.specs.FedLaws.{cmac-nothing, cmac-joined};

    ghost fed = { λ a x b. IsCmacFed a x b };

    ghost nothing = { λ a. cmac-nothing a };

    ghost joined = { λ a b c x y. cmac-joined a b c x y };

    #[inline(always)]
    fn take_piece(&mut self, bytes: &[u8]) -> Result<(), AllocError> {
        self.feed(bytes);
        Ok(())
    }
}

impl Intake for Vec<u8> {
    ghost use Rattle.ossl_speed.specs.Fed.{IsAppended};
    ghost use Rattle.ossl_speed.specs.FedLaws.{appended-nothing, appended-joined};

    ghost fed = { λ a x b. IsAppended a.items x b.items };

    ghost nothing = { λ a. appended-nothing a.items };

    ghost joined = { λ a b c x y. appended-joined a.items b.items c.items x y };

    fn take_piece(&mut self, bytes: &[u8]) -> Result<(), AllocError> {
        self.extend_from_slice(bytes)
    }
}
