//! What a code looks at: the parameters that it needs, and the direction.

ghost use Rattle.std.specs.Prelude.{◌≡◌, Contains, false};
ghost use Rattle.ossl_codes.specs.declared.param.Param.{Param as TheParam};
ghost use Rattle.ossl_op.specs.Laws.{IsPassedOver, IsUndirected, is_directed};
ghost use Rattle.ossl_op.specs.Tables.{needed};

use ossl_codes::{AesMode, Code, KdfMode, Param};

/// The parameters that a code needs before an operation may begin, in the order in which they are looked for. `mode` is
/// HKDF's, and no other code looks at it. Without a parameter that is not among them the operation begins and gives the
/// same.
#[tactic(auto, using(crate::proofs::CodeLaws::passed_over))]
pub fn needed(code: Code, mode: KdfMode) -> &'static [Param]
    ensures needed { result.now ≡ needed code mode }
    ensures passed_over { (which : TheParam) → ¬ Contains result.now which → IsPassedOver code mode which }
{
    match code {
        Code::Aes {
            mode: AesMode::Ecb,
            ..
        }
        | Code::Rc4 => &[Param::Key],
        Code::Aes { .. } | Code::ChaCha20 => &[Param::Key, Param::Iv],
        Code::Hmac | Code::Cmac => &[Param::Key, Param::Inner],
        Code::Hkdf => match mode {
            KdfMode::Extract => &[Param::Key, Param::Inner],
            KdfMode::Both | KdfMode::Expand => &[Param::Key, Param::Inner, Param::Len],
        },
        _ => &[],
    }
}

/// Whether encryption and decryption differ: in ECB, CBC and CFB. Every other operation gives the same in both
/// directions.
#[tactic(auto, using(crate::proofs::CodeLaws::undirected))]
pub fn is_directed(code: Code) -> bool
    ensures directed { result ≡ is_directed code }
    ensures undirected { result ≡ false → IsUndirected code }
{
    matches!(
        code,
        Code::Aes {
            mode: AesMode::Ecb | AesMode::Cbc | AesMode::Cfb,
            ..
        }
    )
}
