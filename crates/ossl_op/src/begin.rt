//! How an operation begins.

ghost use Rattle.std.specs.Prelude.{◌≡◌, ◌⊎◌, ◌*◌, ℕ, List, true, IfOk, IfErr, OnOk, length};
ghost use Rattle.ossl_aes.specs.Cipher.{encrypted};
ghost use Rattle.ossl_aes.specs.State.{IsSize};
ghost use Rattle.ossl_cmac.specs.Cmac.{cmac};
ghost use Rattle.ossl_cmac.specs.Run.{mac_of};
ghost use Rattle.ossl_legacy.specs.Rc4State.{IsKeyLength};
ghost use Rattle.ossl_modes.specs.Run.{outcome_of, whole_blocks_of};
ghost use Rattle.ossl_op.specs.declared.params.BeginRefused.{BeginRefused as TheRefusal};
ghost use Rattle.ossl_op.specs.declared.params.Params.{Params as TheParams};
ghost use Rattle.ossl_op.specs.Begins.{begins, bytes_of};
ghost use Rattle.ossl_op.specs.Running.{IsWantOfMemory, Runs, RunsAlone, RunsOnCipher};
ghost use Rattle.ossl_op.specs.Standard.{aes_blocks, aes_outcome};
ghost use Rattle.ossl_codes.specs.Code.{operation_of};
ghost use Rattle.ossl_codes.specs.declared.code.Operation.{Operation};
ghost use Rattle.ossl_op.specs.Tables.{takes_inner, takes_iv};
ghost use Rattle.ossl_op.specs.Work.{begun};

use crate::context::{OpCtx, State};
use crate::derived::Derived;
use crate::judgement::{bytes_of, judge};
use crate::params::{BeginRefused, Params};
use crate::tables::{hash_of, hkdf_mode, inner_bits, inner_hash, is_decrypt, kind_of};
use ossl_aes::Aes;
use ossl_chacha::ChaCha;
use ossl_cmac::Cmac;
use ossl_codes::{AesMode, Bits, Code};
use ossl_digests::Digester;
use ossl_hkdf::hkdf;
use ossl_hmac::Hmac;
use ossl_legacy::Rc4;
use ossl_modes::Mode;
use std::alloc::Global;

impl OpCtx {
    /// An operation of this code that was fed nothing, or the first refusal in the order of `BeginRefused`. `inner` is
    /// the digest or cipher that a MAC or a key derivation runs on. It takes memory for HKDF alone: the bytes that it
    /// gives.
    #[inline(always)]
    pub fn begin(
        alloc: Global,
        code: Code,
        inner: Option<Code>,
        params: &Params,
    ) -> Result<OpCtx, BeginRefused>
        ensures refused { (refusal : TheRefusal) → begins code inner params.now ≡ Err refusal → result ≡ Err refusal }
        ensures good { OnOk result (begins code inner params.now ≡ Ok tt) }
        ensures begun { IfOk result (λ context. Runs context (begun code inner params.now)) }
        ensures memory { begins code inner params.now ≡ Ok tt → IfErr result (IsWantOfMemory code) }
    {
        judge(code, inner, params)?;
        // Each algorithm's beginning writes the whole answer where it is wanted, which a `return` passes on as it is:
        // as the value of the match it would be moved once more.
        match code {
            Code::Aes { bits, mode } => match bits {
                Bits::B128 => return begin_aes_128(mode, params),
                Bits::B192 => return begin_aes_192(mode, params),
                Bits::B256 => return begin_aes_256(mode, params),
            },
            Code::ChaCha20 => return begin_chacha(params),
            Code::Rc4 => return begin_rc4(params),
            Code::Hmac => return begin_hmac(inner, params),
            Code::Cmac => match inner_bits(inner) {
                Some(Bits::B128) => return begin_cmac_128(params),
                Some(Bits::B192) => return begin_cmac_192(params),
                Some(Bits::B256) => return begin_cmac_256(params),
                None => unreachable!(),
            },
            Code::Hkdf => return begin_hkdf(alloc, inner, params),
            Code::Sha1
            | Code::Sha224
            | Code::Sha256
            | Code::Sha384
            | Code::Sha512
            | Code::Sha512t224
            | Code::Sha512t256
            | Code::Md5
            | Code::Md4 => return begin_digest(code),
        }
    }
}

fn array_of<const N: usize>(bytes: &[u8]) -> [u8; N]
    requires { length bytes.now ≡ N }
    ensures { result ≡ bytes.now }
{
    let mut array = [0; N];
    array.copy_from_slice(bytes);
    array
}

#[inline(never)]
fn begin_digest(code: Code) -> Result<OpCtx, BeginRefused>
    requires { operation_of code ≡ Operation.Digest }
    ensures begun { IfOk result (λ context. (params : TheParams) → RunsAlone code params context) }
    ensures refused { IfErr result (IsWantOfMemory code) }
{
    let Some(hash) = hash_of(code) else {
        unreachable!()
    };
    let state = State::Digest(Digester::new(hash));
    Ok(OpCtx { state })
}

// The initial value; for ECB, which has no use for one, zeros.
fn initial_value(mode: AesMode, iv: &[u8]) -> [u8; 16]
    requires { takes_iv (Code.Aes Bits.B128 mode) (length iv.now) ≡ true }
    ensures { (mode ≡ AesMode.Ecb) ⊎ (result ≡ iv.now) }
{
    match mode {
        AesMode::Ecb => [0; 16],
        AesMode::Cbc | AesMode::Cfb | AesMode::Ofb | AesMode::Ctr => array_of(iv),
    }
}

#[inline(never)]
fn mode_of<const NK: usize, const WORDS: usize>(
    mode: AesMode,
    params: &Params,
) -> Mode<Aes<NK, WORDS>>
    requires size { IsSize NK WORDS }
    requires key { length (bytes_of params.now.key) ≡ 4 * NK }
    requires iv { takes_iv (Code.Aes Bits.B128 mode) (length (bytes_of params.now.iv)) ≡ true }
    ensures text { (bytes : List ℕ) → outcome_of result bytes ≡ aes_outcome NK mode params.now bytes }
    ensures unchecked { (bytes : List ℕ) → whole_blocks_of result bytes ≡ aes_blocks NK mode params.now bytes }
{
    let cipher = Aes::expand(bytes_of(&params.key));
    let iv = initial_value(mode, bytes_of(&params.iv));
    let decrypt = is_decrypt(params.direction);
    Mode::new(cipher, kind_of(mode), iv, decrypt, params.pad)
}

#[inline(never)]
fn begin_aes_128(mode: AesMode, params: &Params) -> Result<OpCtx, BeginRefused>
    requires key { length (bytes_of params.now.key) ≡ 16 }
    requires iv { takes_iv (Code.Aes Bits.B128 mode) (length (bytes_of params.now.iv)) ≡ true }
    ensures begun { IfOk result (RunsAlone (Code.Aes Bits.B128 mode) params.now) }
    ensures refused { IfErr result (IsWantOfMemory (Code.Aes Bits.B128 mode)) }
{
    let state = State::Aes128(mode_of(mode, params));
    Ok(OpCtx { state })
}

#[inline(never)]
fn begin_aes_192(mode: AesMode, params: &Params) -> Result<OpCtx, BeginRefused>
    requires key { length (bytes_of params.now.key) ≡ 24 }
    requires iv { takes_iv (Code.Aes Bits.B192 mode) (length (bytes_of params.now.iv)) ≡ true }
    ensures begun { IfOk result (RunsAlone (Code.Aes Bits.B192 mode) params.now) }
    ensures refused { IfErr result (IsWantOfMemory (Code.Aes Bits.B192 mode)) }
{
    let state = State::Aes192(mode_of(mode, params));
    Ok(OpCtx { state })
}

#[inline(never)]
fn begin_aes_256(mode: AesMode, params: &Params) -> Result<OpCtx, BeginRefused>
    requires key { length (bytes_of params.now.key) ≡ 32 }
    requires iv { takes_iv (Code.Aes Bits.B256 mode) (length (bytes_of params.now.iv)) ≡ true }
    ensures begun { IfOk result (RunsAlone (Code.Aes Bits.B256 mode) params.now) }
    ensures refused { IfErr result (IsWantOfMemory (Code.Aes Bits.B256 mode)) }
{
    let state = State::Aes256(mode_of(mode, params));
    Ok(OpCtx { state })
}

#[inline(never)]
fn begin_chacha(params: &Params) -> Result<OpCtx, BeginRefused>
    requires key { length (bytes_of params.now.key) ≡ 32 }
    requires iv { length (bytes_of params.now.iv) ≡ 16 }
    ensures begun { IfOk result (RunsAlone Code.ChaCha20 params.now) }
    ensures refused { IfErr result (IsWantOfMemory Code.ChaCha20) }
{
    let key = array_of(bytes_of(&params.key));
    let iv = array_of(bytes_of(&params.iv));
    let state = State::ChaCha20(ChaCha::new(key, iv));
    Ok(OpCtx { state })
}

#[inline(never)]
fn begin_rc4(params: &Params) -> Result<OpCtx, BeginRefused>
    requires { IsKeyLength (length (bytes_of params.now.key)) }
    ensures begun { IfOk result (RunsAlone Code.Rc4 params.now) }
    ensures refused { IfErr result (IsWantOfMemory Code.Rc4) }
{
    let Ok(stream) = Rc4::new(bytes_of(&params.key)) else {
        unreachable!()
    };
    let state = State::Rc4(stream);
    Ok(OpCtx { state })
}

#[inline(never)]
fn begin_hmac(inner: Option<Code>, params: &Params) -> Result<OpCtx, BeginRefused>
    requires { takes_inner Code.Hmac inner ≡ true }
    ensures begun { IfOk result (λ context. Runs context (begun Code.Hmac inner params.now)) }
    ensures refused { IfErr result (IsWantOfMemory Code.Hmac) }
{
    let Some(hash) = inner_hash(inner) else {
        unreachable!()
    };
    let state = State::Hmac(Hmac::new(hash, bytes_of(&params.key)));
    Ok(OpCtx { state })
}

fn cmac_of<const NK: usize, const WORDS: usize>(key: &[u8]) -> Cmac<Aes<NK, WORDS>>
    requires size { IsSize NK WORDS }
    requires key { length key.now ≡ 4 * NK }
    ensures { (bytes : List ℕ) → mac_of result bytes ≡ cmac (encrypted NK key.now) bytes }
{
    Cmac::new(Aes::expand(key))
}

#[inline(never)]
fn begin_cmac_128(params: &Params) -> Result<OpCtx, BeginRefused>
    requires { length (bytes_of params.now.key) ≡ 16 }
    ensures begun { IfOk result (RunsOnCipher Code.Cmac Bits.B128 params.now) }
    ensures refused { IfErr result (IsWantOfMemory Code.Cmac) }
{
    let state = State::Cmac128(cmac_of(bytes_of(&params.key)));
    Ok(OpCtx { state })
}

#[inline(never)]
fn begin_cmac_192(params: &Params) -> Result<OpCtx, BeginRefused>
    requires { length (bytes_of params.now.key) ≡ 24 }
    ensures begun { IfOk result (RunsOnCipher Code.Cmac Bits.B192 params.now) }
    ensures refused { IfErr result (IsWantOfMemory Code.Cmac) }
{
    let state = State::Cmac192(cmac_of(bytes_of(&params.key)));
    Ok(OpCtx { state })
}

#[inline(never)]
fn begin_cmac_256(params: &Params) -> Result<OpCtx, BeginRefused>
    requires { length (bytes_of params.now.key) ≡ 32 }
    ensures begun { IfOk result (RunsOnCipher Code.Cmac Bits.B256 params.now) }
    ensures refused { IfErr result (IsWantOfMemory Code.Cmac) }
{
    let state = State::Cmac256(cmac_of(bytes_of(&params.key)));
    Ok(OpCtx { state })
}

// HKDF works here already, so that its bytes are all that is kept, and no copy of the key.
#[inline(never)]
fn begin_hkdf(alloc: Global, inner: Option<Code>, params: &Params) -> Result<OpCtx, BeginRefused>
    requires { begins Code.Hkdf inner params.now ≡ Ok tt }
    ensures begun { IfOk result (λ context. Runs context (begun Code.Hkdf inner params.now)) }
    ensures refused { IfErr result (IsWantOfMemory Code.Hkdf) }
{
    let Some(hash) = inner_hash(inner) else {
        unreachable!()
    };
    let key = bytes_of(&params.key);
    let salt = bytes_of(&params.salt);
    let info = bytes_of(&params.info);
    let len = params.len.unwrap_or(0);
    let Ok(bytes) = hkdf(alloc, hkdf_mode(params.mode), hash, key, salt, info, len) else {
        return Err(BeginRefused::NoMemory);
    };
    let state = State::Hkdf(Derived { bytes });
    Ok(OpCtx { state })
}
