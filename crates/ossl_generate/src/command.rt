//! The command of a line, by the state of the generator. Where memory is refused, a part may be left behind.

ghost use Rattle.std.specs.Prelude.{◌≡◌, ◌+◌, ◌*◌, ◌%◌, ◌^◌, ◌++◌, OnOk};
ghost use Rattle.ossl_generate.specs.Generator.{aes_text, command_text, copies_text, data_text, hmac_text};
ghost use Rattle.ossl_generate.specs.Generator.{key_and_iv_text, md5_text, sha2_text};
ghost use Rattle.ossl_generate.specs.Generator.{byte_of, length_of, next_state, property_of};

use crate::digits::{put_byte, put_decimal};
use std::alloc::AllocError;

/// The state behind a state: a linear congruence modulo 2^64.
pub fn next_state(state: u64) -> u64
    ensures { result ≡ next_state state }
{
    state
        .wrapping_mul(6_364_136_223_846_793_005)
        .wrapping_add(1_442_695_040_888_963_407)
}

fn byte_of(state: u64) -> u8
    ensures { result ≡ byte_of state }
{
    (state >> 56) as u8
}

fn length_of(state: u64) -> u64
    ensures { result ≡ length_of state }
{
    (state >> 40) % 200
}

fn property_of(state: u64) -> u64
    ensures { result ≡ property_of state }
{
    (state >> 20) % 100
}

fn put_copies(out: &mut Vec<u8>, count: u64, state: u64) -> Result<(), AllocError>
    ensures { OnOk result (out.new.items ≡ out.old.items ++ copies_text count state) }
{
    out.extend_from_slice(b"rep:")?;
    put_decimal(out, count)?;
    out.extend_from_slice(b":")?;
    put_byte(out, byte_of(state))
}

fn put_data(out: &mut Vec<u8>, state: u64) -> Result<(), AllocError>
    ensures { OnOk result (out.new.items ≡ out.old.items ++ data_text state) }
{
    put_copies(out, length_of(state), state)
}

fn put_sha2(out: &mut Vec<u8>, state: u64) -> Result<(), AllocError>
    ensures { OnOk result (out.new.items ≡ out.old.items ++ sha2_text state) }
{
    out.extend_from_slice(b"dgst SHA2-256 ")?;
    put_data(out, state)?;
    out.extend_from_slice(b" : ?g")?;
    put_decimal(out, property_of(state))
}

fn put_md5(out: &mut Vec<u8>, state: u64) -> Result<(), AllocError>
    ensures { OnOk result (out.new.items ≡ out.old.items ++ md5_text state) }
{
    out.extend_from_slice(b"dgst MD5 ")?;
    put_data(out, state)
}

fn put_hmac(out: &mut Vec<u8>, state: u64) -> Result<(), AllocError>
    ensures { OnOk result (out.new.items ≡ out.old.items ++ hmac_text state) }
{
    out.extend_from_slice(b"mac HMAC digest=SHA2-256 key=")?;
    put_copies(out, 20, state)?;
    out.extend_from_slice(b" ")?;
    put_data(out, state)
}

fn put_key_and_iv(out: &mut Vec<u8>, state: u64) -> Result<(), AllocError>
    ensures { OnOk result (out.new.items ≡ out.old.items ++ key_and_iv_text state) }
{
    out.extend_from_slice(b"key=")?;
    put_copies(out, 16, state)?;
    out.extend_from_slice(b" iv=")?;
    put_copies(out, 16, state)
}

fn put_aes(out: &mut Vec<u8>, state: u64) -> Result<(), AllocError>
    ensures { OnOk result (out.new.items ≡ out.old.items ++ aes_text state) }
{
    out.extend_from_slice(b"enc AES-128-CTR ")?;
    put_key_and_iv(out, state)?;
    out.extend_from_slice(b" ")?;
    put_data(out, state)
}

/// Appends the command of a state.
pub fn put_command(out: &mut Vec<u8>, state: u64) -> Result<(), AllocError>
    ensures { OnOk result (out.new.items ≡ out.old.items ++ command_text state) }
{
    match (state >> 33) % 4 {
        0 => put_sha2(out, state),
        1 => put_md5(out, state),
        2 => put_hmac(out, state),
        _ => put_aes(out, state),
    }
}
