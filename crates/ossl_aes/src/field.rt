//! The field of FIPS 197.

ghost use Rattle.std.specs.Prelude.{◌≡◌, ◌<◌};
ghost use Rattle.ossl_aes.specs.Field.{mul, inverse};

use crate::rounds::sub;

/// The inverse of a byte that is not 0, in the field of 256 elements from which the S-box is made (FIPS 197, 4.2, 5.1.1
/// and 5.3.2): the byte times it is 1.
pub fn field_inverse(byte: u8) -> u8
    requires some { 0 < byte }
    ensures value { result ≡ inverse byte }
    ensures one { mul byte result ≡ 1 }
{
    let image = sub(byte);
    image.rotate_left(1) ^ image.rotate_left(3) ^ image.rotate_left(6) ^ 0x05
}
