//! The first 16 bytes of a salted file.

ghost use Rattle.std.specs.Prelude.{◌≡◌, ◌≤◌, IfOk, IfErr};
ghost use Rattle.ossl_salted.specs.Header.{HasHeader, HasNone, salt_after};
ghost use Rattle.ossl_salted.specs.Outside.{reading};

use crate::end::End;
use ossl_base::Source;

/// The first 8 bytes of every salted file.
pub const MAGIC: [u8; 8] = *b"Salted__";

/// The salt of the file that the source gives. Its first 16 bytes are taken, or all where it has fewer.
pub fn read_header<S: Source>(source: &mut S) -> Result<[u8; 8], End>
    ensures salt { IfOk result (λ salt. HasHeader (S.left source.old) (S.left source.new) salt) }
    ensures none { IfErr result (λ end. HasNone (reading S.left S.faults source.old source.new) end) }
    ensures later { S.faults source.old ≤ S.faults source.new }
{
    let mut head = [0; 16];
    let mut count = 0;
    while count < 16 {
        match source.read(&mut head[count..]) {
            Ok(0) => return Err(End::Header),
            Ok(more) => count += more,
            Err(_) => return Err(End::Unread),
        }
    }
    salt_of(head)
}

// The salt of a header.
fn salt_of(head: [u8; 16]) -> Result<[u8; 8], End>
    ensures { result ≡ salt_after head }
{
    let Some(rest) = head.strip_prefix(&MAGIC) else {
        return Err(End::Header);
    };
    let mut salt = [0; 8];
    salt.copy_from_slice(rest);
    Ok(salt)
}
