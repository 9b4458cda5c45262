//! What a caller owns of a batch: what the files hold.

ghost use Rattle.std.specs.Prelude.{◌≡◌, IfOk};

use ossl_base::text::Bytes;
use std::alloc::{AllocError, Global};

/// Copies of what the files hold, of each in its place, also of those that none of the caller's lines names.
pub fn own_contents(alloc: Global, contents: &[Bytes]) -> Result<Vec<Bytes>, AllocError>
    ensures { IfOk result (λ own. own.items ≡ contents.now) }
{
    let mut own = Vec::new(alloc);
    for content in contents {
        own.push(content.copy(alloc)?)?;
    }
    Ok(own)
}
