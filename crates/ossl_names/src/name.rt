ghost use Rattle.std.specs.Prelude.{◌≡◌, IfOk, map};
ghost use Rattle.ossl_names.specs.Name.{names_in, is_name};

use std::alloc::{AllocError, Global};

/// The longest name, in bytes.
pub const LONGEST_NAME: usize = 99;

/// Whether bytes may be a name.
pub fn is_name(name: &[u8]) -> bool
    ensures { result ≡ is_name name.now }
{
    1 <= name.len()
        && name.len() <= LONGEST_NAME
        && name.iter().all(|byte| 33 <= *byte && *byte <= 126)
}

/// The names that a text joins by `:`.
pub fn names_in(alloc: Global, text: &[u8]) -> Result<Vec<&[u8]>, AllocError>
    ensures { IfOk result (λ names. map (λ name. name.now) names.items ≡ names_in text.now) }
{
    text.split(|byte| *byte == b':').collect(alloc)
}
