//! How long a padded text is, and that CBC with padding brings it back.

ghost use Rattle.std.specs.Prelude.{◌≡◌, ◌+◌, ◌^◌, ◌<◌, ℕ, List, length};
ghost use Rattle.ossl_aes.specs.Inverse.{IsUndoneBy};
ghost use Rattle.ossl_modes.specs.Modes.{padded};
ghost use Rattle.ossl_modes.specs.Return.{AllComeBack};

/// The bytes of a text of `len` bytes with its padding, and so of what CBC makes of it (RFC 5652, 6.3). The law says
/// that decryption gives back what was encrypted, under every cipher whose decryption of a block undoes its encryption.
pub fn padded_len(len: u64) -> u64
    requires { len + 16 < 2 ^ 64 }
    ensures len { (text : List ℕ) → length text ≡ len → length (padded text) ≡ result }
    ensures law { (e d : List ℕ → List ℕ) → IsUndoneBy e d → AllComeBack e d }
{
    len + 16 - len % 16
}
