//! The words of `activate`.

ghost use Rattle.std.specs.Prelude.{◌≡◌};
ghost use Rattle.ossl_conf.specs.Settings.{is_on};

/// Whether a word of `activate` is on (`1`, `yes`, `true`, `on`) or off (`0`, `no`, `false`, `off`), whatever its
/// case; `None` for any other word.
pub fn is_on(word: &[u8]) -> Option<bool>
    ensures { result ≡ is_on word.now }
{
    if word.eq_ignore_ascii_case(b"1")
        || word.eq_ignore_ascii_case(b"yes")
        || word.eq_ignore_ascii_case(b"true")
        || word.eq_ignore_ascii_case(b"on")
    {
        return Some(true);
    }
    if word.eq_ignore_ascii_case(b"0")
        || word.eq_ignore_ascii_case(b"no")
        || word.eq_ignore_ascii_case(b"false")
        || word.eq_ignore_ascii_case(b"off")
    {
        return Some(false);
    }
    None
}
