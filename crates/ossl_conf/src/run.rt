//! Runs of bytes at the front of a text.

ghost use Rattle.std.specs.Prelude.{◌≡◌, ◌≤◌, ◌==◌, length, drop};
ghost use Rattle.std.specs.List.{after_first, before_first, prefix_len};
ghost use Rattle.ossl_conf.specs.Counted.{is_blank, past_blanks};
ghost use Rattle.ossl_conf.specs.Private.{in_class};

/// Classes of bytes.
#[derive(Clone, Copy)]
pub(crate) enum Class {
    /// A space or a tab.
    Blank,
    /// A letter, a digit or `_`.
    Word,
    /// Any byte but this one.
    Not(u8),
}

impl Class {
    fn contains(self, byte: u8) -> bool
        ensures { result ≡ in_class self byte }
    {
        match self {
            Class::Blank => is_blank(byte),
            Class::Word => byte.is_ascii_alphanumeric() || byte == b'_',
            Class::Not(other) => byte != other,
        }
    }
}

/// A space or a tab.
pub(crate) fn is_blank(byte: u8) -> bool
    ensures { result ≡ is_blank byte }
{
    byte == b' ' || byte == b'\t'
}

/// How many bytes of the class stand at the front.
pub(crate) fn run_len(class: Class, text: &[u8]) -> usize
    ensures run { result ≡ prefix_len (in_class class) text.now }
    ensures within { result ≤ length text.now }
{
    for (at, byte) in text.iter().enumerate() {
        if !class.contains(*byte) {
            return at;
        }
    }
    text.len()
}

/// What stands behind so many bytes, or nothing where there are fewer.
pub(crate) fn past(count: usize, text: &[u8]) -> &[u8]
    ensures { result.now ≡ drop count text.now }
{
    &text[count.min(text.len())..]
}

/// The text without the blanks at its front.
pub(crate) fn past_blanks(text: &[u8]) -> &[u8]
    ensures { result.now ≡ past_blanks text.now }
{
    past(run_len(Class::Blank, text), text)
}

/// What stands before the first such byte, or all where there is none.
pub(crate) fn before_first(byte: u8, text: &[u8]) -> &[u8]
    ensures { result.now ≡ before_first (λ b. b == byte) text.now }
{
    &text[..run_len(Class::Not(byte), text)]
}

/// What stands behind the first such byte, or nothing where there is none.
pub(crate) fn after_first(byte: u8, text: &[u8]) -> &[u8]
    ensures { result.now ≡ after_first (λ b. b == byte) text.now }
{
    past(run_len(Class::Not(byte), text) + 1, text)
}
