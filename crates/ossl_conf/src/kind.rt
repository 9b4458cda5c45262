//! The kinds of a line that cannot be read.

ghost use Rattle.std.specs.Prelude.{◌≡◌};
ghost use Rattle.ossl_conf.specs.Refused.{kind_text};

/// What is wrong with a line.
#[derive(Clone, Copy, Debug, PartialEq, Eq)]
pub enum ConfKind {
    /// A line that begins with `[` has no `]`, or no name before it.
    Bracket,
    /// A line begins with `.` and includes no file.
    Directive,
    /// A line has no `=`.
    Equals,
    /// The name before `=` is empty, or one of its two parts beside `::` is, or the name of an included file.
    Name,
    /// The value has more than 65,535 bytes.
    Length,
    /// All values that were set have more than 16,777,216 bytes together, those that were set again counted too.
    Growth,
    /// A file is included by the fourth of files that include each other.
    Depth,
}

impl ConfKind {
    /// The word by which a kind is named in an error line.
    pub fn word(self) -> &'static [u8]
        ensures { result.now ≡ kind_text self }
    {
        match self {
            ConfKind::Bracket => b"bracket",
            ConfKind::Directive => b"directive",
            ConfKind::Equals => b"equals",
            ConfKind::Name => b"name",
            ConfKind::Length => b"length",
            ConfKind::Growth => b"growth",
            ConfKind::Depth => b"depth",
        }
    }
}
