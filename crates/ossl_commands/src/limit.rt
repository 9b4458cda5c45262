//! How much a run takes.

ghost use Rattle.std.specs.Prelude.{◌≡◌};
ghost use Rattle.ossl_commands.specs.Limit.{limit_word, most_of};

/// A quantity that has a limit, in the order in which passed limits are named.
#[derive(Clone, Copy, Debug, PartialEq, Eq)]
pub enum Limit {
    /// Bytes of the batch.
    Bytes,
    /// Lines of the batch, skipped ones too.
    Lines,
    /// The greatest caller's number.
    Callers,
    /// Library contexts, which are numbered from 0.
    Contexts,
    /// Bytes that one line declares: its data, key, iv, salt and info, and `len`.
    Line,
    /// Bytes that all lines declare.
    Total,
    /// Bytes of one file of data.
    File,
    /// Bytes of the configuration.
    Configuration,
}

impl Limit {
    /// The word that an error line has for the limit.
    pub fn word(self) -> &'static str
        ensures word { result.now ≡ limit_word self }
    {
        match self {
            Limit::Bytes => "bytes",
            Limit::Lines => "lines",
            Limit::Callers => "callers",
            Limit::Contexts => "contexts",
            Limit::Line => "line",
            Limit::Total => "total",
            Limit::File => "file",
            Limit::Configuration => "configuration",
        }
    }

    /// The greatest amount that does not pass the limit.
    pub fn most(self) -> u64
        ensures most { result ≡ most_of self }
    {
        match self {
            Limit::Bytes => 16_777_216,
            Limit::Lines => 65_536,
            Limit::Callers => 16,
            Limit::Contexts => 8,
            Limit::Line | Limit::File => 4_194_304,
            Limit::Total => 67_108_864,
            Limit::Configuration => 1_048_576,
        }
    }
}
