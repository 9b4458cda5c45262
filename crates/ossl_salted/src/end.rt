//! How a run ends.

ghost use Rattle.std.specs.Prelude.{◌≡◌};
ghost use Rattle.ossl_salted.specs.Ends.{status_of};

/// How a run ends.
#[derive(Clone, Copy)]
pub enum End {
    /// The input was read to its end and all was written.
    Done,
    /// The words are not in the command set.
    Usage,
    /// The input or the password's file could not be read.
    Unread,
    /// The output could not be written.
    Unwritten,
    /// The input is no salted file.
    Header,
    /// What was decrypted does not end in whole blocks and a padding.
    FinalBlock,
    /// The input or the password's file has too many bytes.
    TooLong,
    /// Memory was refused.
    NoMemory,
}

impl End {
    /// The status with which the program ends.
    pub fn status(self) -> u8
        ensures { result ≡ status_of self }
    {
        match self {
            End::Done => 0,
            End::Usage => 2,
            End::Unread => 3,
            End::Unwritten => 4,
            End::Header => 5,
            End::FinalBlock => 6,
            End::TooLong => 7,
            End::NoMemory => 9,
        }
    }
}
