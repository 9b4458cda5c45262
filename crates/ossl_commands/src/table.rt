//! The table of commands: words that stand for a value each, and what may stand behind the fixed words of a command.

ghost use Rattle.std.specs.Prelude.{◌≡◌, map};
ghost use Rattle.ossl_commands.specs.Words.{looked_up, operation_of};
ghost use Rattle.ossl_commands.specs.Table.{row_of, verb_of};

use crate::command::Verb;
use ossl_codes::Operation;

const VERBS: [(&str, Verb); 15] = [
    ("load", Verb::Load),
    ("unload", Verb::Unload),
    ("default", Verb::Default),
    ("fetch", Verb::Fetch),
    ("upref", Verb::UpRef),
    ("free", Verb::Free),
    ("open", Verb::Open),
    ("feed", Verb::Feed),
    ("finish", Verb::Finish),
    ("close", Verb::Close),
    ("closelib", Verb::CloseLib),
    ("dgst", Verb::Dgst),
    ("mac", Verb::Mac),
    ("enc", Verb::Enc),
    ("kdf", Verb::Kdf),
];

/// Whether a `:` and a query stand at the end of a line.
#[derive(Clone, Copy)]
pub enum Colon {
    Never,
    May,
    Must,
}

/// Which words other than options may stand behind the fixed words.
#[derive(Clone, Copy)]
pub enum Others {
    /// None.
    Nothing,
    /// `retain`, once.
    Retain,
    /// Data.
    Pieces,
    /// Data of which there is some.
    SomePieces,
}

/// What the table has for the word.
pub fn look_up<T: Copy>(table: &[(&str, T)], word: &[u8]) -> Option<T>
    ensures { result ≡ looked_up (map (λ row. (row.0.now, row.1)) table.now) word.now }
{
    for (text, value) in table {
        if text.as_bytes() == word {
            return Some(*value);
        }
    }
    None
}

impl Verb {
    /// The command of this word, if there is one.
    pub fn of(word: &[u8]) -> Option<Verb>
        ensures verb { result ≡ verb_of word.now }
    {
        look_up(&VERBS, word)
    }

    /// Whether a query stands behind its words.
    pub fn colon(self) -> Colon
        ensures colon { result ≡ (row_of self).colon }
    {
        match self {
            Verb::Default => Colon::Must,
            Verb::Fetch | Verb::Dgst | Verb::Mac | Verb::Enc | Verb::Kdf => Colon::May,
            _ => Colon::Never,
        }
    }

    /// Which words other than options may stand behind its fixed ones.
    pub fn others(self) -> Others
        ensures others { result ≡ (row_of self).others }
    {
        match self {
            Verb::Load => Others::Retain,
            Verb::Feed => Others::SomePieces,
            Verb::Dgst | Verb::Mac | Verb::Enc => Others::Pieces,
            _ => Others::Nothing,
        }
    }

    /// The names of its options.
    pub fn options(self) -> &'static [&'static str]
        ensures options { map (λ name. name.now) result.now ≡ (row_of self).options }
    {
        match self {
            Verb::Open => &[
                "inner", "key", "iv", "dir", "pad", "salt", "info", "mode", "len",
            ],
            Verb::Dgst => &["lib"],
            Verb::Mac => &["lib", "digest", "cipher", "key"],
            Verb::Enc => &["lib", "key", "iv", "dir", "pad"],
            Verb::Kdf => &["lib", "digest", "key", "salt", "info", "mode", "len"],
            _ => &[],
        }
    }
}

/// What a method is fetched for, by its word.
pub fn operation(word: &[u8]) -> Option<Operation>
    ensures operation { result ≡ operation_of word.now }
{
    look_up(
        &[
            ("digest", Operation::Digest),
            ("cipher", Operation::Cipher),
            ("mac", Operation::Mac),
            ("kdf", Operation::Kdf),
        ],
        word,
    )
}
