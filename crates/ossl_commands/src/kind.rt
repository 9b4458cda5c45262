//! Why a text is no batch.

ghost use Rattle.std.specs.Prelude.{◌≡◌};
ghost use Rattle.ossl_commands.specs.Judging.{refusal_at};
ghost use Rattle.ossl_commands.specs.Kind.{kind_word};
ghost use Rattle.ossl_commands.specs.declared.kind.LineRefused.{LineRefused};
ghost use Rattle.ossl_commands.specs.declared.kind.ScriptRefused.TheVariants.{NoMemory};

use std::alloc::{AllocError, AllocFailed};

/// What is wrong with a line: the first of these that applies.
#[derive(Clone, Copy, Debug, PartialEq, Eq)]
pub enum LineKind {
    /// A byte that no line may hold.
    Byte,
    /// The first word is no caller's number.
    Caller,
    /// There is no such command.
    Command,
    /// A word that must stand is missing or has a wrong form, or one stands that may not; the same of a query.
    Arguments,
    /// An option that is unknown to the command, repeated or excluded, or has a bad value.
    Option,
    /// A word that is no data, where the command takes data.
    Data,
}

impl LineKind {
    /// The word that an error line has for the kind.
    pub fn word(self) -> &'static str
        ensures word { result.now ≡ kind_word self }
    {
        match self {
            LineKind::Byte => "byte",
            LineKind::Caller => "caller",
            LineKind::Command => "command",
            LineKind::Arguments => "arguments",
            LineKind::Option => "option",
            LineKind::Data => "data",
        }
    }
}

/// Why a text is no batch.
#[derive(Clone, Copy, Debug, PartialEq, Eq)]
pub enum ScriptRefused {
    /// The first faulty line, counted from 1, and what is wrong with it.
    Line { number: u64, kind: LineKind },
    NoMemory,
}

impl<T: Drop> From<AllocFailed<T>> for ScriptRefused {
    ghost from_gives = { λ _ e. e ≡ NoMemory };

    fn from(_e: AllocFailed<T>) -> ScriptRefused {
        ScriptRefused::NoMemory
    }
}

impl From<AllocError> for ScriptRefused {
    ghost from_gives = { λ _ e. e ≡ NoMemory };

    fn from(_e: AllocError) -> ScriptRefused {
        ScriptRefused::NoMemory
    }
}

/// Why a line is no command.
#[derive(Clone, Copy)]
pub enum LineRefused {
    Faulty(LineKind),
    NoMemory,
}

impl LineRefused {
    /// Why a text is no batch whose line of this number was refused.
    pub fn at(self, number: u64) -> ScriptRefused
        ensures { result ≡ refusal_at number self }
    {
        match self {
            LineRefused::Faulty(kind) => ScriptRefused::Line { number, kind },
            LineRefused::NoMemory => ScriptRefused::NoMemory,
        }
    }
}

impl From<AllocError> for LineRefused {
    ghost from_gives = { λ _ e. e ≡ LineRefused.NoMemory };

    fn from(_e: AllocError) -> LineRefused {
        LineRefused::NoMemory
    }
}

impl<T: Drop> From<AllocFailed<T>> for LineRefused {
    ghost from_gives = { λ _ e. e ≡ LineRefused.NoMemory };

    fn from(_e: AllocFailed<T>) -> LineRefused {
        LineRefused::NoMemory
    }
}
