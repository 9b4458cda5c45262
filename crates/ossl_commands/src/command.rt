//! What a line of a batch says.

ghost use Rattle.std.specs.Prelude.{◌≡◌};

use ossl_base::text::{Bytes, Text};
use ossl_codes::{Direction, KdfMode, Operation};
use std::marker::Model;

/// The first word of a command.
#[derive(Clone, Copy, Debug, PartialEq, Eq)]
pub enum Verb {
    Load,
    Unload,
    Default,
    Fetch,
    UpRef,
    Free,
    Open,
    Feed,
    Finish,
    Close,
    CloseLib,
    Dgst,
    Mac,
    Enc,
    Kdf,
}

/// Bytes as a batch gives them.
#[derive(Drop)]
pub enum Data {
    /// `hex:` and digits, or `text:` and the bytes themselves.
    Bytes(Bytes),
    /// `rep:N:HH`: so many times this byte.
    Copies { count: u32, byte: u8 },
    /// `file:NAME`: what the file of this place among the files of the batch holds.
    File(u64),
}

/// A word behind the fixed words of a command.
#[derive(Drop)]
pub enum Argument {
    /// A piece of the data that the command feeds.
    Piece(Data),
    /// `retain`
    Retain,
    /// `lib=`, the number of a library context.
    Lib(u32),
    /// `digest=`, the name of an inner digest.
    Digest(Text),
    /// `cipher=`, the name of an inner cipher.
    Cipher(Text),
    /// `inner=`, the name that a method is bound to.
    Inner(Text),
    /// `key=`
    Key(Data),
    /// `iv=`
    Iv(Data),
    /// `dir=`
    Direction(Direction),
    /// `pad=`
    Pad(bool),
    /// `salt=`
    Salt(Data),
    /// `info=`
    Info(Data),
    /// `mode=`
    Mode(KdfMode),
    /// `len=`, a number of bytes.
    Len(u32),
}

/// The words behind the fixed words of a command, from the left; each option stands at most once.
#[derive(Drop)]
pub struct Arguments {
    arguments: Vec<Argument>,
}

impl Model for Arguments {
    ghost use Rattle.std.specs.Prelude.{List};
    ghost use Rattle.ossl_commands.specs.declared.command.Argument.{Argument};

    ghost Value = { List Argument };

    ghost view = { λ a. a.arguments.items };
}

impl Arguments {
    /// These words.
    pub fn of(arguments: Vec<Argument>) -> Arguments
        ensures arguments { result ≡ arguments.items }
    {
        Arguments { arguments }
    }

    /// The words, from the left.
    pub fn as_slice(&self) -> &[Argument]
        ensures arguments { result.now ≡ self.now }
    {
        self.arguments.as_slice()
    }
}

/// A command. A name is one that the caller binds to a token; `lib` is the number of a library context; a query is the
/// text behind `:`, which is read when the command runs, and empty where there is none.
#[derive(Drop)]
pub enum Command {
    /// Loads a provider and binds the activation; with `retain` the fallback stays armed.
    Load {
        lib: u32,
        provider: Text,
        name: Text,
        retain: bool,
    },
    /// Gives an activation back.
    Unload {
        name: Text,
    },
    /// Sets the default query.
    Default {
        lib: u32,
        query: Text,
    },
    /// Fetches a method and binds it.
    Fetch {
        lib: u32,
        operation: Operation,
        algorithm: Text,
        name: Text,
        query: Text,
    },
    /// Binds a second method of the same provider and code.
    UpRef {
        method: Text,
        name: Text,
    },
    /// Gives a method back.
    Free {
        name: Text,
    },
    /// Makes an operation context of a method, and binds it.
    Open {
        method: Text,
        name: Text,
        arguments: Arguments,
    },
    /// Feeds pieces of data to an operation context.
    Feed {
        name: Text,
        arguments: Arguments,
    },
    /// Finishes an operation, and prints all its bytes.
    Finish {
        name: Text,
    },
    /// Gives an operation context back.
    Close {
        name: Text,
    },
    /// Closes a library context.
    CloseLib {
        lib: u32,
    },
    /// A whole operation, from the fetch to its bytes: `dgst`, `mac`, `enc` or `kdf`.
    Perform {
        operation: Operation,
        algorithm: Text,
        arguments: Arguments,
        query: Text,
    },
}

/// A line that is a command.
#[derive(Drop)]
pub struct Line {
    /// Its number in the text, from 1; all lines are counted.
    pub number: u64,
    /// The caller that it belongs to, from 1.
    pub caller: u32,
    pub command: Command,
}
