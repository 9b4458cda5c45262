//! What comes of a command, and how it is printed.

ghost use Rattle.std.specs.Prelude.{◌≡◌, ◌++◌, OnOk, OnErr};
ghost use Rattle.ossl_script.specs.Outcome.{begin_text, bytes_text, finish_text, outcome_of, outcome_text};
ghost use Rattle.ossl_script.specs.Outcome.{parameter_text};

use ossl_base::digits::put_hex;
use ossl_base::text::{Bytes, Text};
use ossl_codes::Param;
use ossl_op::{BeginRefused, FinishRefused};
use ossl_state::put::put_numbered;
use ossl_state::{Reply, put_reply};
use std::alloc::{AllocError, Global};

/// What comes of a command.
#[derive(Drop)]
pub enum Outcome {
    /// It was carried out, and no more is said of it.
    Done,
    /// A provider was loaded; so many of its rows were left out.
    Loaded { skipped: u64 },
    /// A method of this provider was fetched.
    Fetched { provider: Text },
    /// An operation was finished, and gave these bytes.
    Finished { bytes: Bytes },
    /// A whole operation, by a method of this provider, gave these bytes.
    Performed { provider: Text, bytes: Bytes },
    /// The query text is outside the grammar; the place of its fault is counted from the byte behind the `:`.
    BadQuery { place: u64 },
    /// The name is not bound.
    UnknownName { name: Text },
    /// The name, of a provider that is to be unloaded, is not bound.
    NotLoaded { name: Text },
    /// The name is bound to something of another kind.
    WrongKind { name: Text },
    /// The name that is to be bound is bound already.
    Bound { name: Text },
    /// A call was refused, by this reply.
    Refused { reply: Reply },
    /// An operation may not begin.
    NotBegun { refusal: BeginRefused },
    /// An operation was refused at its end.
    NotFinished { refusal: FinishRefused },
}

impl Outcome {
    /// What comes of a command by the reply to its call, where the reply brings no more: the reply that refuses, or
    /// nothing more.
    pub fn of(reply: Reply) -> Outcome
        ensures outcome { result ≡ outcome_of reply }
    {
        match reply {
            Reply::NoLib
            | Reply::NoProvider
            | Reply::StartRefused { .. }
            | Reply::Unsupported
            | Reply::NotAdmitted => Outcome::Refused { reply },
            _ => Outcome::Done,
        }
    }

    /// Room for its text where that is long, and for some of it elsewhere.
    pub fn room(&self) -> usize {
        match self {
            Outcome::Done => 2,
            Outcome::Fetched { provider } => provider.as_slice().len().saturating_add(3),
            Outcome::Finished { bytes } => hex_room(bytes).saturating_add(3),
            Outcome::Performed { provider, bytes } => hex_room(bytes)
                .saturating_add(provider.as_slice().len())
                .saturating_add(4),
            _ => 24,
        }
    }

    /// Appends the result of a command, as it is printed.
    pub fn put(&self, alloc: Global, out: &mut Vec<u8>) -> Result<(), AllocError>
        ensures ok { OnOk result (out.new.items ≡ out.old.items ++ outcome_text self.now) }
        ensures err { OnErr result (out.new.items ≡ out.old.items) }
    {
        let mut text = Vec::new(alloc);
        put_outcome(alloc, &mut text, self)?;
        out.extend_from_slice(text.as_slice())
    }
}

/// Appends the result of a command, or a part of it where there is no memory for all.
pub fn put_outcome(alloc: Global, out: &mut Vec<u8>, outcome: &Outcome) -> Result<(), AllocError>
    ensures { OnOk result (out.new.items ≡ out.old.items ++ outcome_text outcome.now) }
{
    match outcome {
        Outcome::Done => put_word(out, b"ok"),
        Outcome::Loaded { skipped } => put_numbered(alloc, out, b"ok skipped ", *skipped),
        Outcome::Fetched { provider } => put_named(out, b"ok ", provider),
        Outcome::Finished { bytes } => {
            out.extend_from_slice(b"ok")?;
            put_bytes(alloc, out, bytes)
        }
        Outcome::Performed { provider, bytes } => {
            put_named(out, b"ok ", provider)?;
            put_bytes(alloc, out, bytes)
        }
        Outcome::BadQuery { place } => put_numbered(alloc, out, b"error query ", *place),
        Outcome::UnknownName { name } => put_named(out, b"error unknown ", name),
        Outcome::NotLoaded { name } => put_named(out, b"error not loaded ", name),
        Outcome::WrongKind { name } => put_named(out, b"error wrong kind ", name),
        Outcome::Bound { name } => put_named(out, b"error bound ", name),
        Outcome::Refused { reply } => {
            out.extend_from_slice(b"error ")?;
            put_reply(alloc, out, reply)
        }
        Outcome::NotBegun { refusal } => {
            out.extend_from_slice(b"error ")?;
            put_begin(alloc, out, *refusal)
        }
        Outcome::NotFinished { refusal } => {
            out.extend_from_slice(b"error ")?;
            put_finish(alloc, out, *refusal)
        }
    }
}

// How many digits bytes have in hexadecimal.
fn hex_room(bytes: &Bytes) -> usize {
    bytes.as_slice().len().saturating_mul(2)
}

// Appends a text.
fn put_word(out: &mut Vec<u8>, text: &[u8]) -> Result<(), AllocError>
    ensures { OnOk result (out.new.items ≡ out.old.items ++ text.now) }
{
    out.extend_from_slice(text)
}

// Appends a text and a name.
fn put_named(out: &mut Vec<u8>, text: &[u8], name: &Text) -> Result<(), AllocError>
    ensures { OnOk result (out.new.items ≡ out.old.items ++ (text.now ++ name.now)) }
{
    out.extend_from_slice(text)?;
    out.extend_from_slice(name.as_slice())
}

// Appends a space and the bytes in hexadecimal, where there are any.
fn put_bytes(alloc: Global, out: &mut Vec<u8>, bytes: &Bytes) -> Result<(), AllocError>
    ensures { OnOk result (out.new.items ≡ out.old.items ++ bytes_text bytes.now) }
{
    match bytes.as_slice() {
        [] => Ok(()),
        bytes => {
            out.extend_from_slice(b" ")?;
            put_hex(alloc, out, bytes)
        }
    }
}

fn parameter_name(which: Param) -> &'static [u8]
    ensures { result.now ≡ parameter_text which }
{
    match which {
        Param::Key => b"key",
        Param::Iv => b"iv",
        Param::Inner => b"inner",
        Param::Len => b"len",
    }
}

// Appends why an operation may not begin; want of memory is no result.
fn put_begin(alloc: Global, out: &mut Vec<u8>, refusal: BeginRefused) -> Result<(), AllocError>
    ensures { OnOk result (out.new.items ≡ out.old.items ++ begin_text refusal) }
{
    match refusal {
        BeginRefused::MissingParam { which } => {
            out.extend_from_slice(b"missing ")?;
            out.extend_from_slice(parameter_name(which))
        }
        BeginRefused::WrongInner => put_word(out, b"wrong inner"),
        BeginRefused::KeyLength { got } => put_numbered(alloc, out, b"key length ", got),
        BeginRefused::IvLength { got } => put_numbered(alloc, out, b"iv length ", got),
        BeginRefused::TooLong { limit } => put_numbered(alloc, out, b"too long ", limit),
        BeginRefused::NoMemory => Ok(()),
    }
}

// Appends why an operation was refused at its end; want of memory is no result.
fn put_finish(alloc: Global, out: &mut Vec<u8>, refusal: FinishRefused) -> Result<(), AllocError>
    ensures { OnOk result (out.new.items ≡ out.old.items ++ finish_text refusal) }
{
    match refusal {
        FinishRefused::WrongFinalBlock { rest } => {
            put_numbered(alloc, out, b"wrong final block ", rest)
        }
        FinishRefused::BadDecrypt => put_word(out, b"bad decrypt"),
        FinishRefused::StreamEnd { blocks } => put_numbered(alloc, out, b"stream end ", blocks),
        FinishRefused::NoMemory => Ok(()),
    }
}
