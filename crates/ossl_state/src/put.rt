ghost use Rattle.std.specs.Prelude.{◌≡◌, ◌++◌, OnOk, OnErr, codes};
ghost use Rattle.std.specs.Fmt.{decimal};
ghost use Rattle.ossl_property.specs.Printed.{printed_query};
ghost use Rattle.ossl_state.specs.Text.{call_text, reply_text, entry_text, inner_text, operation_text, retain_text};

use crate::call::{Call, Entry, Reply};
use itoa::Buffer;
use ossl_codes::Operation;
use ossl_property::Query;
use std::alloc::{AllocError, Global};

/// Appends the text of an entry as a printed run shows it: the call's text, `: ` and the reply's, with the numbers that
/// stand in the entry.
pub fn put_entry(alloc: Global, out: &mut Vec<u8>, entry: &Entry) -> Result<(), AllocError>
    ensures ok { OnOk result (out.new.items ≡ out.old.items ++ entry_text entry.now) }
    ensures err { OnErr result (out.new.items ≡ out.old.items) }
{
    let mut text = Vec::new(alloc);
    write_entry(alloc, &mut text, entry)?;
    out.extend_from_slice(text.as_slice())
}

/// Appends the text of an entry, or a part of it where memory is refused. No copy of it is made.
pub fn write_entry(alloc: Global, out: &mut Vec<u8>, entry: &Entry) -> Result<(), AllocError>
    ensures ok { OnOk result (out.new.items ≡ out.old.items ++ entry_text entry.now) }
{
    write_call(alloc, out, &entry.call)?;
    out.extend_from_slice(b": ")?;
    write_reply(out, &entry.reply)
}

/// Appends the text of a call.
pub fn put_call(alloc: Global, out: &mut Vec<u8>, call: &Call) -> Result<(), AllocError>
    ensures ok { OnOk result (out.new.items ≡ out.old.items ++ call_text call.now) }
    ensures err { OnErr result (out.new.items ≡ out.old.items) }
{
    let mut text = Vec::new(alloc);
    write_call(alloc, &mut text, call)?;
    out.extend_from_slice(text.as_slice())
}

/// Appends the text of a reply.
pub fn put_reply(alloc: Global, out: &mut Vec<u8>, reply: &Reply) -> Result<(), AllocError>
    ensures ok { OnOk result (out.new.items ≡ out.old.items ++ reply_text reply.now) }
    ensures err { OnErr result (out.new.items ≡ out.old.items) }
{
    let mut text = Vec::new(alloc);
    write_reply(&mut text, reply)?;
    out.extend_from_slice(text.as_slice())
}

/// Appends a text and a number in decimal digits.
pub fn put_numbered(alloc: Global, out: &mut Vec<u8>, text: &[u8], n: u64) -> Result<(), AllocError>
    ensures ok { OnOk result (out.new.items ≡ out.old.items ++ text.now ++ decimal n) }
    ensures err { OnErr result (out.new.items ≡ out.old.items) }
{
    let mut line = Vec::new(alloc);
    write_numbered(&mut line, text, n)?;
    out.extend_from_slice(line.as_slice())
}

/// Writes a text and a number in decimal digits; these private writers may leave a part where memory is refused.
fn write_numbered(out: &mut Vec<u8>, text: &[u8], n: u64) -> Result<(), AllocError>
    ensures { OnOk result (out.new.items ≡ out.old.items ++ text.now ++ decimal n) }
{
    out.extend_from_slice(text)?;
    let mut digits = Buffer::new();
    out.extend_from_slice(digits.format(n).as_bytes())
}

fn operation_name(op: Operation) -> &'static [u8]
    ensures { result.now ≡ operation_text op }
{
    match op {
        Operation::Digest => b"digest",
        Operation::Cipher => b"cipher",
        Operation::Mac => b"mac",
        Operation::Kdf => b"kdf",
    }
}

/// What stands after a load that keeps the fallback.
fn retain_word(retain: bool) -> &'static [u8]
    ensures { result.now ≡ retain_text retain }
{
    if retain { b" retain" } else { b"" }
}

/// Writes the text of a call.
fn write_call(alloc: Global, out: &mut Vec<u8>, call: &Call) -> Result<(), AllocError>
    ensures { OnOk result (out.new.items ≡ out.old.items ++ call_text call.now) }
{
    match call {
        Call::Load { lib, name, retain } => {
            write_numbered(out, b"load ", *lib)?;
            out.extend_from_slice(b" ")?;
            out.extend_from_slice(name.as_slice())?;
            out.extend_from_slice(retain_word(*retain))
        }
        Call::Unload { token } => write_numbered(out, b"unload ", *token),
        Call::SetDefault { lib, query } => {
            write_numbered(out, b"default ", *lib)?;
            write_query(alloc, out, query)
        }
        Call::Fetch {
            lib,
            op,
            name,
            query,
        } => {
            write_numbered(out, b"fetch ", *lib)?;
            out.extend_from_slice(b" ")?;
            out.extend_from_slice(operation_name(*op))?;
            out.extend_from_slice(b" ")?;
            out.extend_from_slice(name.as_slice())?;
            write_query(alloc, out, query)
        }
        Call::UpRef { handle } => write_numbered(out, b"upref ", *handle),
        Call::Free { handle } => write_numbered(out, b"free ", *handle),
        Call::NewCtx {
            handle,
            inner,
            key_len,
        } => {
            write_numbered(out, b"newctx ", *handle)?;
            write_inner(out, *inner)?;
            write_numbered(out, b" ", *key_len)
        }
        Call::FreeCtx { handle } => write_numbered(out, b"freectx ", *handle),
        Call::CloseLib { lib } => write_numbered(out, b"closelib ", *lib),
    }
}

/// Writes a space and the printed form of a query in brackets.
fn write_query(alloc: Global, out: &mut Vec<u8>, query: &Query) -> Result<(), AllocError>
    ensures { OnOk result (out.new.items ≡ out.old.items ++ codes " [" ++ printed_query query.now ++ codes "]") }
{
    let text = query.print(alloc)?;
    out.extend_from_slice(b" [")?;
    out.extend_from_slice(text.as_slice())?;
    out.extend_from_slice(b"]")
}

/// Writes a space and the token of an inner method, or a dash where there is none.
fn write_inner(out: &mut Vec<u8>, inner: Option<u64>) -> Result<(), AllocError>
    ensures { OnOk result (out.new.items ≡ out.old.items ++ codes " " ++ inner_text inner) }
{
    match inner {
        Some(token) => write_numbered(out, b" ", token),
        None => out.extend_from_slice(b" -"),
    }
}

/// Writes the text of a reply.
fn write_reply(out: &mut Vec<u8>, reply: &Reply) -> Result<(), AllocError>
    ensures { OnOk result (out.new.items ≡ out.old.items ++ reply_text reply.now) }
{
    match reply {
        Reply::Loaded {
            number: _,
            instance,
            skipped,
        } => {
            write_numbered(out, b"ok ", *instance)?;
            write_numbered(out, b" skipped ", *skipped)
        }
        Reply::Fetched {
            number: _,
            provider,
            instance,
            row,
            code: _,
        } => {
            out.extend_from_slice(b"ok ")?;
            out.extend_from_slice(provider.as_slice())?;
            write_numbered(out, b" ", *instance)?;
            write_numbered(out, b" ", *row)
        }
        Reply::Made { number: _ } | Reply::Done => out.extend_from_slice(b"ok"),
        Reply::NoLib => out.extend_from_slice(b"no context"),
        Reply::NoProvider => out.extend_from_slice(b"no provider"),
        Reply::StartRefused { provider } => {
            out.extend_from_slice(b"start refused ")?;
            out.extend_from_slice(provider.as_slice())
        }
        Reply::Unsupported => out.extend_from_slice(b"unsupported"),
        Reply::NotAdmitted => out.extend_from_slice(b"not admitted"),
    }
}
