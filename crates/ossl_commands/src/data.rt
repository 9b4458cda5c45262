//! Data as a word says it.

ghost use Rattle.std.specs.Prelude.{ℕ, ◌≡◌, ◌↔◌, Some, [], ◌∷◌, ◌++◌, IfOk, OnErr, OnOk, option_map};
ghost use Rattle.std.specs.Prelude.{option_and_then, replicate};
ghost use Rattle.ossl_commands.specs.Contents.{content_by, data_bytes};
ghost use Rattle.ossl_commands.specs.Words.{cut_at, data_of, data_forms, hex_of, copies_of, looked_up, named};
ghost use Rattle.ossl_commands.specs.Words.{number_of, plain, some_text};

use crate::command::Data;
use crate::files::NamedFiles;
use crate::word::number;
use hex::FromHexError;
use memchr::memchr;
use ossl_base::text::Bytes;
use std::alloc::{AllocError, Global};

/// What stands before the first such byte and behind it.
pub fn cut_at(text: &[u8], separator: u8) -> Option<(&[u8], &[u8])>
    ensures { option_map (λ parts. (parts.0.now, parts.1.now)) result ≡ cut_at separator text.now }
{
    let end = memchr(separator, text)?;
    Some((&text[..end], &text[end + 1..]))
}

/// The bytes of an even number of hexadecimal digits.
fn digits(alloc: Global, text: &[u8]) -> Result<Option<Vec<u8>>, AllocError>
    ensures { IfOk result (λ bytes. option_map (λ v. v.items) bytes ≡ hex_of text.now) }
{
    match hex::decode(alloc, text) {
        Ok(bytes) => Ok(Some(bytes)),
        Err(FromHexError::OutOfMemory) => Err(AllocError),
        Err(_) => Ok(None),
    }
}

/// The byte that two hexadecimal digits say.
#[tactic(auto, using(crate::proofs::DataLaws::one_byte))]
fn byte_of(text: &[u8]) -> Option<u8>
    ensures { (byte : ℕ) → (result ≡ Some byte) ↔ (hex_of text.now ≡ Some (byte ∷ [])) }
{
    let mut byte = [0u8; 1];
    match hex::decode_to_slice(text, &mut byte) {
        Ok(()) => Some(byte[0]),
        Err(_) => None,
    }
}

/// As many copies of a byte as `N:HH` says.
#[tactic(auto, using(crate::proofs::DataLaws::said, crate::proofs::DataLaws::uncopied))]
fn copies(text: &[u8]) -> Option<Data>
    ensures { result
        ≡ option_and_then (λ parts. copies_of (number_of parts.0) (hex_of parts.1)) (cut_at 58 text.now) }
{
    let (count, byte) = cut_at(text, b':')?;
    let count = number(count)?;
    let byte = byte_of(byte)?;
    Some(Data::Copies { count, byte })
}

/// The file of a name, which is not empty.
fn file(alloc: Global, files: &mut NamedFiles, name: &[u8]) -> Result<Option<Data>, AllocError>
    ensures { IfOk result (λ read.
        option_map (λ said. (said, files.new)) read ≡ option_map (named files.old) (some_text name.now)) }
{
    match name {
        [] => Ok(None),
        _ => Ok(Some(Data::File(files.place(alloc, name)?))),
    }
}

/// What a form of data says with the text behind its `:`.
fn read_form(
    alloc: Global,
    files: &mut NamedFiles,
    form: &[u8],
    text: &[u8],
) -> Result<Option<Data>, AllocError>
    ensures { IfOk result (λ read. option_map (λ said. (said, files.new)) read
        ≡ option_and_then (λ form. form text.now) (looked_up (data_forms files.old) form.now)) }
{
    if form == b"hex".as_slice() {
        match digits(alloc, text)? {
            Some(bytes) => Ok(Some(Data::Bytes(Bytes::of(bytes)))),
            None => Ok(None),
        }
    } else if form == b"text".as_slice() {
        Ok(Some(Data::Bytes(Bytes::of(Vec::from_slice(alloc, text)?))))
    } else if form == b"rep".as_slice() {
        Ok(copies(text))
    } else if form == b"file".as_slice() {
        file(alloc, files, text)
    } else {
        Ok(None)
    }
}

impl Data {
    /// The data that a word says: `hex:DIGITS`, `text:BYTES`, `rep:N:HH` or `file:NAME`.
    pub(crate) fn of(
        alloc: Global,
        files: &mut NamedFiles,
        word: &[u8],
    ) -> Result<Option<Data>, AllocError>
        ensures data { IfOk result (λ read. option_map (λ said. (said, files.new)) read ≡ data_of files.old word.now) }
    {
        match cut_at(word, b':') {
            Some((form, text)) => read_form(alloc, files, form, text),
            None => Ok(None),
        }
    }

    /// Appends the bytes that the data stands for, where files have these contents, in the order of their first naming;
    /// a file without a content has no bytes.
    pub fn put(&self, out: &mut Vec<u8>, contents: &[Bytes]) -> Result<(), AllocError>
        ensures ok { OnOk result (out.new.items ≡ out.old.items ++ data_bytes (content_by contents.now) self.now) }
        ensures err { OnErr result (out.new.items ≡ out.old.items) }
    {
        match self {
            Data::Bytes(bytes) => out.extend_from_slice(bytes.as_slice()),
            Data::Copies { count, byte } => put_copies(out, *count, *byte),
            Data::File(place) => match contents.get(*place as usize) {
                Some(content) => out.extend_from_slice(content.as_slice()),
                None => Ok(()),
            },
        }
    }
}

/// Appends so many copies of a byte.
fn put_copies(out: &mut Vec<u8>, count: u32, byte: u8) -> Result<(), AllocError>
    ensures ok { OnOk result (out.new.items ≡ out.old.items ++ replicate count byte) }
    ensures err { OnErr result (out.new.items ≡ out.old.items) }
{
    let len = out.len();
    let Some(whole) = len.checked_add(count as usize) else {
        return Err(AllocError);
    };
    out.resize(whole, byte)
}
