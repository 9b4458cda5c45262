//! Decryption: the text is held until its tag is checked.

ghost use Rattle.std.specs.Prelude.{◌≡◌, ℕ, ◌≤◌, List, [], ◌++◌, OnOk, OnErr, length};
ghost use Rattle.std.specs.Str.{bytes_eq};
ghost use Rattle.ossl_gcm.specs.Held.{text_of};
ghost use Rattle.ossl_gcm.specs.Run.{opened, Finishes};

use crate::counter::through;
use crate::kinds::GcmRefused;
use crate::seal::BLOCKS;
use crate::state::{Opener, Stream};
use ossl_aes::Block;
use std::alloc::AllocError;

// Whether two blocks are the same. The work does not turn on where they differ.
fn are_same(a: &[u8], b: &[u8]) -> bool
    requires a { length a.now ≡ 16 }
    requires b { length b.now ≡ 16 }
    ensures { result ≡ bytes_eq a.now b.now }
{
    let (mut x, mut y) = ([0; 16], [0; 16]);
    x.copy_from_slice(a);
    y.copy_from_slice(b);
    u128::from_be_bytes(x) == u128::from_be_bytes(y)
}

// Appends a whole text. Where nothing stands before it, it becomes the vector, and no memory is asked for.
fn give(out: &mut Vec<u8>, text: Vec<u8>) -> Result<(), GcmRefused>
    ensures { Finishes out.old.items out.new.items result (Ok text.items) }
{
    if out.is_empty() {
        *out = text;
        return Ok(());
    }
    match out.extend_from_slice(&text) {
        Ok(()) => Ok(()),
        Err(_) => Err(GcmRefused::NoMemory),
    }
}

impl<C: Block> Opener<C> {
    /// The start of a decryption.
    pub fn new(stream: Stream<C>) -> Self
        ensures stream { result.stream ≡ stream }
        ensures none { text_of result ≡ [] }
    {
        Opener { stream, held: None }
    }

    /// Takes the next bytes in. The vector stays, and tells where memory comes from.
    pub fn feed(&mut self, bytes: &[u8], out: &Vec<u8>) -> Result<(), AllocError>
        ensures stream { self.new.stream ≡ self.old.stream }
        ensures text { OnOk result (text_of self.new ≡ text_of self.old ++ bytes.now) }
        ensures err { OnErr result (text_of self.new ≡ text_of self.old) }
    {
        match &mut self.held {
            Some(text) => text.extend_from_slice(bytes),
            None => {
                let mut text = Vec::new(*out.allocator());
                text.extend_from_slice(bytes)?;
                self.held = Some(text);
                Ok(())
            }
        }
    }

    /// Appends the plaintext, if the text ends in its tag.
    pub fn finish(self, out: &mut Vec<u8>) -> Result<(), GcmRefused>
        ensures { Finishes out.old.items out.new.items result (opened C.enc self.stream (text_of self)) }
    {
        let Opener { stream, held } = self;
        match held {
            Some(text) => open(&stream, text, out),
            None => Err(GcmRefused::BadTag),
        }
    }
}

// The plaintext of a whole text.
fn open<C: Block>(stream: &Stream<C>, text: Vec<u8>, out: &mut Vec<u8>) -> Result<(), GcmRefused>
    ensures { Finishes out.old.items out.new.items result (opened C.enc stream.now text.items) }
{
    if text.len() < 16 {
        return Err(GcmRefused::BadTag);
    }
    let count = text.len() - 16;
    if count as u64 > 16 * BLOCKS {
        return Err(GcmRefused::StreamEnd { blocks: BLOCKS });
    }
    let (ciphertext, given) = text.as_slice().split_at(count);
    let tag = stream.tag(count as u64, ciphertext);
    if !are_same(given, &tag) {
        return Err(GcmRefused::BadTag);
    }
    let mut text = text;
    text.truncate(count);
    through(&stream.cipher, stream.counter, text.slice_mut(..));
    give(out, text)
}
