//! Providers, words and counts that the tests share.

ghost use Rattle.std.specs.Prelude.{◌≡◌, ◌≤◌, length, IfOk};
ghost use Rattle.ossl_faulty.specs.Faulty.{faulty_facts, faulty_sheet};
ghost use Rattle.ossl_calls.specs.Registry.{IsIdle};

use ossl_base::Text;
use ossl_codes::Code;
use ossl_faulty::Faulty;
use ossl_provider::{TableProvider, TableRow};
use std::alloc::{AllocError, Global};

/// A text of these bytes.
pub fn text(alloc: Global, bytes: &[u8]) -> Result<Text, AllocError>
    ensures { IfOk result (λ text. text ≡ bytes.now) }
{
    Ok(Text::of(Vec::from_slice(alloc, bytes)?))
}

/// A provider of SHA2-256 that refuses the starts of these numbers, from 1.
pub fn refusing(alloc: Global, name: &[u8], starts: &[u64]) -> Result<Faulty, AllocError>
    ensures name { IfOk result (λ faulty. (faulty_facts faulty).name ≡ name.now) }
    ensures rows { IfOk result (λ faulty. length (faulty_facts faulty).rows ≤ 256) }
    ensures idle { IfOk result (λ faulty. IsIdle (faulty_sheet faulty)) }
{
    let row = TableRow {
        names: text(alloc, b"SHA2-256")?,
        definition: text(alloc, b"provider=test")?,
        code: Code::Sha256,
    };
    let rows = Vec::from_array(alloc, [row])?;
    let table = TableProvider::new(alloc, text(alloc, name)?, rows, 0)?;
    Ok(Faulty::new(table, Vec::from_slice(alloc, starts)?))
}

/// The words of a command line.
pub fn words_of(alloc: Global, words: &[&str]) -> Result<Vec<String>, AllocError> {
    let mut owned = Vec::new(alloc);
    for word in words {
        owned.push(String::from_str(alloc, word)?)?;
    }
    Ok(owned)
}

/// How often a part stands in a text.
pub fn count_of(text: &[u8], part: &[u8]) -> usize {
    let mut found = 0usize;
    for begin in 0..text.len() {
        if text[begin..].starts_with(part) {
            found = found.saturating_add(1);
        }
    }
    found
}
