//! Runs of bytes, and what a word of a property text says.

ghost use Rattle.std.specs.Prelude.{◌≡◌, ℕ, ◌<◌, ◌≤◌, ◌^◌, List, length, drop, take, Some, IfOk, IfSome, IfNone};
ghost use Rattle.std.specs.List.{list_all};
ghost use Rattle.ossl_property.specs.Bytes.{front, past, folded};
ghost use Rattle.ossl_property.specs.Grammar.{may_stand, is_name, digit_of, digits_value, not_negative, negative};
ghost use Rattle.ossl_property.specs.Grammar.{number_of, is_plain, is_quotable};
ghost use Rattle.ossl_property.specs.Reading.{in_class, plain_value};

use crate::clause::Value;
use ossl_base::text::Text;
use std::alloc::{AllocError, Global};

/// Classes of bytes.
#[derive(Clone, Copy)]
pub enum Class {
    Space,
    /// What a name is read from.
    Name,
    /// What a value without quotes is read from.
    Word,
    /// What stands before the closing quote.
    Within(u8),
    /// What a string without quotes may hold.
    Bare,
    /// What a string within these quotes may hold.
    Quoted(u8),
    /// What a string without quotes keeps as it is.
    Kept,
}

impl Class {
    fn contains(self, byte: u8) -> bool
        ensures { result ≡ in_class self byte }
    {
        match self {
            Class::Space => byte == b' ',
            Class::Name => byte.is_ascii_alphanumeric() || byte == b'_' || byte == b'.',
            Class::Word => !(byte == b' ' || byte == b','),
            Class::Within(quote) => byte != quote,
            Class::Bare => byte.is_ascii_graphic() && byte != b',',
            Class::Quoted(quote) => byte >= 32 && byte <= 126 && byte != quote,
            Class::Kept => !(byte == b' ' || byte == b',' || byte.is_ascii_uppercase()),
        }
    }
}

/// How many bytes of the class stand at the front.
pub fn run_length(class: Class, text: &[u8]) -> usize
    ensures within { result ≤ length text.now }
    ensures run { take result text.now ≡ front (in_class class) text.now }
    ensures rest { drop result text.now ≡ past (in_class class) text.now }
{
    for (i, byte) in text.iter().enumerate() {
        if !class.contains(*byte) {
            return i;
        }
    }
    text.len()
}

pub fn is_all(class: Class, text: &[u8]) -> bool
    ensures { result ≡ list_all (in_class class) text.now }
{
    for byte in text {
        if !class.contains(*byte) {
            return false;
        }
    }
    true
}

/// Whether a byte may stand where a component of a name begins or goes on.
fn may_stand(at_start: bool, byte: u8) -> bool
    ensures { result ≡ may_stand at_start byte }
{
    if byte == b'.' {
        !at_start
    } else if at_start {
        byte.is_ascii_alphabetic()
    } else {
        byte.is_ascii_alphanumeric() || byte == b'_'
    }
}

/// Whether the word is one or more components joined by `.`, of at most 99 bytes.
pub fn is_name(word: &[u8]) -> bool
    ensures { result ≡ is_name word.now }
{
    let mut at_start = true;
    for byte in word {
        if !may_stand(at_start, *byte) {
            return false;
        }
        at_start = *byte == b'.';
    }
    !at_start && word.len() < 100
}

/// The word in lower case.
pub fn folded(alloc: Global, word: &[u8]) -> Result<Vec<u8>, AllocError>
    ensures { IfOk result (λ folding. folding.items ≡ folded word.now) }
{
    word.iter()
        .map(|byte| byte.to_ascii_lowercase())
        .collect(alloc)
}

/// What a byte says as a digit, 16 where it is none.
fn digit(byte: u8) -> u64
    ensures { result ≡ digit_of byte }
{
    match byte {
        b'0'..=b'9' => (byte - b'0') as u64,
        b'a'..=b'f' => (byte - b'a') as u64 + 10,
        b'A'..=b'F' => (byte - b'A') as u64 + 10,
        _ => 16,
    }
}

/// The number that one or more digits of a base say, unless it is above every number of a text.
fn magnitude(base: u64, word: &[u8]) -> Option<u64>
    requires { 0 < base }
    ensures some { IfSome result (λ n. digits_value base word.now ≡ Some n) }
    ensures none { IfNone result ((n : ℕ) → digits_value base word.now ≡ Some n → 2 ^ 63 < n) }
{
    if word.is_empty() {
        return None;
    }
    let mut number = 0u64;
    for byte in word {
        let digit = digit(*byte);
        if digit >= base {
            return None;
        }
        let shifted = number.checked_mul(base)?;
        number = shifted.checked_add(digit)?;
    }
    Some(number)
}

fn not_negative(base: u64, word: &[u8]) -> Option<i64>
    requires { 0 < base }
    ensures { result ≡ not_negative (digits_value base word.now) }
{
    match magnitude(base, word) {
        Some(number) if number < 1 << 63 => Some(number as i64),
        _ => None,
    }
}

fn negative(word: &[u8]) -> Option<i64>
    ensures { result ≡ negative (digits_value 10 word.now) }
{
    match magnitude(10, word) {
        Some(number) if number < 1 << 63 => Some(-(number as i64)),
        Some(number) if number == 1 << 63 => Some(i64::MIN),
        _ => None,
    }
}

/// A number: hexadecimal behind `0x`, octal behind `0`, decimal behind `-` or another digit.
fn number(word: &[u8]) -> Option<i64>
    ensures { result ≡ number_of word.now }
{
    match word {
        [] => None,
        [b'-', digits @ ..] => negative(digits),
        [b'0'] => Some(0),
        [b'0', b'x' | b'X', digits @ ..] => not_negative(16, digits),
        [b'0', digits @ ..] => not_negative(8, digits),
        _ => not_negative(10, word),
    }
}

/// Whether the word is a string without quotes.
fn is_plain(word: &[u8]) -> bool
    ensures { result ≡ is_plain word.now }
{
    match word {
        [] => false,
        [first, ..] => first.is_ascii_alphabetic()
            && is_all(Class::Bare, word)
            && word.len() < 1000,
    }
}

/// Whether the text may stand within two of these quotes.
pub fn is_quotable(quote: u8, text: &[u8]) -> bool
    ensures { result ≡ is_quotable quote text.now }
{
    is_all(Class::Quoted(quote), text) && text.len() < 1000
}

/// The value that a word without quotes says: a string begins with a letter.
#[tactic(auto, unfolding(crate::specs::Reading::plain_value))]
pub fn plain_value(alloc: Global, word: &[u8]) -> Result<Option<Value>, AllocError>
    ensures { IfOk result (λ value. value ≡ plain_value word.now) }
{
    match word {
        [first, ..] if first.is_ascii_alphabetic() => {
            if !is_plain(word) {
                return Ok(None);
            }
            Ok(Some(Value::Text(Text::of(folded(alloc, word)?))))
        }
        _ => match number(word) {
            Some(number) => Ok(Some(Value::Number(number))),
            None => Ok(None),
        },
    }
}
