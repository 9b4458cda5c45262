//! What a single word says.

ghost use Rattle.std.specs.Prelude.{◌≡◌, ◌≤◌, length};
ghost use Rattle.std.specs.List.{list_all};
ghost use Rattle.ossl_property.specs.Grammar.{digits_value};
ghost use Rattle.ossl_commands.specs.Words.{is_name, is_name_byte, number_of, caller_of};

/// Whether the word is a name: a letter followed by letters, digits or `_`, at most 32 bytes.
pub fn is_name(word: &[u8]) -> bool
    ensures name { result ≡ is_name word.now }
{
    match word {
        [] => false,
        [first, rest @ ..] => first.is_ascii_alphabetic()
            && are_name_bytes(rest)
            && word.len() < 33,
    }
}

fn are_name_bytes(text: &[u8]) -> bool
    ensures { result ≡ list_all is_name_byte text.now }
{
    for byte in text {
        if !(byte.is_ascii_alphanumeric() || *byte == b'_') {
            return false;
        }
    }
    true
}

/// The number that 1 to 9 decimal digits say; they have no leading zero, `0` itself excepted.
pub fn number(word: &[u8]) -> Option<u32>
    ensures number { result ≡ number_of word.now }
{
    match word {
        [b'0', _, ..] => None,
        _ if word.len() > 9 => None,
        _ => decimal(word),
    }
}

/// The number of a caller: a number that is at least 1.
pub fn caller_number(word: &[u8]) -> Option<u32>
    ensures caller { result ≡ caller_of word.now }
{
    match number(word) {
        Some(0) | None => None,
        caller => caller,
    }
}

/// The number that one or more decimal digits say.
fn decimal(word: &[u8]) -> Option<u32>
    requires { length word.now ≤ 9 }
    ensures { result ≡ digits_value 10 word.now }
{
    if word.is_empty() {
        return None;
    }
    let mut number = 0u32;
    for byte in word {
        if !byte.is_ascii_digit() {
            return None;
        }
        number = number * 10 + (*byte - b'0') as u32;
    }
    Some(number)
}
