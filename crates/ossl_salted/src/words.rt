//! The words after the program's name.

ghost use Rattle.std.specs.Prelude.{◌≡◌, ◌≤◌, length, IfSome};
ghost use Rattle.std.specs.Option.{option_map};
ghost use Rattle.ossl_salted.specs.Words.{asked, asked_by, asked_with, decryption_asked, encryption_asked};
ghost use Rattle.ossl_salted.specs.Words.{bits_in, bits_of, is_file_name, number_from};
ghost use Rattle.ossl_salted.specs.Words.{options_said, rounds_of, rounds_said};

use crate::job::{Job, KeySize};
use hex::FromHex;

// The most digits of a number of rounds.
const MOST_DIGITS: usize = 8;

const MOST_ROUNDS: u32 = 10_000_000;

const DEFAULT_ROUNDS: u32 = 10_000;

/// The job that the words ask for.
pub fn read_words(words: &[String]) -> Option<Job<'_>>
    ensures { option_map asked_by result ≡ asked words.now }
{
    match words {
        [direction, words @ ..] if direction.as_str() == "encrypt" => encryption(words),
        [direction, words @ ..] if direction.as_str() == "decrypt" => decryption(words),
        _ => None,
    }
}

// `SALT PASSFILE` and the options.
fn encryption(words: &[String]) -> Option<Job<'_>>
    ensures { option_map asked_by result ≡ encryption_asked words.now }
{
    let [salt, name, options @ ..] = words else {
        return None;
    };
    match <[u8; 8]>::from_hex(salt.as_str()) {
        Ok(salt) => make_job(Some(salt), name.as_str(), options),
        Err(_) => None,
    }
}

// `PASSFILE` and the options.
fn decryption(words: &[String]) -> Option<Job<'_>>
    ensures { option_map asked_by result ≡ decryption_asked words.now }
{
    let [name, options @ ..] = words else {
        return None;
    };
    make_job(None, name.as_str(), options)
}

fn make_job<'a>(salt: Option<[u8; 8]>, name: &'a str, options: &[String]) -> Option<Job<'a>>
    ensures { option_map asked_by result ≡ asked_with salt name.now (options_said options.now) }
{
    let (size, rounds) = read_options(options)?;
    if !is_file_name(name.as_bytes()) {
        return None;
    }
    Some(Job {
        salt,
        name: name.as_bytes(),
        size,
        rounds,
    })
}

// Whether a word may name a file.
fn is_file_name(word: &[u8]) -> bool
    ensures { result ≡ is_file_name word.now }
{
    match word {
        [] => false,
        [first, ..] => *first != b'-',
    }
}

// The size of the key and the rounds.
fn read_options(words: &[String]) -> Option<(KeySize, u32)>
    ensures said { option_map (λ options. (bits_in options.0, options.1)) result ≡ options_said words.now }
    ensures some { IfSome result (λ options. 1 ≤ options.1) }
{
    match words {
        [word, value, rest @ ..] if word.as_str() == "--bits" => {
            Some((key_size(value.as_str())?, rounds_said(rest)?))
        }
        _ => Some((KeySize::Bits256, rounds_said(words)?)),
    }
}

fn key_size(word: &str) -> Option<KeySize>
    ensures { option_map bits_in result ≡ bits_of word.now }
{
    match word {
        "128" => Some(KeySize::Bits128),
        "192" => Some(KeySize::Bits192),
        "256" => Some(KeySize::Bits256),
        _ => None,
    }
}

fn rounds_said(words: &[String]) -> Option<u32>
    ensures said { result ≡ rounds_said words.now }
    ensures some { IfSome result (λ rounds. 1 ≤ rounds) }
{
    match words {
        [] => Some(DEFAULT_ROUNDS),
        [word, value] if word.as_str() == "--rounds" => rounds(value.as_bytes()),
        _ => None,
    }
}

// A number of rounds, in decimal digits without a leading zero.
fn rounds(word: &[u8]) -> Option<u32>
    ensures said { result ≡ rounds_of word.now }
    ensures some { IfSome result (λ rounds. 1 ≤ rounds) }
{
    if word.len() > MOST_DIGITS {
        return None;
    }
    match word {
        [b'0', ..] => None,
        _ => match number(word) {
            Some(rounds) if rounds >= 1 && rounds <= MOST_ROUNDS => Some(rounds),
            _ => None,
        },
    }
}

// The number that decimal digits say.
fn number(word: &[u8]) -> Option<u32>
    requires { length word.now ≤ 8 }
    ensures { result ≡ number_from 0 word.now }
{
    let mut number = 0u32;
    for byte in word {
        match byte {
            b'0'..=b'9' => number = number * 10 + (*byte - b'0') as u32,
            _ => return None,
        }
    }
    Some(number)
}
