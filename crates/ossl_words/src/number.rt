//! Numbers and lists of them, as words say them.

ghost use Rattle.std.specs.Prelude.{◌≡◌};
ghost use Rattle.std.specs.Char.{is_ascii_digit};
ghost use Rattle.std.specs.List.{list_all};
ghost use Rattle.ossl_words.specs.Answers.{Answers};
ghost use Rattle.ossl_words.specs.Numbers.{has_leading_zero, is_decimal, number_of, order_of};

use crate::job::{Order, WordsRefused};
use std::alloc::Global;

/// The greatest number of items of an order.
const MOST_TURNS: usize = 65_536;

/// The greatest number of a caller.
pub const MOST_CALLERS: u64 = 16;

/// Whether a zero has more behind it.
fn has_leading_zero(text: &str) -> bool
    ensures { result ≡ has_leading_zero text.now }
{
    match text.as_bytes() {
        [first, _, ..] => *first == b'0',
        _ => false,
    }
}

fn are_digits(text: &str) -> bool
    ensures { result ≡ list_all is_ascii_digit text.now }
{
    text.bytes().all(|byte| byte.is_ascii_digit())
}

/// Whether a text is a decimal number: digits alone, at least one, and no leading zero but in `0` itself.
fn is_decimal(text: &str) -> bool
    ensures { result ≡ is_decimal text.now }
{
    !text.is_empty() && are_digits(text) && !has_leading_zero(text)
}

/// The number from `low` to `high` that a text says in decimal digits, without sign or leading zero.
pub fn number(text: &str, low: u64, high: u64) -> Option<u64>
    ensures { result ≡ number_of low high text.now }
{
    if !is_decimal(text) {
        return None;
    }
    let Ok(number) = text.parse::<u64>() else {
        return None;
    };
    if number < low || high < number {
        return None;
    }
    Some(number)
}

/// The order that a text says: 1 to 65,536 callers by their numbers, joined by commas.
pub fn order(alloc: Global, text: &str) -> Result<Order, WordsRefused>
    ensures { Answers result (order_of text.now) }
{
    let mut callers = Vec::new(alloc);
    for item in text.split(',') {
        if callers.len() == MOST_TURNS {
            return Err(WordsRefused::Usage);
        }
        let Some(caller) = number(item, 1, MOST_CALLERS) else {
            return Err(WordsRefused::Usage);
        };
        if callers.push(caller).is_err() {
            return Err(WordsRefused::NoMemory);
        }
    }
    Ok(Order::of(callers))
}
