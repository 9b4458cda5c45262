//! What counts of a line, and of a part of it.

ghost use Rattle.std.specs.Prelude.{◌≡◌, ◌≤◌, true, false, length};
ghost use Rattle.ossl_conf.specs.Counted.{counted_value, dropped, end_of, ended, is_free, place_after, trimmed};

use crate::run::{is_blank, past_blanks};

/// Where a byte of a line stands.
#[derive(Clone, Copy)]
pub enum Place {
    /// Outside quotes and by itself.
    Outside,
    /// Right behind a `\` outside quotes.
    BehindSlash,
    /// Within a part that this quote began.
    Within(u8),
}

impl Place {
    // Where the next byte stands; quoted parts may begin where `quotes` says so.
    fn after(self, quotes: bool, byte: u8) -> Place
        ensures { result ≡ place_after quotes self byte }
    {
        match self {
            Place::Outside => {
                if byte == b'\\' {
                    Place::BehindSlash
                } else if quotes && (byte == b'\'' || byte == b'"') {
                    Place::Within(byte)
                } else {
                    Place::Outside
                }
            }
            Place::BehindSlash => Place::Outside,
            Place::Within(quote) => { if byte == quote { Place::Outside } else { self } }
        }
    }

    // Outside quotes and by itself: only there a byte can begin a comment or be dropped.
    fn is_free(self) -> bool
        ensures { result ≡ is_free self }
    {
        matches!(self, Place::Outside)
    }
}

// Where what counts of a text ends: before a comment, without the blanks at its end, and without a `\` that is the
// last byte where `slash` says so.
fn end_of(quotes: bool, slash: bool, text: &[u8]) -> usize
    ensures end { result ≡ end_of quotes slash Place.Outside 0 0 text.now }
    ensures within { result ≤ length text.now }
{
    let mut place = Place::Outside;
    let mut end = 0;
    for (at, byte) in text.iter().enumerate() {
        if place.is_free() && *byte == b'#' {
            return end;
        }
        if !(place.is_free() && is_dropped(slash, *byte)) {
            end = at + 1;
        }
        place = place.after(quotes, *byte);
    }
    end
}

// A byte that is dropped at the end.
fn is_dropped(slash: bool, byte: u8) -> bool
    ensures { result ≡ dropped slash byte }
{
    is_blank(byte) || (slash && byte == b'\\')
}

/// What counts of a logical line without the blanks at its front.
pub(crate) fn counted_line(text: &[u8]) -> &[u8]
    ensures { result.now ≡ ended false true text.now }
{
    &text[..end_of(false, true, text)]
}

/// What counts of the rest of a logical line that is a value.
pub(crate) fn counted_value(text: &[u8]) -> &[u8]
    ensures { result.now ≡ counted_value text.now }
{
    let text = past_blanks(text);
    &text[..end_of(true, true, text)]
}

/// A name without the blanks at its ends.
pub(crate) fn trimmed(text: &[u8]) -> &[u8]
    ensures { result.now ≡ trimmed text.now }
{
    let text = past_blanks(text);
    &text[..end_of(false, false, text)]
}
