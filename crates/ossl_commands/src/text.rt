//! The bytes of a text: its lines, whether one is skipped, which bytes it may hold, its words, and its query.

ghost use Rattle.std.specs.Prelude.{◌≡◌, ◌<◌, ◌≤◌, ◌∷◌, ◌==◌, [], length, take, drop, MatchOption, option_map, true};
ghost use Rattle.std.specs.List.{list_all};
ghost use Rattle.std.specs.Str.Lines.{lines, strip_carriage_return};
ghost use Rattle.ossl_property.specs.Bytes.{front, past};
ghost use Rattle.ossl_commands.specs.Lines.{before_query, ends_word, is_allowed, is_blank, is_skipped, is_within_line};
ghost use Rattle.ossl_commands.specs.Lines.{is_within_word, query_text, starts_query, words_of};
ghost use Rattle.ossl_commands.specs.Starts.{start_at};

use memchr::{memchr, memchr2};
use std::marker::Model;

fn is_blank(byte: u8) -> bool
    ensures { result ≡ is_blank byte }
{
    byte == b' ' || byte == b'\t'
}

/// How many bytes stand before the first line feed.
#[tactic(auto, using(crate::proofs::SearchLaws::within_by, crate::proofs::SearchLaws::line_by, crate::proofs::SearchLaws::behind_line_by))]
fn line_len(text: &[u8]) -> usize
    ensures within { result ≤ length text.now }
    ensures line { take result text.now ≡ front is_within_line text.now }
    ensures behind { drop result text.now ≡ past is_within_line text.now }
{
    memchr(b'\n', text).unwrap_or(text.len())
}

/// The first line of a text that is not empty, and the text behind it. A line ends with a line feed, and a carriage
/// return before that goes; the last line may lack its line feed.
pub fn cut_line(text: &[u8]) -> (&[u8], &[u8])
    requires { 0 < length text.now }
    ensures line { lines text.now ≡ result.0.now ∷ lines result.1.now }
    ensures behind { length result.1.now < length text.now }
{
    let end = line_len(text);
    let cut = text.split_at(end);
    if cut.1.is_empty() {
        return (text, cut.1);
    }
    let behind = text.split_at(end + 1);
    (without_return(cut.0), behind.1)
}

/// The line without the one carriage return at its end.
fn without_return(line: &[u8]) -> &[u8]
    ensures { result.now ≡ strip_carriage_return line.now }
{
    match line {
        [rest @ .., b'\r'] => rest,
        _ => line,
    }
}

/// The text behind the spaces and tabs at its beginning.
fn past_blanks(text: &[u8]) -> &[u8]
    ensures { result.now ≡ past is_blank text.now }
{
    for (i, byte) in text.iter().enumerate() {
        if !is_blank(*byte) {
            let (_, rest) = text.split_at(i);
            return rest;
        }
    }
    &[]
}

/// Whether a line says nothing: nothing but spaces and tabs stand in it, or a `#` stands behind them.
pub fn is_skipped(line: &[u8]) -> bool
    ensures skipped { result ≡ is_skipped line.now }
{
    match past_blanks(line) {
        [] => true,
        [first, ..] => *first == b'#',
    }
}

/// Whether the byte is a tab or in the range from 32 to 126.
fn is_allowed(byte: u8) -> bool
    ensures { result ≡ is_allowed byte }
{
    byte == b'\t' || (32 <= byte && byte <= 126)
}

/// Whether all bytes are tabs or in the range from 32 to 126. All are looked at, so that many can be at once.
pub fn are_allowed(line: &[u8]) -> bool
    ensures allowed { result ≡ list_all is_allowed line.now }
{
    let mut are = true;
    for byte in line {
        are = are & is_allowed(*byte);
    }
    are
}

/// Whether a word ends before this text.
fn ends_word(text: &[u8]) -> bool
    ensures { result ≡ ends_word text.now }
{
    match text {
        [] => true,
        [first, ..] => is_blank(*first),
    }
}

/// Whether the text begins with the word `:`; at_start says that a word may begin here.
fn starts_query(at_start: bool, text: &[u8]) -> bool
    ensures { result ≡ starts_query at_start text.now }
{
    match text {
        [b':', rest @ ..] => at_start && ends_word(rest),
        _ => false,
    }
}

/// Whether a word may begin at this place of a line.
fn may_start(line: &[u8], at: usize) -> bool
    requires { at ≤ length line.now }
    ensures { result ≡ start_at line.now at }
{
    at == 0 || is_blank(line[at - 1])
}

/// The text before the first word that is `:`, or all of it, and the query text: what stands behind that word.
pub fn cut_query(line: &[u8]) -> (&[u8], Option<&[u8]>)
    ensures before { result.0.now ≡ before_query true line.now }
    ensures query { option_map (λ query. query.now) result.1 ≡ query_text true line.now }
{
    let mut gone = 0;
    while let Some(more) = memchr(b':', &line[gone..]) {
        let at = gone + more;
        let (before, rest) = line.split_at(at);
        if starts_query(may_start(line, at), rest) {
            let (_, query) = line.split_at(at + 1);
            return (before, Some(query));
        }
        gone = at + 1;
    }
    (line, None)
}

/// How many bytes stand before the first space or tab.
#[tactic(auto, using(crate::proofs::SearchLaws::within_by, crate::proofs::SearchLaws::word_by, crate::proofs::SearchLaws::behind_word_by))]
fn word_len(text: &[u8]) -> usize
    ensures within { result ≤ length text.now }
    ensures word { take result text.now ≡ front is_within_word text.now }
    ensures behind { drop result text.now ≡ past is_within_word text.now }
{
    memchr2(b' ', b'\t', text).unwrap_or(text.len())
}

/// The words of a text that are left: what stands between spaces and tabs.
#[derive(Drop)]
pub struct Words<'a> {
    text: &'a [u8],
}

impl<'a> Model for Words<'a> {
    ghost use Rattle.std.specs.Prelude.{ℕ, List};
    ghost use Rattle.ossl_commands.specs.Lines.{words_of};

    ghost Value = { List (List ℕ) };

    ghost view = { λ w. words_of w.text.now };
}

impl<'a> Words<'a> {
    /// The words of a text.
    pub fn of(text: &'a [u8]) -> Words<'a>
        ensures words { result ≡ words_of text.now }
    {
        Words { text }
    }

    /// Whether no words are left.
    pub fn is_empty(&self) -> bool
        ensures empty { result ≡ (length self.now == 0) }
    {
        past_blanks(self.text).is_empty()
    }

    /// The first of them, which is left no more.
    pub fn next(&mut self) -> Option<&'a [u8]>
        ensures word { MatchOption result (self.old ≡ []) (λ word. self.old ≡ word.now ∷ self.new) }
    {
        let text = past_blanks(self.text);
        if text.is_empty() {
            return None;
        }
        let (word, rest) = text.split_at(word_len(text));
        self.text = rest;
        Some(word)
    }
}
