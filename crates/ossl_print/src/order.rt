//! The printed order.

ghost use Rattle.std.specs.Prelude.{◌≡◌, ◌<◌, ◌++◌, codes, length, map, nat_eq, position, option_map, option_to_list};
ghost use Rattle.std.specs.Prelude.{IfSome, OnOk, OnErr};
ghost use Rattle.std.specs.Fmt.{decimal};
ghost use Rattle.ossl_print.specs.Order.{batch_caller, instance_text, lines_of, mark_at, mark_text, order_text};
ghost use Rattle.ossl_print.specs.Order.{showing_of, told_text};
ghost use Rattle.ossl_state.specs.Text.{entry_text};
ghost use Rattle.ossl_watch.specs.Changes.{IsHistory, fixed_over};

use crate::text::{put_whole, write_decimal};
use ossl_provider::Provider;
use ossl_state::element::name_at;
use ossl_state::put::write_entry;
use ossl_state::{Entry, Reply};
use ossl_watch::{Change, Up, Watch};
use std::alloc::{AllocError, Global};

/// No memory holds so many entries.
const MOST_ENTRIES: usize = 0x4000_0000_0000_0000;

/// Appends the printed order of a history that is legal over these boxes and so many library contexts: how many
/// entries there are, and a line for each with what it started and stopped.
///
/// `callers[i]` is the number under which caller i + 1 of the batch stands in the history; any other number is
/// shown as 0. Where `marks` are given, the fetches that found a method are shown as hits and misses. Where memory
/// is refused, `out` is as it was.
pub fn put_order<P: Provider>(
    alloc: Global,
    out: &mut Vec<u8>,
    catalogue: &[P],
    contexts: u64,
    history: &[Entry],
    callers: &[u64],
    marks: Option<&[bool]>,
) -> Result<(), AllocError>
    requires legal { IsHistory (map P.facts catalogue.now) contexts history.now }
    ensures ok { let shown = showing_of callers.now (option_map (λ ms. ms.now) marks.entry) in
        let lines = lines_of shown (fixed_over (map P.facts catalogue.now) contexts) history.now in
        OnOk result (out.new.items ≡ out.old.items ++ order_text (length history.now) lines) }
    ensures err { OnErr result (out.new.items ≡ out.old.items) }
{
    let mut text = Vec::new(alloc);
    write_order(
        alloc, &mut text, catalogue, contexts, history, callers, marks,
    )?;
    put_whole(out, text)
}

/// Writes the printed order; this and the private writers below may leave a part where memory is refused.
pub fn write_order<P: Provider>(
    alloc: Global,
    out: &mut Vec<u8>,
    catalogue: &[P],
    contexts: u64,
    history: &[Entry],
    callers: &[u64],
    marks: Option<&[bool]>,
) -> Result<(), AllocError>
    requires legal { IsHistory (map P.facts catalogue.now) contexts history.now }
    ensures ok { let shown = showing_of callers.now (option_map (λ ms. ms.now) marks.entry) in
        let lines = lines_of shown (fixed_over (map P.facts catalogue.now) contexts) history.now in
        OnOk result (out.new.items ≡ out.old.items ++ order_text (length history.now) lines) }
{
    if history.len() >= MOST_ENTRIES {
        return Err(AllocError);
    }
    out.extend_from_slice(b"order ")?;
    write_decimal(out, history.len() as u64)?;
    out.extend_from_slice(b"\n")?;
    let mut watch = Watch::new(alloc, contexts)?;
    let mut number = 0u64;
    for entry in history {
        let change = watch.note(catalogue, entry)?;
        number += 1;
        write_numbered(
            alloc,
            out,
            number,
            batch_caller(callers, entry.caller),
            entry,
        )?;
        write_mark(out, mark_at(marks, number), &entry.reply)?;
        write_change(out, catalogue, &change)?;
    }
    Ok(())
}

/// Writes an entry with its number and its caller in the batch.
fn write_numbered(
    alloc: Global,
    out: &mut Vec<u8>,
    number: u64,
    caller: u64,
    entry: &Entry,
) -> Result<(), AllocError>
    ensures { OnOk result (out.new.items ≡ out.old.items
        ++ (decimal number ++ codes " " ++ decimal caller ++ codes " " ++ entry_text entry.now)) }
{
    write_decimal(out, number)?;
    out.extend_from_slice(b" ")?;
    write_decimal(out, caller)?;
    out.extend_from_slice(b" ")?;
    write_entry(alloc, out, entry)
}

/// The mark of an entry, counted from 1, where there are marks.
fn mark_at(marks: Option<&[bool]>, number: u64) -> Option<bool>
    requires { 0 < number }
    ensures { result ≡ mark_at (option_map (λ ms. ms.now) marks.entry) number }
{
    match marks {
        Some(marks) => marks.get((number - 1) as usize).copied(),
        None => None,
    }
}

/// Writes whether a fetch that found a method was a hit of the query cache, where that is told.
fn write_mark(out: &mut Vec<u8>, mark: Option<bool>, reply: &Reply) -> Result<(), AllocError>
    ensures { OnOk result (out.new.items ≡ out.old.items ++ mark_text mark reply.now) }
{
    out.extend_from_slice(mark_word(mark, reply))
}

fn mark_word(mark: Option<bool>, reply: &Reply) -> &'static [u8]
    ensures { result.now ≡ mark_text mark reply.now }
{
    match (mark, reply) {
        (Some(true), Reply::Fetched { .. }) => b" hit",
        (Some(false), Reply::Fetched { .. }) => b" miss",
        _ => b"",
    }
}

/// Writes what an entry started and what it stopped, and the end of its line.
fn write_change<P: Provider>(
    out: &mut Vec<u8>,
    catalogue: &[P],
    change: &Change,
) -> Result<(), AllocError>
    ensures { let facts = map P.facts catalogue.now in OnOk result (out.new.items ≡ out.old.items
        ++ (told_text (codes "start") facts (option_to_list change.now.started)
        ++ told_text (codes "stop") facts change.now.stopped.items ++ codes "\n")) }
{
    if let Some(up) = &change.started {
        write_instance(out, catalogue, b"start", up)?;
    }
    for up in &change.stopped {
        write_instance(out, catalogue, b"stop", up)?;
    }
    out.extend_from_slice(b"\n")
}

/// Writes an instance behind a word: its provider and its number.
fn write_instance<P: Provider>(
    out: &mut Vec<u8>,
    catalogue: &[P],
    word: &[u8],
    up: &Up,
) -> Result<(), AllocError>
    ensures { OnOk result (out.new.items ≡ out.old.items ++ instance_text word.now (map P.facts catalogue.now) up.now) }
{
    out.extend_from_slice(b"; ")?;
    out.extend_from_slice(word)?;
    out.extend_from_slice(b" ")?;
    out.extend_from_slice(name_at(catalogue, up.place))?;
    out.extend_from_slice(b" ")?;
    write_decimal(out, up.number)
}

/// The caller of the batch that stands under a number in the history, where these are the numbers of callers 1, 2
/// and so on; 0 where none does, as for the program itself.
pub fn batch_caller(callers: &[u64], number: u64) -> u64
    ensures caller { result ≡ batch_caller callers.now number }
{
    match place_among(callers, number) {
        Some(place) => place as u64 + 1,
        None => 0,
    }
}

/// Where a number stands first.
fn place_among(numbers: &[u64], number: u64) -> Option<usize>
    ensures place { result ≡ position (λ other. nat_eq other number) numbers.now }
    ensures within { IfSome result (λ place. place < length numbers.now) }
{
    numbers.iter().position(|other| *other == number)
}
