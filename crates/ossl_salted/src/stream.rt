//! A text from a source through a mode into a sink, a piece at a time.

ghost use Rattle.std.specs.Prelude.{◌≡◌, ◌≤◌, [], OnOk, OnErr, IfErr};
ghost use Rattle.std.specs.Io.KnownBytes.{Appends};
ghost use Rattle.ossl_base.specs.Causes.{Rose};
ghost use Rattle.ossl_base.specs.Whole.{AppendsPrefix};
ghost use Rattle.ossl_salted.specs.Course.{Ending, Runs};
ghost use Rattle.ossl_salted.specs.Ends.{IsCause, status_of};
ghost use Rattle.ossl_salted.specs.Flow.{Halted, Pumped, Stuck, Turned, mode_due, unread};
ghost use Rattle.ossl_salted.specs.Outside.{reading, writing};

use crate::end::End;
use ossl_aes::Block;
use ossl_base::{Sink, Source, write_all};
use ossl_modes::{FinishRefused, Mode};

/// The most bytes that are read or written at once.
pub const PIECE: usize = 4096;

// Writes the bytes, in pieces.
fn put<K: Sink>(sink: &mut K, bytes: &[u8]) -> Result<(), End>
    ensures all { OnOk result (Appends (K.taken sink.old) (K.taken sink.new) bytes.now) }
    ensures part { OnErr result (AppendsPrefix (K.taken sink.old) (K.taken sink.new) bytes.now) }
    ensures cause { IfErr result (λ end. IsCause end ⊥ (Rose (K.faults sink.old) (K.faults sink.new)) ⊥) }
    ensures later { K.faults sink.old ≤ K.faults sink.new }
{
    let mut sent = 0;
    while sent < bytes.len() {
        let end = bytes.len().min(sent + PIECE);
        match write_all(sink, &bytes[sent..end]) {
            Ok(()) => sent = end,
            Err(_) => return Err(End::Unwritten),
        }
    }
    Ok(())
}

// One piece through the mode. What waits in `out` is written before it, and nothing waits afterwards.
fn turn<C: Block, K: Sink>(
    mode: &mut Mode<C>,
    piece: &[u8],
    out: &mut Vec<u8>,
    sink: &mut K,
) -> Result<(), End>
    ensures turned { OnOk result (Turned mode.old out.old.items mode.new piece.now
        (writing K.taken K.faults sink.old sink.new)) }
    ensures empty { OnOk result (out.new.items ≡ []) }
    ensures stuck { OnErr result (Stuck mode.old out.old.items piece.now
        (writing K.taken K.faults sink.old sink.new)) }
    ensures cause { IfErr result (λ end. IsCause end ⊥ (Rose (K.faults sink.old) (K.faults sink.new)) ⊥) }
    ensures later { K.faults sink.old ≤ K.faults sink.new }
{
    match mode.feed(piece, out) {
        Ok(()) => {}
        Err(_) => return Err(End::NoMemory),
    }
    put(sink, out.as_slice())?;
    out.clear();
    Ok(())
}

// All that the source has left, of which there may be at most `room` bytes, through the mode.
fn pump<C: Block, S: Source, K: Sink>(
    mode: &mut Mode<C>,
    source: &mut S,
    sink: &mut K,
    out: &mut Vec<u8>,
    room: u64,
) -> Result<(), End>
    ensures pumped { OnOk result (Pumped mode.old out.old.items mode.new out.new.items room
        (reading S.left S.faults source.old source.new) (writing K.taken K.faults sink.old sink.new)) }
    ensures halted { IfErr result (λ end. Halted mode.old out.old.items room
        (reading S.left S.faults source.old source.new) (writing K.taken K.faults sink.old sink.new) end) }
    ensures later { K.faults sink.old ≤ K.faults sink.new }
{
    let mut buf = [0; PIECE];
    let mut total = 0;
    loop {
        let Ok(count) = source.read(&mut buf) else {
            return Err(End::Unread);
        };
        if count == 0 {
            return Ok(());
        }
        if count as u64 > room - total {
            return Err(End::TooLong);
        }
        total += count as u64;
        turn(mode, &buf[..count], out, sink)?;
    }
}

// The end of the text: the check of the last block, and the last writing.
fn finish<C: Block + Drop, K: Sink>(mode: Mode<C>, mut out: Vec<u8>, sink: &mut K) -> End
    ensures ending { Ending (mode_due mode out.items 0 []) (status_of result) unread
        (writing K.taken K.faults sink.old sink.new) }
    ensures later { K.faults sink.old ≤ K.faults sink.new }
{
    match mode.finish(&mut out) {
        Ok(()) => match put(sink, out.as_slice()) {
            Ok(()) => End::Done,
            Err(end) => end,
        },
        Err(FinishRefused::NoMemory) => End::NoMemory,
        Err(_) => End::FinalBlock,
    }
}

/// Writes `out` and what the mode makes of all that the source has left, of which there may be at most `room` bytes.
pub fn stream<C: Block + Drop, S: Source, K: Sink>(
    mut mode: Mode<C>,
    mut out: Vec<u8>,
    source: &mut S,
    sink: &mut K,
    room: u64,
) -> End
    ensures { Runs (mode_due mode out.items room) (status_of result)
        (reading S.left S.faults source.old source.new) (writing K.taken K.faults sink.old sink.new) }
{
    match pump(&mut mode, source, sink, &mut out, room) {
        Ok(()) => finish(mode, out, sink),
        Err(end) => end,
    }
}
