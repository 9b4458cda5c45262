//! The printed results.

ghost use Rattle.std.specs.Prelude.{◌≡◌, ◌<◌, ◌++◌, length, map, replicate, slice_index_or, IfOk, IsTrue, OnErr, OnOk};
ghost use Rattle.std.specs.Fmt.{decimal};
ghost use Rattle.ossl_print.specs.Results.{AreTold, result_line, results_by, results_text, told_to};

use crate::text::{put_whole, write_decimal};
use ossl_commands::Line;
use ossl_script::LineResult;
use std::alloc::{AllocError, Global};

/// Appends the number of lines, and the result of each, in the order of the text. `results[i]` are the results of
/// caller i + 1, one for each of its lines, in order. Where memory is refused, `out` is as it was.
pub fn put_results(
    alloc: Global,
    out: &mut Vec<u8>,
    lines: &[Line],
    results: &[Vec<LineResult>],
) -> Result<(), AllocError>
    requires told { AreTold lines.now (map (λ rs. rs.items) results.now) }
    ensures ok { let told = told_to (map (λ rs. rs.items) results.now) in
        OnOk result (out.new.items ≡ out.old.items ++ results_text (results_by lines.now told)) }
    ensures err { OnErr result (out.new.items ≡ out.old.items) }
{
    let mut text = Vec::new(alloc);
    write_results(alloc, &mut text, lines, results)?;
    put_whole(out, text)
}

/// Writes the results; these private writers may leave a part where memory is refused.
pub fn write_results(
    alloc: Global,
    out: &mut Vec<u8>,
    lines: &[Line],
    results: &[Vec<LineResult>],
) -> Result<(), AllocError>
    requires told { AreTold lines.now (map (λ rs. rs.items) results.now) }
    ensures { let told = told_to (map (λ rs. rs.items) results.now) in
        OnOk result (out.new.items ≡ out.old.items ++ results_text (results_by lines.now told)) }
{
    out.extend_from_slice(b"results ")?;
    write_decimal(out, lines.len() as u64)?;
    out.extend_from_slice(b"\n")?;
    let mut places = first_places(alloc, results.len())?;
    for line in lines {
        let own = (line.caller - 1) as usize;
        let place = places[own];
        write_result(out, &results[own][place])?;
        places[own] = place + 1;
    }
    Ok(())
}

/// As many places before the first as there are callers.
fn first_places(alloc: Global, callers: usize) -> Result<Vec<usize>, AllocError>
    ensures { IfOk result (λ places. places.items ≡ replicate callers 0) }
{
    let mut places = Vec::new(alloc);
    places.resize(callers, 0)?;
    Ok(places)
}

/// Writes the line of a result.
fn write_result(out: &mut Vec<u8>, told: &LineResult) -> Result<(), AllocError>
    ensures { OnOk result (out.new.items ≡ out.old.items ++ result_line told.now) }
{
    out.extend_from_slice(b"line ")?;
    write_decimal(out, told.line)?;
    out.extend_from_slice(b" ")?;
    out.extend_from_slice(told.text.as_slice())?;
    out.extend_from_slice(b"\n")
}
