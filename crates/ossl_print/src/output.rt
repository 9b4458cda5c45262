//! The whole output of a finished run.

ghost use Rattle.std.specs.Prelude.{ℕ, List, ◌≡◌, ◌++◌, length, map, option_map, OnErr, OnOk};
ghost use Rattle.ossl_print.specs.Batched.{Batch};
ghost use Rattle.ossl_print.specs.Order.{lines_of, showing_of};
ghost use Rattle.ossl_print.specs.Output.{AreResults, EndedIsTold, output_text, printed_batch};
ghost use Rattle.ossl_print.specs.Results.{AreTold, results_by, told_to};
ghost use Rattle.ossl_watch.specs.Changes.{IsHistory, fixed_over};

use crate::order::write_order;
use crate::results::write_results;
use crate::text::put_whole;
use ossl_commands::Line;
use ossl_provider::Provider;
use ossl_script::LineResult;
use ossl_state::Entry;
use std::alloc::{AllocError, Global};

/// What is printed of a finished run.
#[derive(Drop)]
pub struct Printed<'a, P: Provider> {
    /// The boxes over which the history is legal, and how many library contexts there are.
    pub catalogue: &'a [P],
    pub contexts: u64,
    pub history: &'a [Entry],
    /// `callers[i]` is the number under which caller i + 1 of the batch stands in the history.
    pub callers: &'a [u64],
    /// Whether each entry was a hit of the query cache, where that is shown.
    pub marks: Option<&'a [bool]>,
    /// The commands of the batch, in the order of its text.
    pub lines: &'a [Line],
    /// `results[i]` are the results of caller i + 1, one for each of its lines, in order.
    pub results: &'a [Vec<LineResult>],
}

/// Appends the whole output: the printed order, and then the results. Where memory is refused, `out` is as it was.
pub fn put_output<P: Provider>(
    alloc: Global,
    out: &mut Vec<u8>,
    run: &Printed<P>,
) -> Result<(), AllocError>
    requires legal { IsHistory (map P.facts run.now.catalogue.now) run.now.contexts run.now.history.now }
    requires told { AreTold run.now.lines.now (map (λ rs. rs.items) run.now.results.now) }
    ensures ok { let shown = showing_of run.now.callers.now (option_map (λ ms. ms.now) run.now.marks) in
        let fixed = fixed_over (map P.facts run.now.catalogue.now) run.now.contexts in
        let lines = lines_of shown fixed run.now.history.now in
        let told = told_to (map (λ rs. rs.items) run.now.results.now) in
        OnOk result (out.new.items ≡ out.old.items
        ++ output_text (length run.now.history.now) lines (results_by run.now.lines.now told)) }
    // Where these are the results that the batch's callers have after the history, it is the output of the batch.
    ensures batch { (contents : List (List ℕ)) →
        let batch : Batch = record { lines = run.now.lines.now; contents = contents } in
        AreResults batch run.now.callers.now run.now.history.now (map (λ rs. rs.items) run.now.results.now) →
        OnOk result (out.new.items ≡ out.old.items
        ++ printed_batch (fixed_over (map P.facts run.now.catalogue.now) run.now.contexts) batch
        run.now.callers.now (option_map (λ ms. ms.now) run.now.marks) run.now.history.now) }
    ensures err { OnErr result (out.new.items ≡ out.old.items) }
{
    let mut text = Vec::new(alloc);
    write_order(
        alloc,
        &mut text,
        run.catalogue,
        run.contexts,
        run.history,
        run.callers,
        run.marks,
    )?;
    write_results(alloc, &mut text, run.lines, run.results)?;
    put_whole(out, text)
}
