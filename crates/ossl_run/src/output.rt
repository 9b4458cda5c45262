//! What a finished run writes.

ghost use Rattle.std.specs.Prelude.{◌≡◌, None, map, sum_by, IfOk};
ghost use Rattle.ossl_commands.specs.Fits.{capped};
ghost use Rattle.ossl_commands.specs.Counts.{contexts_of};
ghost use Rattle.ossl_print.specs.Output.{printed_batch};
ghost use Rattle.ossl_ordered.specs.Run.{own_numbers};
ghost use Rattle.ossl_watch.specs.Changes.{IsHistory, fixed_over};
ghost use Rattle.ossl_run.specs.Ending.{batch_of, good_among, summary_after, text_of};
ghost use Rattle.ossl_run.specs.Middle.{HasResults};

use ossl_generate::{Summary, is_good, summary_text};
use ossl_prepare::Task;
use ossl_print::{Printed, put_output, put_results};
use ossl_provider::provider::Provider;
use ossl_script::LineResult;
use ossl_state::call::Entry;
use ossl_words::Job;
use std::alloc::{AllocError, Global};

/// A finished run.
#[derive(Drop)]
pub struct Finished<'a, P: Provider> {
    pub task: &'a Task,
    pub catalogue: &'a [P],
    pub history: &'a [Entry],
    /// The number of each caller of the batch in the history.
    pub callers: &'a [u64],
    /// For each caller, from 1, the results of its lines.
    pub results: &'a [Vec<LineResult>],
}

/// The order and the results of a batch that was read.
fn printed<P: Provider>(alloc: Global, run: &Finished<P>) -> Result<Vec<u8>, AllocError>
    requires legal { IsHistory (map P.facts run.now.catalogue.now)
        (contexts_of run.now.task.now.prepared.script.commands) run.now.history.now }
    requires results { HasResults run.now.task.now (map (λ rs. rs.items) run.now.results.now) run.now.history.now }
    requires callers { run.now.callers.now ≡ own_numbers (batch_of run.now.task.now.prepared) }
    ensures text { let batch = batch_of run.now.task.now.prepared in
        let fixed = fixed_over (map P.facts run.now.catalogue.now) (contexts_of batch.lines) in
        IfOk result (λ text. text.items ≡ printed_batch fixed batch (own_numbers batch) None run.now.history.now) }
{
    let script = run.task.prepared.script();
    let mut text = Vec::new(alloc);
    put_output(
        alloc,
        &mut text,
        &Printed {
            catalogue: run.catalogue,
            contexts: script.contexts(),
            history: run.history,
            callers: run.callers,
            marks: None,
            lines: script.commands(),
            results: run.results,
        },
    )?;
    Ok(text)
}

/// How many of these results are good.
fn good_among(results: &[LineResult]) -> u64
    ensures good { result ≡ good_among results.now }
{
    results
        .iter()
        .filter(|told| is_good(told.text.as_slice()))
        .count() as u64
}

/// How many results of all callers are good, as a number of 64 bits holds it.
fn good_count(results: &[Vec<LineResult>]) -> u64
    ensures good { result ≡ capped (sum_by (λ rs. good_among rs.items) results.now) }
{
    let mut good = 0u64;
    for told in results {
        good = good.saturating_add(good_among(told.as_slice()));
    }
    good
}

/// The summary of a generated batch.
fn summed<P: Provider>(
    alloc: Global,
    run: &Finished<P>,
    mut told: Summary,
) -> Result<Vec<u8>, AllocError>
    requires results { HasResults run.now.task.now (map (λ rs. rs.items) run.now.results.now) run.now.history.now }
    ensures text { let batch = batch_of run.now.task.now.prepared in
        IfOk result (λ text. text.items ≡ summary_after batch run.now.history.now told) }
{
    let mut printed = Vec::new(alloc);
    put_results(
        alloc,
        &mut printed,
        run.task.prepared.script().commands(),
        run.results,
    )?;
    told.good = good_count(run.results);
    told.entries = run.history.len() as u64;
    summary_text(alloc, &told, printed.as_slice())
}

/// What a finished run writes: its order and its results, or the summary of a generated batch.
pub fn output_of<P: Provider>(alloc: Global, run: &Finished<P>) -> Result<Vec<u8>, AllocError>
    requires legal { IsHistory (map P.facts run.now.catalogue.now)
        (contexts_of run.now.task.now.prepared.script.commands) run.now.history.now }
    requires results { HasResults run.now.task.now (map (λ rs. rs.items) run.now.results.now) run.now.history.now }
    requires callers { run.now.callers.now ≡ own_numbers (batch_of run.now.task.now.prepared) }
    ensures text { IfOk result (λ text. text.items
        ≡ text_of run.now.task.now.job (map P.facts run.now.catalogue.now) (batch_of run.now.task.now.prepared)
        run.now.history.now) }
{
    match &run.task.job {
        Job::Run { .. } => printed(alloc, run),
        Job::Gen {
            lines,
            seed,
            callers,
        } => summed(
            alloc,
            run,
            Summary {
                lines: *lines,
                seed: *seed,
                callers: *callers,
                good: 0,
                entries: 0,
            },
        ),
    }
}
