//! The course of a run over a registry.

ghost use Rattle.std.specs.Prelude.{◌≡◌, ◌≤◌, All, [], List, false, map, IfOk};
ghost use Rattle.ossl_calls.specs.Registry.{HasSheets, IsDown, fixed_of};
ghost use Rattle.ossl_commands.specs.Counts.{contexts_of};
ghost use Rattle.ossl_prepare.specs.Task.{order_of};
ghost use Rattle.ossl_provider.specs.Sheet.{Sheet};
ghost use Rattle.ossl_script.specs.View.{printed_of};
ghost use Rattle.ossl_state.specs.History.{IsLegal};
ghost use Rattle.ossl_state.specs.Tokens.{entries_of};
ghost use Rattle.ossl_ordered.specs.Work.{AreEnded};
ghost use Rattle.ossl_run.specs.Ending.{batch_of};
ghost use Rattle.ossl_run.specs.Middle.{DidAll, GaveBack, IsCourse, IsRunnable};

use ossl_base::Text;
use ossl_ordered::{Desk, OpeningRefused, Player, close, open, players, return_all, run_turns};
use ossl_prepare::{Task, order_of};
use ossl_provider::provider::Provider;
use ossl_script::LineResult;
use std::alloc::{AllocError, Global};
use std::sync::ledger::Ledger;

/// What a run comes to.
#[derive(Drop)]
pub enum Course {
    /// The lines of all callers are done; for each caller, from 1, the results of its lines.
    Finished(Vec<Vec<LineResult>>),
    /// The load of this provider was not answered with an activation, and no caller began.
    Refused(Text),
}

/// The results of callers whose lines are done.
fn results_of(alloc: Global, players: Vec<Player>) -> Result<Vec<Vec<LineResult>>, AllocError>
    requires ended { AreEnded players.items }
    ensures results { IfOk result
        (λ results. map (λ rs. rs.items) results.items ≡ map (λ p. printed_of p.work) players.items) }
{
    let mut results = Vec::new(alloc);
    for player in players {
        results.push(player.work.results())?;
    }
    Ok(results)
}

/// Lets the callers of a batch do their lines to the end, and give back what they hold; whatever the result, they hold
/// nothing then.
fn run_callers<P: Provider, L: Ledger>(
    alloc: Global,
    desk: &mut Desk<P, L>,
    task: &Task,
) -> Result<Vec<Vec<LineResult>>, AllocError>
    requires runnable { IsRunnable task.now.prepared.script }
    requires contexts { contexts_of task.now.prepared.script.commands ≤ (fixed_of P.facts desk.old).contexts }
    requires opening { entries_of 0 desk.old.entries ≡ desk.old.entries }
    requires legal { IsLegal (fixed_of P.facts desk.old) desk.old.entries }
    ensures gave_back { GaveBack desk.old.entries desk.new.entries }
    ensures did_all { IfOk result
        (λ results. DidAll (batch_of task.now.prepared) (order_of task.now.job) desk.old.entries desk.new.entries
        (map (λ rs. rs.items) results.items)) }
    ensures legal { IsLegal (fixed_of P.facts desk.new) desk.new.entries }
    ensures fixed { fixed_of P.facts desk.new ≡ fixed_of P.facts desk.old }
{
    let mut players = players(alloc, task.prepared.script(), task.prepared.contents())?;
    let ran = run_turns(desk, players.as_mut_slice(), order_of(&task.job));
    return_all(desk, players.as_mut_slice());
    ran?;
    results_of(alloc, players)
}

/// Runs a task over a registry that was just opened: the opening, the lines of all callers, and the closing. Whatever
/// the result, what was opened is closed then, and no box is up.
pub fn run_task<P: Provider, L: Ledger>(
    alloc: Global,
    desk: &mut Desk<P, L>,
    task: &Task,
) -> Result<Course, AllocError>
    requires runnable { IsRunnable task.now.prepared.script }
    requires contexts { contexts_of task.now.prepared.script.commands ≡ (fixed_of P.facts desk.old).contexts }
    requires fresh { desk.old.entries ≡ [] }
    ensures course { IfOk result (λ course. IsCourse false course task.now desk.new.entries) }
    ensures down { (sheets : List Sheet) → HasSheets (fixed_of P.facts desk.new) sheets desk.new.entries
        → All IsDown sheets }
    ensures legal { IsLegal (fixed_of P.facts desk.new) desk.new.entries }
    ensures fixed { fixed_of P.facts desk.new ≡ fixed_of P.facts desk.old }
{
    let mut tokens = Vec::new(alloc);
    let course = match open(alloc, desk, task.prepared.settings(), &mut tokens) {
        Ok(()) => run_callers(alloc, desk, task).map(Course::Finished),
        Err(OpeningRefused::Provider(name)) => Ok(Course::Refused(name)),
        Err(OpeningRefused::NoMemory) => Err(AllocError),
    };
    close(desk, tokens, task.prepared.script().contexts())?;
    course
}
