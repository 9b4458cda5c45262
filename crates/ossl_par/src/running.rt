//! A run in threads over a catalogue of boxes.

ghost use Rattle.std.specs.Prelude.{◌≡◌, ◌<◌, [], None, map, true, IfOk};
ghost use Rattle.ossl_calls.specs.Registry.{IsCatalogue};
ghost use Rattle.ossl_crew.specs.Crew.{AreEnded};
ghost use Rattle.ossl_par.specs.Threads.{IsOver, IsToldOf};
ghost use Rattle.ossl_run.specs.Ending.{boxes_of};
ghost use Rattle.ossl_run.specs.Middle.{IsRan, IsRunnable};
ghost use Rattle.ossl_script.specs.View.{printed_of};

use ossl_crew::{Course as Worked, Crew, Unshared, run_course};
use ossl_prepare::Task;
use ossl_property::Steps;
use ossl_provider::provider::Provider;
use ossl_registry::Registry;
use ossl_run::{Course, Ran};
use ossl_script::{LineResult, ScriptCaller};
use ossl_worker::Gate;
use std::alloc::{AllocError, Global};
use std::sync::Wait;
use std::sync::ledger::{Blank, Ledger};
use std::thread::Threads;

/// The results of callers whose lines are done.
fn results_of(alloc: Global, scripts: Vec<ScriptCaller>) -> Result<Vec<Vec<LineResult>>, AllocError>
    requires ended { AreEnded scripts.items }
    ensures results { IfOk result (λ results. map (λ rs. rs.items) results.items ≡ map printed_of scripts.items) }
{
    let mut results = Vec::new(alloc);
    for script in scripts {
        results.push(script.results())?;
    }
    Ok(results)
}

/// What a run came to, with the results of its callers in the place of what they are then.
fn told(alloc: Global, worked: Result<Worked, AllocError>) -> Result<Course, AllocError>
    requires over { IfOk worked IsOver }
    ensures told { IfOk result (IsToldOf worked) }
{
    match worked {
        Ok(Worked::Finished(scripts)) => Ok(Course::Finished(results_of(alloc, scripts)?)),
        Ok(Worked::Refused(name)) => Ok(Course::Refused(name)),
        Err(AllocError) => Err(AllocError),
    }
}

/// A run that was not begun, for want of memory.
fn unopened<P: Provider>(alloc: Global, catalogue: Vec<P>) -> Ran<P>
    ensures history { result.history.items ≡ [] }
    ensures catalogue { result.catalogue.items ≡ catalogue.items }
    ensures course { result.course ≡ None }
{
    Ran {
        history: Vec::new(alloc),
        catalogue,
        course: None,
    }
}

/// Runs a task over a catalogue, each caller of the batch in a thread of its own.
pub fn run_over<R: Threads + Wait + Sync, P: Provider + Send, L: Ledger, G: Gate>(
    rt: &R,
    alloc: Global,
    blank: Blank,
    gate: &G,
    catalogue: Vec<P>,
    task: &Task,
) -> Ran<P>
    requires name { blank.name ≡ L.name }
    requires parts { blank.parts ≡ L.parts }
    requires some { 0 < L.parts }
    requires catalogue { IsCatalogue (map P.facts catalogue.items) (map P.sheet catalogue.items) }
    requires runnable { IsRunnable task.now.prepared.script }
    ensures ran { IsRan true result.course task.now
        (boxes_of P.facts P.sheet catalogue.items result.catalogue.items) result.history.items }
    ensures facts { map P.facts result.catalogue.items ≡ map P.facts catalogue.items }
{
    let script = task.prepared.script();
    let Ok(crew) = Crew::new(alloc, script, task.prepared.contents()) else {
        return unopened(alloc, catalogue);
    };
    let contexts = script.contexts();
    let registry = match Registry::open(alloc, catalogue, contexts) {
        Ok(registry) => registry,
        Err(refused) => {
            crew.disband();
            return unopened(alloc, refused.catalogue);
        }
    };
    let registry = Unshared::new(registry, Steps::<L>::new(blank));
    let (registry, worked) = run_course(
        rt,
        alloc,
        gate,
        registry,
        crew,
        task.prepared.settings(),
        contexts,
    );
    let course = told(alloc, worked);
    let (history, catalogue) = registry.close();
    Ran {
        history,
        catalogue,
        course: Some(course),
    }
}
