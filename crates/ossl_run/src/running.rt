//! A run over a catalogue of boxes.

ghost use Rattle.std.specs.Prelude.{◌≡◌, ◌<◌, false, map};
ghost use Rattle.ossl_calls.specs.Registry.{IsCatalogue};
ghost use Rattle.ossl_commands.specs.Counts.{contexts_of};
ghost use Rattle.ossl_run.specs.Ending.{boxes_of};
ghost use Rattle.ossl_run.specs.Middle.{IsRan, IsRunnable};

use crate::course::{Course, run_task};
use ossl_ordered::Desk;
use ossl_prepare::Task;
use ossl_provider::provider::Provider;
use ossl_state::call::Entry;
use std::alloc::{AllocError, Global};
use std::sync::ledger::{Blank, Ledger};

/// What a run leaves, and what it came to.
#[derive(Drop)]
pub struct Ran<P: Provider> {
    /// The registry's history, empty where none was opened.
    pub history: Vec<Entry>,
    /// The boxes that were handed in, in their order.
    pub catalogue: Vec<P>,
    /// What the run came to; none where no registry was opened, for want of memory.
    pub course: Option<Result<Course, AllocError>>,
}

/// Runs a task over a catalogue.
pub fn run_over<P: Provider, L: Ledger>(
    alloc: Global,
    blank: Blank,
    catalogue: Vec<P>,
    task: &Task,
) -> Ran<P>
    requires name { blank.name ≡ L.name }
    requires parts { blank.parts ≡ L.parts }
    requires some { 0 < L.parts }
    requires catalogue { IsCatalogue (map P.facts catalogue.items) (map P.sheet catalogue.items) }
    requires runnable { IsRunnable task.now.prepared.script }
    ensures ran { IsRan false result.course task.now
        (boxes_of P.facts P.sheet catalogue.items result.catalogue.items) result.history.items }
    ensures facts { map P.facts result.catalogue.items ≡ map P.facts catalogue.items }
{
    let contexts = task.prepared.script().contexts();
    let mut desk = match Desk::<P, L>::open(alloc, blank, catalogue, contexts) {
        Ok(desk) => desk,
        Err(refused) => {
            return Ran {
                history: Vec::new(alloc),
                catalogue: refused.catalogue,
                course: None,
            };
        }
    };
    let course = run_task(alloc, &mut desk, task);
    let (history, catalogue) = desk.close();
    Ran {
        history,
        catalogue,
        course: Some(course),
    }
}
