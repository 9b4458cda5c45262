//! The course of a run in threads over a registry.

ghost use Rattle.std.specs.Prelude.{◌≡◌, ◌<◌, ◌≤◌, [], All, List, vec_capacity, vec_len, IfOk};
ghost use Rattle.ossl_calls.specs.Registry.{HasSheets, IsDown, fixed_of};
ghost use Rattle.ossl_crew.specs.Course.{AreOf, Came, HaveEnded, IsCourse};
ghost use Rattle.ossl_crew.specs.Crew.{HaveGivenBack};
ghost use Rattle.ossl_print.specs.Batched.{Batch};
ghost use Rattle.ossl_provider.specs.Sheet.{Sheet};
ghost use Rattle.ossl_state.specs.History.{IsLegal};
ghost use Rattle.ossl_state.specs.Tokens.{entries_of};

use crate::crew::Crew;
use crate::running::{Back, run_crew};
use crate::unshared::Unshared;
use ossl_base::Text;
use ossl_conf::Settings;
use ossl_ordered::{OpeningRefused, close, open};
use ossl_provider::provider::Provider;
use ossl_script::ScriptCaller;
use ossl_turn::ShareRefused;
use ossl_worker::Gate;
use std::alloc::{AllocError, Global};
use std::sync::Wait;
use std::sync::ledger::Ledger;
use std::thread::Threads;

/// What a run comes to.
#[derive(Drop)]
pub enum Course {
    /// The lines of all callers are done; what each of them is then, from caller 1 on.
    Finished(Vec<ScriptCaller>),
    /// The load of this provider was not answered with an activation, and no caller began.
    Refused(Text),
}

/// Lets the callers of a batch work over a registry in which only the program made calls so far; whatever the result,
/// they hold nothing then.
pub fn run_callers<R: Threads + Wait + Sync, P: Provider + Send, L: Ledger, G: Gate>(
    rt: &R,
    alloc: Global,
    gate: &G,
    registry: Unshared<P, L>,
    crew: Crew<P>,
) -> (Unshared<P, L>, Result<Vec<ScriptCaller>, AllocError>)
    requires legal { IsLegal (fixed_of P.facts registry) registry.entries }
    requires program { entries_of 0 registry.entries ≡ registry.entries }
    requires scripts { (batch : Batch) × AreOf batch registry.contexts crew.scripts.items }
    requires few { vec_len crew.scripts < 65536 }
    requires empty { (crew.passes.items ≡ []) × (crew.workers.items ≡ []) }
    requires room { (vec_len crew.scripts < vec_capacity crew.passes)
        × (vec_len crew.scripts ≤ vec_capacity crew.workers) }
    ensures fixed { fixed_of P.facts result.0 ≡ fixed_of P.facts registry }
    ensures legal { IsLegal (fixed_of P.facts result.0) result.0.entries }
    ensures gave_back { HaveGivenBack registry.entries result.0.entries }
    ensures done { IfOk result.1 (λ scripts. (batch : Batch) → AreOf batch registry.contexts crew.scripts.items
        → HaveEnded P batch registry.entries result.0.entries scripts.items) }
{
    let (registry, steps) = registry.into_parts();
    match run_crew(rt, alloc, gate, registry, crew) {
        Ok(back) => {
            let Back {
                registry,
                scripts,
                finished,
            } = back;
            let registry = Unshared::new(registry, steps);
            match finished {
                true => (registry, Ok(scripts)),
                false => (registry, Err(AllocError)),
            }
        }
        Err(ShareRefused { object }) => (Unshared::new(object, steps), Err(AllocError)),
    }
}

/// What follows an opening: the work of all callers, or nothing where it was refused. Whatever the result, they hold
/// nothing then.
fn proceed<R: Threads + Wait + Sync, P: Provider + Send, L: Ledger, G: Gate>(
    rt: &R,
    alloc: Global,
    gate: &G,
    registry: Unshared<P, L>,
    crew: Crew<P>,
    opened: Result<(), OpeningRefused>,
) -> (Unshared<P, L>, Result<Course, AllocError>)
    requires legal { IsLegal (fixed_of P.facts registry) registry.entries }
    requires program { entries_of 0 registry.entries ≡ registry.entries }
    requires scripts { (batch : Batch) × AreOf batch registry.contexts crew.scripts.items }
    requires few { vec_len crew.scripts < 65536 }
    requires empty { (crew.passes.items ≡ []) × (crew.workers.items ≡ []) }
    requires room { (vec_len crew.scripts < vec_capacity crew.passes)
        × (vec_len crew.scripts ≤ vec_capacity crew.workers) }
    ensures fixed { fixed_of P.facts result.0 ≡ fixed_of P.facts registry }
    ensures legal { IsLegal (fixed_of P.facts result.0) result.0.entries }
    ensures gave_back { HaveGivenBack registry.entries result.0.entries }
    ensures came { Came P registry.contexts crew.scripts.items registry.entries result.0.entries opened result.1 }
{
    match opened {
        Ok(()) => {
            let (registry, scripts) = run_callers(rt, alloc, gate, registry, crew);
            match scripts {
                Ok(scripts) => (registry, Ok(Course::Finished(scripts))),
                Err(AllocError) => (registry, Err(AllocError)),
            }
        }
        Err(OpeningRefused::Provider(name)) => {
            crew.disband();
            (registry, Ok(Course::Refused(name)))
        }
        Err(OpeningRefused::NoMemory) => {
            crew.disband();
            (registry, Err(AllocError))
        }
    }
}

/// Runs a batch over a registry that was just opened: the opening, the work of all callers, each in a thread of its
/// own, and the closing. Whatever the result, what was opened is closed then, and no box is up.
pub fn run_course<R: Threads + Wait + Sync, P: Provider + Send, L: Ledger, G: Gate>(
    rt: &R,
    alloc: Global,
    gate: &G,
    mut registry: Unshared<P, L>,
    crew: Crew<P>,
    settings: &Settings,
    contexts: u64,
) -> (Unshared<P, L>, Result<Course, AllocError>)
    requires fresh { registry.entries ≡ [] }
    requires contexts { contexts ≡ registry.contexts }
    requires scripts { (batch : Batch) × AreOf batch registry.contexts crew.scripts.items }
    requires few { vec_len crew.scripts < 65536 }
    requires empty { (crew.passes.items ≡ []) × (crew.workers.items ≡ []) }
    requires room { (vec_len crew.scripts < vec_capacity crew.passes)
        × (vec_len crew.scripts ≤ vec_capacity crew.workers) }
    ensures course { IfOk result.1 (λ course. (batch : Batch) → AreOf batch registry.contexts crew.scripts.items
        → IsCourse P settings.now batch result.0.entries course) }
    ensures down { (sheets : List Sheet) → HasSheets (fixed_of P.facts result.0) sheets result.0.entries
        → All IsDown sheets }
    ensures legal { IsLegal (fixed_of P.facts result.0) result.0.entries }
    ensures fixed { fixed_of P.facts result.0 ≡ fixed_of P.facts registry }
{
    let mut tokens = Vec::new(alloc);
    let opened = open(alloc, &mut registry, settings, &mut tokens);
    let (mut registry, course) = proceed(rt, alloc, gate, registry, crew, opened);
    match close(&mut registry, tokens, contexts) {
        Ok(()) => (registry, course),
        Err(AllocError) => (registry, Err(AllocError)),
    }
}
