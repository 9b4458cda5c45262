//! Callers of a batch over a registry, each in a thread of its own.

ghost use Rattle.std.specs.Prelude.{◌≡◌, ◌<◌, ◌≤◌, [], true, vec_capacity, vec_len, IfErr, IfOk};
ghost use Rattle.ossl_calls.specs.Registry.{fixed_of};
ghost use Rattle.ossl_commands.specs.Counts.{callers_of, contexts_of};
ghost use Rattle.ossl_crew.specs.Crew.{AreEnded, AreScripts, HaveDone, HaveGivenBack, WereAtWork};
ghost use Rattle.ossl_print.specs.Batched.{Batch};
ghost use Rattle.ossl_state.specs.History.{IsLegal};
ghost use Rattle.ossl_state.specs.Tokens.{entries_of};

use crate::crew::Crew;
use ossl_provider::provider::Provider;
use ossl_registry::Registry;
use ossl_script::ScriptCaller;
use ossl_turn::{ShareRefused, Shared};
use ossl_worker::Gate;
use std::alloc::Global;
use std::sync::Wait;
use std::thread::Threads;

/// What callers in threads leave: the registry, what each of them is then, from caller 1 on, and whether the lines of
/// all are done.
pub struct Back<P: Provider> {
    pub registry: Registry<P>,
    pub scripts: Vec<ScriptCaller>,
    pub finished: bool,
}

/// Lets the callers of a batch work over a registry to which only the program made calls so far, each in a thread of
/// its own, until all of them are done. Want of memory for the sharing is the only refusal, and hands the registry back
/// as it was.
#[tactic(auto, using(crate::proofs::HistoryLaws::legal_history))]
pub fn run_crew<R: Threads + Wait + Sync, P: Provider + Send, G: Gate>(
    rt: &R,
    alloc: Global,
    gate: &G,
    registry: Registry<P>,
    mut crew: Crew<P>,
) -> Result<Back<P>, ShareRefused<Registry<P>>>
    requires legal { IsLegal (fixed_of P.facts registry) registry.entries }
    requires program { entries_of 0 registry.entries ≡ registry.entries }
    requires scripts { (batch : Batch) × (contexts_of batch.lines ≤ registry.contexts)
        × AreScripts batch crew.scripts.items }
    requires few { vec_len crew.scripts < 65536 }
    requires empty { (crew.passes.items ≡ []) × (crew.workers.items ≡ []) }
    requires room { (vec_len crew.scripts < vec_capacity crew.passes)
        × (vec_len crew.scripts ≤ vec_capacity crew.workers) }
    ensures fixed { IfOk result (λ back. fixed_of P.facts back.registry ≡ fixed_of P.facts registry) }
    ensures worked { IfOk result (λ back. (batch : Batch) → contexts_of batch.lines ≤ registry.contexts
        → AreScripts batch crew.scripts.items
        → WereAtWork P batch registry.entries back.registry.entries back.scripts.items) }
    ensures gave_back { IfOk result (λ back. HaveGivenBack registry.entries back.registry.entries) }

    // Where the lines of all are done, the history holds each caller's calls once and in its order, and nobody else's.
    ensures done { IfOk result
        (λ back. back.finished ≡ true → (batch : Batch) → contexts_of batch.lines ≤ registry.contexts
        → AreScripts batch crew.scripts.items → vec_len crew.scripts ≡ callers_of batch.lines
        → HaveDone batch registry.entries back.registry.entries) }
    ensures each { IfOk result (λ back. vec_len back.scripts ≡ vec_len crew.scripts) }
    ensures ended { IfOk result (λ back. back.finished ≡ true → AreEnded back.scripts.items) }
    ensures refused { IfErr result (λ r. r.object ≡ registry) }
{
    let (shared, mut first) = match Shared::resume(alloc, registry) {
        Ok(opened) => opened,
        Err(refused) => {
            crew.disband();
            return Err(refused);
        }
    };
    let finished = crew.run(rt, &shared, gate, &mut first);
    let Crew {
        scripts,
        passes,
        workers,
    } = crew;
    workers.destroy_empty();
    Ok(Back {
        registry: shared.close_all(first, passes),
        scripts,
        finished,
    })
}
