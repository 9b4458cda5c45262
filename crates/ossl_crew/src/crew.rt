//! The workers of a run.

ghost use Rattle.std.specs.Prelude.{◌≡◌, ◌<◌, ◌≤◌, [], true, All, length, vec_capacity, vec_len, IfOk};
ghost use Rattle.ossl_calls.specs.Registry.{Shown};
ghost use Rattle.ossl_commands.specs.Counts.{callers_of, contexts_of};
ghost use Rattle.ossl_crew.specs.Crew.{AreBack, AreEnded, AreHired, AreReturned, AreScripts, HasRun, HaveRun, IsReady};
ghost use Rattle.ossl_print.specs.Batched.{Batch};
ghost use Rattle.ossl_turn.specs.Passes.{AreNumbered, CameFrom, SharedFacts};

use ossl_base::Bytes;
use ossl_commands::Script;
use ossl_core::Caller;
use ossl_provider::provider::Provider;
use ossl_registry::Registry;
use ossl_script::ScriptCaller;
use ossl_turn::{Pass, Shared};
use ossl_worker::{Gate, Worker};
use std::alloc::{AllocError, Global};
use std::sync::Wait;
use std::thread::{Threads, for_each_mut};

/// What each caller of a batch does, from caller 1 on.
fn scripts(
    alloc: Global,
    script: &Script,
    contents: &[Bytes],
) -> Result<Vec<ScriptCaller>, AllocError>
    ensures each { IfOk result (λ scripts. length scripts.items ≡ callers_of script.now.commands) }
    ensures scripts { IfOk result (λ scripts.
        AreScripts (record { lines = script.now.commands; contents = contents.now }) scripts.items) }
{
    let mut scripts = Vec::new(alloc);
    for place in 0..script.callers() {
        let caller = ScriptCaller::new(alloc, script, contents, place + 1)?;
        scripts.push(caller)?;
    }
    Ok(scripts)
}

/// The lists of a run in threads: what its callers do, and room for their passes and their workers.
pub struct Crew<P: Provider + Send> {
    pub scripts: Vec<ScriptCaller>,
    pub passes: Vec<Pass<Registry<P>>>,
    pub workers: Vec<Worker<P>>,
}

impl<P: Provider + Send> Crew<P> {
    /// Makes the lists for the callers of a batch, and room for the first pass beside theirs.
    pub fn new(alloc: Global, script: &Script, contents: &[Bytes]) -> Result<Crew<P>, AllocError>
        ensures each { IfOk result (λ crew. length crew.scripts.items ≡ callers_of script.now.commands) }
        ensures scripts { IfOk result (λ crew.
            AreScripts (record { lines = script.now.commands; contents = contents.now }) crew.scripts.items) }
        ensures empty { IfOk result (λ crew. (crew.passes.items ≡ []) × (crew.workers.items ≡ [])) }
        ensures room { IfOk result (λ crew. (vec_len crew.scripts < vec_capacity crew.passes)
            × (vec_len crew.scripts ≤ vec_capacity crew.workers)) }
    {
        let scripts = scripts(alloc, script, contents)?;
        let count = scripts.len();
        let workers = Vec::with_capacity(alloc, count)?;
        let Ok(passes) = Vec::with_capacity(alloc, count + 1) else {
            workers.destroy_empty();
            return Err(AllocError);
        };
        Ok(Crew {
            scripts,
            passes,
            workers,
        })
    }

    /// Lets the lists go, where no run began.
    pub fn disband(self)
        requires empty { (self.passes.items ≡ []) × (self.workers.items ≡ []) }
    {
        let Crew {
            scripts: _,
            passes,
            workers,
        } = self;
        passes.destroy_empty();
        workers.destroy_empty();
    }

    /// Lets all callers work, each in a thread of its own, until all of them are done, and takes all passes back. Tells
    /// whether the lines of all callers are done.
    pub fn run<R: Threads + Wait + Sync, G: Gate>(
        &mut self,
        rt: &R,
        shared: &Shared<Registry<P>>,
        gate: &G,
        first: &mut Pass<Registry<P>>,
    ) -> bool
        requires first { CameFrom shared.now first.old × (first.old.number ≡ 0) × (first.old.made ≡ 0) }
        requires scripts { (batch : Batch) × (contexts_of batch.lines ≤ shared.now.origin.contexts)
            × AreScripts batch self.old.scripts.items }
        requires few { vec_len self.old.scripts < 65536 }
        requires empty { (self.old.passes.items ≡ []) × (self.old.workers.items ≡ []) }
        requires room { (vec_len self.old.scripts < vec_capacity self.old.passes)
            × (vec_len self.old.scripts ≤ vec_capacity self.old.workers) }
        ensures first { CameFrom shared.now first.new × (first.new.number ≡ 0)
            × (first.new.made ≡ vec_len self.new.passes) }
        ensures stays { (first.new.own ≡ first.old.own) × (first.new.seen ≡ first.old.seen) }
        ensures empty { self.new.workers.items ≡ [] }
        ensures each { (vec_len self.new.passes ≡ vec_len self.old.scripts)
            × (vec_len self.new.scripts ≡ vec_len self.old.scripts) }
        ensures room { vec_len self.new.passes < vec_capacity self.new.passes }
        ensures returned { (batch : Batch) → contexts_of batch.lines ≤ shared.now.origin.contexts
            → AreScripts batch self.old.scripts.items
            → AreReturned shared.now batch self.new.passes.items self.new.scripts.items }
        ensures numbered { AreNumbered self.new.passes.items }
        ensures ended { result ≡ true → AreEnded self.new.scripts.items }
    {
        self.hire(shared, first);
        work(rt, shared, gate, &mut self.workers);
        self.dismiss()
    }

    /// Splits a pass off the first one for each caller, and makes a worker of each, the last one first. It takes no
    /// memory.
    fn hire(&mut self, shared: &Shared<Registry<P>>, first: &mut Pass<Registry<P>>)
        requires first { CameFrom shared.now first.old × (first.old.number ≡ 0) × (first.old.made ≡ 0) }
        requires scripts { (batch : Batch) × AreScripts batch self.old.scripts.items }
        requires few { vec_len self.old.scripts < 65536 }
        requires empty { (self.old.passes.items ≡ []) × (self.old.workers.items ≡ []) }
        requires room { (vec_len self.old.scripts < vec_capacity self.old.passes)
            × (vec_len self.old.scripts ≤ vec_capacity self.old.workers) }
        ensures first { CameFrom shared.now first.new × (first.new.number ≡ 0)
            × (first.new.made ≡ vec_len self.old.scripts) }
        ensures stays { (first.new.own ≡ first.old.own) × (first.new.seen ≡ first.old.seen) }
        ensures empty { (self.new.passes.items ≡ []) × (self.new.scripts.items ≡ []) }
        ensures each { vec_len self.new.workers ≡ vec_len self.old.scripts }
        ensures hired { (batch : Batch) → AreScripts batch self.old.scripts.items
            → AreHired shared.now batch (vec_len self.old.scripts) self.new.workers.items }
        ensures room { (vec_len self.new.workers < vec_capacity self.new.passes)
            × (vec_len self.new.workers ≤ vec_capacity self.new.scripts) }
    {
        shared.split_all(first, &mut self.passes, self.scripts.len());
        while let Some(pass) = self.passes.pop() {
            let Some(script) = self.scripts.pop() else {
                unreachable!()
            };
            let number = pass.number();
            self.workers
                .push_reserved(Worker::new(number, Caller::new(pass), script));
        }
    }

    /// Takes the passes and the scripts back, from caller 1 on, and tells whether the lines of all callers are done. It
    /// takes no memory.
    fn dismiss(&mut self) -> bool
        requires back { (shared : SharedFacts (Shown P)) × (batch : Batch)
            × AreBack shared batch (vec_len self.old.workers) self.old.workers.items }
        requires empty { (self.old.passes.items ≡ []) × (self.old.scripts.items ≡ []) }
        requires room { (vec_len self.old.workers < vec_capacity self.old.passes)
            × (vec_len self.old.workers ≤ vec_capacity self.old.scripts) }
        ensures empty { self.new.workers.items ≡ [] }
        ensures each { (vec_len self.new.passes ≡ vec_len self.old.workers)
            × (vec_len self.new.scripts ≡ vec_len self.old.workers) }
        ensures room { vec_len self.new.passes < vec_capacity self.new.passes }
        ensures returned { (shared : SharedFacts (Shown P)) (batch : Batch)
            → AreBack shared batch (vec_len self.old.workers) self.old.workers.items
            → AreReturned shared batch self.new.passes.items self.new.scripts.items }
        ensures numbered { AreNumbered self.new.passes.items }
        ensures ended { result ≡ true → AreEnded self.new.scripts.items }
    {
        let mut finished = true;
        while let Some(worker) = self.workers.pop() {
            finished = both(finished, worker.finished());
            let (caller, script) = worker.into_parts();
            self.passes.push_reserved(caller.into_pass());
            self.scripts.push_reserved(script);
        }
        finished
    }
}

/// A worker makes its calls, in whatever thread. That it found no memory is seen by what it says afterwards.
fn run_one<R: Wait, P: Provider + Send, G: Gate>(
    rt: &R,
    shared: &Shared<Registry<P>>,
    gate: &G,
    worker: &mut Worker<P>,
)
    requires ready { IsReady shared.now worker.old }
    ensures run { HasRun shared.now worker.old worker.new }
{
    let _ended = worker.run(rt, shared, gate);
}

/// Whether both hold.
fn both(first: bool, second: bool) -> bool
    ensures { result ≡ true → (first ≡ true) × (second ≡ true) }
{
    first && second
}

/// All workers at work, each in a thread of its own, until all of them are done.
fn work<R: Threads + Wait + Sync, P: Provider + Send, G: Gate>(
    rt: &R,
    shared: &Shared<Registry<P>>,
    gate: &G,
    workers: &mut Vec<Worker<P>>,
)
    requires ready { All (IsReady shared.now) workers.old.items }
    ensures run { HaveRun shared.now workers.old.items workers.new.items }
    ensures room { (vec_len workers.new ≡ vec_len workers.old) × (vec_capacity workers.new ≡ vec_capacity workers.old) }
{
    let threads = workers.len().max(1);
    for_each_mut(
        rt,
        workers.as_mut_slice(),
        threads,
        &|_place, worker: &mut Worker<P>|
            requires { IsReady shared.now worker.old }
            ensures { HasRun shared.entry.now worker.old worker.new }
        { run_one(rt, shared, gate, worker) },
    );
}
