//! `registry_callers WHAT CALLERS ROUNDS`: so many callers, each in a thread of its own, share one registry with two
//! library contexts, and do so many rounds each. `use`: a caller loads `default`, fetches SHA2-256, makes an operation
//! context, and gives all back. `fetch`: it fetches and gives back, of a provider that is held. `plain`: the same by
//! one caller on the plain registry, for timing.
//! What comes of a run by threads is one legal history. Printed is the number of its entries, the same whatever the
//! schedule, unless memory is wanting.
#![tactic(auto)]

mod hiring;
mod plain;
mod rounds;
mod run;
#[cfg(test)]
mod tests;

ghost use Rattle.std.specs.Prelude.{◌≡◌, ◌≤◌, length, map, IfOk};
ghost use Rattle.ossl_calls.specs.Registry.{IsCatalogue};
ghost use Rattle.ossl_provider.specs.Table.{table_facts, table_sheet};
ghost use Rattle.ossl_rows.specs.Tables.{table_of};

use ossl_provider::TableProvider;
use ossl_rows::{Builtin, builtin};
use rounds::Work;
use run::{MOST, run};
use std::alloc::{AllocError, Global};
use std::marker::Brand;
use std::sync::Wait;
use std::sync::ledger::Blank;
use std::thread::Threads;
use std::{env, io};

fn number(word: Option<String>) -> Option<u64> {
    word?.as_str().parse().ok()
}

/// A catalogue of the provider `default`.
fn catalogue(alloc: Global) -> Result<Vec<TableProvider>, AllocError>
    ensures { IfOk result (λ boxes. IsCatalogue (map table_facts boxes.items) (map table_sheet boxes.items)) }
{
    let boxes = Vec::from_array(alloc, [builtin(alloc, Builtin::Default)?])?;
    Ok(boxes)
}

/// How many entries the history has.
fn answer<R: Threads + Wait + Sync>(
    rt: &R,
    alloc: Global,
    what: &str,
    callers: usize,
    rounds: u64,
) -> Result<usize, AllocError>
    requires few { callers ≤ 16 }
{
    let boxes = catalogue(alloc)?;
    let work = match what {
        "plain" => return plain::run::<Brand, TableProvider>(alloc, Blank::new(1), boxes, rounds),
        "fetch" => Work::Fetch,
        _ => Work::Use,
    };
    let (history, _) = run(rt, alloc, boxes, work, callers, rounds)?;
    Ok(history.len())
}

fn main(rt: HostRuntime) -> io::Result<()> {
    let alloc = rt.alloc();
    let mut words = env::args(&rt)?.skip(1);
    let (Some(what), Some(callers), Some(rounds)) = (
        words.next(),
        number(words.next()),
        number(words.next()),
    ) else {
        return println!(rt; "usage: registry_callers use|fetch|plain CALLERS ROUNDS");
    };
    let callers = callers.min(MOST as u64) as usize;
    let entries = answer(&rt, alloc, what.as_str(), callers, rounds)?;
    println!(rt; "{entries} entries")
}
