//! Asks the product's parts the same again and again, for timing: `ossl_part_speed PART SIZE COUNT`.
//! `store`: the best of 4 rows of one name, with SIZE rows offered in all. `cache`: the key of 3 clauses that was used
//! longest ago, of SIZE keys, each of a name of its own. `alike`: the same of keys of one name that differ in their
//! last clause. COUNT questions are asked; what is printed sums their answers. `opened`: how many bytes a decryption in
//! GCM gives of COUNT pieces of SIZE bytes, which it holds until the tag is seen; for what it takes of memory.
#![tactic(auto)]

mod cache;
mod opened;
mod store;

use std::alloc::{AllocError, Global};
use std::marker::Brand;
use std::sync::ledger::Blank;
use std::{env, io};

fn number(word: Option<String>) -> Option<u64> {
    word?.as_str().parse().ok()
}

/// The sum of the answers of a part of this size to so many questions.
fn ask(alloc: Global, part: &str, size: u64, count: u64) -> Result<u64, AllocError> {
    if part == "store" {
        store::best_of::<Brand>(alloc, Blank::new(1), size, count)
    } else if part == "opened" {
        opened::opened(alloc, size as usize, count)
    } else {
        cache::recent_of(alloc, part == "alike", size, count)
    }
}

fn main(rt: HostRuntime) -> io::Result<()> {
    let alloc = rt.alloc();
    let mut words = env::args(&rt)?.skip(1);
    let (Some(part), Some(size), Some(count)) = (
        words.next(),
        number(words.next()),
        number(words.next()),
    ) else {
        return println!(rt; "usage: ossl_part_speed PART SIZE COUNT");
    };
    let sum = ask(alloc, part.as_str(), size, count)?;
    println!(rt; "{sum}")
}
