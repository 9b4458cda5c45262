//! Lists of words, and what is answered to them.

use crate::rows::ROWS;
use ossl_words::{Job, WordsRefused, read_words};
use std::alloc::{AllocError, Global};
use std::test::Fail;

/// The words of a line, which stand between spaces; `""` stands for the empty one.
fn words(alloc: Global, line: &str) -> Result<Vec<String>, AllocError> {
    let mut words = Vec::new(alloc);
    if line.is_empty() {
        return Ok(words);
    }
    for word in line.split(' ') {
        let word = if word == "\"\"" { "" } else { word };
        words.push(String::from_str(alloc, word)?)?;
    }
    Ok(words)
}

/// The items of an order, joined by commas.
fn joined(alloc: Global, order: &[u64]) -> Result<String, AllocError> {
    let mut text = String::new(alloc);
    for caller in order {
        if !text.is_empty() {
            text.push(',')?;
        }
        text.push_str(&caller.to_string(alloc)?)?;
    }
    Ok(text)
}

/// What is answered to words: the job, `usage` or `no memory`.
fn answer(alloc: Global, words: &[String], threads: bool) -> Result<String, AllocError> {
    match read_words(alloc, words, threads) {
        Ok(Job::Run { conf, order, .. }) => {
            let order = joined(alloc, order.as_slice())?;
            let conf = match &conf {
                Some(name) => str::from_utf8(name.as_slice()).unwrap_or("?"),
                None => "",
            };
            format!(in alloc; "run [{conf}] [{order}]")
        }
        Ok(
            Job::Gen {
                lines,
                seed,
                callers,
            },
        ) => format!(in alloc; "gen {lines} {seed} {callers}"),
        Err(WordsRefused::Usage) => String::from_str(alloc, "usage"),
        Err(WordsRefused::NoMemory) => String::from_str(alloc, "no memory"),
    }
}

#[test]
fn each_list_of_words_has_its_answer(rt: HostRuntime) -> Result<(), Fail> {
    let alloc = rt.alloc();
    for row in ROWS.lines() {
        let Some((program, row)) = row.split_once('|') else {
            return Err("a row without a program")?;
        };
        let Some((wanted, line)) = row.split_once('|') else {
            return Err("a row without an answer")?;
        };
        let words = words(alloc, line)?;
        let answer = answer(alloc, words.as_slice(), program == "batch")?;
        assert_eq!(rt; answer.as_str(), wanted, "{line}");
    }
    Ok(())
}

#[test]
fn an_order_has_65536_items_at_most(rt: HostRuntime) -> Result<(), Fail> {
    let alloc = rt.alloc();
    for (items, accepted) in [(65_536, true), (65_537, false)] {
        let mut list = String::from_str(alloc, "--order=1")?;
        for _ in 1..items {
            list.push_str(",2")?;
        }
        let run = String::from_str(alloc, "run")?;
        let words = Vec::from_array(alloc, [run, list])?;
        let answer = read_words(alloc, words.as_slice(), false);
        let whole =
            matches!(&answer, Ok(Job::Run { order, .. }) if order.as_slice().len() == items);
        assert_eq!(rt; whole, accepted, "{items} items");
    }
    Ok(())
}
