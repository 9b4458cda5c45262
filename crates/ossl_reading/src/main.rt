//! Reads a batch text on standard input and tells how much it names: a program for measurements of `Script::parse`.
//! It promises no more than that it ends; what it tells is seen by reading.
#![tactic(auto)]

use ossl_base::{StdSource, read_all};
use ossl_commands::{Limit, Script, ScriptRefused};
use std::io;

#[cfg(test)]
mod tests;

fn main(rt: HostRuntime) -> io::Result<()> {
    let alloc = rt.alloc();
    let mut source = StdSource::new(rt.stdin());
    let Ok(text) = read_all(alloc, &mut source, Limit::Bytes.most()) else {
        return println!(rt; "the text was not read");
    };
    match Script::parse(alloc, text.as_slice()) {
        Ok(script) => {
            let lines = script.lines();
            let commands = script.commands().len();
            let callers = script.callers();
            let contexts = script.contexts();
            let files = script.files().len();
            let fits = script.fits(&[]).is_none();
            println!(rt;
                "lines {lines} commands {commands} callers {callers} contexts {contexts} files {files} fits {fits}"
            )
        }
        Err(ScriptRefused::Line { number, kind }) => {
            let word = kind.word();
            println!(rt; "line {number} {word}")
        }
        Err(ScriptRefused::NoMemory) => println!(rt; "no memory"),
    }
}
