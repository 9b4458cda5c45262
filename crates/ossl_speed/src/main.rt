//! Works out one algorithm on a message, for timing: `ossl_speed ALGORITHM LENGTH COUNT [context]`.
//! The message has LENGTH bytes, byte i being i modulo 256; it is taken in COUNT times from anew, in pieces of
//! 16 KiB, and the last value is printed, of a text its last 64 bytes. Work grows with LENGTH and COUNT.
#![tactic(auto)]

mod aes;
mod algorithm;
mod cipher;
mod context;
mod intake;
mod message;
mod operation;
mod value;
mod words;

use crate::words::Job;
use std::process::ExitCode;
use std::{env, io};

fn main(rt: HostRuntime) -> io::Result<ExitCode> {
    let words: Vec<String> = env::args(&rt)?.skip(1).collect(rt.alloc())?;
    let value = match words::read_job(words.as_slice()) {
        Some(Job::Own(work)) => work.run(rt.alloc())?,
        Some(Job::InContext(work)) => work.run_in_context(rt.alloc())?,
        None => {
            println!(rt; "error usage")?;
            return Ok(ExitCode::from(2));
        }
    };
    let text = hex::encode(rt.alloc(), value.as_slice())?;
    println!(rt; "{text}")?;
    Ok(ExitCode::SUCCESS)
}
