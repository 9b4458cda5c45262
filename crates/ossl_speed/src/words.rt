ghost use Rattle.std.specs.Prelude.{◌≡◌, IfOk};
ghost use Rattle.ossl_speed.specs.Bytes.{bytes_of};
ghost use Rattle.ossl_speed.specs.Contexts.{GivesEnd};
ghost use Rattle.ossl_speed.specs.Message.{message};
ghost use Rattle.ossl_speed.specs.Values.{value_of};

use crate::algorithm::{self, Algorithm};
use crate::value::{self, Value};
use crate::{context, message, operation};
use std::alloc::{AllocError, Global};

/// The longest message in bytes.
const LONGEST: usize = 1_073_741_824;

/// What the words ask for: so many times the value of a message of so many bytes.
#[derive(Drop)]
pub struct Work {
    algorithm: Algorithm,
    length: usize,
    count: usize,
}

impl Work {
    /// The last value. Each is worked out from anew.
    pub fn run(&self, alloc: Global) -> Result<Value, AllocError>
        ensures { IfOk result (λ value. bytes_of value ≡ value_of self.now.algorithm (message self.now.length)) }
    {
        let piece = message::piece();
        for _i in 1..self.count {
            value::value_of(alloc, self.algorithm, &piece, self.length)?;
        }
        value::value_of(alloc, self.algorithm, &piece, self.length)
    }

    /// The last bytes of what the algorithm gives through an operation context, the last of as many contexts.
    pub fn run_in_context(&self, alloc: Global) -> Result<Value, AllocError>
        ensures { IfOk result (λ value. GivesEnd self.now.algorithm (message self.now.length) (bytes_of value)) }
    {
        let piece = message::piece();
        let code = operation::code_of(self.algorithm);
        let inner = operation::inner_of(self.algorithm);
        let params = operation::params_of(alloc, self.algorithm, &piece)?;
        for _i in 1..self.count {
            context::end_in_context(alloc, code, inner, &params, &piece, self.length)?;
        }
        let end = context::end_in_context(alloc, code, inner, &params, &piece, self.length)?;
        Ok(Value::Text(end))
    }
}

/// How a work is done: by the algorithm's own type, or through an operation context.
#[derive(Drop)]
pub enum Job {
    Own(Work),
    InContext(Work),
}

/// The work that three words name, or with a fourth word, `context`, through an operation context.
pub fn read_job(words: &[String]) -> Option<Job> {
    if let [name, length, count, way] = words {
        if way.as_str() != "context" {
            return None;
        }
        let work = work_of(name.as_str(), length.as_str(), count.as_str())?;
        return Some(Job::InContext(work));
    }
    let [name, length, count] = words else {
        return None;
    };
    let work = work_of(name.as_str(), length.as_str(), count.as_str())?;
    Some(Job::Own(work))
}

// The work of an algorithm, a length of at most 1,073,741,824 bytes, in whole blocks where it wants those, and a count
// of at least 1.
fn work_of(name: &str, length: &str, count: &str) -> Option<Work> {
    let algorithm = algorithm::named(name)?;
    let length = number(length)?;
    let count = number(count)?;
    if length > LONGEST || count == 0 || (algorithm.wants_whole_blocks() && length % 16 != 0) {
        return None;
    }
    Some(Work {
        algorithm,
        length,
        count,
    })
}

// A number in decimal digits alone.
fn number(word: &str) -> Option<usize> {
    if word.bytes().all(|b| b.is_ascii_digit()) {
        word.parse::<usize>().ok()
    } else {
        None
    }
}
