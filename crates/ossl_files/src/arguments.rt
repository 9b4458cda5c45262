//! The words that a program is given.

ghost use Rattle.std.specs.Prelude.{◌≡◌, [], IfErr, IfOk};

use std::alloc::{AllocError, Global};
use std::env::Args;
use std::io;
use std::io::ErrorKind;

/// The words after the program's name, of the arguments that `std::env::args` gives. An argument that is not text is
/// no word of a program's, so none are given then. Which words else were given no clause says, since none of
/// `std::env::args` does.
pub fn words(alloc: Global, arguments: io::Result<Args>) -> Result<Vec<String>, AllocError>
    ensures none { IfErr arguments (λ error. IfOk result (λ words. words.items ≡ [])) }
{
    match arguments {
        Ok(arguments) => arguments.skip(1).collect(alloc),
        Err(error) if error.kind() == ErrorKind::OutOfMemory => Err(AllocError),
        Err(_) => Ok(Vec::new(alloc)),
    }
}
