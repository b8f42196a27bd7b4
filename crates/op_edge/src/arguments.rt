ghost use Rattle.std.specs.Prelude.{◌≡◌, [], drop, IfOk, IfErr};
ghost use Rattle.std.specs.Vec.Iter.{into_iter_items};

use std::alloc::{AllocError, Global};
use std::env::Args;
use std::io::{self, ErrorKind};

/// The words after the program's name, from the process's arguments. Where these aren't all text there are
/// none, which is no command; `AllocError` is want of memory, here or where the arguments were read.
pub fn words(alloc: Global, given: io::Result<Args>) -> Result<Vec<String>, AllocError>
    ensures all { IfOk given (λ args. IfOk result (λ words. words.items ≡ drop 1 (into_iter_items args))) }
    ensures none { IfErr given (λ _. IfOk result (λ words. words.items ≡ [])) }
{
    match given {
        Ok(args) => after_first(alloc, args),
        Err(error) if error.kind() == ErrorKind::OutOfMemory => Err(AllocError),
        Err(_) => Ok(Vec::new(alloc)),
    }
}

/// All arguments but the first.
fn after_first(alloc: Global, mut args: Args) -> Result<Vec<String>, AllocError>
    ensures { IfOk result (λ words. words.items ≡ drop 1 (into_iter_items args)) }
{
    let mut words = Vec::new(alloc);
    args.next();
    for word in args {
        words.push(word)?;
    }
    Ok(words)
}
