//! The words of a command line.

ghost use Rattle.std.specs.Prelude.{◌≡◌, map, IfOk};
ghost use Rattle.program_parts.specs.Inputs.{names_of};

use std::alloc::{AllocError, Global};

/// The words as slices, in their order. The only error is out of memory.
pub fn borrow_words(alloc: Global, words: &[String]) -> Result<Vec<&str>, AllocError>
    ensures { IfOk result (λ all. map (λ word. word.now) all.items ≡ names_of words.now) }
{
    let mut borrowed = Vec::new(alloc);
    for word in words {
        borrowed.push(word.as_str())?;
    }
    Ok(borrowed)
}
