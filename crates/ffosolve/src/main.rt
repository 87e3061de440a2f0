//! The program `ffosolve`: passes arguments, streams and allocator to `suite_solver`.
#![tactic(auto)]

use std::env::Env;
use std::{env, io};
use suite_solver::{ExitStatus, program_of};

// The words of the command line, the program's name first.
fn words_of(rt: &(impl Env + AllocGlobal)) -> io::Result<Vec<String>> {
    Ok(env::args(rt)?.collect(rt.alloc())?)
}

fn main(rt: HostRuntime) -> ExitStatus {
    let (mut input, mut output, mut errors) = (rt.stdin(), rt.stdout(), rt.stderr());
    let words = words_of(&rt);
    program_of(&rt, rt.alloc(), words, &mut input, &mut output, &mut errors)
}
