//! The program `ffoscores`: passes arguments, streams and allocator to `ffoscores_program`.
#![tactic(auto)]

use ffoscores_program::{ExitStatus, list_program_of};
use std::env::Env;
use std::{env, io};

// The words of the command line, the program's name first.
fn words_of(rt: &(impl Env + AllocGlobal)) -> io::Result<Vec<String>> {
    Ok(env::args(rt)?.collect(rt.alloc())?)
}

fn main(rt: HostRuntime) -> ExitStatus {
    let (mut input, mut output, mut errors) = (rt.stdin(), rt.stdout(), rt.stderr());
    let words = words_of(&rt);
    list_program_of(&rt, rt.alloc(), words, &mut input, &mut output, &mut errors)
}
