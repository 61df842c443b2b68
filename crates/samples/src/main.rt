// Works through the list of commands on standard input: phrase files, builds, encoders, counters, decoding. Each
// command that calls the library prints its answer, and whether the lent buffers hold what document 01 says beside
// it. README.md lists the commands, and says where the list and what must be printed for it come from. Edges of the
// phrase file are lines of the list and not a program of their own, because programs take more of the gate's proofs
// than the library.
#![tactic(auto)]

mod buffers;
mod commands;
mod fields;
mod files;
mod held;
mod lists;
mod saying;
mod script;

use crate::fields::read_line;
use crate::held::Held;
use crate::script::Script;
use std::io;
use std::io::{BufRead, BufReader};

// Works through the commands of an input: at most a million lines of at most 32,768 bytes.
fn run(rt: &impl Print, input: &mut impl BufRead) -> io::Result<()> {
    let mut script = Script::new();
    let mut line = Held::new();
    for _ in 0..1000000usize {
        if !read_line(input, &mut line)? {
            return Ok(());
        }
        script.obey(rt, line.all())?;
    }
    Ok(())
}

fn main(rt: HostRuntime) -> io::Result<()> {
    let mut input = BufReader::new(rt.alloc(), rt.stdin())?;
    run(&rt, &mut input)
}
