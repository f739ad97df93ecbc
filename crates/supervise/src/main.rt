// Standard input to standard output: the input is read whole, and then each block's answer is written before the next block is run.
#![tactic(auto)]

mod pipe;

use pipe::Told;
use std::env::FillError;
use std::io::Input;
use std::rt::{Clock, Env};

// The blocks in turn, until one stops the program, or the output takes no more. A step that does not stop takes at least one byte.
fn run(rt: &(impl Print + Eprint + Clock), input: &[u8]) -> Result<(), Told> {
    let mut lane = [[0u64; lane::ROW_WORDS]; lane::ROWS];
    lane::empty(&mut lane);
    let mut space = [0u8; console::ANSWER_SPACE];
    let mut at: usize = 0;
    for _ in 0..input.len() {
        let out: &mut [u8] = &mut space;
        let s = console::step(&mut lane, input, at, out);
        let n = s.written;
        pipe::write_whole(rt, &space[..n])?;
        if s.stop {
            break;
        }
        at = s.next;
    }
    Ok(())
}

// The space is one byte longer than an input may be. Of a longer one nothing is run.
fn supervise(rt: &(impl Input + Print + Eprint + Clock), space: &mut [u8]) -> Result<(), Told> {
    let n = pipe::read_whole(rt, space)?;
    let mut line = [0u8; console::ANSWER_SPACE];
    let out: &mut [u8] = &mut line;
    let w = console::refuse_long(n, out);
    if w > 0 {
        return pipe::write_whole(rt, &line[..w]);
    }
    run(rt, &space[..n])
}

// Whether there is an argument beside the program's name, be it empty.
fn has_argument(env: &impl Env) -> bool {
    let mut first = [0u8; 1];
    !matches!(env.arg(1, &mut first), Err(FillError::NotPresent))
}

// An argument is refused and not ignored: a file meant for the input would otherwise leave the program waiting for another one.
fn main(rt: HostRuntime) {
    if has_argument(&rt) {
        let _ = rt.eprintln("supervise: takes no arguments; call texts come on standard input");
        return;
    }
    let mut space = [0u8; console::LONGEST_INPUT + 1];
    // A failure to read or to write has been told, and the output is closed all the same.
    let _ = supervise(&rt, &mut space);
    pipe::close_output(&rt);
}
