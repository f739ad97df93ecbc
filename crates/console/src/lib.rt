// The program's text handling: blocks of lines read, run on a lent lane, and their answers printed into a lent buffer.
#![tactic(auto)]

mod blocks;
mod reading;
mod runs;

ghost use Rattle.std.specs.Prelude.{◌≡◌, true, ◌≤◌, length, drop};
ghost use Rattle.text.specs.Lines.{written, place_after};
ghost use Rattle.lane.specs.Layout.{state_of};
ghost use Rattle.console.specs.Program.{length_answer, step_into, StepGives};

use lane::Lane;
use text::Lines;

// The most bytes of an input.
pub const LONGEST_INPUT: usize = 65536;

// The bytes of a buffer that every answer fits into.
pub const ANSWER_SPACE: usize = 4096;

// The place after the block, the bytes put into the buffer, the number by which the step itself is refused, or 0, and whether the program
// stops there. A refused block's number is in its answer: the step has then done what it is for.
#[repr(C)]
#[derive(Clone, Copy)]
pub struct Stepped {
    pub next: usize,
    pub written: usize,
    pub no: u32,
    pub stop: bool,
}

fn halted(at: usize, no: u32) -> Stepped
    ensures { result ≡ record { next = at; written = 0; no = no; stop = true } }
{
    Stepped {
        next: at,
        written: 0,
        no,
        stop: true,
    }
}

// The refusal of an input of so many bytes, put at the buffer's start, if it is too long and the line fits: the bytes put. No block of such
// an input is run.
pub fn refuse_long(bytes: usize, out: &mut [u8]) -> usize
    ensures buffer { out.new ≡ written 0 (length_answer bytes) out.old }
    ensures length { result ≡ place_after 0 (length_answer bytes) out.old }
    ensures room { result ≤ length out.old }
{
    if LONGEST_INPUT < bytes {
        return runs::put_refusal(10, out);
    }
    0
}

// The block at a place of the input: read whole, run on the lane, and its answer put at the buffer's start. 8 is printed where there is none, and
// the place is then as it was.
pub fn step(l: &mut Lane, input: &[u8], at: usize, out: &mut [u8]) -> Stepped
    ensures { StepGives l.old (step_into out.old (state_of l.old) (drop at input.now)) at out.old result l.new out.new }
{
    if out.len() < ANSWER_SPACE {
        return halted(at, 13);
    }
    if input.len() <= at {
        return halted(at, 0);
    }
    let mut lines = Lines::at(input, at);
    match blocks::block(l, &mut lines, out) {
        Some(written) => Stepped {
            next: input.len() - lines.rest.len(),
            written,
            no: 0, // a refused block's is printed
            stop: false,
        },
        None => Stepped {
            next: at,
            written: runs::put_refusal(8, out),
            no: 0, // the block's own is printed
            stop: true,
        },
    }
}
