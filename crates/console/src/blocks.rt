// Blocks read from what is left of the input: the bytes put for the answer. Each is read whole before it is run; where it is malformed, nothing is
// run or put.
ghost use Rattle.std.specs.Prelude.{◌≤◌, length};
ghost use Rattle.console.specs.Limits.{answer_space};
ghost use Rattle.console.specs.Blocks.{start_lines, enter_lines, leave_lines, surface_lines, cycle_lines, block_in};
ghost use Rattle.console.specs.Program.{BlockGives};

use crate::reading::read_want;
use crate::runs::{put_answer, run_cycle, run_enter, run_show};
use lane::{Carrier, Lane, Road};
use text::Lines;
use wish::Wish;

const BITS16: u64 = 0xFFFF;

const BITS32: u64 = 0xFFFF_FFFF;

const BITS64: u64 = 0xFFFF_FFFF_FFFF_FFFF;

// What comes after a `call=` line, for each word of it.
fn start_block(l: &mut Lane, lines: &mut Lines, out: &mut [u8]) -> Option<usize>
    requires { answer_space ≤ length out.old }
    ensures { BlockGives l.old (start_lines lines.old.rest.now) lines.old.rest.now out.old result l.new out.new lines.new.rest.now }
{
    let surface = lines.number(&lane::SURFACE, BITS32)?;
    let end = lines.number(&lane::END, BITS32)?;
    let limit = lines.number(&lane::LIMIT, BITS32)?;
    let cycle = lines.number(&lane::CYCLE, BITS64)?;
    let road = Road {
        surface,
        end,
        limit,
    };
    let done = lane::start(l, road, cycle);
    Some(put_answer(done, b"ok=start\n", out))
}

fn enter_block(l: &mut Lane, lines: &mut Lines, out: &mut [u8]) -> Option<usize>
    requires { answer_space ≤ length out.old }
    ensures { BlockGives l.old (enter_lines lines.old.rest.now) lines.old.rest.now out.old result l.new out.new lines.new.rest.now }
{
    let number = lines.number(&lane::CAR, BITS16)?;
    let position = lines.number(&lane::AT, BITS32)?;
    let speed = lines.number(&lane::SPEED, BITS32)?;
    let length = lines.number(&lane::LENGTH, BITS32)?;
    let rate = lines.number(&lane::BRAKE, BITS32)?;
    let c = Carrier {
        number,
        position,
        speed,
        length,
        rate,
    };
    Some(run_enter(l, c, out))
}

fn leave_block(l: &mut Lane, lines: &mut Lines, out: &mut [u8]) -> Option<usize>
    requires { answer_space ≤ length out.old }
    ensures { BlockGives l.old (leave_lines lines.old.rest.now) lines.old.rest.now out.old result l.new out.new lines.new.rest.now }
{
    let number = lines.number(&lane::CAR, BITS16)?;
    let done = lane::leave(l, number);
    Some(put_answer(done, b"ok=leave\n", out))
}

fn surface_block(l: &mut Lane, lines: &mut Lines, out: &mut [u8]) -> Option<usize>
    requires { answer_space ≤ length out.old }
    ensures { BlockGives l.old (surface_lines lines.old.rest.now) lines.old.rest.now out.old result l.new out.new lines.new.rest.now }
{
    let surface = lines.number(&lane::SURFACE, BITS32)?;
    let done = lane::surface(l, surface);
    Some(put_answer(done, b"ok=surface\n", out))
}

fn cycle_block(l: &mut Lane, lines: &mut Lines, out: &mut [u8]) -> Option<usize>
    requires { answer_space ≤ length out.old }
    ensures { BlockGives l.old (cycle_lines lines.old.rest.now) lines.old.rest.now out.old result l.new out.new lines.new.rest.now }
{
    let count = lines.number(b"cars=", 64)? as usize;
    let mut wishes = [Wish::Hold; 64];
    for i in 0..count {
        wishes[i] = read_want(lines)?;
    }
    Some(run_cycle(l, count, wishes, out))
}

// The words are compared one by one: of a byte string's pattern a proof may cite the length alone.
pub(crate) fn block(l: &mut Lane, lines: &mut Lines, out: &mut [u8]) -> Option<usize>
    requires { answer_space ≤ length out.old }
    ensures { BlockGives l.old (block_in lines.old.rest.now) lines.old.rest.now out.old result l.new out.new lines.new.rest.now }
{
    let word = lines.value(b"call=")?;
    if word == b"start".as_slice() {
        return start_block(l, lines, out);
    }
    if word == b"enter".as_slice() {
        return enter_block(l, lines, out);
    }
    if word == b"leave".as_slice() {
        return leave_block(l, lines, out);
    }
    if word == b"cycle".as_slice() {
        return cycle_block(l, lines, out);
    }
    if word == b"show".as_slice() {
        return Some(run_show(l, out));
    }
    if word == b"surface".as_slice() {
        return surface_block(l, lines, out);
    }
    None
}
