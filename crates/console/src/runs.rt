// Blocks that were read whole, run on the lane. The answer is put at the start of the buffer, which is long enough for each: the bytes put.
ghost use Rattle.std.specs.Prelude.{◌≡◌, ◌≤◌, length};
ghost use Rattle.text.specs.Lines.{written, place_after};
ghost use Rattle.lane.specs.Refusals.{outcome_no};
ghost use Rattle.lane.specs.Calls.{if_accepted};
ghost use Rattle.lane.specs.Call.{enter_call, cycle_call};
ghost use Rattle.console.specs.Limits.{answer_space};
ghost use Rattle.console.specs.Blocks.{show_call};
ghost use Rattle.console.specs.Output.{refusal};
ghost use Rattle.console.specs.Program.{Puts, CallGives};

use lane::{Carrier, Lane, Refusal};
use wish::Wish;

// A refusal's line at the buffer's start, if it fits: the bytes put.
pub(crate) fn put_refusal(no: u32, out: &mut [u8]) -> usize
    ensures out_after { out.new ≡ written 0 (refusal no) out.old }
    ensures value { result ≡ place_after 0 (refusal no) out.old }
{
    text::put_decimal_line(out, 0, b"no=", no as u64)
}

// The answer of a call that prints one line where it is accepted.
pub(crate) fn put_answer(done: Result<(), Refusal>, line: &[u8], out: &mut [u8]) -> usize
    requires { (answer_space ≤ length out.old) × (length line.now ≤ answer_space) }
    ensures { Puts (if_accepted (outcome_no done) line.now (refusal (outcome_no done))) out.old result out.new }
{
    match done {
        Ok(()) => text::put_bytes(out, 0, line),
        Err(why) => put_refusal(why.number(), out),
    }
}

pub(crate) fn run_enter(l: &mut Lane, c: Carrier, out: &mut [u8]) -> usize
    requires { answer_space ≤ length out.old }
    ensures { CallGives l.old (enter_call c) out.old result l.new out.new }
{
    match lane::enter(l, c) {
        Ok(place) => {
            let first = text::put_bytes(out, 0, b"ok=enter\n");
            text::put_decimal_line(out, first, b"place=", place as u64)
        }
        Err(why) => put_refusal(why.number(), out),
    }
}

pub(crate) fn run_cycle(l: &mut Lane, count: usize, wishes: [Wish; 64], out: &mut [u8]) -> usize
    requires { answer_space ≤ length out.old }
    ensures { CallGives l.old (cycle_call count wishes) out.old result l.new out.new }
{
    match lane::cycle(l, count, wishes) {
        Ok(cycled) => {
            let first = text::put_bytes(out, 0, b"ok=cycle\n");
            let second = text::put_hexadecimal_line(out, first, b"over=", cycled.word);
            text::put_decimal_line(out, second, b"gone=", cycled.gone as u64)
        }
        Err(why) => put_refusal(why.number(), out),
    }
}

pub(crate) fn run_show(l: &Lane, out: &mut [u8]) -> usize
    requires { answer_space ≤ length out.old }
    ensures { CallGives l.now show_call out.old result l.now out.new }
{
    match lane::lane_text(l, &mut out[8..]) {
        Ok(length) => text::put_bytes(out, 0, b"ok=show\n") + length,
        Err(why) => put_refusal(why.number(), out),
    }
}
