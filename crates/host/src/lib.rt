// The supervisor for hosts in C, C++, Rust or Python: each call of the lane under a plain name, on a lane that the host lends.
#![tactic(auto)]

ghost use Rattle.std.specs.Prelude.{◌≡◌, false, [], drop};
ghost use Rattle.std.specs.Float.Ieee.Exact.{HasValue};
ghost use Rattle.lane.specs.Layout.{state_of, with_code, empty_words};
ghost use Rattle.lane.specs.Calls.{named_carrier};
ghost use Rattle.lane.specs.Call.{load_call, start_call, enter_call, leave_call, surface_call, read_call, opening_call, text_call, handover_call, bare, Gives};
ghost use Rattle.lane.specs.Given.{GivesWith};
ghost use Rattle.lane.specs.Handover.{TakesOver};
ghost use Rattle.console.specs.Program.{step_into, StepGives};
ghost use Rattle.host.specs.Answers.{entered, cycled, read_out, opening, listed};
ghost use Rattle.host.specs.Gaps.{gap_given};
ghost use Rattle.host.specs.Version.{version};

mod answers;

pub use answers::{Cycled, Entered, Listed, Opening, ReadOut};
use console::Stepped;
use lane::{Carrier, Gap, Lane, Newcomer, Road};

// For a host to find, before its first call, that its header is that of the library.
#[unsafe(no_mangle)]
pub extern "C" fn rondavitse_version() -> u32
    ensures { result ≡ version }
{
    8
}

#[unsafe(no_mangle)]
pub extern "C" fn rondavitse_empty(l: &mut Lane)
    ensures { l.new ≡ empty_words }
{
    lane::empty(l)
}

// A table of surface rows as text, for the next start.
#[unsafe(no_mangle)]
pub extern "C" fn rondavitse_load(l: &mut Lane, text: &[u8]) -> u32
    ensures { Gives (load_call text.now) l.old (bare result []) l.new }
{
    answers::number(lane::load(l, text))
}

#[unsafe(no_mangle)]
pub extern "C" fn rondavitse_start(l: &mut Lane, road: Road, first: u64) -> u32
    ensures { Gives (start_call road first) l.old (bare result []) l.new }
{
    answers::number(lane::start(l, road, first))
}

#[unsafe(no_mangle)]
pub extern "C" fn rondavitse_enter(l: &mut Lane, c: Carrier) -> Entered
    ensures { Gives (enter_call c) l.old (entered result) l.new }
{
    Entered::from(lane::enter(l, c))
}

#[unsafe(no_mangle)]
pub extern "C" fn rondavitse_leave(l: &mut Lane, number: u64) -> u32
    ensures { Gives (leave_call number) l.old (bare result []) l.new }
{
    answers::number(lane::leave(l, number))
}

// Another surface code between cycles.
#[unsafe(no_mangle)]
pub extern "C" fn rondavitse_surface(l: &mut Lane, surface: u64) -> u32
    ensures given { Gives (surface_call surface) l.old (bare result []) l.new }
    ensures words { result ≡ 0 → l.new ≡ with_code surface l.old }
{
    answers::number(lane::surface(l, surface))
}

#[unsafe(no_mangle)]
pub extern "C" fn rondavitse_read(l: &Lane, number: u64) -> ReadOut
    ensures given { Gives (read_call number) l.now (read_out result) l.now }
    ensures exact { result.no ≡ 0 → HasValue result.reading.position false (named_carrier (state_of l.now) number).position 2048 × HasValue result.reading.speed false (named_carrier (state_of l.now) number).speed 128 }
{
    ReadOut::from(lane::read(l, number))
}

// An exported function takes no enum: the gap is a flag for the head, and a number.
fn gap_given(head: u64, number: u64) -> Gap
    ensures { result ≡ gap_given head number }
{
    if head == 0 {
        Gap::Behind(number)
    } else {
        Gap::AheadOfAll
    }
}

// Where a newcomer could enter: directly behind the carrier of that number, or where `head` is not 0 ahead of all.
#[unsafe(no_mangle)]
pub extern "C" fn rondavitse_find_opening(
    l: &Lane,
    head: u64,
    number: u64,
    newcomer: Newcomer,
) -> Opening
    ensures { Gives (opening_call (gap_given head number) newcomer) l.now (opening result) l.now }
{
    Opening::from(lane::find_opening(l, gap_given(head, number), newcomer))
}

#[unsafe(no_mangle)]
pub extern "C" fn rondavitse_lane_text(l: &Lane, out: &mut [u8]) -> Listed
    ensures { Gives (text_call out.old) l.now (listed result out.new) l.now }
{
    Listed::from(lane::lane_text(l, out))
}

// The whole lane as text, for another host to take over.
#[unsafe(no_mangle)]
pub extern "C" fn rondavitse_handover(l: &Lane, out: &mut [u8]) -> Listed
    ensures { Gives (handover_call out.old) l.now (listed result out.new) l.now }
{
    Listed::from(lane::handover(l, out))
}

// A lane from such a text, whatever was there; a refused text leaves the empty lane.
#[unsafe(no_mangle)]
pub extern "C" fn rondavitse_take_over(l: &mut Lane, text: &[u8]) -> u32
    ensures { TakesOver text.now result l.new }
{
    answers::number(lane::take_over(l, text))
}

// The wishes come as two arrays, of sorts and of values; the first `count` of each are looked at.
#[unsafe(no_mangle)]
pub extern "C" fn rondavitse_cycle(
    l: &mut Lane,
    count: usize,
    sorts: &[u8],
    values: &[u32],
) -> Cycled
    ensures { GivesWith l.old count sorts.now values.now (cycled result) l.new }
{
    Cycled::from(lane::cycle_given(l, count, sorts, values))
}

// One block of call texts, as the program runs it.
#[unsafe(no_mangle)]
pub extern "C" fn rondavitse_step(l: &mut Lane, input: &[u8], at: usize, out: &mut [u8]) -> Stepped
    ensures { StepGives l.old (step_into out.old (state_of l.old) (drop at input.now)) at out.old result l.new out.new }
{
    console::step(l, input, at, out)
}
