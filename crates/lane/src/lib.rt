// The lane's calls: load, start, enter, leave, surface, cycle, read, find an opening, lane text, handover; `take_over`, by which a lane begins from a
// text; and `find`, by which they look a carrier number up. A lane is lent and changed in place. A refused call leaves
// every word of the lane as it was, but for a refused `take_over`, which leaves the empty lane.
#![tactic(auto)]

ghost use Rattle.std.specs.Prelude.{◌≡◌, false, [], IfOk};
ghost use Rattle.std.specs.Float.Ieee.Exact.{HasValue};
ghost use Rattle.lane.specs.Refusals.{outcome_no};
ghost use Rattle.lane.specs.Layout.{state_of, with_code, empty_words};
ghost use Rattle.lane.specs.Calls.{named_carrier};
ghost use Rattle.lane.specs.Call.{load_call, start_call, enter_call, leave_call, surface_call, cycle_call, read_call, opening_call, text_call, handover_call, bare, entered, cycled, read_out, opening, listed, Gives};
ghost use Rattle.lane.specs.Given.{GivesWith};
ghost use Rattle.lane.specs.Handover.{TakesOver};

mod given;
mod layout;
mod listing;
mod lookup;
mod motion;
mod openings;
mod places;
mod refusal;
mod rows;
mod rules;
mod table;
mod transfer;
mod weather;

pub use lookup::{Lookup, find};
pub use refusal::Refusal;
use wish::{Reading, Wish};

// Document 01's limits.
pub const LAST_SURFACE: u64 = 7;

// Eight surface codes, each with a row of rates up to the highest, which bounds a carrier's own rate too.
pub const SURFACES: usize = 8;

pub const HIGHEST_RATE: u64 = 255;

pub const FARTHEST_END: u64 = 2147483648;

pub const FASTEST: u64 = 8192;

pub const HIGHEST_NUMBER: u64 = 65535;

// The length of the longest carrier, in units of a position.
pub const LONGEST_CARRIER: u64 = 65535;

pub const MOST_CARRIERS: usize = 64;

pub const LAST_CYCLE: u64 = 18446744073709551615;

// The longest lane text.
pub const LONGEST_TEXT: usize = 3720;

// The keys of a carrier's lines.
pub const CAR: [u8; 4] = *b"car=";

pub const AT: [u8; 3] = *b"at=";

pub const SPEED: [u8; 6] = *b"speed=";

pub const LENGTH: [u8; 7] = *b"length=";

pub const BRAKE: [u8; 6] = *b"brake=";

// The keys of the road's lines, and of the cycle number's.
pub const SURFACE: [u8; 8] = *b"surface=";

pub const END: [u8; 4] = *b"end=";

pub const LIMIT: [u8; 6] = *b"limit=";

pub const CYCLE: [u8; 6] = *b"cycle=";

// A lane's words, in rows; `layout` says which is where.
pub const ROWS: usize = 89;

pub const ROW_WORDS: usize = 8;

pub type Lane = [[u64; ROW_WORDS]; ROWS];

// A terminal's surface rows: guaranteed braking, hardest braking and most acceleration of each code.
pub type Table = [[u64; 3]; SURFACES];

// The position is that of the front; the tail is the length behind it. The rate is its own: it is
// sure to brake at that or at the row's, whichever is smaller.
#[repr(C)]
#[derive(Clone, Copy)]
pub struct Carrier {
    pub number: u64,
    pub position: u64,
    pub speed: u64,
    pub length: u64,
    pub rate: u64,
}

// What is known of a newcomer before it has a number and a place.
#[repr(C)]
#[derive(Clone, Copy)]
pub struct Newcomer {
    pub speed: u64,
    pub length: u64,
    pub rate: u64,
}

// Where a newcomer would enter: directly behind the carrier of a number, or ahead of all.
#[derive(Clone, Copy)]
pub enum Gap {
    Behind(u64),
    AheadOfAll,
}

// What a start gives of the road: its surface code, the lane's end and the speed limit.
#[repr(C)]
#[derive(Clone, Copy)]
pub struct Road {
    pub surface: u64,
    pub end: u64,
    pub limit: u64,
}

// A surface row: guaranteed braking, hardest braking, most acceleration.
#[derive(Clone, Copy)]
pub struct Row {
    pub guaranteed: u32,
    pub hardest: u32,
    pub most: u32,
}

// What a carrier does in a cycle: whether its wish is replaced, and what is driven.
#[derive(Clone, Copy)]
pub struct Drive {
    pub replaced: bool,
    pub acceleration: i64,
}

// What a cycle did: the word of the wishes replaced, how many they are, and how many carriers are gone.
#[derive(Clone, Copy)]
pub struct Cycled {
    pub word: u64,
    pub replaced: u32,
    pub gone: u32,
}

// The lowest and the highest position at which a newcomer could enter.
#[derive(Clone, Copy)]
pub struct Opening {
    pub lowest: u64,
    pub highest: u64,
}

// An empty lane that was never started, with the house rows.
pub fn empty(l: &mut Lane)
    ensures { l.new ≡ empty_words }
{
    layout::clear(l);
}

// Surface rows as text, for the next start.
pub fn load(l: &mut Lane, text: &[u8]) -> Result<(), Refusal>
    ensures { Gives (load_call text.now) l.old (bare (outcome_no result) []) l.new }
{
    let table = rules::check_load(l, table::loaded(text))?;
    layout::put_next(l, table);
    Ok(())
}

pub fn start(l: &mut Lane, road: Road, first: u64) -> Result<(), Refusal>
    ensures { Gives (start_call road first) l.old (bare (outcome_no result) []) l.new }
{
    rules::check_start(l, road)?;
    layout::put_in_force(l);
    layout::put_figures(
        l,
        layout::Figures {
            started: true,
            road,
            cycle: first,
            count: 0,
        },
    );
    Ok(())
}

// The place that the newcomer takes.
pub fn enter(l: &mut Lane, c: Carrier) -> Result<usize, Refusal>
    ensures { Gives (enter_call c) l.old (entered result) l.new }
{
    let place = rules::check_enter(l, c)?;
    places::insert(l, place, c);
    Ok(place)
}

pub fn leave(l: &mut Lane, number: u64) -> Result<(), Refusal>
    ensures { Gives (leave_call number) l.old (bare (outcome_no result) []) l.new }
{
    let place = rules::check_named(l, number)?;
    places::remove(l, place);
    Ok(())
}

// Another surface code between cycles.
pub fn surface(l: &mut Lane, code: u64) -> Result<(), Refusal>
    ensures given { Gives (surface_call code) l.old (bare (outcome_no result) []) l.new }
    ensures words { outcome_no result ≡ 0 → l.new ≡ with_code code l.old }
{
    weather::check_surface(l, code)?;
    layout::put_code(l, code);
    Ok(())
}

// Position and speed of a carrier as doubles.
pub fn read(l: &Lane, number: u64) -> Result<Reading, Refusal>
    ensures given { Gives (read_call number) l.now (read_out result) l.now }
    ensures exact { IfOk result (λ reading. HasValue reading.position false (named_carrier (state_of l.now) number).position 2048 × HasValue reading.speed false (named_carrier (state_of l.now) number).speed 128) }
{
    let place = rules::check_named(l, number)?;
    let c = layout::carrier_at(l, place);
    Ok(wish::reading_of(rules::narrow(c.position), rules::narrow(c.speed)))
}

// Where in a gap a newcomer could enter, if anywhere.
pub fn find_opening(l: &Lane, gap: Gap, newcomer: Newcomer) -> Result<Option<Opening>, Refusal>
    ensures { Gives (opening_call gap newcomer) l.now (opening result) l.now }
{
    let place = openings::check_opening(l, gap, newcomer)?;
    Ok(openings::opening_at(l, place, newcomer))
}

// The lane text into a lent buffer, and its length.
pub fn lane_text(l: &Lane, out: &mut [u8]) -> Result<usize, Refusal>
    ensures { Gives (text_call out.old) l.now (listed result out.new) l.now }
{
    rules::check_sound(l)?;
    if listing::longer_than(l, out.len()) {
        return Err(Refusal::TextBufferTooShort);
    }
    Ok(listing::put_text(l, out, 0))
}

// The whole lane as text into a lent buffer, and its length.
pub fn handover(l: &Lane, out: &mut [u8]) -> Result<usize, Refusal>
    ensures { Gives (handover_call out.old) l.now (listed result out.new) l.now }
{
    rules::check_sound(l)?;
    if out.len() < transfer::text_length(l) {
        return Err(Refusal::TextBufferTooShort);
    }
    Ok(transfer::put_text(l, out))
}

// A lane from the text of a handover, whatever the lent one holds; a refused text leaves the empty lane.
pub fn take_over(l: &mut Lane, text: &[u8]) -> Result<(), Refusal>
    ensures { TakesOver text.now (outcome_no result) l.new }
{
    let taken = match transfer::read(l, text) {
        Some(()) => rules::check_lane(l),
        None => Err(Refusal::HandoverMalformed),
    };
    if taken.is_err() {
        layout::clear(l);
    }
    taken
}

// One cycle. The first `count` wishes are looked at.
pub fn cycle(l: &mut Lane, count: usize, wishes: [Wish; 64]) -> Result<Cycled, Refusal>
    ensures { Gives (cycle_call count wishes) l.old (cycled result) l.new }
{
    rules::check_ready(l, count)?;
    let units = motion::convert(l, count, wishes)?;
    Ok(motion::run(l, count, &units))
}

// One cycle, with wishes as two arrays, of sorts and of values, of which the first `count` are looked at.
pub fn cycle_given(
    l: &mut Lane,
    count: usize,
    sorts: &[u8],
    values: &[u32],
) -> Result<Cycled, Refusal>
    ensures { GivesWith l.old count sorts.now values.now (cycled result) l.new }
{
    rules::check_ready(l, count)?;
    let units = given::convert(l, count, sorts, values)?;
    Ok(motion::run(l, count, &units))
}
