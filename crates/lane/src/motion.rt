// One cycle of all carriers: their wishes in units, what each drives, where that leads, and who is left.
ghost use Rattle.std.specs.Prelude.{◌≡◌, false, IfOk, cond, ◌+◌, ◌*◌, ◌^◌, ◌≤◌, ◌<◌, pos, ◌+ℤ◌, length, get_or, take, set};
ghost use Rattle.headway.specs.Motion.{speed_after};
ghost use Rattle.wish.specs.Units.{units_of};
ghost use Rattle.lane.specs.Refusals.{outcome_no};
ghost use Rattle.lane.specs.Layout.{figures_in, tables_in, records_in, state_of};
ghost use Rattle.lane.specs.Safety.{nobody, leader, guaranteed_rate};
ghost use Rattle.lane.specs.Rules.{road_no, past_end, faulty};
ghost use Rattle.lane.specs.Wishes.{wished_units, any_outside, stands, drive, drives, moved, all_moved, bit, replaced_in, word_of, count_of, remaining};
ghost use Rattle.lane.specs.Calls.{none, at_cycle, with_carriers, drives_with, left_after, ready_no};

use crate::{Carrier, Cycled, Drive, Lane, Refusal, Road, Row, layout, rows, rules};
use wish::Wish;

// The units of the carrier at a place by its wish; none for a float outside its range.
pub(crate) fn units_at(l: &Lane, place: usize, w: Wish) -> Option<i32>
    requires { (place < 64) × ((get_or (records_in l.now) place none).speed ≤ 8192) }
    ensures { result ≡ units_of w (get_or (records_in l.now) place none).speed }
{
    let c = layout::carrier_at(l, place);
    wish::units(w, rules::narrow(c.speed)).map(|z| z as i32)
}

// The wishes of `count` carriers in units. Refused by 7 is a float outside its range.
pub(crate) fn convert(l: &Lane, count: usize, wishes: [Wish; 64]) -> Result<[i32; 64], Refusal>
    requires { ready_no (state_of l.now) count ≡ 0 }
    ensures number { outcome_no result ≡ cond (any_outside (take count (records_in l.now)) (take count wishes)) 7 0 }
    ensures units { IfOk result (λ units. take count units ≡ wished_units (take count (records_in l.now)) (take count wishes)) }
{
    let mut units = [0i32; 64];
    for i in 0..count {
        let Some(z) = units_at(l, i, wishes[i]) else {
            return Err(Refusal::FloatOutOfRange);
        };
        units[i] = z;
    }
    Ok(units)
}

// The speed to which an acceleration leads.
fn next_speed(c: Carrier, acceleration: i64) -> u32
    requires { (pos c.speed +ℤ acceleration ≡ pos (speed_after c.speed acceleration)) × ((speed_after c.speed acceleration ≤ 8192) × (c.speed < 4294967296)) }
    ensures { result ≡ speed_after c.speed acceleration }
{
    ((rules::narrow(c.speed) as i64) + acceleration) as u32
}

// The trimmed wish w of the carrier stands; `ahead` counts unless the carrier is the foremost.
fn wish_stands(row: Row, foremost: bool, ahead: Carrier, c: Carrier, w: i64) -> bool
    requires bound { (1 ≤ guaranteed_rate row c) × (1 ≤ row.hardest) }
    requires w_value { (pos c.speed +ℤ w ≡ pos (speed_after c.speed w)) × (speed_after c.speed w ≤ 8192) }
    requires length_bound { (c.position + ahead.length < 4294967296) × ((c.speed < 4294967296) × ((ahead.position < 4294967296) × (ahead.speed < 4294967296))) }
    ensures { result ≡ stands row (cond foremost nobody (leader ahead)) c w }
{
    if foremost {
        return true;
    }
    if w <= headway::braking(rules::guaranteed_rate(row, c), rules::narrow(c.speed)) {
        return true;
    }
    rules::reach(ahead, c).rests_behind(w, rules::front(ahead), rules::rates(row, c))
}

fn drive_one(row: Row, limit: u64, foremost: bool, ahead: Carrier, c: Carrier, units: i64) -> Drive
    requires bound { ((1 ≤ guaranteed_rate row c) × (1 ≤ row.hardest)) × ((c.speed ≤ limit) × (limit ≤ 8192)) }
    requires length_bound { (c.position + ahead.length < 4294967296) × ((ahead.position < 4294967296) × (ahead.speed < 4294967296)) }
    ensures value { result ≡ drive row limit (cond foremost nobody (leader ahead)) c units }
    ensures acceleration_value { (pos c.speed +ℤ result.acceleration ≡ pos (speed_after c.speed result.acceleration)) × (speed_after c.speed result.acceleration ≤ limit) }
{
    let v = rules::narrow(c.speed);
    let trimmed = wish::trimmed(units, v, row.hardest, row.most, rules::narrow(limit));
    if wish_stands(row, foremost, ahead, c, trimmed) {
        return Drive {
            replaced: false,
            acceleration: trimmed,
        };
    }
    Drive {
        replaced: true,
        acceleration: headway::braking(rules::guaranteed_rate(row, c), v),
    }
}

fn move_one(c: Carrier, acceleration: i64) -> Carrier
    requires { (pos c.speed +ℤ acceleration ≡ pos (speed_after c.speed acceleration)) × ((speed_after c.speed acceleration ≤ 8192) × ((c.position < 4294967296) × (c.speed < 4294967296))) }
    ensures { result ≡ moved c acceleration }
{
    let next = next_speed(c, acceleration);
    Carrier {
        number: c.number,
        position: rules::front(c).reached(next),
        speed: next as u64,
        length: c.length,
        rate: c.rate,
    }
}

// The word with bit i set if the flag is, and no bit set from there on before.
fn marked(word: u64, i: usize, flag: bool) -> u64
    requires { (i < 64) × (word < 2 ^ i) }
    ensures { result ≡ word + bit flag * 2 ^ i }
{
    if flag { word | (1u64 << i) } else { word }
}

// How many carriers are left, and the word.
#[derive(Clone, Copy)]
pub(crate) struct Left {
    pub(crate) count: usize,
    pub(crate) word: u64,
}

// A carrier that has moved put behind the `left` ones that are left, unless it is gone; how many are left then.
fn keep(l: &mut Lane, road: Road, left: usize, c: Carrier) -> usize
    requires { left < 64 }
    ensures l_unchanged { (figures_in l.new ≡ figures_in l.old) × (tables_in l.new ≡ tables_in l.old) }
    ensures l_after { records_in l.new ≡ cond (past_end road c) (records_in l.old) (set (records_in l.old) left c) }
    ensures value { result ≡ cond (past_end road c) left (left + 1) }
{
    if rules::past_end(road, c) {
        return left;
    }
    layout::put_carrier(l, left, c);
    left + 1
}

// All carriers driven: a record is read before the one that takes its place is put.
fn drive_all(l: &mut Lane, road: Road, row: Row, count: usize, units: &[i32; 64]) -> Left
    requires count_bound { (count ≤ 64) × ((road_no road ≡ 0) × (faulty row road (take count (records_in l.old)) ≡ false)) }
    requires l_len { (length (records_in l.old) ≡ 64) × ((1 ≤ row.guaranteed) × (1 ≤ row.hardest)) }
    ensures word_value { result.word ≡ word_of (replaced_in (drives row road.limit nobody (take count (records_in l.old)) (take count units.now))) }
    ensures l_after { take result.count (records_in l.new) ≡ remaining road (all_moved (take count (records_in l.old)) (drives row road.limit nobody (take count (records_in l.old)) (take count units.now))) }
    ensures count_le_count { (result.count ≤ count) × (((figures_in l.new ≡ figures_in l.old) × (tables_in l.new ≡ tables_in l.old)) × (length (records_in l.new) ≡ 64)) }
{
    // Nobody is ahead of the foremost carrier, so that any record will do at first.
    let mut ahead = layout::no_carrier();
    let mut left: usize = 0;
    let mut word: u64 = 0;
    for i in 0..count {
        let c = layout::carrier_at(l, i);
        let d = drive_one(row, road.limit, i == 0, ahead, c, units[i] as i64);
        word = marked(word, i, d.replaced);
        left = keep(l, road, left, move_one(c, d.acceleration));
        ahead = c;
    }
    Left { count: left, word }
}

// A cycle of a lane that is ready for it, with the wishes in units.
pub(crate) fn run(l: &mut Lane, count: usize, units: &[i32; 64]) -> Cycled
    requires { ready_no (state_of l.old) count ≡ 0 }
    ensures word_value { result.word ≡ word_of (replaced_in (drives_with (state_of l.old) (take count units.now))) }
    ensures replaced_value { result.replaced ≡ count_of (replaced_in (drives_with (state_of l.old) (take count units.now))) }
    ensures l_after { result.gone + (state_of l.new).count ≡ count }
    ensures l_after_2 { state_of l.new ≡ at_cycle ((state_of l.old).cycle + 1) (with_carriers (state_of l.old) (left_after (state_of l.old) (drives_with (state_of l.old) (take count units.now)))) }
{
    let f = layout::figures_of(l);
    let road = f.road;
    let row = rows::row_in(l, road);
    let left = drive_all(l, road, row, count, units);
    layout::put_count(l, f.cycle + 1, left.count);
    Cycled {
        word: left.word,
        replaced: u64::count_ones(left.word),
        gone: (count - left.count) as u32,
    }
}
