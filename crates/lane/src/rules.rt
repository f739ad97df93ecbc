// The checks of each call, in the document's order, and the rules of a lane behind check 21.
ghost use Rattle.std.specs.Prelude.{◌≡◌, false, not, Some, is_some, IfOk, List, ℕ, ◌+◌, ◌%◌, ◌≤◌, ◌<◌, cond, length, get_or, take};
ghost use Rattle.std.specs.Result.{result_unwrap_or};
ghost use Rattle.std.proofs.Math.Seq.{slice};
ghost use Rattle.headway.specs.Totals.{rest_of};
ghost use Rattle.lane.specs.Refusals.{outcome_no};
ghost use Rattle.lane.specs.Layout.{records_in, state_of};
ghost use Rattle.lane.specs.Safety.{leader, guaranteed_rate, reach_to, safe_with, any_of, numbered};
ghost use Rattle.lane.specs.Rules.{bad_number, bad_rate, road_no, unlawful, past_end, broken, carriers_no, lane_no, values_no, newcomer_no};
ghost use Rattle.lane.specs.Table.{table_in, bad_table, load_no};
ghost use Rattle.lane.specs.Calls.{none, if_accepted, start_no, walk, gap_no, place_no, enter_no, named_no, place_of, ready_no};

use crate::{
    Carrier, FARTHEST_END, FASTEST, HIGHEST_NUMBER, HIGHEST_RATE, LAST_CYCLE, LAST_SURFACE,
    LONGEST_CARRIER, Lane, MOST_CARRIERS, Refusal, Road, Row, Table, layout, lookup, places, rows,
};
use headway::{Rates, Vehicle};

// A number that 32 bits hold, as those of a lawful carrier and of a sound row, or such a position and a length.
pub(crate) fn narrow(x: u64) -> u32
    requires { x < 4294967296 }
    ensures { result ≡ x }
{
    x as u32
}

// The checks of a road.
fn check_road(road: Road) -> Result<(), Refusal>
    ensures { outcome_no result ≡ road_no road }
{
    if LAST_SURFACE < road.surface {
        return Err(Refusal::SurfaceUnknown);
    }
    if (road.end < 1) | (FARTHEST_END < road.end) {
        return Err(Refusal::EndOutOfRange);
    }
    if (road.limit < 1) | (FASTEST < road.limit) {
        return Err(Refusal::LimitOutOfRange);
    }
    Ok(())
}

// The checks of start.
pub(crate) fn check_start(l: &Lane, road: Road) -> Result<(), Refusal>
    ensures { outcome_no result ≡ start_no (state_of l.now) road }
{
    if rows::unsound_in(l, layout::NEXT) {
        return Err(Refusal::LaneUnsound);
    }
    check_road(road)
}

fn bad_number(number: u64) -> bool
    ensures { result ≡ bad_number number }
{
    (number < 1) | (HIGHEST_NUMBER < number)
}

// A carrier's own rate out of its range.
fn bad_rate(rate: u64) -> bool
    ensures { result ≡ bad_rate rate }
{
    (rate < 1) | (HIGHEST_RATE < rate)
}

// A carrier breaks a rule by itself.
fn unlawful(road: Road, c: Carrier) -> bool
    ensures { result ≡ unlawful road c }
{
    bad_number(c.number) | (road.limit < c.speed) | (LONGEST_CARRIER < c.length) | bad_rate(c.rate)
}

// A carrier's tail is at or past the lane end.
pub(crate) fn past_end(road: Road, c: Carrier) -> bool
    ensures { result ≡ past_end road c }
{
    if c.position < c.length {
        return false;
    }
    road.end <= c.position - c.length
}

// The checks of a newcomer's speed, length and own rate.
pub(crate) fn check_values(road: Road, c: Carrier) -> Result<(), Refusal>
    ensures { outcome_no result ≡ values_no road c }
{
    if road.limit < c.speed {
        return Err(Refusal::SpeedAboveLimit);
    }
    if LONGEST_CARRIER < c.length {
        return Err(Refusal::LengthTooLarge);
    }
    if bad_rate(c.rate) {
        return Err(Refusal::RateOutOfRange);
    }
    Ok(())
}

// The checks of all its own values.
fn check_newcomer(road: Road, c: Carrier) -> Result<(), Refusal>
    ensures { outcome_no result ≡ newcomer_no road c }
{
    if bad_number(c.number) {
        return Err(Refusal::NumberOutOfRange);
    }
    if road.end <= c.position {
        return Err(Refusal::PositionPastEnd);
    }
    check_values(road, c)
}

// The rate at which a carrier is sure to brake: its own or the row's, whichever is smaller.
pub(crate) fn guaranteed_rate(row: Row, c: Carrier) -> u32
    ensures { result ≡ guaranteed_rate row c }
{
    if c.rate < row.guaranteed as u64 {
        c.rate as u32
    } else {
        row.guaranteed
    }
}

// What must stay below the position of the carrier ahead: its length is added here, since its tail may lie before the lane's start.
fn reach_to(ahead: Carrier, c: Carrier) -> u32
    requires { c.position + ahead.length < 4294967296 }
    ensures { result ≡ reach_to ahead c }
{
    narrow(c.position + ahead.length)
}

// A lawful carrier by its front.
pub(crate) fn front(c: Carrier) -> Vehicle
    requires { (c.position < 4294967296) × (c.speed < 4294967296) }
    ensures { result ≡ record { position = c.position; speed = c.speed } }
{
    Vehicle {
        position: narrow(c.position),
        speed: narrow(c.speed),
    }
}

// The same by what must stay below the position of the carrier ahead.
pub(crate) fn reach(ahead: Carrier, c: Carrier) -> Vehicle
    requires { (c.position + ahead.length < 4294967296) × (c.speed < 4294967296) }
    ensures { result ≡ record { position = reach_to ahead c; speed = c.speed } }
{
    Vehicle {
        position: reach_to(ahead, c),
        speed: narrow(c.speed),
    }
}

// The rates of a carrier and of the one ahead of it.
pub(crate) fn rates(row: Row, c: Carrier) -> Rates
    ensures { result ≡ record { guaranteed = guaranteed_rate row c; hardest = row.hardest } }
{
    Rates {
        guaranteed: guaranteed_rate(row, c),
        hardest: row.hardest,
    }
}

// Where a lawful carrier comes to rest that brakes at a rate.
fn rest(rate: u32, c: Carrier) -> u64
    requires { (c.position < 4294967296) × (c.speed < 4294967296) }
    ensures { result ≡ rest_of rate c.position c.speed }
{
    front(c).rest(rate)
}

// The follower, whose rest is known, is safe behind the carrier ahead.
fn safe_at(row: Row, ahead: Carrier, c: Carrier, stop: u64) -> bool
    requires bound { ((1 ≤ guaranteed_rate row c) × (1 ≤ row.hardest)) × (stop ≡ rest_of (guaranteed_rate row c) c.position c.speed) }
    requires length_bound { (c.position + ahead.length < 4294967296) × ((ahead.position < 4294967296) × (ahead.speed < 4294967296)) }
    ensures { result ≡ safe_with row (leader ahead) c }
{
    if narrow(ahead.position) <= reach_to(ahead, c) {
        return false;
    }
    // The tail is past the lane's start, since somebody is below it.
    stop < rest(row.hardest, ahead) - ahead.length
}

// The follower is safe behind the carrier ahead.
pub(crate) fn safe(row: Row, ahead: Carrier, c: Carrier) -> bool
    requires bound { (1 ≤ guaranteed_rate row c) × (1 ≤ row.hardest) }
    requires length_bound { (c.position + ahead.length < 4294967296) × ((c.speed < 4294967296) × ((ahead.position < 4294967296) × (ahead.speed < 4294967296))) }
    ensures { result ≡ safe_with row (leader ahead) c }
{
    reach(ahead, c).safe_behind(front(ahead), rates(row, c))
}

// Some carrier from `first` on has the number, of those alike in their low six bits: `next` leads from each of them to the next.
fn linked(l: &Lane, next: &[u8; 64], first: usize, count: usize, number: u64) -> bool
    requires count_bound { (count ≤ 64) × (length (records_in l.now) ≡ 64) }
    requires none_value { first < count → (get_or (records_in l.now) first none).number % 64 ≡ number % 64 }
    requires by_index { (p : ℕ) → first ≤ p → p < count → (get_or (records_in l.now) p none).number % 64 ≡ number % 64 → (p < get_or next.now p 0) × ((any_of (numbered number) (slice (p + 1) count (records_in l.now)) ≡ any_of (numbered number) (slice (get_or next.now p 0) count (records_in l.now))) × (get_or next.now p 0 < count → (get_or (records_in l.now) (get_or next.now p 0) none).number % 64 ≡ number % 64)) }
    ensures { result ≡ any_of (numbered number) (slice first count (records_in l.now)) }
{
    let mut place = first;
    while place < count {
        let c = layout::carrier_at(l, place);
        if c.number == number {
            return true;
        }
        place = usize::from(next[place]);
    }
    false
}

// The checks of the carriers, by the row in force: 36, and 37 where they are not safe but break no other rule. They are looked at from the back. A
// number is searched for among those alike in their low six bits: `first` has the place of the first of each sort so far, and `next` links it to the
// others.
fn check_carriers(l: &Lane, road: Road, row: Row, count: usize) -> Result<(), Refusal>
    requires count_bound { (count ≤ 64) × ((length (records_in l.now) ≡ 64) × (road_no road ≡ 0)) }
    requires le_guaranteed { (1 ≤ row.guaranteed) × (1 ≤ row.hardest) }
    ensures { outcome_no result ≡ carriers_no row road (take count (records_in l.now)) }
{
    let mut behind = layout::no_carrier();
    let mut first: [u8; 64] = [64; 64];
    let mut next: [u8; 64] = [64; 64];
    let mut stop: u64 = 0;
    let mut safe = true;
    for i in (0..count).rev() {
        let c = layout::carrier_at(l, i);
        if unlawful(road, c) | past_end(road, c) {
            return Err(Refusal::HandoverMalformed);
        }
        if i + 1 < count {
            if !safe_at(row, c, behind, stop) {
                safe = false;
            }
        }
        behind = c;
        stop = rest(guaranteed_rate(row, c), c);
        let sort = (c.number % 64) as usize;
        let mark = first[sort];
        if linked(l, &next, usize::from(mark), count, c.number) {
            return Err(Refusal::HandoverMalformed);
        }
        next[i] = mark;
        first[sort] = i as u8;
    }
    if safe {
        return Ok(());
    }
    Err(Refusal::HandoverUnsafe)
}

// What check 21 refuses: 36 for anything but safety, 37 where the lane isn't safe.
pub(crate) fn check_lane(l: &Lane) -> Result<(), Refusal>
    ensures { outcome_no result ≡ lane_no (state_of l.now) }
{
    let f = layout::figures_of(l);
    let road = f.road;
    if !f.started {
        return Err(Refusal::HandoverMalformed);
    }
    if check_road(road).is_err() {
        return Err(Refusal::HandoverMalformed);
    }
    if rows::unsound_in(l, layout::IN_FORCE) | rows::unsound_in(l, layout::NEXT) {
        return Err(Refusal::HandoverMalformed);
    }
    if MOST_CARRIERS < f.count {
        return Err(Refusal::HandoverMalformed);
    }
    check_carriers(l, road, rows::row_in(l, road), f.count)
}

// Check 21.
pub(crate) fn check_sound(l: &Lane) -> Result<(), Refusal>
    ensures { outcome_no result ≡ cond (broken (state_of l.now)) 21 0 }
{
    check_lane(l).or(Err(Refusal::LaneUnsound))
}

// The carriers next to a place: 25 and 26. A position and a length together are to be of 32 bits, and no own rate 0.
fn check_neighbours(
    l: &Lane,
    row: Row,
    count: usize,
    place: usize,
    c: Carrier,
) -> Result<(), Refusal>
    requires place_le_count { (place ≤ count) × ((count ≤ 64) × (length (records_in l.now) ≡ 64)) }
    requires le_guaranteed { ((1 ≤ row.guaranteed) × (1 ≤ row.hardest)) × ((c.position < 4294901760) × ((c.speed < 4294967296) × ((c.length ≤ 65535) × (1 ≤ c.rate)))) }
    requires by_index { (i : ℕ) → i < count → ((get_or (records_in l.now) i none).position < 4294901760) × (((get_or (records_in l.now) i none).speed < 4294967296) × (((get_or (records_in l.now) i none).length ≤ 65535) × (1 ≤ (get_or (records_in l.now) i none).rate))) }
    ensures { outcome_no result ≡ gap_no row place c (take count (records_in l.now)) }
{
    if 0 < place {
        if !safe(row, layout::carrier_at(l, place - 1), c) {
            return Err(Refusal::UnsafeBehindLeader);
        }
    }
    if place < count {
        if !safe(row, c, layout::carrier_at(l, place)) {
            return Err(Refusal::FollowerUnsafe);
        }
    }
    Ok(())
}

// The checks of a place for a newcomer, on a lane that breaks no rule: 22, 23, 25, 26.
fn find_place(l: &Lane, c: Carrier) -> Result<usize, Refusal>
    requires { (broken (state_of l.now) ≡ false) × (newcomer_no (state_of l.now).road c ≡ 0) }
    ensures { (outcome_no result ≡ place_no (state_of l.now) c) × (result_unwrap_or result 0 ≡ if_accepted (place_no (state_of l.now) c) (walk c.position (state_of l.now).carriers) 0) }
{
    let f = layout::figures_of(l);
    let road = f.road;
    let count = f.count;
    if count == MOST_CARRIERS {
        return Err(Refusal::LaneFull);
    }
    let named = lookup::find(l, c.number);
    let found = named.found;
    if let Some(_) = found {
        return Err(Refusal::NumberPresent);
    }
    let place = places::entry_place(l, count, c.position);
    check_neighbours(l, rows::row_in(l, road), count, place, c)?;
    Ok(place)
}

pub(crate) fn check_enter(l: &Lane, c: Carrier) -> Result<usize, Refusal>
    ensures { (outcome_no result ≡ enter_no (state_of l.now) c) × (result_unwrap_or result 0 ≡ if_accepted (enter_no (state_of l.now) c) (walk c.position (state_of l.now).carriers) 0) }
{
    check_sound(l)?;
    let f = layout::figures_of(l);
    check_newcomer(f.road, c)?;
    find_place(l, c)
}

// The checks of leave and read.
pub(crate) fn check_named(l: &Lane, number: u64) -> Result<usize, Refusal>
    ensures { (outcome_no result ≡ named_no (state_of l.now) number) × (result_unwrap_or result 0 ≡ if_accepted (named_no (state_of l.now) number) (place_of number (state_of l.now).carriers) 0) }
{
    check_sound(l)?;
    if bad_number(number) {
        return Err(Refusal::NumberOutOfRange);
    }
    let named = lookup::find(l, number);
    let found = named.found;
    match found {
        Some(place) => Ok(place),
        None => Err(Refusal::NumberAbsent),
    }
}

// The checks of load, which give the table that its text holds, if any. A lane never started counts as empty and sound.
pub(crate) fn check_load(l: &Lane, loaded: Option<Table>) -> Result<Table, Refusal>
    ensures number { (text : List ℕ) → bad_table (table_in text) ≡ not (is_some loaded) → outcome_no result ≡ load_no (state_of l.now) text }
    ensures table { IfOk result (λ table. loaded ≡ Some table) }
{
    let f = layout::figures_of(l);
    if f.started {
        check_sound(l)?;
    }
    let table = loaded.ok_or(Refusal::TableUnsound)?;
    if f.started & (0 < f.count) {
        return Err(Refusal::LaneOccupied);
    }
    Ok(table)
}

// The checks of cycle before the wishes are looked at.
pub(crate) fn check_ready(l: &Lane, count: usize) -> Result<(), Refusal>
    ensures { outcome_no result ≡ ready_no (state_of l.now) count }
{
    check_sound(l)?;
    let f = layout::figures_of(l);
    if count != f.count {
        return Err(Refusal::CountDiffers);
    }
    if f.cycle == LAST_CYCLE {
        return Err(Refusal::CyclesExhausted);
    }
    Ok(())
}
