// Where a newcomer could enter, reckoned from stopping distances.
ghost use Rattle.std.specs.Prelude.{◌≡◌, Bool, false, not, ◌&&◌, ℕ, ◌-◌, ◌≤◌, ◌<◌, leb, ltb, length, get_or};
ghost use Rattle.std.specs.Result.{result_unwrap_or};
ghost use Rattle.headway.specs.Stopping.{stopping_distance};
ghost use Rattle.lane.specs.Limits.{positions};
ghost use Rattle.lane.specs.Refusals.{outcome_no};
ghost use Rattle.lane.specs.Surface.{row_in};
ghost use Rattle.lane.specs.Layout.{state_of};
ghost use Rattle.lane.specs.Safety.{leader, safe_with};
ghost use Rattle.lane.specs.Rules.{values_no, broken};
ghost use Rattle.lane.specs.Calls.{none, if_accepted, ahead_of};
ghost use Rattle.lane.specs.Opening.{newcomer_at, gap_place, opens, span_of, gap_named_no, opening_no};
ghost use Rattle.lane.specs.Call.{span_in};

use crate::{Carrier, Gap, Lane, Newcomer, Opening, Refusal, Row, layout, rows, rules};
use headway::Vehicle;

// A newcomer at the lane's start, as the checks of an entry take it.
fn at_start(n: Newcomer) -> Carrier
    ensures { result ≡ newcomer_at n 0 }
{
    Carrier {
        number: 0,
        position: 0,
        speed: n.speed,
        length: n.length,
        rate: n.rate,
    }
}

// The checks of the gap that is asked for, 21, 4 and 24, and the place of who enters there.
fn check_gap(l: &Lane, gap: Gap) -> Result<usize, Refusal>
    ensures { (outcome_no result ≡ gap_named_no (state_of l.now) gap) × (result_unwrap_or result 0 ≡ if_accepted (gap_named_no (state_of l.now) gap) (gap_place gap (state_of l.now).carriers) 0) }
{
    match gap {
        Gap::Behind(number) => {
            let place = rules::check_named(l, number)?;
            Ok(place + 1)
        }
        Gap::AheadOfAll => {
            rules::check_sound(l)?;
            Ok(0)
        }
    }
}

// The checks of an opening.
pub(crate) fn check_opening(l: &Lane, gap: Gap, n: Newcomer) -> Result<usize, Refusal>
    ensures { (outcome_no result ≡ opening_no (state_of l.now) gap n) × (result_unwrap_or result 0 ≡ if_accepted (opening_no (state_of l.now) gap n) (gap_place gap (state_of l.now).carriers) 0) }
{
    let place = check_gap(l, gap)?;
    let f = layout::figures_of(l);
    rules::check_values(f.road, at_start(n))?;
    Ok(place)
}

// The stopping distance: where a carrier at the lane's start comes to rest.
fn stopping(rate: u32, speed: u64) -> u64
    requires { (1 ≤ rate) × (speed < 4294967296) }
    ensures { result ≡ stopping_distance rate speed }
{
    let from_start = Vehicle {
        position: 0,
        speed: rules::narrow(speed),
    };
    from_start.rest(rate)
}

// The position from which on a newcomer is no longer safe behind the carrier ahead.
fn below_leader(row: Row, ahead: Carrier, n: Newcomer) -> u64
    requires { ((1 ≤ row.guaranteed) × (1 ≤ row.hardest)) × ((1 ≤ n.rate) × ((n.speed ≤ 8192) × ((ahead.speed ≤ 8192) × (ahead.length ≤ 65535)))) }
    ensures { (p : ℕ) → safe_with row (leader ahead) (newcomer_at n p) ≡ ltb p result }
{
    let rate = rules::guaranteed_rate(row, at_start(n));
    let longer = stopping(rate, n.speed).saturating_sub(stopping(row.hardest, ahead.speed));
    ahead.position.saturating_sub(ahead.length + longer)
}

// The lowest position of a newcomer at which the carrier behind is safe.
fn above_follower(row: Row, behind: Carrier, n: Newcomer) -> u64
    requires { ((1 ≤ row.guaranteed) × (1 ≤ row.hardest)) × ((1 ≤ behind.rate) × ((behind.speed ≤ 8192) × ((n.speed ≤ 8192) × ((n.length ≤ 65535) × (behind.position < 4294967296))))) }
    ensures { (p : ℕ) → safe_with row (leader (newcomer_at n p)) behind ≡ leb result p }
{
    let rate = rules::guaranteed_rate(row, behind);
    let longer = stopping(rate, behind.speed).saturating_sub(stopping(row.hardest, n.speed));
    behind.position + n.length + longer + 1
}

// The positions from `lowest` on that are below `end`.
fn span(lowest: u64, end: u64) -> Option<Opening>
    ensures { (test : ℕ → Bool) → ((p : ℕ) → test p ≡ leb lowest p && ltb p «end») → «end» ≤ positions → span_in result ≡ span_of test }
{
    if lowest < end {
        return Some(Opening {
            lowest,
            highest: end - 1,
        });
    }
    None
}

// The lowest position in the gap at a place: the lane's start where nobody is behind.
fn lowest_at(l: &Lane, row: Row, count: usize, place: usize, n: Newcomer) -> u64
    requires l_value { (broken (state_of l.now) ≡ false) × ((row ≡ row_in (state_of l.now).tables (state_of l.now).road) × (count ≡ length (state_of l.now).carriers)) }
    requires speed_bound { (n.speed ≤ 8192) × (n.length ≤ 65535) }
    ensures { (p : ℕ) → ltb place (length (state_of l.now).carriers) && not (safe_with row (leader (newcomer_at n p)) (get_or (state_of l.now).carriers place none)) ≡ not (leb result p) }
{
    if count <= place {
        return 0;
    }
    above_follower(row, layout::carrier_at(l, place), n)
}

// The position from which on there is none: the lane end where nobody is ahead. Behind a carrier the end is
// not looked at: that one's tail is before it.
fn end_at(l: &Lane, row: Row, end: u64, place: usize, n: Newcomer) -> u64
    requires l_value { (broken (state_of l.now) ≡ false) × ((row ≡ row_in (state_of l.now).tables (state_of l.now).road) × (place ≤ length (state_of l.now).carriers)) }
    requires end_value { («end» ≡ (state_of l.now).road.end) × ((n.speed ≤ 8192) × (1 ≤ n.rate)) }
    ensures { ((p : ℕ) → not (leb «end» p) && safe_with row (ahead_of place (state_of l.now).carriers) (newcomer_at n p) ≡ ltb p result) × (result ≤ «end») }
{
    if place == 0 {
        return end;
    }
    below_leader(row, layout::carrier_at(l, place - 1), n)
}

// The opening at a place, on a lane that breaks no rule.
pub(crate) fn opening_at(l: &Lane, place: usize, n: Newcomer) -> Option<Opening>
    requires { (broken (state_of l.now) ≡ false) × ((place ≤ length (state_of l.now).carriers) × (values_no (state_of l.now).road (newcomer_at n 0) ≡ 0)) }
    ensures { span_in result ≡ span_of (opens (state_of l.now) place n) }
{
    let f = layout::figures_of(l);
    let road = f.road;
    let row = rows::row_in(l, road);
    span(
        lowest_at(l, row, f.count, place, n),
        end_at(l, row, road.end, place, n),
    )
}
