// The whole lane as text, put and read: the rows in force and those for the next start, the road and the cycle number, and the lane text.
ghost use Rattle.std.specs.Prelude.{◌≡◌, MatchOption, List, [], ◌∷◌, ◌+◌, ◌≤◌, length};
ghost use Rattle.text.specs.Groups.{Got, got, missing, group_text, group_in};
ghost use Rattle.text.specs.Lines.{written};
ghost use Rattle.lane.specs.Layout.{state_of};
ghost use Rattle.lane.specs.Handover.{road_keys, handover_text, handover_in};

use crate::{CYCLE, END, LIMIT, Lane, MOST_CARRIERS, Road, SURFACE, layout, listing, table};
use text::Lines;

// How long the lines of the road and of the cycle number are.
fn road_length(road: Road, cycle: u64) -> usize
    ensures { (result ≡ length (group_text road_keys (road.surface ∷ road.end ∷ road.limit ∷ cycle ∷ []))) × (result ≤ 108) }
{
    28 + text::decimal_length(road.surface)
        + text::decimal_length(road.end)
        + text::decimal_length(road.limit)
        + text::decimal_length(cycle)
}

// How long the text is.
pub(crate) fn text_length(l: &Lane) -> usize
    requires { (state_of l.now).count ≤ 64 }
    ensures { result ≡ length (handover_text (state_of l.now)) }
{
    let f = layout::figures_of(l);
    let road = f.road;
    table::text_length(l, layout::IN_FORCE)
        + table::text_length(l, layout::NEXT)
        + road_length(road, f.cycle)
        + listing::text_length(l)
}

fn put_road(out: &mut [u8], at: usize, road: Road, cycle: u64) -> usize
    requires { at + length (group_text road_keys (road.surface ∷ road.end ∷ road.limit ∷ cycle ∷ [])) ≤ length out.old }
    ensures out_after { out.new ≡ written at (group_text road_keys (road.surface ∷ road.end ∷ road.limit ∷ cycle ∷ [])) out.old }
    ensures value { result ≡ at + length (group_text road_keys (road.surface ∷ road.end ∷ road.limit ∷ cycle ∷ [])) }
{
    let surface = text::put_decimal_line(out, at, &SURFACE, road.surface);
    let end = text::put_decimal_line(out, surface, &END, road.end);
    let limit = text::put_decimal_line(out, end, &LIMIT, road.limit);
    text::put_decimal_line(out, limit, &CYCLE, cycle)
}

// The text put at the buffer's start, into which it fits, and its length.
pub(crate) fn put_text(l: &Lane, out: &mut [u8]) -> usize
    requires { ((state_of l.now).count ≤ 64) × (length (handover_text (state_of l.now)) ≤ length out.old) }
    ensures out_after { out.new ≡ written 0 (handover_text (state_of l.now)) out.old }
    ensures value { result ≡ length (handover_text (state_of l.now)) }
{
    let f = layout::figures_of(l);
    let road = f.road;
    let in_force = table::put_text(l, layout::IN_FORCE, out, 0);
    let next = table::put_text(l, layout::NEXT, out, in_force);
    let figures = put_road(out, next, road, f.cycle);
    listing::put_text(l, out, figures)
}

// The road and the cycle number, where their lines come next.
fn read_road(lines: &mut Lines) -> Option<(Road, u64)>
    ensures { MatchOption result (group_in road_keys lines.old.rest.now ≡ missing) (λ r. group_in road_keys lines.old.rest.now ≡ got (r.0.surface ∷ r.0.end ∷ r.0.limit ∷ r.1 ∷ []) lines.new.rest.now) }
{
    let surface = lines.number(&SURFACE, listing::BITS_32)?;
    let end = lines.number(&END, listing::BITS_32)?;
    let limit = lines.number(&LIMIT, listing::BITS_32)?;
    let cycle = lines.number(&CYCLE, u64::MAX)?;
    let road = Road {
        surface,
        end,
        limit,
    };
    Some((road, cycle))
}

// The lane that the text holds, put in place of the one lent; where it holds none, any lane is left.
pub(crate) fn read(l: &mut Lane, text: &[u8]) -> Option<()>
    ensures { MatchOption result (handover_in text.now ≡ missing) (λ _. handover_in text.now ≡ got (state_of l.new) []) }
{
    let mut lines = Lines { rest: text };
    let in_force = table::read(&mut lines)?;
    let next = table::read(&mut lines)?;
    let (road, cycle) = read_road(&mut lines)?;
    let cars = lines.number(&listing::CARS, MOST_CARRIERS as u64)?;
    let count = cars as usize;
    // The rows in force come by way of those for the next start.
    layout::put_next(l, in_force);
    layout::put_in_force(l);
    layout::put_next(l, next);
    layout::put_figures(
        l,
        layout::Figures {
            started: true,
            road,
            cycle,
            count,
        },
    );
    listing::read_carriers(l, &mut lines, count)?;
    if !lines.rest.is_empty() {
        return None;
    }
    Some(())
}
