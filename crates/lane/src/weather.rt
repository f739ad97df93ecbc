// Another surface under the carriers: whether they are safe by its row.
ghost use Rattle.std.specs.Prelude.{◌≡◌, not, ℕ, ◌≤◌, ◌<◌, length, get_or, take};
ghost use Rattle.lane.specs.Refusals.{outcome_no};
ghost use Rattle.lane.specs.Layout.{records_in, state_of};
ghost use Rattle.lane.specs.Safety.{lane_safe};
ghost use Rattle.lane.specs.Calls.{none, surface_no};

use crate::{LAST_SURFACE, Lane, Refusal, Road, Row, layout, rows, rules};

// Some carrier is not safe behind the next one ahead.
fn any_unsafe(l: &Lane, row: Row, count: usize) -> bool
    requires count_bound { (count ≤ 64) × (length (records_in l.now) ≡ 64) }
    requires le_guaranteed { (1 ≤ row.guaranteed) × (1 ≤ row.hardest) }
    requires by_index { (i : ℕ) → i < count → ((get_or (records_in l.now) i none).position < 4294901760) × (((get_or (records_in l.now) i none).speed < 4294967296) × (((get_or (records_in l.now) i none).length ≤ 65535) × (1 ≤ (get_or (records_in l.now) i none).rate))) }
    ensures { result ≡ not (lane_safe row (take count (records_in l.now))) }
{
    for place in 1..count {
        let ahead = layout::carrier_at(l, place - 1);
        if !rules::safe(row, ahead, layout::carrier_at(l, place)) {
            return true;
        }
    }
    false
}

// The checks of a change of surface.
pub(crate) fn check_surface(l: &Lane, code: u64) -> Result<(), Refusal>
    ensures { outcome_no result ≡ surface_no (state_of l.now) code }
{
    rules::check_sound(l)?;
    if LAST_SURFACE < code {
        return Err(Refusal::SurfaceUnknown);
    }
    let f = layout::figures_of(l);
    let road = f.road;
    let surfaced = Road {
        surface: code,
        end: road.end,
        limit: road.limit,
    };
    if any_unsafe(l, rows::row_in(l, surfaced), f.count) {
        return Err(Refusal::SurfaceUnsafe);
    }
    Ok(())
}
