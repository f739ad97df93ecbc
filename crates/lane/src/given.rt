// Wishes made of a host's numbers.
ghost use Rattle.std.specs.Prelude.{◌≡◌, IfOk, cond, ℕ, ◌≤◌, length, take};
ghost use Rattle.wish.specs.Units.{units_of};
ghost use Rattle.lane.specs.Refusals.{number_of, outcome_no};
ghost use Rattle.lane.specs.Layout.{records_in, state_of};
ghost use Rattle.lane.specs.Wishes.{wished_units, any_outside};
ghost use Rattle.lane.specs.Calls.{if_accepted, ready_no};
ghost use Rattle.lane.specs.Given.{units_made, wish_made, is_unknown, made_wish, any_unknown, wishes_no, wishes_given};

use crate::{Lane, Refusal, motion};
use wish::Wish;

// Units are a 16-bit number, its sign extended to 32 bits.
fn make_units(value: u32) -> Option<Wish>
    ensures { result ≡ units_made value }
{
    match i16::try_from(value.cast_signed()) {
        Ok(units) => Some(Wish::Units(units)),
        Err(_) => None,
    }
}

fn make(sort: u8, value: u32) -> Option<Wish>
    ensures unknown { is_unknown result ≡ is_unknown (wish_made sort value) }
    ensures units { (v : ℕ) → units_of (made_wish result) v ≡ units_of (made_wish (wish_made sort value)) v }
{
    match sort {
        0 => make_units(value),
        1 => Some(wish::acceleration_of(value)),
        2 => Some(wish::target_of(value)),
        3 => Some(Wish::Hold),
        _ => None,
    }
}

// Some wish cannot be made.
fn any_unknown(count: usize, sorts: &[u8], values: &[u32]) -> bool
    requires { (count ≤ length sorts.now) × (count ≤ length values.now) }
    ensures { result ≡ any_unknown (take count sorts.now) (take count values.now) }
{
    for i in 0..count {
        if make(sorts[i], values[i]).is_none() {
            return true;
        }
    }
    false
}

// The refusal where a wish cannot be made or is outside its range: 11 comes before 7, wherever they stand.
fn unfit(count: usize, sorts: &[u8], values: &[u32]) -> Refusal
    requires { (count ≤ length sorts.now) × (count ≤ length values.now) }
    ensures { number_of result ≡ cond (any_unknown (take count sorts.now) (take count values.now)) 11 7 }
{
    if any_unknown(count, sorts, values) {
        Refusal::WishUnknown
    } else {
        Refusal::FloatOutOfRange
    }
}

// The wishes of `count` carriers in units. Refused by 12 are too few, by 11 one that cannot be made, by 7 one outside its range. `motion::convert`
// keeps a loop of its own, which has one refusal alone.
pub(crate) fn convert(
    l: &Lane,
    count: usize,
    sorts: &[u8],
    values: &[u32],
) -> Result<[i32; 64], Refusal>
    requires { ready_no (state_of l.now) count ≡ 0 }
    ensures number { outcome_no result ≡ if_accepted (wishes_no count sorts.now values.now) (cond (any_outside (take count (records_in l.now)) (wishes_given count sorts.now values.now)) 7 0) (wishes_no count sorts.now values.now) }
    ensures units { IfOk result (λ units. take count units ≡ wished_units (take count (records_in l.now)) (wishes_given count sorts.now values.now)) }
{
    if sorts.len() < count {
        return Err(Refusal::WishesTooFew);
    }
    if values.len() < count {
        return Err(Refusal::WishesTooFew);
    }
    let mut units = [0i32; 64];
    for i in 0..count {
        let Some(w) = make(sorts[i], values[i]) else {
            return Err(unfit(count, sorts, values));
        };
        let Some(z) = motion::units_at(l, i, w) else {
            return Err(unfit(count, sorts, values));
        };
        units[i] = z;
    }
    Ok(units)
}
