// The lane text, put and read: the number of carriers, and then number, position, speed, length and own rate of each, front to back.
ghost use Rattle.std.specs.Prelude.{◌≡◌, false, MatchOption, ◌+◌, ◌≤◌, ltb, length, take};
ghost use Rattle.text.specs.Groups.{Got, got, missing, group_in};
ghost use Rattle.text.specs.Lines.{written};
ghost use Rattle.lane.specs.Layout.{tables_in, figures_in, records_in, state_of};
ghost use Rattle.lane.specs.Rules.{broken};
ghost use Rattle.lane.specs.Listing.{carrier_keys, carrier_numbers, carrier_text, lane_text, carriers_in};

use crate::{AT, BRAKE, CAR, Carrier, HIGHEST_NUMBER, LENGTH, LONGEST_TEXT, Lane, SPEED, layout};
use text::Lines;

// The line of the number of carriers.
pub(crate) const CARS: [u8; 5] = *b"cars=";

// The most that 32 bits hold.
pub(crate) const BITS_32: u64 = u32::MAX as u64;

// How long a carrier's lines are.
fn carrier_length(c: Carrier) -> usize
    ensures { (result ≡ length (carrier_text c)) × (result ≤ 131) }
{
    31 + text::decimal_length(c.number)
        + text::decimal_length(c.position)
        + text::decimal_length(c.speed)
        + text::decimal_length(c.length)
        + text::decimal_length(c.rate)
}

// How long the text is.
pub(crate) fn text_length(l: &Lane) -> usize
    requires { (state_of l.now).count ≤ 64 }
    ensures { (result ≡ length (lane_text (state_of l.now))) × (result ≤ 8410) }
{
    let f = layout::figures_of(l);
    let mut n: usize = 6 + text::decimal_length(f.count as u64);
    for i in 0..f.count {
        n += carrier_length(layout::carrier_at(l, i));
    }
    n
}

// Whether the text is longer than a buffer of so many bytes. None is longer than the longest, so its length is found for a shorter buffer alone.
pub(crate) fn longer_than(l: &Lane, size: usize) -> bool
    requires { broken (state_of l.now) ≡ false }
    ensures { result ≡ ltb size (length (lane_text (state_of l.now))) }
{
    if size >= LONGEST_TEXT {
        return false;
    }
    size < text_length(l)
}

fn put_carrier(out: &mut [u8], at: usize, c: Carrier) -> usize
    requires { at + length (carrier_text c) ≤ length out.old }
    ensures out_after { out.new ≡ written at (carrier_text c) out.old }
    ensures value { result ≡ at + length (carrier_text c) }
{
    let number = text::put_decimal_line(out, at, &CAR, c.number);
    let position = text::put_decimal_line(out, number, &AT, c.position);
    let speed = text::put_decimal_line(out, position, &SPEED, c.speed);
    let length = text::put_decimal_line(out, speed, &LENGTH, c.length);
    text::put_decimal_line(out, length, &BRAKE, c.rate)
}

// The text put at a place of the buffer, into which it fits, and the place after it.
pub(crate) fn put_text(l: &Lane, out: &mut [u8], at: usize) -> usize
    requires { ((state_of l.now).count ≤ 64) × (at + length (lane_text (state_of l.now)) ≤ length out.old) }
    ensures out_after { out.new ≡ written at (lane_text (state_of l.now)) out.old }
    ensures value { result ≡ at + length (lane_text (state_of l.now)) }
{
    let f = layout::figures_of(l);
    let mut place = text::put_decimal_line(out, at, &CARS, f.count as u64);
    for i in 0..f.count {
        place = put_carrier(out, place, layout::carrier_at(l, i));
    }
    place
}

// A carrier, where its lines come next.
fn read_carrier(lines: &mut Lines) -> Option<Carrier>
    ensures { MatchOption result (group_in carrier_keys lines.old.rest.now ≡ missing) (λ c. group_in carrier_keys lines.old.rest.now ≡ got (carrier_numbers c) lines.new.rest.now) }
{
    let number = lines.number(&CAR, HIGHEST_NUMBER)?;
    let position = lines.number(&AT, BITS_32)?;
    let speed = lines.number(&SPEED, BITS_32)?;
    let length = lines.number(&LENGTH, BITS_32)?;
    let rate = lines.number(&BRAKE, BITS_32)?;
    Some(Carrier {
        number,
        position,
        speed,
        length,
        rate,
    })
}

// So many carriers, where their lines come next, put in the lane's first records; where a line is missing, those before it.
pub(crate) fn read_carriers(l: &mut Lane, lines: &mut Lines, count: usize) -> Option<()>
    requires { count ≤ 64 }
    ensures l_unchanged { (figures_in l.new ≡ figures_in l.old) × (tables_in l.new ≡ tables_in l.old) }
    ensures text_value { MatchOption result (carriers_in count lines.old.rest.now ≡ missing) (λ _. carriers_in count lines.old.rest.now ≡ got (take count (records_in l.new)) lines.new.rest.now) }
    ensures l_len { length (records_in l.new) ≡ 64 }
{
    for place in 0..count {
        let carrier = read_carrier(lines)?;
        layout::put_carrier(l, place, carrier);
    }
    Some(())
}
