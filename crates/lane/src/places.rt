// Places on the lane: where an entry goes, and the records moved to make or close a gap.
ghost use Rattle.std.specs.Prelude.{◌≡◌, ◌+◌, ◌≤◌, ◌<◌, take};
ghost use Rattle.lane.specs.Layout.{records_in, state_of};
ghost use Rattle.lane.specs.Calls.{with_carriers, walk, insert_at, remove_at};

use crate::{Carrier, Lane, layout};

// The walk goes front to back and ends at the first carrier whose position is lower. Document 01 names its form: a loop that yields the place by
// `break`, which a `for` cannot.
pub(crate) fn entry_place(l: &Lane, count: usize, position: u64) -> usize
    requires { count ≤ 64 }
    ensures { result ≡ walk position (take count (records_in l.now)) }
{
    let mut i: usize = 0;
    loop {
        if count <= i {
            break i;
        }
        if layout::carrier_at(l, i).position < position {
            break i;
        }
        i += 1;
    }
}

// The carriers from `place` on moved one back, and the newcomer put in.
pub(crate) fn insert(l: &mut Lane, place: usize, c: Carrier)
    requires { (place ≤ (state_of l.old).count) × ((state_of l.old).count < 64) }
    ensures { state_of l.new ≡ with_carriers (state_of l.old) (insert_at place c (state_of l.old).carriers) }
{
    let f = layout::figures_of(l);
    for i in (place..f.count).rev() {
        layout::copy_record(l, i, i + 1);
    }
    layout::put_carrier(l, place, c);
    layout::put_count(l, f.cycle, f.count + 1);
}

// The carriers past `place` moved one forward over it.
pub(crate) fn remove(l: &mut Lane, place: usize)
    requires { (place < (state_of l.old).count) × ((state_of l.old).count ≤ 64) }
    ensures { state_of l.new ≡ with_carriers (state_of l.old) (remove_at place (state_of l.old).carriers) }
{
    let f = layout::figures_of(l);
    let last = f.count - 1;
    for i in place..last {
        layout::copy_record(l, i + 1, i);
    }
    layout::put_count(l, f.cycle, last);
}
