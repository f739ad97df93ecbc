// Where a carrier number stands: the one lookup, which every call goes through that is given a number.
ghost use Rattle.std.specs.Prelude.{◌≡◌, ◌+◌, ◌<◌, length, get_or};
ghost use Rattle.lane.specs.Layout.{state_of};
ghost use Rattle.lane.specs.Safety.{numbered};
ghost use Rattle.lane.specs.Calls.{none};
ghost use Rattle.lane.specs.Lookup.{lookup, RestsOn};

use crate::{Lane, MOST_CARRIERS, layout};

// Whether and where a number stands, and how many records were looked at for it.
#[derive(Clone, Copy)]
pub struct Lookup {
    pub found: Option<usize>,
    pub looked: usize,
}

// The carriers present. A lane that breaks a rule may count more than there are records.
fn present(l: &Lane) -> usize
    ensures { result ≡ length (state_of l.now).carriers }
{
    let f = layout::figures_of(l);
    f.count.min(MOST_CARRIERS)
}

impl Lookup {
    // Whether the next record has the number. A record is counted where it is read, and none may be read that the definition does not count.
    fn look(&mut self, l: &Lane, number: u64) -> bool
        requires { self.old.looked < (lookup number (state_of l.now).carriers).looked }
        ensures value { result ≡ numbered number (get_or (state_of l.now).carriers self.old.looked none) }
        ensures self_after { self.new ≡ record { found = self.old.found; looked = self.old.looked + 1 } }
    {
        let c = layout::carrier_at(l, self.looked);
        self.looked += 1;
        c.number == number
    }
}

// The first place with the number. The search ends there or at the last carrier present.
pub fn find(l: &Lane, number: u64) -> Lookup
    ensures found { result ≡ lookup number (state_of l.now).carriers }
    ensures rests { RestsOn number (state_of l.now).carriers result.looked }
{
    let mut lookup = Lookup {
        found: None,
        looked: 0,
    };
    for place in 0..present(l) {
        if lookup.look(l, number) {
            lookup.found = Some(place);
            break;
        }
    }
    lookup
}
