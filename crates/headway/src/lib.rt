// Two carriers on plain numbers: how one moves in a cycle, where it comes to rest, and whether the one behind stays behind.
#![tactic(auto)]

ghost use Rattle.std.specs.Prelude.{◌≡◌, ◌≤◌, pos, ◌-ℤ◌};
ghost use Rattle.headway.specs.Motion.{position_after};
ghost use Rattle.headway.specs.Stopping.{braking, stopping_distance};
ghost use Rattle.headway.specs.Totals.{stop_of, rest_of, moved_of, safe_of, rests_below, passes_of};

// A carrier on the lane, seen from its front.
#[derive(Clone, Copy, Debug, PartialEq, Eq)]
pub struct Vehicle {
    pub position: u32,
    pub speed: u32,
}

// At what a follower is sure to brake, and at most the one ahead may.
#[derive(Clone, Copy, Debug, PartialEq, Eq)]
pub struct Rates {
    pub guaranteed: u32,
    pub hardest: u32,
}

// Position and speed after a cycle; the position can pass 32 bits.
#[derive(Clone, Copy, Debug, PartialEq, Eq)]
pub struct Moved {
    pub position: u64,
    pub speed: u32,
}

// The quotient form of the stopping distance, q²c + 2qr + r with v = qc + r, in one product.
fn distance(rate: u32, speed: u32) -> u64
    requires { 1 ≤ rate }
    ensures { result ≡ stopping_distance rate speed }
{
    let q = (speed / rate) as u64;
    let r = (speed % rate) as u64;
    q * (speed as u64 + r) + r
}

// The stopping distance; none at a rate of 0.
pub fn stopping_distance(rate: u32, speed: u32) -> Option<u64>
    ensures { result ≡ stop_of rate speed }
{
    if rate == 0 {
        None
    } else {
        Some(distance(rate, speed))
    }
}

// The acceleration of braking at a rate.
pub fn braking(rate: u32, speed: u32) -> i64
    ensures { result ≡ braking rate speed }
{
    -(rate.min(speed) as i64)
}

impl Vehicle {
    // Where a carrier comes to rest that brakes at the rate from now on; 0, below which nobody rests, at a rate of 0.
    pub fn rest(self, rate: u32) -> u64
        ensures { result ≡ rest_of rate self.position self.speed }
    {
        if rate == 0 {
            return 0;
        }
        (self.position as u64) + distance(rate, self.speed)
    }

    // The position after a cycle that leads from one speed to the next: it gains both.
    pub fn reached(self, next: u32) -> u64
        ensures { result ≡ position_after self.position self.speed (pos next -ℤ pos self.speed) }
    {
        (self.position as u64) + (self.speed as u64) + (next as u64)
    }

    // One cycle at an acceleration; none where the speed would be negative or past 32 bits.
    pub fn after_cycle(self, acceleration: i64) -> Option<Moved>
        ensures { result ≡ moved_of self.position self.speed acceleration }
    {
        let sum = (self.speed as u64).checked_add_signed(acceleration)?;
        let next = u32::try_from(sum).ok()?;
        Some(Moved {
            position: self.reached(next),
            speed: next,
        })
    }

    // The follower is safe behind the leader.
    pub fn safe_behind(self, leader: Vehicle, rates: Rates) -> bool
        ensures { result ≡ safe_of rates.guaranteed rates.hardest self.position self.speed leader.position leader.speed }
    {
        rates.guaranteed != 0
            && self.position < leader.position
            && self.rest(rates.guaranteed) < leader.rest(rates.hardest)
    }

    // The follower's wish passes the test: the stop that it leads to lies before the leader's.
    pub fn rests_behind(self, wish: i64, leader: Vehicle, rates: Rates) -> bool
        ensures { result ≡ passes_of rates.guaranteed rates.hardest self.position self.speed wish leader.position leader.speed }
    {
        self.after_cycle(wish).is_some_and(|moved| moved.rests_below(
            rates.guaranteed,
            leader.rest(rates.hardest),
        ))
    }
}

impl Moved {
    // A carrier that brakes at the rate from now on comes to rest below a bound; never at a rate of 0.
    fn rests_below(self, rate: u32, bound: u64) -> bool
        ensures { result ≡ rests_below rate self.position self.speed bound }
    {
        // Compared by difference: the sum of position and distance can pass 64 bits.
        rate != 0 && self.position < bound && distance(rate, self.speed) < bound - self.position
    }
}
