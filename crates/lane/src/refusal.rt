// Why a call is refused.
ghost use Rattle.std.specs.Prelude.{◌≡◌};
ghost use Rattle.lane.specs.Refusals.{number_of};

// What a call is refused for, by its number in the documents. `HandoverMalformed` is also a text of a lane that breaks a rule other than safety.
#[derive(Clone, Copy, PartialEq, Eq)]
pub enum Refusal {
    SurfaceUnknown = 1,
    EndOutOfRange = 2,
    LimitOutOfRange = 3,
    NumberOutOfRange = 4,
    PositionPastEnd = 5,
    SpeedAboveLimit = 6,
    FloatOutOfRange = 7,
    TextBufferTooShort = 9,
    WishUnknown = 11,
    WishesTooFew = 12,
    LaneUnsound = 21,
    LaneFull = 22,
    NumberPresent = 23,
    NumberAbsent = 24,
    UnsafeBehindLeader = 25,
    FollowerUnsafe = 26,
    CountDiffers = 27,
    CyclesExhausted = 28,
    TableUnsound = 31,
    LaneOccupied = 32,
    LengthTooLarge = 33,
    SurfaceUnsafe = 34,
    RateOutOfRange = 35,
    HandoverMalformed = 36,
    HandoverUnsafe = 37,
}

impl Refusal {
    // The number in the documents.
    pub fn number(self) -> u32
        ensures { result ≡ number_of self }
    {
        self as u32
    }
}
