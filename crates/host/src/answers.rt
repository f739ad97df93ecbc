// What a host in C gets of a call's outcome: a refusal's number, or 0, beside values that are zero where the call is refused.
ghost use Rattle.std.specs.Prelude.{◌≡◌, false};
ghost use Rattle.lane.specs.Refusals.{outcome_no};
ghost use Rattle.host.specs.Answers.{entered_of, cycled_of, read_out_of, opening_of, listed_of};

use lane::Refusal;
use wish::Reading;

#[repr(C)]
#[derive(Clone, Copy)]
pub struct Entered {
    pub no: u32,
    pub place: usize,
}

#[repr(C)]
#[derive(Clone, Copy)]
pub struct Cycled {
    pub no: u32,
    pub word: u64,
    pub replaced: u32,
    pub gone: u32,
}

#[repr(C)]
#[derive(Clone, Copy)]
pub struct Listed {
    pub no: u32,
    pub length: usize,
}

#[repr(C)]
#[derive(Clone, Copy)]
pub struct ReadOut {
    pub no: u32,
    pub reading: Reading,
}

// The lowest and the highest position of an opening; both 0 where none exists.
#[repr(C)]
#[derive(Clone, Copy)]
pub struct Opening {
    pub no: u32,
    pub exists: bool,
    pub lowest: u64,
    pub highest: u64,
}

// The number of a call without a value.
pub(crate) fn number(done: Result<(), Refusal>) -> u32
    ensures { result ≡ outcome_no done }
{
    match done {
        Ok(()) => 0,
        Err(refusal) => refusal.number(),
    }
}

impl From<Result<usize, Refusal>> for Entered {
    ghost from_gives = { λ outcome r. r ≡ entered_of outcome };

    fn from(outcome: Result<usize, Refusal>) -> Entered {
        match outcome {
            Ok(place) => Entered { no: 0, place },
            Err(refusal) => Entered {
                no: refusal.number(),
                place: 0,
            },
        }
    }
}

impl From<Result<lane::Cycled, Refusal>> for Cycled {
    ghost from_gives = { λ outcome r. r ≡ cycled_of outcome };

    fn from(outcome: Result<lane::Cycled, Refusal>) -> Cycled {
        match outcome {
            Ok(cycled) => Cycled {
                no: 0,
                word: cycled.word,
                replaced: cycled.replaced,
                gone: cycled.gone,
            },
            Err(refusal) => Cycled {
                no: refusal.number(),
                word: 0,
                replaced: 0,
                gone: 0,
            },
        }
    }
}

impl From<Result<usize, Refusal>> for Listed {
    ghost from_gives = { λ outcome r. r ≡ listed_of outcome };

    fn from(outcome: Result<usize, Refusal>) -> Listed {
        match outcome {
            Ok(length) => Listed { no: 0, length },
            Err(refusal) => Listed {
                no: refusal.number(),
                length: 0,
            },
        }
    }
}

impl From<Result<Reading, Refusal>> for ReadOut {
    ghost from_gives = { λ outcome r. r ≡ read_out_of outcome };

    fn from(outcome: Result<Reading, Refusal>) -> ReadOut {
        match outcome {
            Ok(reading) => ReadOut { no: 0, reading },
            Err(refusal) => ReadOut {
                no: refusal.number(),
                reading: wish::reading_of(0, 0),
            },
        }
    }
}

impl From<Result<Option<lane::Opening>, Refusal>> for Opening {
    ghost from_gives = { λ outcome r. r ≡ opening_of outcome };

    fn from(outcome: Result<Option<lane::Opening>, Refusal>) -> Opening {
        match outcome {
            Ok(Some(opening)) => Opening {
                no: 0,
                exists: true,
                lowest: opening.lowest,
                highest: opening.highest,
            },
            Ok(None) => no_opening(0),
            Err(refusal) => no_opening(refusal.number()),
        }
    }
}

fn no_opening(no: u32) -> Opening
    ensures { result ≡ record { no = no; exists = false; lowest = 0; highest = 0 } }
{
    Opening {
        no,
        exists: false,
        lowest: 0,
        highest: 0,
    }
}
