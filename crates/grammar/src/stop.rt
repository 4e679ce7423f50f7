// Why reading stopped: one of five refusals, and its place.
ghost use Rattle.std.specs.Prelude.{◌≡◌, ◌≤◌};
ghost use Rattle.pkg_length.specs.Refusal.{block_limit};
ghost use Rattle.grammar.specs.Stop.{error_of, error_at};

use pkg_length::AmlError;

// The refusals that reading knows.
#[derive(Clone, Copy)]
pub(crate) enum Reason {
    UnexpectedEndOfStream,
    InvalidPkgLength,
    BadOpcode,
    TooDeep,
    PackageEndsEarly,
}

// A refusal in one word, the place times 8 and the reason's number: an answer has two words then and goes in registers. With an AmlError it has three and goes by
// memory, with a room on the stack for each call (klem.h's KLEM_STACK), and a check takes a third more (docs/DECISIONS.md).
#[derive(Clone, Copy)]
pub(crate) struct Stop(pub usize);

impl Stop {
    pub(crate) fn new(reason: Reason, place: usize) -> Stop
        requires { place ≤ block_limit }
        ensures { error_of result.0 ≡ error_at reason place }
    {
        let number = match reason {
            Reason::UnexpectedEndOfStream => 0,
            Reason::InvalidPkgLength => 1,
            Reason::BadOpcode => 2,
            Reason::TooDeep => 3,
            Reason::PackageEndsEarly => 4,
        };
        Stop(place * 8 + number)
    }
}

impl From<Stop> for AmlError {
    ghost from_gives = { λ stop e. e ≡ error_of stop.0 };

    fn from(stop: Stop) -> AmlError {
        let place = stop.0 / 8;
        match stop.0 % 8 {
            0 => AmlError::UnexpectedEndOfStream(place),
            1 => AmlError::InvalidPkgLength(place),
            2 => AmlError::BadOpcode(place),
            3 => AmlError::TooDeep(place),
            _ => AmlError::PackageEndsEarly(place),
        }
    }
}
