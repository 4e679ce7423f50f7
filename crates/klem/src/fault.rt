// Why a line is not understood, or what refused it.
use crate::command::Command;
use pkg_length::{AmlError, Refusal};
use std::fmt;

#[derive(Clone, Copy)]
pub enum Fault {
    Size,
    Refused(AmlError),
    Path,
    Number,
    Hex,
    Type,
    Length,
    Words(Command),
    NoCommand,
    OneByte,
    FourBytes,
    RestBytes,
    NoWord,
    Cell,
    LongLine,
}

impl Fault {
    // The heaviest of a line's faults is told. No derived order says it, since eleven of them weigh the same.
    fn weight(self) -> u8 {
        match self {
            Fault::Size => 0,
            Fault::Refused(_) => 1,
            Fault::Path => 2,
            Fault::Words(_) => 4,
            _ => 3,
        }
    }

    // The heavier of two faults; of two that weigh the same, the first.
    pub fn or_heavier(self, later: Fault) -> Fault {
        if self.weight() < later.weight() {
            return later;
        }
        self
    }

    // Whether the line was not understood; a refusal is an answer like others.
    pub fn is_wrong_line(self) -> bool {
        !matches!(self, Fault::Refused(_))
    }
}

impl From<AmlError> for Fault {
    fn from(e: AmlError) -> Fault {
        Fault::Refused(e)
    }
}

impl fmt::Display for Fault {
    fn fmt<W: fmt::Write>(&self, f: &mut fmt::Formatter<W>) -> fmt::Result {
        let why = match self {
            Fault::Refused(e) => {
                let refused = Refused(*e);
                return write!(f, "{refused}");
            }
            Fault::Words(command) => return write!(f, "wants {command}"),
            Fault::Size | Fault::Number => "bad number",
            Fault::Path => "bad path",
            Fault::Hex => "bad hex",
            Fault::Type => "bad type",
            Fault::Length => "length over 100000",
            Fault::NoCommand => "no such command",
            Fault::OneByte => "wants 1 byte",
            Fault::FourBytes => "wants 4 bytes",
            Fault::RestBytes => "wants 26 bytes",
            Fault::NoWord => "no such word",
            Fault::Cell => "bad cell",
            Fault::LongLine => "line over 200000 bytes",
        };
        f.write_str(why)
    }
}

// A refusal: its number, its place and its name.
#[derive(Clone, Copy)]
pub struct Refused(pub AmlError);

impl fmt::Display for Refused {
    fn fmt<W: fmt::Write>(&self, f: &mut fmt::Formatter<W>) -> fmt::Result {
        let Refusal(number, place) = Refusal::from(self.0);
        write!(f, "refused {number} at {place} {}", self.0)
    }
}
