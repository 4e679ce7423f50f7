// Control blocks that are run.
use crate::answer::Answer;
use crate::args::{Call, Hex, split_at_byte};
use crate::fault::{Fault, Refused};
use crate::words;
use crate::words::Words;
use pkg_length::AmlError;
use statement::frame::{CELLS, Frame, Width};
use statement::{End, Execution};
use std::fmt;

// What running a block gave, and the frame that it left.
#[derive(Clone, Copy)]
pub struct Ran {
    pub run: Result<Execution, AmlError>,
    pub frame: Frame,
}

// A block is run in the frame that the words behind it give.
pub fn run<'a>(mut call: Call, width: Width, bytes: &mut [u8]) -> Result<Answer<'a>, Fault> {
    let (budget, hex): (u64, Hex) = call.two_and_more()?;
    let block = hex.decoded(bytes)?;
    let mut frame = frame_of(call.words, width)?;
    let run = statement::run(block, &mut frame, budget);
    Ok(Answer::Ran(Ran { run, frame }))
}

fn frame_of(cells: Words<'_>, width: Width) -> Result<Frame, Fault> {
    let mut frame = Frame::new(width);
    for word in cells {
        let (cell, number) = cell_of(word).ok_or(Fault::Cell)?;
        frame = frame.with(cell, number);
    }
    Ok(frame)
}

// CELL=NUMBER
fn cell_of(word: &[u8]) -> Option<(usize, u64)> {
    let (cell, number) = split_at_byte(word, b'=')?;
    let cell = words::number(cell)? as usize;
    if CELLS <= cell {
        return None;
    }
    Some((cell, words::number(number)?))
}

// How a run ended, a refused block being one that never began.
#[derive(Clone, Copy)]
struct EndText(Result<End, AmlError>);

impl fmt::Display for EndText {
    fn fmt<W: fmt::Write>(&self, f: &mut fmt::Formatter<W>) -> fmt::Result {
        match self.0 {
            Ok(End::Finished) => write!(f, "finished"),
            Ok(End::Returned(number)) => write!(f, "returned {number}"),
            Ok(End::BreakOut) => write!(f, "break"),
            Ok(End::ContinueOut) => write!(f, "continue"),
            Err(e) => write!(f, "{}", Refused(e)),
        }
    }
}

// END units U cells C0 .. C14. A block that was refused took no units.
impl fmt::Display for Ran {
    fn fmt<W: fmt::Write>(&self, f: &mut fmt::Formatter<W>) -> fmt::Result {
        let (end, units) = match self.run {
            Ok(run) => (run.end, run.units),
            Err(e) => (Err(e), 0),
        };
        write!(f, "{} units {units} cells", EndText(end))?;
        for cell in 0..CELLS {
            match self.frame.get(cell) {
                Ok(number) => write!(f, " {number}")?,
                Err(_) => f.write_str(" -")?,
            }
        }
        Ok(())
    }
}
