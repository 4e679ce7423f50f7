// A frame: cells 0 to 7 are Locals, 8 to 14 Args, each unset or a number; and how many bits its numbers have.
ghost use Rattle.std.specs.Prelude.{◌≡◌, ◌<◌};
ghost use Rattle.pkg_length.specs.Refusal.{said};
ghost use Rattle.grammar.specs.Grammar.{cells};
ghost use Rattle.statement.specs.Frames.{bits, width_of, fresh, held, wrote, begun};

use crate::number;
use pkg_length::AmlError;

// How many bits numbers have.
#[derive(Clone, Copy, Debug, PartialEq, Eq)]
pub enum Width {
    Bits32,
    Bits64,
}

impl From<Width> for u64 {
    ghost from_gives = { λ w n. n ≡ bits w };

    fn from(w: Width) -> u64 {
        match w {
            Width::Bits32 => 32,
            Width::Bits64 => 64,
        }
    }
}

// What the DSDT's revision says, for its SSDTs too: below 2 numbers have 32 bits.
pub fn width_of(revision: u8) -> Width
    ensures { result ≡ width_of revision }
{
    if revision < 2 {
        Width::Bits32
    } else {
        Width::Bits64
    }
}

// The width of an SSDT's numbers is its DSDT's, whatever its own revision says.
pub fn width_of_ssdt(dsdt: u8, ssdt: u8) -> Width
    ensures { result ≡ width_of dsdt }
{
    width_of(dsdt)
}

pub const CELLS: usize = 15;

// The flags and the numbers are two arrays: an unset cell has a number too, which C's words of a frame give back (klem_run's `frame_words`), so that
// an Option per cell would lose it.
#[derive(Clone, Copy, Debug, PartialEq, Eq)]
pub struct Frame {
    pub set: [bool; CELLS],
    pub val: [u64; CELLS],
    pub width: Width,
}

impl Frame {
    // Every cell unset.
    pub fn new(width: Width) -> Frame
        ensures { result ≡ fresh width }
    {
        Frame {
            set: [false; CELLS],
            val: [0; CELLS],
            width,
        }
    }

    // What a cell holds, or 23. A cell that is not there is not set.
    pub fn get(&self, cell: usize) -> Result<u64, AmlError>
        ensures { said result ≡ held self.now cell }
    {
        if CELLS <= cell {
            return Err(AmlError::Unset(cell));
        }
        self.load(cell)
    }

    // Writing sets the cell; a cell that is not there is not written.
    pub fn with(mut self, cell: usize, number: u64) -> Frame
        ensures { result ≡ wrote self cell number }
    {
        if cell < CELLS {
            self.write(cell, number);
        }
        self
    }

    // Below, and in eval.rt, a cell is a usize that each contract bounds: `TermOp::Cell` holds it so (`term_op_at`), and klem.h's calls lend it so. A type that
    // holds the bound would be made anew at each use.
    pub(crate) fn load(&self, cell: usize) -> Result<u64, AmlError>
        requires { cell < cells }
        ensures { said result ≡ held self.now cell }
    {
        if self.set[cell] {
            Ok(self.val[cell])
        } else {
            Err(AmlError::Unset(cell))
        }
    }

    pub(crate) fn write(&mut self, cell: usize, number: u64)
        requires { cell < cells }
        ensures { self.new ≡ wrote self.old cell number }
    {
        self.set[cell] = true;
        self.val[cell] = number;
    }

    // As execution begins, every number keeps its low bits.
    pub(crate) fn begin(&mut self)
        ensures { self.new ≡ begun self.old }
    {
        number::narrow(&mut self.val, self.width);
    }
}
