// Reading a term without running it: each method answers the place in the block where reading goes on, or the refusal. `left` is how many depths are left.
ghost use Rattle.std.specs.Prelude.{◌≡◌};
ghost use Rattle.grammar.specs.Reader.{read_bytes, read_place, read_target, read_dest, read_one, read_two, read_term};
ghost use Rattle.grammar.specs.Said.{read_by};
ghost use Rattle.grammar.specs.Stop.{stopped};

use crate::opcode;
use crate::opcode::{Dest, TermOp};
use crate::stop::{Reason, Stop};
use crate::unread::Unread;

impl<'a> Unread<'a> {
    // A constant's n bytes.
    fn constant(&self, n: usize) -> Result<usize, Stop>
        ensures { stopped result ≡ read_by (read_bytes n) self.now }
    {
        if self.bytes.len() < n {
            return Err(Stop::new(Reason::UnexpectedEndOfStream, self.place + self.bytes.len()));
        }
        Ok(self.place + n)
    }

    // A written cell.
    fn cell(&self) -> Result<usize, Stop>
        ensures { stopped result ≡ read_by read_place self.now }
    {
        // By pattern, here and twice below: a method that gives the byte or 1 would have to promise besides that the part is not empty, as `next` asks.
        let [first, ..] = self.bytes else {
            return Err(Stop::new(Reason::UnexpectedEndOfStream, self.place));
        };
        if !opcode::is_cell(*first) {
            return Err(Stop::new(Reason::BadOpcode, self.place));
        }
        Ok(self.place + 1)
    }

    // Where an operator's result goes.
    fn dest(&self, d: Dest) -> Result<usize, Stop>
        ensures { stopped result ≡ read_by (read_dest d) self.now }
    {
        match d {
            Dest::Nowhere => Ok(self.place),
            Dest::ToCell => self.cell(),
            Dest::ToTarget => self.target(),
        }
    }

    fn target(&self) -> Result<usize, Stop>
        ensures { stopped result ≡ read_by read_target self.now }
    {
        let [first, ..] = self.bytes else {
            return Err(Stop::new(Reason::UnexpectedEndOfStream, self.place));
        };
        if *first == opcode::NULL_NAME {
            return Ok(self.place + 1);
        }
        self.cell()
    }

    #[tactic(auto, unfolding(crate::specs::Reader::read_term))]
    #[cycle(terms)]
    pub(crate) fn term_arg(&self, left: usize) -> Result<usize, Stop>
        ensures { stopped result ≡ read_by (read_term left) self.now }
    {
        if left == 0 {
            return Err(Stop::new(Reason::TooDeep, self.place));
        }
        let [first, ..] = self.bytes else {
            return Err(Stop::new(Reason::UnexpectedEndOfStream, self.place));
        };
        // Made once: each would take its own room on the stack, at every depth.
        let behind = self.next();
        match opcode::term_op(*first) {
            TermOp::Constant(_) | TermOp::Cell(_) => Ok(self.place + 1),
            TermOp::Bytes(n) => behind.constant(n),
            TermOp::Step(_) => behind.cell(),
            TermOp::One(_, d) => behind.one(left - 1, d),
            TermOp::Two(_, d) => behind.two(left - 1, d),
            TermOp::BadTerm => Err(Stop::new(Reason::BadOpcode, self.place)),
        }
    }

    // An operand, and where the result goes.
    #[tactic(auto, using(crate::proofs::Reaches::term_in, crate::proofs::Reaches::stops, crate::proofs::Reaches::residual), unfolding(crate::specs::Reader::read_one))]
    #[cycle(terms)]
    fn one(&self, left: usize, d: Dest) -> Result<usize, Stop>
        ensures { stopped result ≡ read_by (read_one (read_term left) d) self.now }
    {
        let behind = self.term_arg(left)?;
        self.onward(behind).dest(d)
    }

    // An operand before that. It is like `one`, and `def_if_else`, in its words alone: one function for the three would take both readers, and be no shorter.
    #[tactic(auto, using(crate::proofs::Reaches::term_in, crate::proofs::Reaches::stops, crate::proofs::Reaches::residual), unfolding(crate::specs::Reader::read_two))]
    #[cycle(terms)]
    fn two(&self, left: usize, d: Dest) -> Result<usize, Stop>
        ensures { stopped result ≡ read_by (read_two (read_term left) d) self.now }
    {
        let behind = self.term_arg(left)?;
        self.onward(behind).one(left, d)
    }
}
