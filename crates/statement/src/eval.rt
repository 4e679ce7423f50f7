// Evaluating a term that was read, over a lent frame.
ghost use Rattle.std.specs.Prelude.{◌≡◌, ◌<◌, ◌≤◌, length, drop};
ghost use Rattle.pkg_length.specs.Refusal.{gives, said};
ghost use Rattle.grammar.specs.Grammar.{cells};
ghost use Rattle.grammar.specs.Tree as tree;
ghost use Rattle.grammar.specs.Reader.{took, read_dest, read_one, read_two, read_term};
ghost use Rattle.statement.specs.Frames.{bits};
ghost use Rattle.statement.specs.Meaning.{frames, ran, eval};
ghost use Rattle.grammar.specs.Said.{Accepts};
ghost use Rattle.statement.specs.Lent.{TermReady, ev_in, evaled_by, ev_one, ev_two, ev_put};

use crate::frame::Frame;
use crate::number;
use crate::part::Part;
use grammar::opcode;
use grammar::opcode::{Dest, OneOp, StepOp, TermOp, TwoOp};
use pkg_length::AmlError;

// A term's number, and where reading goes on behind it.
#[derive(Clone, Copy, Debug, PartialEq, Eq)]
pub struct Value {
    pub number: u64,
    pub next: usize,
}

// The part, where it is read, and how many depths are left are passed one by one, in exec.rt and part.rt too, and so each contract says that the place is in
// the part: they change at every call, and a struct of them would be taken apart and made anew each time. A cell's number is its byte less LOCAL0_OP, by hand: a
// function of grammar's would be public, and so have to answer for a byte that is no cell.
impl Frame {
    fn step(&mut self, op: StepOp, cell: usize) -> Result<u64, AmlError>
        requires { cell < cells }
        ensures { ran self.new 0 (said result) ≡ eval frames (bits self.old.width) (tree.step op (tree.cell cell)) self.old 0 }
    {
        let n = self.load(cell)?;
        let number = number::stepped(op, n, self.width);
        self.write(cell, number);
        Ok(number)
    }

    // Writes a result where the operator's destination at `at` says; and where reading goes on behind that.
    fn store(&mut self, part: Part, at: usize, d: Dest, n: u64) -> usize
        requires { (at ≤ length part.bytes.now) × Accepts (read_dest d 0 (drop at part.bytes.now)) }
        ensures { ran self.new 0 (gives (took n result)) ≡ evaled_by (ev_put n) at (read_dest d 0 (drop at part.entry.bytes.now)) self.old }
    {
        match d {
            Dest::Nowhere => at,
            Dest::ToTarget if part.bytes[at] == opcode::NULL_NAME => at + 1,
            Dest::ToCell | Dest::ToTarget => {
                self.write(usize::from(part.bytes[at] - opcode::LOCAL0_OP), n);
                at + 1
            }
        }
    }

    // A term; a cell is read at once.
    #[cycle(terms)]
    pub(crate) fn eval(&mut self, part: Part, at: usize, left: usize) -> Result<Value, AmlError>
        requires { TermReady part.bytes.now at left }
        ensures { ev_in self.new result ≡ evaled_by (eval frames (bits self.old.width)) at (read_term left 0 (drop at part.entry.bytes.now)) self.old }
    {
        let b = part.bytes[at];
        if opcode::is_cell(b) {
            let number = self.load(usize::from(b - opcode::LOCAL0_OP))?;
            Ok(Value {
                number,
                next: at + 1,
            })
        } else {
            self.term_arg(part, at, left)
        }
    }

    #[cycle(terms)]
    pub(crate) fn term_arg(&mut self, part: Part, at: usize, left: usize) -> Result<Value, AmlError>
        requires { TermReady part.bytes.now at left }
        ensures { ev_in self.new result ≡ evaled_by (eval frames (bits self.old.width)) at (read_term left 0 (drop at part.entry.bytes.now)) self.old }
    {
        let op = opcode::term_op(part.bytes[at]);
        match op {
            TermOp::Constant(n) => Ok(Value {
                number: number::wrapped(n, self.width),
                next: at + 1,
            }),
            TermOp::Bytes(n) => {
                let next = at + 1 + n;
                let spelt = pkg_length::inner::little_endian(&part.bytes[at + 1..next]);
                Ok(Value {
                    number: number::wrapped(spelt, self.width),
                    next,
                })
            }
            TermOp::Cell(c) => {
                let number = self.load(c)?;
                Ok(Value {
                    number,
                    next: at + 1,
                })
            }
            TermOp::Step(o) => {
                let number = self.step(o, usize::from(part.bytes[at + 1] - opcode::LOCAL0_OP))?;
                Ok(Value {
                    number,
                    next: at + 2,
                })
            }
            TermOp::One(o, d) => self.one(part, at + 1, left - 1, o, d),
            TermOp::Two(o, d) => self.two(part, at + 1, left - 1, o, d),
            TermOp::BadTerm => unreachable!(),
        }
    }

    #[cycle(terms)]
    fn one(
        &mut self,
        part: Part,
        at: usize,
        left: usize,
        op: OneOp,
        d: Dest,
    ) -> Result<Value, AmlError>
        requires { Accepts (read_one (read_term left) d 0 (drop at part.bytes.now)) }
        ensures { ev_in self.new result ≡ evaled_by (ev_one (bits self.old.width) op) at (read_one (read_term left) d 0 (drop at part.entry.bytes.now)) self.old }
    {
        let a = self.eval(part, at, left)?;
        let number = number::unary(op, a.number, self.width);
        let next = self.store(part, a.next, d, number);
        Ok(Value { number, next })
    }

    #[cycle(terms)]
    fn two(
        &mut self,
        part: Part,
        at: usize,
        left: usize,
        op: TwoOp,
        d: Dest,
    ) -> Result<Value, AmlError>
        requires { Accepts (read_two (read_term left) d 0 (drop at part.bytes.now)) }
        ensures { ev_in self.new result ≡ evaled_by (ev_two (bits self.old.width) op) at (read_two (read_term left) d 0 (drop at part.entry.bytes.now)) self.old }
    {
        let a = self.eval(part, at, left)?;
        let b = self.eval(part, a.next, left)?;
        let number = number::binary(op, a.number, b.number, self.width);
        let next = self.store(part, b.next, d, number);
        Ok(Value { number, next })
    }
}
