// Running a list of statements that was read, over a lent frame. `units` are those that are left, on a refusal too. They are lent beside the frame: a
// struct that held both by `&mut` would have each contract say that it still holds the same two.
ghost use Rattle.std.specs.Prelude.{◌≡◌, ◌<◌, ◌≤◌, length, drop};
ghost use Rattle.grammar.specs.Grammar.{depth_limit};
ghost use Rattle.grammar.specs.Reader.{read_term, read_head, read_else, read_if, read_stmt, read_list};
ghost use Rattle.grammar.specs.Said.{Accepts};
ghost use Rattle.statement.specs.Frames.{bits};
ghost use Rattle.statement.specs.declared.exec.Propagate.TheVariants.{Refused};
ghost use Rattle.statement.specs.Lent.{StmtReady, SpendsOne, ran_in, step_in, turn_in, ran_of, step_of, step_do, else_do, while_do, TurnsOk, turn_of};

use crate::frame::Frame;
use crate::part::Part;
use grammar::{DEPTH, opcode};
use pkg_length::AmlError;

// What ends a list before its last statement is through (parser.rs: Propagate).
#[derive(Clone, Copy, Debug, PartialEq, Eq)]
pub(crate) enum Propagate {
    Refused(AmlError),
    Return(u64),
    Break,
    Continue,
}

impl From<AmlError> for Propagate {
    ghost from_gives = { λ e p. p ≡ Refused e };

    fn from(e: AmlError) -> Propagate {
        Propagate::Refused(e)
    }
}

// Takes a unit, or is 22 where none is left.
fn spend(units: &mut u64) -> Result<(), AmlError>
    ensures { SpendsOne units.old units.new result }
{
    if *units == 0 {
        return Err(AmlError::BudgetSpent);
    }
    *units -= 1;
    Ok(())
}

impl Frame {
    #[cycle(statements)]
    pub(crate) fn term_list(
        &mut self,
        part: Part,
        left: usize,
        units: &mut u64,
    ) -> Result<(), Propagate>
        requires { Accepts (read_list left 0 part.bytes.now) }
        ensures { ran_in self.new units.new result ≡ ran_of (bits self.old.width) (read_list left 0 part.entry.bytes.now) self.old units.old }
    {
        let mut at = 0;
        // No `for`: a statement takes as many bytes as it needs, so nothing counts the turns before they are over.
        while at < part.bytes.len() {
            at = self.statement_opcode(part, at, left, units)?;
        }
        Ok(())
    }

    // Answers where reading goes on behind the statement.
    #[cycle(statements)]
    fn statement_opcode(
        &mut self,
        part: Part,
        at: usize,
        left: usize,
        units: &mut u64,
    ) -> Result<usize, Propagate>
        requires { StmtReady part.bytes.now at left }
        ensures { step_in self.new units.new result ≡ step_of (bits self.old.width) at (read_stmt left 0 (drop at part.entry.bytes.now)) self.old units.old }
    {
        spend(units)?; // for the statement
        // Not by grammar's `stmt_op`: it is private to grammar, and would look an expression's opcode up, which `term_arg` does once more.
        match part.bytes[at] {
            opcode::DEF_BREAK_OP => Err(Propagate::Break),
            opcode::DEF_CONTINUE_OP => Err(Propagate::Continue),
            opcode::DEF_BREAKPOINT_OP => Ok(at + 1),
            opcode::DEF_NOOP_OP => Ok(at + 1),
            opcode::DEF_RETURN_OP => {
                let v = self.eval(part, at + 1, DEPTH)?;
                Err(Propagate::Return(v.number))
            }
            opcode::DEF_IF_ELSE_OP => self.def_if_else(part, at + 1, left - 1, units),
            opcode::DEF_WHILE_OP => self.def_while(part, at + 1, left - 1, units),
            _ => {
                let v = self.term_arg(part, at, DEPTH)?; // an expression, whose number is dropped
                Ok(v.next)
            }
        }
    }

    // An If from its package on.
    #[cycle(statements)]
    fn def_if_else(
        &mut self,
        part: Part,
        at: usize,
        left: usize,
        units: &mut u64,
    ) -> Result<usize, Propagate>
        requires { (at ≤ length part.bytes.now) × Accepts (read_if (read_list left) 0 (drop at part.bytes.now)) }
        ensures { step_in self.new units.new result ≡ step_do (bits self.old.width) at (read_if (read_list left) 0 (drop at part.entry.bytes.now)) self.old units.old }
    {
        let p = part.pkg(at);
        let end = at + p.raw;
        let predicate = self.eval(part, at + p.used, DEPTH)?;
        if predicate.number == 0 {
            return self.def_else(part, end, left, units);
        }
        self.term_list(part.body(predicate.next, end), left, units)?;
        Ok(part.else_end(end))
    }

    // What follows an If's package: an else, or nothing.
    #[cycle(statements)]
    fn def_else(
        &mut self,
        part: Part,
        at: usize,
        left: usize,
        units: &mut u64,
    ) -> Result<usize, Propagate>
        requires { (at ≤ length part.bytes.now) × Accepts (read_else (read_list left) 0 (drop at part.bytes.now)) }
        ensures { step_in self.new units.new result ≡ else_do (bits self.old.width) at (read_else (read_list left) 0 (drop at part.entry.bytes.now)) self.old units.old }
    {
        let Some(p) = part.else_at(at) else {
            return Ok(at);
        };
        let end = at + 1 + p.raw;
        self.term_list(part.body(at + 1 + p.used, end), left, units)?;
        Ok(end)
    }

    #[cycle(statements)]
    fn def_while(
        &mut self,
        part: Part,
        at: usize,
        left: usize,
        units: &mut u64,
    ) -> Result<usize, Propagate>
        requires { (at ≤ length part.bytes.now) × Accepts (read_head (read_list left) 0 (drop at part.bytes.now)) }
        ensures { step_in self.new units.new result ≡ while_do (bits self.old.width) at (read_head (read_list left) 0 (drop at part.entry.bytes.now)) self.old units.old }
    {
        let p = part.pkg(at);
        let end = at + p.raw;
        while self.turn(part, at + p.used, end, left, units)? {}
        Ok(end)
    }

    // One turn of a While, and whether another follows: not behind a predicate of zero, or a Break.
    #[cycle(statements)]
    fn turn(
        &mut self,
        part: Part,
        at: usize,
        end: usize,
        left: usize,
        units: &mut u64,
    ) -> Result<bool, Propagate>
        requires { (end ≤ length part.bytes.now) × TurnsOk left part.bytes.now end at (read_term depth_limit 0 (drop at part.bytes.now)) }
        ensures { turn_in self.new units.new result ≡ turn_of left part.entry.bytes.now end at (bits self.old.width) (read_term depth_limit 0 (drop at part.entry.bytes.now)) self.old units.old }
    {
        spend(units)?; // for the predicate
        let test = self.eval(part, at, DEPTH)?;
        if test.number == 0 {
            return Ok(false);
        }
        match self.term_list(part.body(test.next, end), left, units) {
            Ok(()) => Ok(true),
            Err(out) => match out {
                Propagate::Continue => Ok(true),
                Propagate::Break => Ok(false),
                _ => Err(out),
            },
        }
    }
}
