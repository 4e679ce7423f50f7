// Reading a list of statements without running it, as term.rt reads terms: a body is a part of its own.
ghost use Rattle.std.specs.Prelude.{◌≡◌, ◌<◌, length};
ghost use Rattle.grammar.specs.Reader.{read_package, read_head, read_else, read_if, read_stmt, read_list};
ghost use Rattle.grammar.specs.Said.{read_by, read_through};
ghost use Rattle.grammar.specs.Stop.{stopped};

use crate::opcode::StmtOp;
use crate::stop::{Reason, Stop};
use crate::unread::Unread;
use crate::{DEPTH, opcode};
use pkg_length::{AmlError, Pkg, Raw};

impl<'a> Unread<'a> {
    // A package length, by the layer below: the place of its refusal counts from here. A package holds its own length's bytes.
    fn pkg(&self) -> Result<Raw, Stop>
        ensures { stopped result ≡ read_package self.now.place self.now.bytes.now }
    {
        // By match: `map_err` would take the same cases in a closure over the place, and be no plainer.
        match pkg_length::pkg_length(self.bytes) {
            Ok(Pkg { length_read, used }) => {
                let raw = length_read.raw_length;
                if raw < used {
                    return Err(Stop::new(Reason::PackageEndsEarly, self.place));
                }
                Ok(Raw { raw, used })
            }
            Err(e) => Err(match e {
                AmlError::UnexpectedEndOfStream(end) => {
                    Stop::new(Reason::UnexpectedEndOfStream, self.place + end)
                }
                AmlError::InvalidPkgLength(lead) => {
                    Stop::new(Reason::InvalidPkgLength, self.place + lead)
                }
                // A package length is refused with these two alone.
                _ => unreachable!(),
            }),
        }
    }

    // A part's statements, to its end.
    #[tactic(auto, using(crate::proofs::Reaches::stmt_in, crate::proofs::Reaches::list_more, crate::proofs::Reaches::list_stop, crate::proofs::Reaches::list_end, crate::proofs::Reaches::residual))]
    #[cycle(statements)]
    pub(crate) fn term_list(&self, left: usize) -> Result<(), Stop>
        ensures { stopped result ≡ read_through (read_list left self.now.place self.now.bytes.now) }
    {
        let mut rest = *self;
        // No `for`: a statement takes as many bytes as it needs, so nothing counts the turns before they are over.
        while !rest.bytes.is_empty() {
            let behind = rest.statement_opcode(left)?;
            rest = rest.onward(behind);
        }
        Ok(())
    }

    #[tactic(auto, unfolding(crate::specs::Reader::read_stmt))]
    #[cycle(statements)]
    fn statement_opcode(&self, left: usize) -> Result<usize, Stop>
        requires { 0 < length self.now.bytes.now }
        ensures { stopped result ≡ read_by (read_stmt left) self.now }
    {
        if left == 0 {
            return Err(Stop::new(Reason::TooDeep, self.place));
        }
        match opcode::stmt_op(self.bytes[0]) {
            StmtOp::Simple(_) => Ok(self.place + 1),
            StmtOp::Return => self.next().term_arg(DEPTH),
            StmtOp::If => self.next().def_if_else(left - 1),
            StmtOp::While => self.next().predicate_and_body(left - 1),
            StmtOp::Expr => {
                // Of a copy: what a list has left stays in registers then, and is written to the stack for an arm that lends it.
                let part = *self;
                part.term_arg(DEPTH)
            }
            StmtOp::BadStmt => Err(Stop::new(Reason::BadOpcode, self.place)),
        }
    }

    // A package of a predicate and a body, an If's or a While's. The predicate is read against the part that holds the package; if it goes past the
    // package's end, it needed the byte there. Inlined where an If and a While are read: a level has one frame on the stack less, and a check takes a seventh less.
    #[tactic(auto, using(crate::proofs::Reaches::package_within, crate::proofs::Reaches::term_in, crate::proofs::Reaches::head_no_package, crate::proofs::Reaches::residual))]
    #[inline(always)]
    #[cycle(statements)]
    fn predicate_and_body(&self, left: usize) -> Result<usize, Stop>
        ensures { stopped result ≡ read_by (read_head (read_list left)) self.now }
    {
        let package = self.pkg()?;
        let end = self.place + package.raw;
        let mut part = self.onward(self.place + package.used);
        let body = part.term_arg(DEPTH)?;
        if end < body {
            return Err(Stop::new(Reason::PackageEndsEarly, end));
        }
        part = self.body(body, end);
        part.term_list(left)?;
        Ok(end)
    }

    // An If from its package on.
    #[tactic(auto, using(crate::proofs::Reaches::head_in, crate::proofs::Reaches::stops, crate::proofs::Reaches::residual), unfolding(crate::specs::Reader::read_if))]
    #[cycle(statements)]
    fn def_if_else(&self, left: usize) -> Result<usize, Stop>
        ensures { stopped result ≡ read_by (read_if (read_list left)) self.now }
    {
        let behind = self.predicate_and_body(left)?;
        self.onward(behind).def_else(left)
    }

    // What follows an If's package: an else, or nothing.
    #[tactic(auto, using(crate::proofs::Reaches::package_within, crate::proofs::Reaches::else_no_package, crate::proofs::Reaches::residual), unfolding(crate::specs::Reader::read_else))]
    #[cycle(statements)]
    fn def_else(&self, left: usize) -> Result<usize, Stop>
        ensures { stopped result ≡ read_by (read_else (read_list left)) self.now }
    {
        let [first, ..] = self.bytes else {
            return Ok(self.place);
        };
        if *first != opcode::DEF_ELSE_OP {
            return Ok(self.place);
        }
        let behind = self.next();
        let package = behind.pkg()?;
        let body = behind.place + package.used;
        let end = behind.place + package.raw;
        behind.body(body, end).term_list(left)?;
        Ok(end)
    }
}
