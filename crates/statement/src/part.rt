// The code that runs: a block, or the body of a package in it.
ghost use Rattle.std.specs.Prelude.{◌≡◌, ◌-◌, ◌≤◌, length, take, drop};
ghost use Rattle.pkg_length.specs.Refusal.{block_limit};
ghost use Rattle.grammar.specs.Reader.{read_package};
ghost use Rattle.grammar.specs.Said.{Accepts};
ghost use Rattle.statement.specs.Lent.{Spans, ElseHeld, ElseAt, ElseEnds};

use grammar::opcode;
use pkg_length::Raw;

// It is no longer than a block may be. No Unread of grammar's: a run gives no places, and goes by offsets.
#[derive(Clone, Copy)]
pub(crate) struct Part<'a> {
    pub bytes: &'a [u8],
    ghost short: { length bytes.now ≤ block_limit },
}

impl<'a> Part<'a> {
    // A package's body, as a part of its own.
    pub(crate) fn body(self, from: usize, end: usize) -> Part<'a>
        requires { (from ≤ end) × (end ≤ length self.bytes.now) }
        ensures { result.bytes.now ≡ take (end - from) (drop from self.entry.bytes.now) }
    {
        Part {
            bytes: &self.bytes[from..end],
        }
    }

    // A package that was read before: its raw length, and how many bytes spell it.
    pub(crate) fn pkg(self, at: usize) -> Raw
        requires { (at ≤ length self.bytes.now) × Accepts (read_package 0 (drop at self.bytes.now)) }
        ensures { Spans self.entry.bytes.now at result }
    {
        // Not by `raw_pkg_length`, which gives a Raw at once: what the proofs know of a package that was read (`package-held`) is of this answer, and would have to
        // be said of the other once more.
        let p = pkg_length::pkg_length(&self.bytes[at..]).unwrap();
        Raw {
            raw: p.length_read.raw_length,
            used: p.used,
        }
    }

    // The package of an else at `at` that was read before, if one stands there.
    pub(crate) fn else_at(self, at: usize) -> Option<Raw>
        requires { (at ≤ length self.bytes.now) × ElseHeld self.bytes.now at }
        ensures { ElseAt self.entry.bytes.now at result }
    {
        if at < self.bytes.len() && self.bytes[at] == opcode::DEF_ELSE_OP {
            Some(self.pkg(at + 1))
        } else {
            None
        }
    }

    // Where an If whose package ends at `at` ends.
    pub(crate) fn else_end(self, at: usize) -> usize
        requires { (at ≤ length self.bytes.now) × ElseHeld self.bytes.now at }
        ensures { ElseEnds self.entry.bytes.now at result }
    {
        match self.else_at(at) {
            Some(p) => at + 1 + p.raw,
            None => at,
        }
    }
}
