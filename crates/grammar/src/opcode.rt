// The opcodes of control blocks under the Rust's names (opcode.rs), and what each byte starts. An opcode stays a constant: it is a byte of a block, which no enum
// need hold, and what it starts is an enum below.
ghost use Rattle.std.specs.Prelude.{◌≡◌};
ghost use Rattle.grammar.specs.Opcode.{is_cell_byte, stmt_op_of, term_op_at, stmt_op_at};

pub const NULL_NAME: u8 = 0x00;

pub const ZERO_OP: u8 = 0x00;

pub const ONE_OP: u8 = 0x01;

pub const ONES_OP: u8 = 0xff;

pub const BYTE_CONST: u8 = 0x0a;

pub const WORD_CONST: u8 = 0x0b;

pub const DWORD_CONST: u8 = 0x0c;

pub const QWORD_CONST: u8 = 0x0e;

// Type 1 opcodes: statements.
pub const DEF_CONTINUE_OP: u8 = 0x9f;

pub const DEF_IF_ELSE_OP: u8 = 0xa0;

pub const DEF_ELSE_OP: u8 = 0xa1;

pub const DEF_WHILE_OP: u8 = 0xa2;

pub const DEF_NOOP_OP: u8 = 0xa3;

pub const DEF_RETURN_OP: u8 = 0xa4;

pub const DEF_BREAK_OP: u8 = 0xa5;

pub const DEF_BREAKPOINT_OP: u8 = 0xcc;

// Type 2 opcodes: expressions.
pub const DEF_STORE_OP: u8 = 0x70;

pub const DEF_ADD_OP: u8 = 0x72;

pub const DEF_SUBTRACT_OP: u8 = 0x74;

pub const DEF_INCREMENT_OP: u8 = 0x75;

pub const DEF_DECREMENT_OP: u8 = 0x76;

pub const DEF_AND_OP: u8 = 0x7b;

pub const DEF_OR_OP: u8 = 0x7d;

pub const DEF_X_OR_OP: u8 = 0x7f;

pub const DEF_NOT_OP: u8 = 0x80;

pub const DEF_FIND_SET_LEFT_BIT_OP: u8 = 0x81;

pub const DEF_FIND_SET_RIGHT_BIT_OP: u8 = 0x82;

pub const DEF_L_AND_OP: u8 = 0x90;

pub const DEF_L_OR_OP: u8 = 0x91;

pub const DEF_L_NOT_OP: u8 = 0x92;

pub const DEF_L_EQUAL_OP: u8 = 0x93;

pub const DEF_L_GREATER_OP: u8 = 0x94;

pub const DEF_L_LESS_OP: u8 = 0x95;

// Locals, then Args.
pub const LOCAL0_OP: u8 = 0x60;

pub const ARG6_OP: u8 = 0x6e;

// Statements of one byte.
#[derive(Clone, Copy, Debug, PartialEq, Eq)]
pub enum Plain {
    Break,
    Continue,
    BreakPoint,
    Noop,
}

// Operators by shape: a new one is a row of `term_op`, and of the function that works it out.
#[derive(Clone, Copy, Debug, PartialEq, Eq)]
pub enum StepOp {
    Increment,
    Decrement,
}

#[derive(Clone, Copy, Debug, PartialEq, Eq)]
pub enum OneOp {
    Store,
    Not,
    FindSetLeftBit,
    FindSetRightBit,
    LNot,
}

#[derive(Clone, Copy, Debug, PartialEq, Eq)]
pub enum TwoOp {
    Add,
    Subtract,
    And,
    Or,
    XOr,
    LAnd,
    LOr,
    LEqual,
    LGreater,
    LLess,
}

// Where an operator's result may be written: nowhere, to a cell, or to a target, which is a cell or 00.
#[derive(Clone, Copy, Debug, PartialEq, Eq)]
pub enum Dest {
    Nowhere,
    ToCell,
    ToTarget,
}

// What a byte starts as a term, by shape: a number, a number of so many bytes, a cell, a step of a cell, an operator of one or of two operands. BadTerm stays a
// case beside them, and no Option around them: `term_op_at`, of which the theorems speak, gives it of every byte that has no row.
#[derive(Clone, Copy, Debug, PartialEq, Eq)]
pub enum TermOp {
    Constant(u64),
    Bytes(usize),
    Cell(usize),
    Step(StepOp),
    One(OneOp, Dest),
    Two(TwoOp, Dest),
    BadTerm,
}

// What a byte starts as a statement; BadStmt stays a case as BadTerm does (`stmt_op_at`).
#[derive(Clone, Copy, Debug, PartialEq, Eq)]
pub enum StmtOp {
    Simple(Plain),
    Return,
    If,
    While,
    Expr,
    BadStmt,
}

pub fn is_cell(b: u8) -> bool
    ensures { result ≡ is_cell_byte b }
{
    matches!(b, LOCAL0_OP..=ARG6_OP)
}

// The table of terms. No From: `term_op(b)` says that the byte is an opcode, and `TermOp::from(b)` would not.
// Inlined, so that a byte's row leads at once to what is done with it: a term is looked up where it is read and where it runs, and the compiler joined the two for the table
// of before R-7 alone.
#[inline(always)]
#[tactic(auto, unfolding(crate::specs::Opcode::term_op_at, crate::specs::Opcode::look))]
pub fn term_op(b: u8) -> TermOp
    ensures { result ≡ term_op_at b }
{
    match b {
        LOCAL0_OP..=ARG6_OP => TermOp::Cell(usize::from(b - LOCAL0_OP)),
        ZERO_OP => TermOp::Constant(0),
        ONE_OP => TermOp::Constant(1),
        ONES_OP => TermOp::Constant(0xffff_ffff_ffff_ffff),
        BYTE_CONST => TermOp::Bytes(1),
        WORD_CONST => TermOp::Bytes(2),
        DWORD_CONST => TermOp::Bytes(4),
        QWORD_CONST => TermOp::Bytes(8),
        DEF_INCREMENT_OP => TermOp::Step(StepOp::Increment),
        DEF_DECREMENT_OP => TermOp::Step(StepOp::Decrement),
        DEF_STORE_OP => TermOp::One(OneOp::Store, Dest::ToCell),
        DEF_NOT_OP => TermOp::One(OneOp::Not, Dest::ToTarget),
        DEF_FIND_SET_LEFT_BIT_OP => TermOp::One(OneOp::FindSetLeftBit, Dest::ToTarget),
        DEF_FIND_SET_RIGHT_BIT_OP => TermOp::One(OneOp::FindSetRightBit, Dest::ToTarget),
        DEF_L_NOT_OP => TermOp::One(OneOp::LNot, Dest::Nowhere),
        DEF_ADD_OP => TermOp::Two(TwoOp::Add, Dest::ToTarget),
        DEF_SUBTRACT_OP => TermOp::Two(TwoOp::Subtract, Dest::ToTarget),
        DEF_AND_OP => TermOp::Two(TwoOp::And, Dest::ToTarget),
        DEF_OR_OP => TermOp::Two(TwoOp::Or, Dest::ToTarget),
        DEF_X_OR_OP => TermOp::Two(TwoOp::XOr, Dest::ToTarget),
        DEF_L_AND_OP => TermOp::Two(TwoOp::LAnd, Dest::Nowhere),
        DEF_L_OR_OP => TermOp::Two(TwoOp::LOr, Dest::Nowhere),
        DEF_L_EQUAL_OP => TermOp::Two(TwoOp::LEqual, Dest::Nowhere),
        DEF_L_GREATER_OP => TermOp::Two(TwoOp::LGreater, Dest::Nowhere),
        DEF_L_LESS_OP => TermOp::Two(TwoOp::LLess, Dest::Nowhere),
        _ => TermOp::BadTerm,
    }
}

// A statement of its own, or what it is as a term.
#[tactic(auto, unfolding(crate::specs::Opcode::stmt_op_at, crate::specs::Opcode::look))]
pub(crate) fn stmt_op(b: u8) -> StmtOp
    ensures { result ≡ stmt_op_at b }
{
    match b {
        DEF_BREAK_OP => StmtOp::Simple(Plain::Break),
        DEF_CONTINUE_OP => StmtOp::Simple(Plain::Continue),
        DEF_BREAKPOINT_OP => StmtOp::Simple(Plain::BreakPoint),
        DEF_NOOP_OP => StmtOp::Simple(Plain::Noop),
        DEF_RETURN_OP => StmtOp::Return,
        DEF_IF_ELSE_OP => StmtOp::If,
        DEF_WHILE_OP => StmtOp::While,
        _ => as_stmt(term_op(b)),
    }
}

// A term that starts so, as a statement.
fn as_stmt(op: TermOp) -> StmtOp
    ensures { result ≡ stmt_op_of op }
{
    match op {
        TermOp::Step(_) | TermOp::One(_, _) | TermOp::Two(_, _) => StmtOp::Expr,
        TermOp::Constant(_) | TermOp::Bytes(_) | TermOp::Cell(_) | TermOp::BadTerm => {
            StmtOp::BadStmt
        }
    }
}
