// What the operators work out, on numbers of 32 or 64 bits.
ghost use Rattle.std.specs.Prelude.{◌≡◌, ◌%◌, ◌^◌, not, map, length, ◌==◌};
ghost use Rattle.statement.specs.Meaning as meaning;
ghost use Rattle.statement.specs.Frames.{bits, low};

use crate::frame::Width;
use grammar::opcode::{OneOp, StepOp, TwoOp};

fn all_ones(w: Width) -> u64
    ensures { result ≡ meaning.ones_of_width (bits w) }
{
    match w {
        Width::Bits32 => 0xffff_ffff,
        Width::Bits64 => 0xffff_ffff_ffff_ffff,
    }
}

// The low bits of a number.
pub(crate) fn wrapped(n: u64, w: Width) -> u64
    ensures { result ≡ n % 2 ^ bits w }
{
    match w {
        Width::Bits32 => n % 0x1_0000_0000,
        Width::Bits64 => n,
    }
}

// Every number of a frame keeps its low bits.
pub(crate) fn narrow(val: &mut [u64], w: Width)
    ensures { val.new ≡ map (low (bits w)) val.old }
{
    for v in val.iter_mut() {
        *v = wrapped(*v, w);
    }
}

// True is all ones.
fn truth(holds: bool, w: Width) -> u64
    ensures { result ≡ meaning.truth (bits w) holds }
{
    if holds { all_ones(w) } else { 0 }
}

pub(crate) fn stepped(op: StepOp, n: u64, w: Width) -> u64
    ensures { result ≡ meaning.stepped (bits w) op n }
{
    match op {
        StepOp::Increment => wrapped(n.wrapping_add(1), w),
        StepOp::Decrement => wrapped(n.wrapping_add(all_ones(w)), w),
    }
}

// What the finders give for zero.
const NO_BIT: u64 = 0;

// All but the zeros above the highest set bit.
fn find_set_left_bit(n: u64, w: Width) -> u64
    ensures { result ≡ meaning.greatest (meaning.is_set n) (bits w) }
{
    let m = wrapped(n, w);
    if m == 0 {
        return NO_BIT;
    }
    64 - u64::from(m.leading_zeros())
}

// One more than the zeros below the lowest.
fn find_set_right_bit(n: u64, w: Width) -> u64
    ensures { result ≡ meaning.least (meaning.is_set n) (bits w) }
{
    let m = wrapped(n, w);
    if m == 0 {
        return NO_BIT;
    }
    u64::from(m.trailing_zeros()) + 1
}

pub(crate) fn unary(op: OneOp, n: u64, w: Width) -> u64
    ensures { result ≡ meaning.unary (bits w) op n }
{
    match op {
        OneOp::Store => n,
        OneOp::Not => all_ones(w) - wrapped(n, w),
        OneOp::FindSetLeftBit => find_set_left_bit(n, w),
        OneOp::FindSetRightBit => find_set_right_bit(n, w),
        OneOp::LNot => truth(n == 0, w),
    }
}

pub(crate) fn binary(op: TwoOp, a: u64, b: u64, w: Width) -> u64
    ensures { result ≡ meaning.binary (bits w) op a b }
{
    match op {
        TwoOp::Add => wrapped(a.wrapping_add(b), w),
        TwoOp::Subtract => wrapped(a.wrapping_sub(b), w),
        TwoOp::And => a & b,
        TwoOp::Or => a | b,
        TwoOp::XOr => a ^ b,
        TwoOp::LAnd => truth(a != 0 && b != 0, w),
        TwoOp::LOr => truth(a != 0 || b != 0, w),
        TwoOp::LEqual => truth(a == b, w),
        TwoOp::LGreater => truth(b < a, w),
        TwoOp::LLess => truth(a < b, w),
    }
}
