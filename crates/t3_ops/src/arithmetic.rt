//! Arithmetic of integers of 32 bits.
ghost use Rattle.std.specs.Prelude.{◌≡◌};
ghost use Rattle.t3_ops.specs.Arithmetic.{arith_of, distance_of, divisor_of};

use crate::fault::Fault;

/// An operation on two integers.
#[derive(Clone, Copy, Debug, PartialEq, Eq)]
pub enum ArithOp {
    Add,
    Sub,
    Mul,
    /// The quotient, cut towards 0.
    Div,
    /// What the quotient leaves, with the sign of the left integer.
    Mod,
    And,
    Or,
    Xor,
    /// To the left, and the low 32 bits are kept.
    Shl,
    /// To the right, and the sign is copied.
    Ashr,
    /// To the right, filled with 0.
    Lshr,
}

/// What an operation gives of two integers. It takes no memory.
///
/// `Overflow` where a sum, a difference, a product or a quotient doesn't fit 32 bits, `DivideByZero` where
/// the right integer of a division is 0, and `IndexRange` where that of a shift isn't from 0 to 31.
#[inline(always)]
pub fn arith(op: ArithOp, left: i32, right: i32) -> Result<i32, Fault>
    ensures { result ≡ arith_of op left right }
{
    match op {
        ArithOp::Add => left.checked_add(right).ok_or(Fault::Overflow),
        ArithOp::Sub => left.checked_sub(right).ok_or(Fault::Overflow),
        ArithOp::Mul => left.checked_mul(right).ok_or(Fault::Overflow),
        ArithOp::Div => left.checked_div(divisor(right)?).ok_or(Fault::Overflow),
        ArithOp::Mod => Ok(left.wrapping_rem(divisor(right)?)),
        ArithOp::And => Ok(left & right),
        ArithOp::Or => Ok(left | right),
        ArithOp::Xor => Ok(left ^ right),
        ArithOp::Shl => Ok(left << distance(right)?),
        ArithOp::Ashr => Ok(left >> distance(right)?),
        ArithOp::Lshr => Ok((left.cast_unsigned() >> distance(right)?).cast_signed()),
    }
}

/// What an integer is divided by.
#[inline(always)]
fn divisor(right: i32) -> Result<i32, Fault>
    ensures { result ≡ divisor_of right }
{
    if right == 0 {
        Err(Fault::DivideByZero)
    } else {
        Ok(right)
    }
}

/// By how many bits a shift goes.
#[inline(always)]
fn distance(right: i32) -> Result<u32, Fault>
    ensures { result ≡ distance_of right }
{
    if (0..32).contains(&right) {
        Ok(right.cast_unsigned())
    } else {
        Err(Fault::IndexRange)
    }
}
