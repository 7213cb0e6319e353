//! Each operation on integers at its ends, which values are true, and the numbers of faults.
use t3_holder::Holder;
use t3_ops::{ArithOp, Fault, arith, truth};

const LEAST: i32 = i32::MIN;

const MOST: i32 = i32::MAX;

/// An operation with its integers, and what comes of them.
type Row = (ArithOp, i32, i32, Result<i32, Fault>);

const ROWS: [Row; 52] = [
    (ArithOp::Add, 2, 3, Ok(5)),
    (ArithOp::Add, MOST, 0, Ok(MOST)),
    (ArithOp::Add, MOST, 1, Err(Fault::Overflow)),
    (ArithOp::Add, LEAST, -1, Err(Fault::Overflow)),
    (ArithOp::Add, LEAST, MOST, Ok(-1)),
    (ArithOp::Sub, 2, 3, Ok(-1)),
    (ArithOp::Sub, 0, MOST, Ok(-MOST)),
    (ArithOp::Sub, 0, LEAST, Err(Fault::Overflow)),
    (ArithOp::Sub, LEAST, 1, Err(Fault::Overflow)),
    (ArithOp::Sub, -1, LEAST, Ok(MOST)),
    (ArithOp::Mul, -7, 6, Ok(-42)),
    (ArithOp::Mul, LEAST, 1, Ok(LEAST)),
    (ArithOp::Mul, LEAST, -1, Err(Fault::Overflow)),
    (ArithOp::Mul, 65_536, 32_767, Ok(2_147_418_112)),
    (ArithOp::Mul, 65_536, 32_768, Err(Fault::Overflow)),
    (ArithOp::Mul, 65_536, -32_768, Ok(LEAST)),
    (ArithOp::Div, 7, 2, Ok(3)),
    (ArithOp::Div, -7, 2, Ok(-3)),
    (ArithOp::Div, 7, -2, Ok(-3)),
    (ArithOp::Div, -7, -2, Ok(3)),
    (ArithOp::Div, 0, 5, Ok(0)),
    (ArithOp::Div, 5, 0, Err(Fault::DivideByZero)),
    (ArithOp::Div, LEAST, 0, Err(Fault::DivideByZero)),
    (ArithOp::Div, LEAST, -1, Err(Fault::Overflow)),
    (ArithOp::Div, LEAST, 1, Ok(LEAST)),
    (ArithOp::Mod, 7, 2, Ok(1)),
    (ArithOp::Mod, -7, 2, Ok(-1)),
    (ArithOp::Mod, 7, -2, Ok(1)),
    (ArithOp::Mod, -7, -2, Ok(-1)),
    (ArithOp::Mod, -8, 2, Ok(0)),
    (ArithOp::Mod, 5, 0, Err(Fault::DivideByZero)),
    (ArithOp::Mod, LEAST, -1, Ok(0)),
    (ArithOp::And, 12, 10, Ok(8)),
    (ArithOp::And, -1, LEAST, Ok(LEAST)),
    (ArithOp::Or, 12, 10, Ok(14)),
    (ArithOp::Or, LEAST, MOST, Ok(-1)),
    (ArithOp::Xor, 12, 10, Ok(6)),
    (ArithOp::Xor, -1, MOST, Ok(LEAST)),
    (ArithOp::Shl, 1, 31, Ok(LEAST)),
    (ArithOp::Shl, 3, 31, Ok(LEAST)),
    (ArithOp::Shl, -1, 4, Ok(-16)),
    (ArithOp::Shl, 1, 32, Err(Fault::IndexRange)),
    (ArithOp::Shl, 0, -1, Err(Fault::IndexRange)),
    (ArithOp::Ashr, -1, 31, Ok(-1)),
    (ArithOp::Ashr, -7, 1, Ok(-4)),
    (ArithOp::Ashr, MOST, 30, Ok(1)),
    (ArithOp::Ashr, 1, 32, Err(Fault::IndexRange)),
    (ArithOp::Ashr, 1, LEAST, Err(Fault::IndexRange)),
    (ArithOp::Lshr, -1, 31, Ok(1)),
    (ArithOp::Lshr, -1, 0, Ok(-1)),
    (ArithOp::Lshr, LEAST, 1, Ok(1_073_741_824)),
    (ArithOp::Lshr, 1, 32, Err(Fault::IndexRange)),
];

/// The first row of whose integers something else comes.
fn first_unlike(rows: &[Row]) -> Option<Row> {
    for row in rows {
        let (op, left, right, want) = *row;
        if arith(op, left, right) != want {
            return Some(*row);
        }
    }
    None
}

#[test]
fn computes(rt: HostRuntime) {
    assert_eq!(rt; first_unlike(&ROWS), None);
}

const FALSE_VALUES: [Holder; 2] = [Holder::Nil, Holder::Int(0)];

const TRUE_VALUES: [Holder; 11] = [
    Holder::True,
    Holder::Int(-1),
    Holder::Int(1),
    Holder::Enum(0),
    Holder::Prop(1),
    Holder::Obj(1),
    Holder::Text(0),
    Holder::Shown(0),
    Holder::List(0),
    Holder::Code(0),
    Holder::Func(0),
];

/// The first value that isn't true or not as is wanted of all.
fn first_not(want: bool, values: &[Holder]) -> Option<Holder> {
    for value in values {
        if truth(*value) != want {
            return Some(*value);
        }
    }
    None
}

#[test]
fn tells_what_is_true(rt: HostRuntime) {
    assert_eq!(rt; first_not(false, &FALSE_VALUES), None);
    assert_eq!(rt; first_not(true, &TRUE_VALUES), None);
}

/// The faults from number 1 on.
const FAULTS: [Fault; 22] = [
    Fault::NotObject,
    Fault::ArgCount,
    Fault::Kind,
    Fault::DivideByZero,
    Fault::Overflow,
    Fault::IndexRange,
    Fault::NoMethod,
    Fault::NoBuiltin,
    Fault::StackFull,
    Fault::TextLong,
    Fault::ListLong,
    Fault::NoSay,
    Fault::CompareLong,
    Fault::KeyKind,
    Fault::CannotSet,
    Fault::CannotMake,
    Fault::FileName,
    Fault::NoSnapshot,
    Fault::BadSnapshot,
    Fault::Stale,
    Fault::BadConstant,
    Fault::TransientSuper,
];

/// The first fault that has another number than its place in the list.
fn first_misnumbered(faults: &[Fault]) -> Option<Fault> {
    let mut number = 0u16;
    for fault in faults {
        number = number.wrapping_add(1);
        if fault.number() != number {
            return Some(*fault);
        }
    }
    None
}

#[test]
fn numbers_faults(rt: HostRuntime) {
    assert_eq!(rt; first_misnumbered(&FAULTS), None);
}
