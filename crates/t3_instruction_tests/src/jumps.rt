//! Instructions that go elsewhere: plain cases, faults, and targets that are no addresses.
use std::test::Fail;
use t3_testing::{ENTRY, FUNCTIONS, Row, code_image, first_unlike, outcome};

/// Jumps, each of the two ways.
const JUMPS: [Row; 16] = [
    (
        "jmp @x / retnil / x: / push_1 / builtin_a 1 0 / retnil",
        "1\n",
    ),
    (
        "push_1 / jt @x / retnil / x: / push_0 / jt @y / push_1 / builtin_a 1 0 / y: / retnil",
        "1\n",
    ),
    (
        "pushnil / jf @x / retnil / x: / push_1 / jf @y / push_1 / builtin_a 1 0 / y: / retnil",
        "1\n",
    ),
    (
        "push_1 / push_1 / je @x / retnil / x: / push_1 / push_1 / jne @y / push_1 / builtin_a 1 0 / y: / retnil",
        "1\n",
    ),
    (
        "push_1 / push_0 / jgt @x / retnil / x: / push_1 / push_1 / jgt @y / push_1 / builtin_a 1 0 / y: / retnil",
        "1\n",
    ),
    (
        "push_1 / push_1 / jge @x / retnil / x: / push_0 / push_1 / jge @y / push_1 / builtin_a 1 0 / y: / retnil",
        "1\n",
    ),
    (
        "push_0 / push_1 / jlt @x / retnil / x: / push_1 / push_1 / jlt @y / push_1 / builtin_a 1 0 / y: / retnil",
        "1\n",
    ),
    (
        "push_1 / push_1 / jle @x / retnil / x: / push_1 / push_0 / jle @y / push_1 / builtin_a 1 0 / y: / retnil",
        "1\n",
    ),
    // The value is kept where the jump is taken.
    (
        "pushint8 5 / jst @x / retnil / x: / builtin_a 1 0 / push_1 / push_0 / jst @y / builtin_a 1 0 / y: / retnil",
        "51\n",
    ),
    (
        "push_0 / jsf @x / retnil / x: / builtin_a 1 0 / push_0 / push_1 / jsf @y / builtin_a 1 0 / y: / retnil",
        "00\n",
    ),
    ("push_1 / pushnil / jlt 2", "[unhandled object=1 fault=3]\n"),
    ("push_1 / push_1 / je -14", "[bad code at=12 why=NoByte]\n"),
    // A jump that is not taken has no target.
    ("push_1 / push_0 / je -32768 / retnil", ""),
    ("push_1 / jst -32768", "[bad code at=11 why=NoByte]\n"),
    ("jne 2", "[bad code at=10 why=Underflow]\n"),
    ("jsf 2", "[bad code at=10 why=Underflow]\n"),
];

#[test]
fn jumps(rt: HostRuntime) -> Result<(), Fail> {
    assert_eq!(rt; first_unlike(rt.alloc(), 0, &JUMPS)?, None);
    Ok(())
}

/// A page of code of at most 8,192 bytes.
const LARGE_POOL: &[u8] = b"CPDF\x0A\x00\x00\x00\x01\x00\x01\x00\x01\x00\x00\x00\x00\x20\x00\x00";

/// The local is 0; then at 12 it grows by 1, and a jump goes to 4,108.
const GROWS_BY_1: &[u8] = b"\xD6\x00\xD0\x00\x00\x91\xFC\x0F";

/// At 4,108 the local grows by 10, and while it is below 50 a jump goes to 12; then it is said.
const GROWS_BY_10: &[u8] = b"\xD2\x00\x0A\x80\x00\x03\x32\x98\xF8\xEF\x80\x00\xB1\x01\x00\x51";

/// Two instructions 4,096 bytes apart, which have one line of the decoded ones, are carried out in turn.
#[test]
fn turns_between_instructions_of_one_line(rt: HostRuntime) -> Result<(), Fail> {
    let alloc = rt.alloc();
    let mut body = Vec::from_slice(alloc, GROWS_BY_1)?;
    body.extend_from_slice(&[0xF2; 4090])?;
    body.extend_from_slice(GROWS_BY_10)?;
    let header = b"\x00\x00\x01\x00\x02\x00\x00\x00\x00\x00";
    let image = code_image(alloc, &[ENTRY, LARGE_POOL, FUNCTIONS], header, &body)?;
    let (_, shown) = outcome(alloc, &["run", "a.t3"], Some(&image))?;
    assert_eq!(rt; shown.as_slice(), b"55\n".as_slice());
    Ok(())
}

/// A switch goes by the first case that is equal, and else by its last jump.
const SWITCHES: [Row; 8] = [
    // The first of two equal cases.
    (
        "push_1 / switch 3 / case 7 1 @a / case 7 1 @b / case 1 0 @b / default @c / a: / push_1 / builtin_a 1 0 / retnil / b: / pushint8 2 / builtin_a 1 0 / retnil / c: / pushint8 3 / builtin_a 1 0 / retnil",
        "1\n",
    ),
    (
        "pushnil / switch 3 / case 7 1 @a / case 7 1 @b / case 1 0 @b / default @c / a: / push_1 / builtin_a 1 0 / retnil / b: / pushint8 2 / builtin_a 1 0 / retnil / c: / pushint8 3 / builtin_a 1 0 / retnil",
        "2\n",
    ),
    (
        "push_0 / switch 3 / case 7 1 @a / case 7 1 @b / case 1 0 @b / default @c / a: / push_1 / builtin_a 1 0 / retnil / b: / pushint8 2 / builtin_a 1 0 / retnil / c: / pushint8 3 / builtin_a 1 0 / retnil",
        "3\n",
    ),
    (
        "pushenum 1 / switch 3 / case 7 1 @a / case 7 1 @b / case 1 0 @b / default @c / a: / push_1 / builtin_a 1 0 / retnil / b: / pushint8 2 / builtin_a 1 0 / retnil / c: / pushint8 3 / builtin_a 1 0 / retnil",
        "3\n",
    ),
    // No cases.
    (
        "push_1 / switch 0 / default @x / retnil / x: / push_1 / builtin_a 1 0 / retnil",
        "1\n",
    ),
    // A bad holder in the last case.
    (
        "push_1 / switch 2 / case 7 2 @x / case 3 0 @x / default @x / x: / retnil",
        "[bad code at=11 why=Operand]\n",
    ),
    // A target that is none.
    (
        "push_1 / switch 1 / case 7 1 -32768 / default @x / x: / retnil",
        "[bad code at=11 why=NoByte]\n",
    ),
    (
        "switch 0 / default @x / x: / retnil",
        "[bad code at=10 why=Underflow]\n",
    ),
];

#[test]
fn switches(rt: HostRuntime) -> Result<(), Fail> {
    assert_eq!(rt; first_unlike(rt.alloc(), 0, &SWITCHES)?, None);
    Ok(())
}

/// A subroutine of a method: the offset of the next instruction is pushed, and a local goes back to it.
const ENTERS_SUBROUTINES: [Row; 8] = [
    (
        "ljsr @sub / push_1 / builtin_a 1 0 / retnil / sub: / setlcl1 0 / pushint8 2 / builtin_a 1 0 / lret 0",
        "21\n",
    ),
    ("ljsr @x / x: / builtin_a 1 0 / retnil", "13\n"),
    // An offset of 65,535, where no byte is.
    (
        "pushint 65535 / setlcl1 0 / lret 0",
        "[bad code at=65535 why=NoByte]\n",
    ),
    (
        "pushint 65536 / setlcl1 0 / lret 0",
        "[unhandled object=1 fault=3]\n",
    ),
    (
        "pushint8 -1 / setlcl1 0 / lret 0",
        "[unhandled object=1 fault=3]\n",
    ),
    // Nil is no offset.
    ("lret 0", "[unhandled object=1 fault=3]\n"),
    ("lret 1", "[bad code at=10 why=Local]\n"),
    ("ljsr -12", "[bad code at=10 why=NoByte]\n"),
];

#[test]
fn enters_subroutines(rt: HostRuntime) -> Result<(), Fail> {
    assert_eq!(rt; first_unlike(rt.alloc(), 1, &ENTERS_SUBROUTINES)?, None);
    Ok(())
}

/// Functions of sets, in an image with the set for input and output alone.
const CALLS_FUNCTIONS: [Row; 13] = [
    (
        "push_1 / builtin1 1 0 0 / pushnil / pushtrue / builtin1 2 0 0 / retnil",
        "1true\n",
    ),
    ("push_1 / builtin_b 1 0", "[unhandled object=1 fault=8]\n"),
    ("push_1 / builtin_c 1 0", "[unhandled object=1 fault=8]\n"),
    ("push_1 / builtin_d 1 0", "[unhandled object=1 fault=8]\n"),
    ("push_1 / builtin1 1 0 4", "[unhandled object=1 fault=8]\n"),
    // What is missing is told first.
    ("builtin_b 1 0", "[bad code at=10 why=Underflow]\n"),
    ("builtin1 1 4 0", "[bad code at=10 why=Underflow]\n"),
    ("builtin1 0 4 0", "[bad code at=14 why=NoByte]\n"),
    // The entry method calls itself, until there is room for no frame more.
    ("call 0 0", "[unhandled object=1 fault=9]\n"),
    ("push_1 / retval", ""),
    ("retval", "[bad code at=10 why=Underflow]\n"),
    ("rettrue", ""),
    ("ret", ""),
];

#[test]
fn calls_functions(rt: HostRuntime) -> Result<(), Fail> {
    assert_eq!(rt; first_unlike(rt.alloc(), 0, &CALLS_FUNCTIONS)?, None);
    Ok(())
}
