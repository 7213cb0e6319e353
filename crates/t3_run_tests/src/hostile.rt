//! Code that no compiler makes.
use std::test::Fail;
use t3_testing::{Row, first_unlike, shown_beside};

/// What ends the run at once, or after so many frames or values as there may be.
const BODIES: [Row; 8] = [
    ("bytes FF", "[bad code at=10 why=Opcode]\n"),
    ("bytes 03", "[bad code at=10 why=Operand]\n"),
    ("jmp 100", "[bad code at=111 why=NoByte]\n"),
    ("jmp -100", "[bad code at=10 why=NoByte]\n"),
    ("getlcl1 0", "[bad code at=10 why=Local]\n"),
    ("getarg1 0", "[bad code at=10 why=Argument]\n"),
    ("call 0 @main", "[unhandled object=1 fault=9]\n"),
    (
        "loop: / push_0 / jmp @loop",
        "[unhandled object=1 fault=9]\n",
    ),
];

#[test]
fn ends_where_code_goes_wrong(rt: HostRuntime) -> Result<(), Fail> {
    assert_eq!(rt; first_unlike(rt.alloc(), 0, &BODIES)?, None);
    Ok(())
}

/// A story that makes objects for ever comes to the store's limit of 1,048,576 of them.
#[test]
fn ends_where_objects_fill_the_store(rt: HostRuntime) -> Result<(), Fail> {
    let shown = shown_beside(
        rt.alloc(),
        "block \"BODY\" 0",
        "loop: / new1 0 0 / jmp @loop",
    )?;
    assert_eq!(rt; shown.as_slice(), b"[store full]\n".as_slice());
    Ok(())
}
