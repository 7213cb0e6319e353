//! The function by which values are said, and how it is set.
use crate::cast::{CallRow, first_unlike_call, shown_of};
use std::test::Fail;

const SAYS: [CallRow; 25] = [
    // It gets what is said, a text or any other value, and what stands below stays.
    (
        "pushint8 3 / pushfnptr @says / builtin_c 1 1 / say @up / pushint8 5 / sayval / pushnil / sayval / pushtrue / sayval / builtin_a 1 0 / retnil",
        "",
        "(up)(5)()(true)3\n",
    ),
    // The former one is answered, at first nil.
    (
        "pushfnptr @says / builtin_c 1 1 / getr0 / not / builtin_a 1 0 / pushnil / builtin_c 1 1 / getr0 / pushfnptr @says / eq / builtin_a 1 0 / pushnil / builtin1 1 1 2 / getr0 / not / builtin_a 1 0 / retnil",
        "",
        "truetruetrue\n",
    ),
    // Nil again, there is none.
    (
        "pushfnptr @says / builtin_c 1 1 / say @up / pushnil / builtin_c 1 1 / say @up",
        "",
        "(up)\n[unhandled object=8 fault=12]\n",
    ),
    (
        "pushfnptr @says / builtin_c 1 1 / pushnil / builtin_c 1 1 / objgetprop 4 4",
        "",
        "[unhandled object=8 fault=12]\n",
    ),
    // What isn't taken is refused, its count first.
    ("builtin_c 0 1", "", "[unhandled object=8 fault=2]\n"),
    (
        "push_1 / push_1 / builtin_c 2 1",
        "",
        "[unhandled object=8 fault=2]\n",
    ),
    (
        "push_1 / builtin_c 1 1",
        "",
        "[unhandled object=8 fault=3]\n",
    ),
    (
        "pushtrue / builtin_c 1 1",
        "",
        "[unhandled object=8 fault=3]\n",
    ),
    (
        "pushobj 99 / builtin_c 1 1",
        "",
        "[unhandled object=8 fault=3]\n",
    ),
    ("builtin_c 1 1", "", "[bad code at=10 why=Underflow]\n"),
    (
        "pushnil / builtin_c 1 0",
        "",
        "[unhandled object=8 fault=8]\n",
    ),
    (
        "pushnil / builtin_c 1 2",
        "",
        "[unhandled object=8 fault=8]\n",
    ),
    // How many arguments it takes: it gets one.
    (
        "pushfnptr @row / builtin_c 1 1 / say @up",
        "method 0 0 8 0 / retnil",
        "[unhandled object=8 fault=2]\n",
    ),
    (
        "pushfnptr @row / builtin_c 1 1 / push_1 / sayval",
        "method 2 0 8 0 / retnil",
        "[unhandled object=8 fault=2]\n",
    ),
    (
        "pushfnptr @row / builtin_c 1 1 / say @up / retnil",
        "method 128 0 8 0 2 / getargc / builtin_a 1 0 / getarg1 1 / not / builtin_a 1 0 / getarg1 0 / builtin_a 1 0 / retnil",
        "1trueup\n",
    ),
    (
        "pushfnptr 5000 / builtin_c 1 1 / say @up",
        "",
        "[bad code at=5000 why=Header]\n",
    ),
    // The register has what it returns, and else what it had.
    (
        "pushfnptr @row / builtin_c 1 1 / objgetprop 4 3 / say @up / objgetprop 4 4 / getr0 / builtin_a 1 0 / retnil",
        "method 1 0 8 0 / ret",
        "43\n",
    ),
    (
        "pushfnptr @row / builtin_c 1 1 / objgetprop 4 3 / objgetprop 4 4 / getr0 / builtin_a 1 0 / retnil",
        "method 1 0 8 0 / pushint8 6 / retval",
        "6\n",
    ),
    // No constant is read to be handed on, and none stands there.
    (
        "pushfnptr @row / builtin_c 1 1 / say 60 / retnil",
        "method 1 0 8 0 / getarg1 0 / builtin_b 1 0 / getr0 / builtin_a 1 0 / retnil",
        "8\n",
    ),
    (
        "pushfnptr @says / builtin_c 1 1 / say 60",
        "",
        "[unhandled object=8 fault=21]\n",
    ),
    // It is a function, for a property of an object too.
    (
        "pushfnptr @row / builtin_c 1 1 / objgetprop 4 4 / retnil",
        "method 1 0 8 0 / pushself / not / builtin_a 1 0 / retnil",
        "true\n",
    ),
    // It may set another one.
    (
        "pushfnptr @row / builtin_c 1 1 / push_1 / sayval / pushint8 2 / sayval / retnil",
        "method 1 0 8 0 / pushfnptr @says / builtin_c 1 1 / getarg1 0 / sayval / retnil",
        "(1)(2)\n",
    ),
    // What it throws is caught where the value is said.
    (
        "pushfnptr @row / builtin_c 1 1 / call 0 @f / getr0 / builtin_a 1 0 / retnil",
        "method 1 0 8 0 / push_1 / push_0 / div / f: / method 0 0 8 ~t / a: / say @up / b: / retnil / h: / getprop 9 / getr0 / retval / t: / table 1 / handler ~a ~a 0 ~h",
        "4\n",
    ),
    // One that says its argument says it without an end: there is no room for so many frames.
    (
        "pushfnptr @row / builtin_c 1 1 / push_1 / sayval",
        "method 1 0 8 0 / getarg1 0 / sayval / retnil",
        "[unhandled object=8 fault=9]\n",
    ),
    (
        "pushfnptr @row / builtin_c 1 1 / say @up",
        "method 1 0 8 0 / objgetprop 4 4 / retnil",
        "[unhandled object=8 fault=9]\n",
    ),
];

#[test]
fn says_by_a_function(rt: HostRuntime) -> Result<(), Fail> {
    let alloc = rt.alloc();
    assert_eq!(rt; first_unlike_call(alloc, &SAYS)?, None);
    // The same without an end, by fewer steps than frames.
    let body = "pushfnptr @row / builtin_c 1 1 / push_1 / sayval";
    let method = "method 1 0 8 0 / getarg1 0 / sayval / retnil";
    let shown = shown_of(alloc, body, method, &["--steps=1000"])?;
    assert_eq!(rt; shown.as_slice(), b"[step limit]\n".as_slice());
    Ok(())
}
