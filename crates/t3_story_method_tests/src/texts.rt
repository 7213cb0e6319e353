//! Methods of strings.
use crate::story::first_unlike;
use std::test::Fail;
use t3_testing::Row;

/// Texts, constant ones and made ones.
const TEXTS: [Row; 5] = [
    (
        "pushstr @word / getprop 30 / getr0 / call 1 @show / pushstr @word / new1 1 2 / getr0 / getprop 30 / getr0 / call 1 @show / retnil",
        "44\n",
    ),
    // Characters, and not bytes.
    (
        "push_1 / pushint8 2 / pushstr @word / callprop 2 31 / getr0 / call 1 @show / pushint8 3 / pushstr @word / callprop 1 31 / getr0 / call 1 @show / retnil",
        "örd\n",
    ),
    // Beyond the end there is nothing.
    (
        "pushint8 9 / pushint8 4 / pushstr @word / callprop 2 31 / getr0 / call 1 @show / pushint8 5 / pushstr @word / callprop 1 31 / getr0 / getprop 30 / getr0 / call 1 @show / retnil",
        "d0\n",
    ),
    (
        "pushstr @short / pushstr @word / callprop 1 37 / getr0 / call 1 @show / pushstr @last / pushstr @word / callprop 1 37 / getr0 / call 1 @show / pushstr @last / pushstr @word / callprop 1 38 / getr0 / call 1 @show / pushstr @short / pushstr @word / callprop 1 38 / getr0 / call 1 @show / retnil",
        "trueniltruenil\n",
    ),
    // The arguments go, and what is below stays.
    (
        "pushint8 7 / push_1 / push_1 / pushstr @word / callprop 2 31 / call 1 @show / retnil",
        "7\n",
    ),
];

#[test]
fn has_methods(rt: HostRuntime) -> Result<(), Fail> {
    assert_eq!(rt; first_unlike(rt.alloc(), &TEXTS)?, None);
    Ok(())
}

/// Faults: of the count of arguments, of their kinds, of numbers and of constants, in this order; and of an index that has
/// no method.
const FAULTS: [Row; 8] = [
    (
        "pushstr @word / getprop 31",
        "[unhandled object=4 fault=2]\n",
    ),
    (
        "pushnil / pushstr @word / callprop 1 30",
        "[unhandled object=4 fault=2]\n",
    ),
    (
        "pushnil / pushstr @word / callprop 1 31",
        "[unhandled object=4 fault=3]\n",
    ),
    (
        "push_0 / pushstr @word / callprop 1 31",
        "[unhandled object=4 fault=6]\n",
    ),
    (
        "push_0 / pushstr 4000 / callprop 1 31",
        "[unhandled object=4 fault=6]\n",
    ),
    (
        "push_1 / pushstr 4000 / callprop 1 31",
        "[unhandled object=4 fault=21]\n",
    ),
    (
        "pushint8 7 / pushstr @word / callprop 1 37",
        "[unhandled object=4 fault=3]\n",
    ),
    (
        "pushstr @word / getprop 32",
        "[unhandled object=4 fault=7]\n",
    ),
];

#[test]
fn has_faults(rt: HostRuntime) -> Result<(), Fail> {
    assert_eq!(rt; first_unlike(rt.alloc(), &FAULTS)?, None);
    Ok(())
}
