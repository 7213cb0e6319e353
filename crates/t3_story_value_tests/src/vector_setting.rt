//! Setting elements of vectors.
use crate::story::{first_unlike_with_values, shown_with_values};
use std::alloc::Global;
use std::test::Fail;
use t3_testing::Row;

/// A value, a container, an index, what is done with what is pushed then, and what is shown.
type SettingRow = (
    &'static str,
    &'static str,
    &'static str,
    &'static str,
    &'static str,
);

/// The number of the first row that doesn't show what it says.
fn first_unlike_setting(alloc: Global, rows: &[SettingRow]) -> Result<Option<usize>, Fail> {
    for (index, (value, container, at, rest, want)) in rows.iter().enumerate() {
        let body = format!(in alloc; "{value} / {container} / {at} / setind / {rest}")?;
        let shown = shown_with_values(alloc, &body)?;
        if shown.as_slice() != want.as_bytes() {
            return Ok(Some(index));
        }
    }
    Ok(None)
}

/// Of vectors.
const SETS_IN_VECTORS: [SettingRow; 18] = [
    (
        "pushint8 9",
        "pushobj 4",
        "push_1",
        "push_1 / index / builtin_a 1 0 / retnil",
        "9\n",
    ),
    // The vector itself.
    (
        "pushint8 9",
        "pushobj 4",
        "push_1",
        "throw",
        "[unhandled object=4 fault=0]\n",
    ),
    (
        "pushint8 9",
        "pushobj 4",
        "pushint8 2",
        "push_1 / index / builtin_a 1 0 / retnil",
        "5\n",
    ),
    // One past its end, and some more: nil stands between.
    (
        "pushint8 9",
        "pushobj 4",
        "pushint8 3",
        "pushint8 3 / index / builtin_a 1 0 / retnil",
        "9\n",
    ),
    (
        "pushint8 9",
        "pushobj 4",
        "pushint8 3",
        "pushint8 4 / index",
        "[unhandled object=6 fault=6]\n",
    ),
    (
        "pushint8 9",
        "pushobj 4",
        "pushint8 5",
        "dup / pushint8 3 / index / builtin_b 1 6 / getr0 / builtin_a 1 0 / dup / pushint8 4 / index / builtin_b 1 6 / getr0 / builtin_a 1 0 / pushint8 5 / index / builtin_a 1 0 / retnil",
        "nilnil9\n",
    ),
    (
        "pushint8 9",
        "pushobj 4",
        "pushint8 5",
        "pushint8 2 / index / builtin_a 1 0 / retnil",
        "true\n",
    ),
    (
        "pushnil",
        "pushobj 4",
        "pushint8 3",
        "pushint8 3 / index / builtin_b 1 6 / getr0 / builtin_a 1 0 / retnil",
        "nil\n",
    ),
    (
        "pushint8 9",
        "pushobj 4",
        "pushint 65535",
        "pushint 65535 / index / builtin_a 1 0 / retnil",
        "9\n",
    ),
    (
        "pushint8 9",
        "pushobj 4",
        "pushint 65535",
        "pushint 65534 / index / builtin_b 1 6 / getr0 / builtin_a 1 0 / retnil",
        "nil\n",
    ),
    (
        "pushint8 9",
        "pushobj 4",
        "pushint 65536",
        "retnil",
        "[unhandled object=6 fault=6]\n",
    ),
    (
        "pushint8 9",
        "pushobj 4",
        "push_0",
        "retnil",
        "[unhandled object=6 fault=6]\n",
    ),
    (
        "pushint8 9",
        "pushobj 4",
        "pushint8 -1",
        "retnil",
        "[unhandled object=6 fault=6]\n",
    ),
    (
        "pushint8 9",
        "pushobj 4",
        "pushint 2147483647",
        "retnil",
        "[unhandled object=6 fault=6]\n",
    ),
    (
        "pushnil",
        "pushobj 4",
        "pushnil",
        "retnil",
        "[unhandled object=6 fault=3]\n",
    ),
    (
        "pushnil",
        "pushobj 4",
        "pushstr @ab",
        "retnil",
        "[unhandled object=6 fault=3]\n",
    ),
    (
        "pushnil",
        "pushobj 4",
        "pushobj 99",
        "retnil",
        "[unhandled object=6 fault=3]\n",
    ),
    // It may hold itself.
    (
        "pushobj 4",
        "pushobj 4",
        "push_1",
        "push_1 / index / throw",
        "[unhandled object=4 fault=0]\n",
    ),
];

#[test]
fn sets_in_vectors(rt: HostRuntime) -> Result<(), Fail> {
    assert_eq!(rt; first_unlike_setting(rt.alloc(), &SETS_IN_VECTORS)?, None);
    Ok(())
}

/// Operands that are missing, and a store that is full while a vector is filled.
const FILLS_THE_STORE: [Row; 2] = [
    (
        "pushnil / pushnil / setind",
        "[bad code at=12 why=Underflow]\n",
    ),
    (
        "pushint8 64 / setlcl1 0 / loop: / pushint 65535 / push_0 / new1 2 3 / declcl 0 / getlcl1 0 / jt @loop / push_1 / builtin_a 1 0 / push_1 / pushobj 4 / pushint 65535 / setind",
        "1\n[store full]\n",
    ),
];

#[test]
fn fills_the_store(rt: HostRuntime) -> Result<(), Fail> {
    assert_eq!(rt;
        first_unlike_with_values(rt.alloc(), &FILLS_THE_STORE)?,
        None
    );
    Ok(())
}
