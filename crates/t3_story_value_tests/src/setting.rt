//! Setting elements of lists, and of what has none.
use crate::story::shown_with_values;
use std::alloc::Global;
use std::test::Fail;

/// A value, a container, an index, what is done with what is pushed then, and what is shown.
type SettingRow = (
    &'static str,
    &'static str,
    &'static str,
    &'static str,
    &'static str,
);

/// The number of the first row that doesn't show what it says.
fn first_unlike_setting(alloc: Global, rows: &[SettingRow]) -> Result<Option<usize>, Fail> {
    for (index, (value, container, at, rest, want)) in rows.iter().enumerate() {
        let body = format!(in alloc; "{value} / {container} / {at} / setind / {rest}")?;
        let shown = shown_with_values(alloc, &body)?;
        if shown.as_slice() != want.as_bytes() {
            return Ok(Some(index));
        }
    }
    Ok(None)
}

/// A value, a list, an index, what comes then, and what is shown.
const SETS_IN_LISTS: [SettingRow; 26] = [
    // A new list.
    (
        "pushint8 9",
        "pushlst @items",
        "push_1",
        "push_1 / index / builtin_a 1 0 / retnil",
        "9\n",
    ),
    (
        "pushint8 9",
        "pushlst @items",
        "pushint8 3",
        "pushint8 3 / index / builtin_a 1 0 / retnil",
        "9\n",
    ),
    (
        "pushint8 9",
        "pushlst @items",
        "push_1",
        "pushint8 2 / index / builtin_a 1 0 / retnil",
        "b\n",
    ),
    (
        "pushint8 9",
        "pushlst @items",
        "push_1",
        "disc / pushlst @items / push_1 / index / builtin_a 1 0 / retnil",
        "1\n",
    ),
    (
        "pushint8 9",
        "pushlst @items",
        "push_1",
        "throw",
        "[unhandled object=6 fault=0]\n",
    ),
    (
        "pushint8 9",
        "pushobj 3",
        "pushint8 2",
        "pushint8 2 / index / builtin_a 1 0 / retnil",
        "9\n",
    ),
    (
        "pushint8 9",
        "pushobj 3",
        "pushint8 2",
        "disc / pushobj 3 / pushint8 2 / index / builtin_a 1 0 / retnil",
        "b\n",
    ),
    (
        "pushnil",
        "pushobj 3",
        "push_1",
        "throw",
        "[unhandled object=6 fault=0]\n",
    ),
    (
        "pushobj 99",
        "pushlst @items",
        "push_1",
        "push_1 / index / pushobj 99 / eq / builtin_a 1 0 / retnil",
        "true\n",
    ),
    (
        "pushstr @broken",
        "pushlst @items",
        "push_1",
        "throw",
        "[unhandled object=6 fault=0]\n",
    ),
    (
        "pushnil",
        "pushlst @items",
        "push_0",
        "retnil",
        "[unhandled object=6 fault=6]\n",
    ),
    (
        "pushnil",
        "pushlst @items",
        "pushint8 4",
        "retnil",
        "[unhandled object=6 fault=6]\n",
    ),
    (
        "pushnil",
        "pushlst @items",
        "pushint8 -1",
        "retnil",
        "[unhandled object=6 fault=6]\n",
    ),
    (
        "pushnil",
        "pushlst @items",
        "pushnil",
        "retnil",
        "[unhandled object=6 fault=3]\n",
    ),
    (
        "pushnil",
        "pushlst @items",
        "pushstr @ab",
        "retnil",
        "[unhandled object=6 fault=3]\n",
    ),
    (
        "pushnil",
        "pushlst @items",
        "pushobj 99",
        "retnil",
        "[unhandled object=6 fault=3]\n",
    ),
    (
        "pushnil",
        "pushobj 3",
        "push_0",
        "retnil",
        "[unhandled object=6 fault=6]\n",
    ),
    (
        "pushnil",
        "pushobj 3",
        "pushint8 4",
        "retnil",
        "[unhandled object=6 fault=6]\n",
    ),
    (
        "pushnil",
        "pushobj 3",
        "pushint8 -1",
        "retnil",
        "[unhandled object=6 fault=6]\n",
    ),
    (
        "pushnil",
        "pushobj 3",
        "pushnil",
        "retnil",
        "[unhandled object=6 fault=3]\n",
    ),
    (
        "pushnil",
        "pushobj 3",
        "pushstr @ab",
        "retnil",
        "[unhandled object=6 fault=3]\n",
    ),
    (
        "pushnil",
        "pushobj 3",
        "pushobj 99",
        "retnil",
        "[unhandled object=6 fault=3]\n",
    ),
    (
        "pushnil",
        "pushlst @none",
        "push_1",
        "retnil",
        "[unhandled object=6 fault=6]\n",
    ),
    (
        "pushnil",
        "pushlst @wrong",
        "push_1",
        "retnil",
        "[unhandled object=6 fault=21]\n",
    ),
    (
        "pushnil",
        "pushlst @wrong",
        "push_0",
        "retnil",
        "[unhandled object=6 fault=21]\n",
    ),
    (
        "pushnil",
        "pushlst @wrong",
        "pushnil",
        "retnil",
        "[unhandled object=6 fault=3]\n",
    ),
];

#[test]
fn sets_in_lists(rt: HostRuntime) -> Result<(), Fail> {
    assert_eq!(rt; first_unlike_setting(rt.alloc(), &SETS_IN_LISTS)?, None);
    Ok(())
}

/// Of what has no elements.
const SETS_IN_NOTHING: [SettingRow; 11] = [
    (
        "pushnil",
        "pushstr @ab",
        "push_1",
        "retnil",
        "[unhandled object=6 fault=3]\n",
    ),
    (
        "pushnil",
        "pushobj 2",
        "push_1",
        "retnil",
        "[unhandled object=6 fault=3]\n",
    ),
    (
        "pushnil",
        "pushobj 1",
        "push_1",
        "retnil",
        "[unhandled object=6 fault=3]\n",
    ),
    (
        "pushnil",
        "pushnil",
        "push_1",
        "retnil",
        "[unhandled object=6 fault=3]\n",
    ),
    (
        "pushnil",
        "push_1",
        "push_1",
        "retnil",
        "[unhandled object=6 fault=3]\n",
    ),
    (
        "pushnil",
        "pushpropid 3",
        "push_1",
        "retnil",
        "[unhandled object=6 fault=3]\n",
    ),
    (
        "pushnil",
        "pushstr @broken",
        "push_1",
        "retnil",
        "[unhandled object=6 fault=3]\n",
    ),
    (
        "pushnil",
        "pushnil",
        "pushobj 99",
        "retnil",
        "[unhandled object=6 fault=3]\n",
    ),
    (
        "pushnil",
        "pushobj 99",
        "push_1",
        "retnil",
        "[unhandled object=6 fault=20]\n",
    ),
    (
        "pushnil",
        "pushobj 99",
        "pushlst @items",
        "retnil",
        "[unhandled object=6 fault=20]\n",
    ),
    (
        "pushnil",
        "pushobj 99",
        "pushnil",
        "retnil",
        "[unhandled object=6 fault=20]\n",
    ),
];

#[test]
fn sets_in_nothing_else(rt: HostRuntime) -> Result<(), Fail> {
    assert_eq!(rt; first_unlike_setting(rt.alloc(), &SETS_IN_NOTHING)?, None);
    Ok(())
}
