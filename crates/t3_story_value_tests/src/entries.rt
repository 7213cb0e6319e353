//! Setting entries of tables.
use crate::story::shown_with_values;
use std::alloc::Global;
use std::test::Fail;

/// A value, a container, an index, what is done with what is pushed then, and what is shown.
type SettingRow = (
    &'static str,
    &'static str,
    &'static str,
    &'static str,
    &'static str,
);

/// The number of the first row that doesn't show what it says.
fn first_unlike_setting(alloc: Global, rows: &[SettingRow]) -> Result<Option<usize>, Fail> {
    for (index, (value, container, at, rest, want)) in rows.iter().enumerate() {
        let body = format!(in alloc; "{value} / {container} / {at} / setind / {rest}")?;
        let shown = shown_with_values(alloc, &body)?;
        if shown.as_slice() != want.as_bytes() {
            return Ok(Some(index));
        }
    }
    Ok(None)
}

/// Of tables.
const SETS_IN_TABLES: [SettingRow; 26] = [
    // An equal text finds it, wherever it stands.
    (
        "pushint8 9",
        "new1 0 4 / getr0",
        "pushstr @ab",
        "pushstr @again / index / builtin_a 1 0 / retnil",
        "9\n",
    ),
    (
        "pushint8 9",
        "new1 0 4 / getr0",
        "pushstr @ab",
        "pushobj 5 / index / builtin_a 1 0 / retnil",
        "9\n",
    ),
    (
        "pushint8 9",
        "new1 0 4 / getr0",
        "pushobj 2",
        "pushstr @b / index / builtin_a 1 0 / retnil",
        "9\n",
    ),
    (
        "pushint8 9",
        "new1 0 4 / getr0",
        "pushstr @ab",
        "pushobj 2 / index / builtin_b 1 6 / getr0 / builtin_a 1 0 / retnil",
        "nil\n",
    ),
    (
        "pushint8 9",
        "new1 0 4 / getr0",
        "pushstr @ab",
        "setlcl1 0 / pushint8 8 / getlcl1 0 / pushobj 5 / setind / pushstr @ab / index / builtin_a 1 0 / retnil",
        "8\n",
    ),
    (
        "pushint8 9",
        "new1 0 4 / getr0",
        "push_1",
        "push_1 / index / builtin_a 1 0 / retnil",
        "9\n",
    ),
    // An object is not the key of its number.
    (
        "pushint8 9",
        "new1 0 4 / getr0",
        "push_1",
        "pushobj 1 / index / builtin_b 1 6 / getr0 / builtin_a 1 0 / retnil",
        "nil\n",
    ),
    (
        "pushint8 9",
        "new1 0 4 / getr0",
        "push_1",
        "pushpropid 1 / index / builtin_b 1 6 / getr0 / builtin_a 1 0 / retnil",
        "nil\n",
    ),
    (
        "pushint8 9",
        "new1 0 4 / getr0",
        "push_1",
        "pushenum 1 / index / builtin_b 1 6 / getr0 / builtin_a 1 0 / retnil",
        "nil\n",
    ),
    (
        "pushint8 9",
        "new1 0 4 / getr0",
        "push_1",
        "pushtrue / index / builtin_b 1 6 / getr0 / builtin_a 1 0 / retnil",
        "nil\n",
    ),
    (
        "pushint8 9",
        "new1 0 4 / getr0",
        "pushint8 -7",
        "pushint8 -7 / index / builtin_a 1 0 / retnil",
        "9\n",
    ),
    (
        "pushint8 9",
        "new1 0 4 / getr0",
        "pushnil",
        "pushnil / index / builtin_a 1 0 / retnil",
        "9\n",
    ),
    (
        "pushint8 9",
        "new1 0 4 / getr0",
        "pushtrue",
        "pushtrue / index / builtin_a 1 0 / retnil",
        "9\n",
    ),
    (
        "pushint8 9",
        "new1 0 4 / getr0",
        "pushobj 1",
        "pushobj 1 / index / builtin_a 1 0 / retnil",
        "9\n",
    ),
    (
        "pushint8 9",
        "new1 0 4 / getr0",
        "pushobj 4",
        "pushobj 4 / index / builtin_a 1 0 / retnil",
        "9\n",
    ),
    (
        "pushint8 9",
        "new1 0 4 / getr0",
        "pushpropid 3",
        "pushpropid 3 / index / builtin_a 1 0 / retnil",
        "9\n",
    ),
    (
        "pushint8 9",
        "new1 0 4 / getr0",
        "pushfnptr 0",
        "pushfnptr 0 / index / builtin_a 1 0 / retnil",
        "9\n",
    ),
    (
        "pushint8 9",
        "new1 0 4 / getr0",
        "pushenum 1",
        "pushenum 1 / index / builtin_a 1 0 / retnil",
        "9\n",
    ),
    (
        "pushnil",
        "new1 0 4 / getr0",
        "push_1",
        "push_1 / index / builtin_b 1 6 / getr0 / builtin_a 1 0 / retnil",
        "nil\n",
    ),
    // The table itself.
    (
        "pushint8 9",
        "new1 0 4 / getr0",
        "push_1",
        "throw",
        "[unhandled object=6 fault=0]\n",
    ),
    (
        "pushnil",
        "new1 0 4 / getr0",
        "pushlst @items",
        "retnil",
        "[unhandled object=7 fault=14]\n",
    ),
    (
        "pushnil",
        "new1 0 4 / getr0",
        "pushobj 3",
        "retnil",
        "[unhandled object=7 fault=14]\n",
    ),
    (
        "pushnil",
        "new1 0 4 / getr0",
        "pushlst @wrong",
        "retnil",
        "[unhandled object=7 fault=14]\n",
    ),
    (
        "pushnil",
        "new1 0 4 / getr0",
        "pushobj 99",
        "retnil",
        "[unhandled object=7 fault=20]\n",
    ),
    (
        "pushnil",
        "new1 0 4 / getr0",
        "pushstr @broken",
        "retnil",
        "[unhandled object=7 fault=21]\n",
    ),
    (
        "pushnil",
        "new1 0 4 / getr0",
        "pushstr @cut",
        "retnil",
        "[unhandled object=7 fault=21]\n",
    ),
];

#[test]
fn sets_in_tables(rt: HostRuntime) -> Result<(), Fail> {
    assert_eq!(rt; first_unlike_setting(rt.alloc(), &SETS_IN_TABLES)?, None);
    Ok(())
}
