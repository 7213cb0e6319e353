//! Elements of lists and vectors, and entries of tables, by their index.
use crate::story::{first_unlike_with_values, shown_with_values};
use std::alloc::Global;
use std::test::Fail;
use t3_testing::Row;

/// A container, an index, and what is shown of the element there.
type IndexRow = (&'static str, &'static str, &'static str);

/// The number of the first row whose element isn't shown as it says.
fn first_unlike_element(alloc: Global, rows: &[IndexRow]) -> Result<Option<usize>, Fail> {
    for (index, (container, at, want)) in rows.iter().enumerate() {
        let body = format!(in alloc;
            "{container} / {at} / index / builtin_b 1 6 / getr0 / builtin_a 1 0 / retnil"
        )?;
        let shown = shown_with_values(alloc, &body)?;
        if shown.as_slice() != want.as_bytes() {
            return Ok(Some(index));
        }
    }
    Ok(None)
}

/// A container, an index, and what is there.
const INDEXES: [IndexRow; 56] = [
    ("pushlst @items", "push_1", "1\n"),
    ("pushlst @items", "pushint8 2", "b\n"),
    ("pushlst @items", "pushint8 3", "nil\n"),
    ("pushobj 3", "pushint8 2", "b\n"),
    ("pushobj 4", "push_1", "5\n"),
    ("pushobj 4", "pushint8 2", "true\n"),
    ("pushlst @items", "push_0", "[unhandled object=6 fault=6]\n"),
    (
        "pushlst @items",
        "pushint8 4",
        "[unhandled object=6 fault=6]\n",
    ),
    (
        "pushlst @items",
        "pushint8 -1",
        "[unhandled object=6 fault=6]\n",
    ),
    ("pushobj 3", "push_0", "[unhandled object=6 fault=6]\n"),
    ("pushobj 3", "pushint8 4", "[unhandled object=6 fault=6]\n"),
    ("pushobj 3", "pushint8 -1", "[unhandled object=6 fault=6]\n"),
    ("pushlst @none", "push_1", "[unhandled object=6 fault=6]\n"),
    (
        "pushlst @items",
        "pushint -2147483648",
        "[unhandled object=6 fault=6]\n",
    ),
    (
        "pushlst @items",
        "pushint 65537",
        "[unhandled object=6 fault=6]\n",
    ),
    ("pushobj 4", "push_0", "[unhandled object=6 fault=6]\n"),
    ("pushobj 4", "pushint8 3", "[unhandled object=6 fault=6]\n"),
    ("pushobj 4", "pushint8 -1", "[unhandled object=6 fault=6]\n"),
    (
        "pushlst @items",
        "pushnil",
        "[unhandled object=6 fault=3]\n",
    ),
    (
        "pushlst @items",
        "pushstr @ab",
        "[unhandled object=6 fault=3]\n",
    ),
    (
        "pushlst @items",
        "pushobj 99",
        "[unhandled object=6 fault=3]\n",
    ),
    ("pushobj 3", "pushnil", "[unhandled object=6 fault=3]\n"),
    ("pushobj 3", "pushstr @ab", "[unhandled object=6 fault=3]\n"),
    ("pushobj 3", "pushobj 99", "[unhandled object=6 fault=3]\n"),
    ("pushobj 4", "pushnil", "[unhandled object=6 fault=3]\n"),
    ("pushobj 4", "pushstr @ab", "[unhandled object=6 fault=3]\n"),
    ("pushobj 4", "pushobj 99", "[unhandled object=6 fault=3]\n"),
    // No container.
    ("pushstr @ab", "push_1", "[unhandled object=6 fault=3]\n"),
    ("pushobj 2", "push_1", "[unhandled object=6 fault=3]\n"),
    ("pushobj 1", "push_1", "[unhandled object=6 fault=3]\n"),
    ("pushnil", "push_1", "[unhandled object=6 fault=3]\n"),
    ("push_1", "push_1", "[unhandled object=6 fault=3]\n"),
    ("pushnil", "pushobj 99", "[unhandled object=6 fault=3]\n"),
    (
        "pushstr @broken",
        "push_1",
        "[unhandled object=6 fault=3]\n",
    ),
    ("pushobj 99", "push_1", "[unhandled object=6 fault=20]\n"),
    ("pushobj 99", "pushnil", "[unhandled object=6 fault=20]\n"),
    (
        "pushobj 99",
        "pushlst @items",
        "[unhandled object=6 fault=20]\n",
    ),
    (
        "pushlst @wrong",
        "push_1",
        "[unhandled object=6 fault=21]\n",
    ),
    // What can't be read has no length.
    (
        "pushlst @wrong",
        "push_0",
        "[unhandled object=6 fault=21]\n",
    ),
    (
        "pushlst @wrong",
        "pushnil",
        "[unhandled object=6 fault=3]\n",
    ),
    // A table without entries has its default, nil, under each key.
    ("new1 0 4 / getr0", "pushnil", "nil\n"),
    ("new1 0 4 / getr0", "pushtrue", "nil\n"),
    ("new1 0 4 / getr0", "push_1", "nil\n"),
    ("new1 0 4 / getr0", "pushstr @ab", "nil\n"),
    ("new1 0 4 / getr0", "pushobj 2", "nil\n"),
    ("new1 0 4 / getr0", "pushobj 1", "nil\n"),
    ("new1 0 4 / getr0", "pushobj 4", "nil\n"),
    ("new1 0 4 / getr0", "pushpropid 3", "nil\n"),
    ("new1 0 4 / getr0", "pushfnptr 0", "nil\n"),
    ("new1 0 4 / getr0", "pushenum 1", "nil\n"),
    ("new1 0 4 / getr0", "new1 0 4 / getr0", "nil\n"),
    (
        "new1 0 4 / getr0",
        "pushlst @items",
        "[unhandled object=7 fault=14]\n",
    ),
    (
        "new1 0 4 / getr0",
        "pushobj 3",
        "[unhandled object=7 fault=14]\n",
    ),
    (
        "new1 0 4 / getr0",
        "pushobj 99",
        "[unhandled object=7 fault=20]\n",
    ),
    (
        "new1 0 4 / getr0",
        "pushstr @broken",
        "[unhandled object=7 fault=21]\n",
    ),
    (
        "new1 0 4 / getr0",
        "pushlst @wrong",
        "[unhandled object=7 fault=14]\n",
    ),
];

#[test]
fn indexes(rt: HostRuntime) -> Result<(), Fail> {
    assert_eq!(rt; first_unlike_element(rt.alloc(), &INDEXES)?, None);
    Ok(())
}

/// An inner list, and operands that are missing.
const INDEXES_BESIDE: [Row; 3] = [
    (
        "pushlst @looped / push_1 / index / push_1 / index / builtin_b 1 0 / getr0 / builtin_a 1 0 / retnil",
        "10\n",
    ),
    ("index", "[bad code at=10 why=Underflow]\n"),
    ("pushlst @items / index", "[bad code at=15 why=Underflow]\n"),
];

#[test]
fn indexes_inner_lists(rt: HostRuntime) -> Result<(), Fail> {
    assert_eq!(rt;
        first_unlike_with_values(rt.alloc(), &INDEXES_BESIDE)?,
        None
    );
    Ok(())
}
