//! Where the elements and the entries of lists, vectors and tables stand.
ghost use Rattle.std.specs.Prelude.{◌≡◌, ◌+◌, ◌<◌, ◌^◌};
ghost use Rattle.t3_store.specs.Value.{holder_at};
ghost use Rattle.t3_ops.specs.Containers.{container_of, object_container};
ghost use Rattle.t3_ops.specs.Inner.Containers.{container_by, IsContainerRef};

use crate::values::ListRef;
use t3_holder::Holder;
use t3_pools::Pools;
use t3_store::{ObjectAt, Store};
use t3_undo::Cell;

/// A list or a vector, a table, or any other value. No constant was read yet.
#[derive(Drop)]
pub(crate) enum ContainerRef<'o> {
    List(ListRef<'o>),
    /// With how many elements it has.
    Vector(ObjectAt<'o>, u32),
    /// With its default.
    Table(ObjectAt<'o>, Holder),
    Other,
}

/// What elements or entries a value has. Nothing is read.
pub(crate) fn container_of<'o>(
    store: &'o Store,
    pools: &'o Pools,
    value: Holder,
) -> ContainerRef<'o>
    ensures container { container_by pools.now.constants result
        ≡ container_of pools.now.constants store.now.store value }
    ensures stands { IsContainerRef result }
{
    match value {
        Holder::List(address) => ContainerRef::List(ListRef::Constant(address)),
        Holder::Obj(number) => object_container(store.at(number), pools),
        _ => ContainerRef::Other,
    }
}

fn object_container<'o>(object: ObjectAt<'o>, pools: &'o Pools) -> ContainerRef<'o>
    ensures container { container_by pools.now.constants result ≡ object_container object.entry }
    ensures stands { IsContainerRef result }
{
    let _ = pools;
    if let Some(items) = object.items() {
        return ContainerRef::List(ListRef::Live(items));
    }
    if let Some(length) = object.length() {
        return ContainerRef::Vector(object, length);
    }
    // Nothing but a table has one.
    if let Some(default) = object.get(&Cell::Default) {
        return ContainerRef::Table(object, default);
    }
    ContainerRef::Other
}

/// The element of an index, from 0 on.
pub(crate) fn element(vector: &ObjectAt<'_>, index: u32) -> Option<Holder>
    requires { index + 1 < 2 ^ 32 }
    ensures { result ≡ holder_at vector.now (Cell.Elem (index + 1)) }
{
    vector.get(&Cell::Elem(index + 1))
}
