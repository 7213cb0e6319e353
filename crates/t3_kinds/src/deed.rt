//! What a method comes to, and how a store carries it out.
ghost use Rattle.std.specs.Prelude.{◌≡◌, ◌+◌, ◌<◌, ◌≤◌, ◌^◌, ◌↔◌, None, Some, Ok, Err, OnOk, OnErr, IfOk, length};
ghost use Rattle.t3_store.specs.Store.{StoreValue};
ghost use Rattle.t3_ops.specs.Making.{CanBeCreated, value_of_new};
ghost use Rattle.t3_store.specs.Value.{new_value};
ghost use Rattle.t3_kinds.specs.Changes.{Makes, changed_by, HasCarriedOut};
ghost use Rattle.t3_kinds.specs.Deeds.{answers, answers_truth, answers_count, answers_new, first_of, second_of};
ghost use Rattle.t3_kinds.specs.Inner.Deeds.{change_of, changes_of, deed_of, came_of, Comes, CanBeDone, CanAllBeDone, CanBeCarriedOut};

use std::alloc::Global;
use t3_holder::{Holder, NoMemory};
use t3_ops::{Fault, OpRefusal};
use t3_store::{NewObject, Store, StoreRefusal};
use t3_undo::Cell;

/// A creation or a write.
#[derive(Debug, Drop)]
pub(crate) enum Change {
    /// A persistent object is made.
    Make(NewObject),
    /// A cell of an object is set, or taken away where there is no value.
    Write(u32, Cell, Option<Holder>),
}

/// Changes that are made one after the other, and the answer that comes then.
#[derive(Debug, Drop)]
pub(crate) struct Deed {
    pub(crate) changes: Vec<Change>,
    pub(crate) answer: Holder,
}

/// What a method comes to.
pub(crate) type Came = Result<Deed, Fault>;

/// Makes the changes one after the other, up to the first for which the store has no room, and answers.
pub(crate) fn carry_out(deed: Deed, store: &mut Store) -> Result<Holder, OpRefusal>
    requires can { CanAllBeDone (changes_of deed.changes.items) store.old.store }
    requires few { store.old.writes + length deed.changes.items ≤ 2 ^ 63 }
    ensures done { HasCarriedOut (deed_of deed) store.old.store result store.new.store }
    ensures writes { store.new.writes ≤ store.old.writes + length deed.changes.items }
    ensures savepoints { store.new.savepoints ≡ store.old.savepoints }
{
    let Deed { changes, answer } = deed;
    for change in changes {
        match make(change, store) {
            Ok(()) => {}
            Err(StoreRefusal::Full) => return Err(OpRefusal::Full),
            Err(StoreRefusal::NoMemory) => return Err(OpRefusal::NoMemory),
        }
    }
    Ok(answer)
}

/// Makes one change.
fn make(change: Change, store: &mut Store) -> Result<(), StoreRefusal>
    requires can { CanBeDone (change_of change) store.old.store }
    requires few { store.old.writes < 2 ^ 63 }
    ensures full { (result ≡ Err StoreRefusal.Full)
        ↔ (changed_by (change_of change) store.old.store ≡ None) }
    ensures ok { OnOk result (changed_by (change_of change) store.old.store ≡ Some store.new.store) }
    ensures writes { store.new.writes ≤ store.old.writes + 1 }
    ensures savepoints { store.new.savepoints ≡ store.old.savepoints }
    ensures err { OnErr result (store.new.store ≡ store.old.store) }
{
    match change {
        Change::Make(what) => {
            let _number = store.create(what, false)?;
            Ok(())
        }
        Change::Write(number, cell, value) => store.write(number, cell, value),
    }
}

/// Nothing changes.
pub(crate) fn answer(alloc: Global, value: Holder) -> Came
    ensures deed { came_of result ≡ answers value }
    ensures can { (store : StoreValue) → CanBeCarriedOut result store }
{
    Ok(Deed {
        changes: Vec::new(alloc),
        answer: value,
    })
}

/// Nothing changes, and the answer is true or nil.
pub(crate) fn answer_truth(alloc: Global, holds: bool) -> Came
    ensures deed { came_of result ≡ answers_truth holds }
    ensures can { (store : StoreValue) → CanBeCarriedOut result store }
{
    answer(alloc, if holds { Holder::True } else { Holder::Nil })
}

/// Nothing changes, and the answer is a count.
pub(crate) fn answer_count(alloc: Global, count: usize) -> Came
    ensures deed { came_of result ≡ answers_count count }
    ensures can { (store : StoreValue) → CanBeCarriedOut result store }
{
    match i32::try_from(count) {
        Ok(number) => answer(alloc, Holder::Int(number)),
        Err(_) => Err(Fault::Overflow),
    }
}

/// A new persistent object, which is the answer.
pub(crate) fn answer_new(
    alloc: Global,
    made: Result<NewObject, Fault>,
    store: &Store,
) -> Result<Came, NoMemory>
    requires { IfOk made CanBeCreated }
    ensures { Comes (answers_new (value_of_new made) store.now.store) store.now.store result }
{
    match made {
        Ok(what) => answer_made(alloc, what, store),
        Err(fault) => Ok(Err(fault)),
    }
}

/// A new persistent object of this, which the store can make.
pub(crate) fn answer_made(alloc: Global, what: NewObject, store: &Store) -> Result<Came, NoMemory>
    requires { CanBeDone (Makes (new_value what)) store.now.store }
    ensures { Comes (answers_new (Ok (new_value what)) store.now.store) store.now.store result }
{
    let mut changes = Vec::new(alloc);
    changes.push(Change::Make(what))?;
    let answer = Holder::Obj(store.next());
    Ok(Ok(Deed { changes, answer }))
}

/// The first argument; nil where there is none.
pub(crate) fn first(args: &[Holder]) -> Holder
    ensures { result ≡ first_of args.now }
{
    args.first().copied().unwrap_or(Holder::Nil)
}

/// The second argument.
pub(crate) fn second(args: &[Holder]) -> Option<Holder>
    ensures { result ≡ second_of args.now }
{
    args.get(1).copied()
}
