//! What new objects are made of, by the arguments of their creation: the first is the topmost
//! operand.
ghost use Rattle.std.specs.Prelude.{◌≡◌, IfOk, replicate};
ghost use Rattle.t3_ops.specs.Values.{integer};
ghost use Rattle.t3_ops.specs.Making.{CanBeCreated, value_of_new, when_read, fitting_text_of, fitting_vector_of};
ghost use Rattle.t3_ops.specs.Creating.{new_string_of, new_list_of, new_table_of, new_vector_of, table_of_two, vector_by, filling_of, filled_vector};
ghost use Rattle.t3_ops.specs.References.{text_of, list_of};
ghost use Rattle.t3_ops.specs.Inner.Containers.{HasArguments, IsFilling, IsFillingRef, filling_by};

use crate::containers::{ContainerRef, container_of};
use crate::copying::{append_list, append_vector, text_bytes};
use crate::fault::Fault;
use crate::ordering::kind_fault;
use crate::outcome::{count, fitting_list, fitting_text, fitting_vector};
use crate::values::{ListRef, TextOrListRef, TextRef, text_or_list};
use std::alloc::{AllocError, Global};
use t3_holder::{Holder, NoMemory};
use t3_pools::Pools;
use t3_store::{NewObject, ObjectAt, Store};

/// What a new string is to be made of: the bytes of a text, which is its one argument. A store can
/// make it.
///
/// `ArgCount` where there isn't one argument. Then `Stale` where it is a reference to an object
/// that isn't there, and else `Kind` where it is no text. Then `BadConstant` where it can't be
/// read.
pub fn new_string(
    alloc: Global,
    args: &[Holder],
    store: &Store,
    pools: &Pools,
) -> Result<Result<NewObject, Fault>, NoMemory>
    ensures made { IfOk result (λ made. value_of_new made
        ≡ new_string_of pools.now.constants store.now.store args.now) }
    ensures can { IfOk result (λ made. IfOk made CanBeCreated) }
{
    let Arguments::One(text) = arguments_of(args) else {
        return Ok(Err(Fault::ArgCount));
    };
    match text_or_list(store, pools, text) {
        TextOrListRef::Text(text) => text_value(alloc, text, pools),
        TextOrListRef::List(_) | TextOrListRef::Neither => Ok(Err(kind_fault(store, &[text]))),
    }
}

/// A new string of the bytes of a text.
fn text_value(
    alloc: Global,
    text: TextRef<'_>,
    pools: &Pools,
) -> Result<Result<NewObject, Fault>, NoMemory>
    ensures made { IfOk result (λ made. value_of_new made
        ≡ when_read (text_of pools.now.constants text.entry) fitting_text_of) }
    ensures can { IfOk result (λ made. IfOk made CanBeCreated) }
{
    match text_bytes(alloc, text, pools)? {
        Some(bytes) => Ok(fitting_text(bytes)),
        None => Ok(Err(Fault::BadConstant)),
    }
}

/// What a new list is to be made of: its arguments, the first one first. A store can make it.
/// `ListLong` where they are more than 65,535.
pub fn new_list(alloc: Global, args: &[Holder]) -> Result<Result<NewObject, Fault>, NoMemory>
    ensures made { IfOk result (λ made. value_of_new made ≡ new_list_of args.now) }
    ensures can { IfOk result (λ made. IfOk made CanBeCreated) }
{
    let items = Vec::from_slice(alloc, args)?;
    Ok(fitting_list(items))
}

/// What a new table is to be made of: it has no entries, and nil as its default. It takes no
/// arguments, or two integers, which aren't used. A store can make it.
///
/// `ArgCount` where there are one or more than two arguments, and then `Kind` where one of two is
/// no integer.
pub fn new_table(args: &[Holder]) -> Result<NewObject, Fault>
    ensures made { value_of_new result ≡ new_table_of args.now }
    ensures can { IfOk result CanBeCreated }
{
    match arguments_of(args) {
        Arguments::Zero => Ok(NewObject::Table),
        Arguments::Two(first, second) => table_of_two(first, second),
        Arguments::One(_) | Arguments::More => Err(Fault::ArgCount),
    }
}

/// A new table by two arguments.
fn table_of_two(first: Holder, second: Holder) -> Result<NewObject, Fault>
    ensures made { value_of_new result ≡ table_of_two (integer first) (integer second) }
    ensures can { IfOk result CanBeCreated }
{
    match (first, second) {
        (Holder::Int(_), Holder::Int(_)) => Ok(NewObject::Table),
        _ => Err(Fault::Kind),
    }
}

/// What a new vector is to be made of. The first argument is an integer, which isn't used; the
/// second, if there is one, says so many nil elements, or has its elements. A store can make it.
///
/// `ArgCount` where there isn't one argument, or two. Then `Stale` where the second one is a
/// reference to an object that isn't there. Then `Kind` where the second one is no integer, list or
/// vector, or the first one no integer; then `IndexRange` where one of these integers isn't from 0
/// to 65,535; then `BadConstant` where the second one is a constant list that can't be read.
pub fn new_vector(
    alloc: Global,
    args: &[Holder],
    store: &Store,
    pools: &Pools,
) -> Result<Result<NewObject, Fault>, NoMemory>
    ensures made { IfOk result (λ made. value_of_new made
        ≡ new_vector_of pools.now.constants store.now.store args.now) }
    ensures can { IfOk result (λ made. IfOk made CanBeCreated) }
{
    match arguments_of(args) {
        Arguments::One(size) => sized_vector(alloc, size, FillingRef::Nils(0), pools),
        Arguments::Two(size, value) => match filling_of(store, pools, value) {
            Ok(filling) => sized_vector(alloc, size, filling, pools),
            Err(fault) => Ok(Err(fault)),
        },
        Arguments::Zero | Arguments::More => Ok(Err(Fault::ArgCount)),
    }
}

/// What a vector is filled with. No constant was read yet.
#[derive(Drop)]
pub(crate) enum FillingRef<'o> {
    /// So many nils.
    Nils(i32),
    List(ListRef<'o>),
    /// With how many elements it has.
    Vector(ObjectAt<'o>, u32),
}

/// What a vector is filled with by a value. Nothing is read.
fn filling_of<'o>(
    store: &'o Store,
    pools: &'o Pools,
    value: Holder,
) -> Result<FillingRef<'o>, Fault>
    ensures { IsFilling pools.now.constants
        (filling_of pools.now.constants store.now.store value) result }
{
    if let Holder::Int(count) = value {
        return Ok(FillingRef::Nils(count));
    }
    match container_of(store, pools, value) {
        ContainerRef::List(list) => Ok(FillingRef::List(list)),
        ContainerRef::Vector(vector, length) => Ok(FillingRef::Vector(vector, length)),
        ContainerRef::Table(..) | ContainerRef::Other => Err(kind_fault(store, &[value])),
    }
}

/// A vector with a filling, by a size that isn't used.
fn sized_vector(
    alloc: Global,
    size: Holder,
    filling: FillingRef<'_>,
    pools: &Pools,
) -> Result<Result<NewObject, Fault>, NoMemory>
    requires { IsFillingRef filling }
    ensures made { IfOk result (λ made. value_of_new made
        ≡ vector_by (integer size) (Ok (filling_by pools.now.constants filling.entry))) }
    ensures can { IfOk result (λ made. IfOk made CanBeCreated) }
{
    let Holder::Int(size) = size else {
        return Ok(Err(Fault::Kind));
    };
    match count(size) {
        Some(_) => filled_vector(alloc, filling, pools),
        None => Ok(Err(Fault::IndexRange)),
    }
}

/// A vector with a filling.
fn filled_vector(
    alloc: Global,
    filling: FillingRef<'_>,
    pools: &Pools,
) -> Result<Result<NewObject, Fault>, NoMemory>
    requires { IsFillingRef filling }
    ensures made { IfOk result (λ made. value_of_new made
        ≡ filled_vector (filling_by pools.now.constants filling.entry)) }
    ensures can { IfOk result (λ made. IfOk made CanBeCreated) }
{
    match filling {
        FillingRef::Nils(number) => match count(number) {
            Some(count) => Ok(fitting_vector(nils(alloc, count)?)),
            None => Ok(Err(Fault::IndexRange)),
        },
        FillingRef::List(list) => list_vector(alloc, list, pools),
        FillingRef::Vector(vector, length) => {
            let mut items = Vec::new(alloc);
            append_vector(&vector, length, &mut items)?;
            Ok(fitting_vector(items))
        }
    }
}

/// A vector of the elements of a list.
fn list_vector(
    alloc: Global,
    list: ListRef<'_>,
    pools: &Pools,
) -> Result<Result<NewObject, Fault>, NoMemory>
    ensures made { IfOk result (λ made. value_of_new made
        ≡ when_read (list_of pools.now.constants list.entry) fitting_vector_of) }
    ensures can { IfOk result (λ made. IfOk made CanBeCreated) }
{
    let mut items = Vec::new(alloc);
    if !append_list(list, pools, &mut items)? {
        return Ok(Err(Fault::BadConstant));
    }
    Ok(fitting_vector(items))
}

/// So many nils.
fn nils(alloc: Global, count: u16) -> Result<Vec<Holder>, AllocError>
    ensures { IfOk result (λ items. items.items ≡ replicate count Holder.Nil) }
{
    let mut items = Vec::with_capacity(alloc, usize::from(count))?;
    for _ in 0..count {
        items.push(Holder::Nil)?;
    }
    Ok(items)
}

/// The arguments of a creation, as far as one takes any.
#[derive(Clone, Copy)]
pub(crate) enum Arguments {
    Zero,
    One(Holder),
    Two(Holder, Holder),
    More,
}

fn arguments_of(args: &[Holder]) -> Arguments
    ensures { HasArguments result args.now }
{
    match args {
        [] => Arguments::Zero,
        [first] => Arguments::One(*first),
        [first, second] => Arguments::Two(*first, *second),
        _ => Arguments::More,
    }
}
