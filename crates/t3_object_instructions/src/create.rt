//! Creating an object.
ghost use Rattle.std.specs.Prelude.{◌≡◌, codes, IfOk, Ok};
ghost use Rattle.t3_store.specs.Store.{value_at};
ghost use Rattle.t3_store.specs.Value.{new_value, HasFittingLength};
ghost use Rattle.t3_store.specs.Whole.{AreThere, HasSupersIn, supers_for};
ghost use Rattle.t3_ops.specs.Making.{CanBeCreated, value_of_new};
ghost use Rattle.t3_ops.specs.Creating.{new_string_of, new_list_of, new_vector_of, new_table_of};
ghost use Rattle.t3_frame_instructions.specs.Acting.{HasDone};
ghost use Rattle.t3_object_instructions.specs.Symbols.{property_named as property_by};
ghost use Rattle.t3_kinds.specs.Search.{found_value};
ghost use Rattle.t3_object_instructions.specs.Creating.{arguments, creates, creation, tads_creation, supers_from, supers_by, super_of, constructor_of, constructs, method_found};
ghost use Rattle.t3_object_instructions.specs.Listed.{makes_instance};
ghost use Rattle.t3_object_instructions.specs.Inner.Finding.{IsClass, option_list, constructor_found};

use crate::evaluate::answer;
use crate::exceptions::no_props;
use crate::symbols::property_named;
use std::alloc::Global;
use t3_frame_instructions::{Core, Quiet, ask_for_call};
use t3_frames::Call;
use t3_holder::{Holder, NoMemory};
use t3_kinds::{Found, find_property};
use t3_load::{MetaKind, Program};
use t3_ops::{Fault, new_list, new_string, new_table, new_vector};
use t3_pools::Pools;
use t3_store::{Kind, NewObject, Store, StoreRefusal};
use t3_undo::Numbers;

/// Creates an object of the metaclass that has an index in the image's table, with so many operands as
/// arguments.
pub(crate) fn create(
    alloc: Global,
    program: &Program,
    core: &mut Core,
    transient: bool,
    count: u16,
    index: u16,
) -> Result<Quiet, NoMemory>
    ensures { IfOk result (λ effect. HasDone (creation program.now transient count index) core.old
        effect core.new) }
{
    let Some(entry) = program.kinds.0.get(usize::from(index)) else {
        return Ok(Quiet::Fault(Fault::CannotMake));
    };
    match entry.kind {
        MetaKind::Root | MetaKind::Collection => Ok(Quiet::Fault(Fault::CannotMake)),
        MetaKind::Tads => create_tads(alloc, program, core, transient, count),
        MetaKind::Text => create_string(alloc, &program.pools, core, transient, count),
        MetaKind::List => create_list(alloc, core, transient, count),
        MetaKind::Vector => create_vector(alloc, &program.pools, core, transient, count),
        MetaKind::Table => create_table(core, transient, count),
    }
}

/// Creates a string of a text.
fn create_string(
    alloc: Global,
    pools: &Pools,
    core: &mut Core,
    transient: bool,
    count: u16,
) -> Result<Quiet, NoMemory>
    ensures { IfOk result (λ effect. HasDone (λ context. creates transient count
        (new_string_of pools.now.constants context.store (arguments count context)) context)
        core.old effect core.new) }
{
    core.frames.turn_operands(count);
    let made = new_string(alloc, core.frames.topmost(count), &core.store, pools)?;
    create_made(core, made, transient, count)
}

/// Creates a list of the arguments.
fn create_list(
    alloc: Global,
    core: &mut Core,
    transient: bool,
    count: u16,
) -> Result<Quiet, NoMemory>
    ensures { IfOk result (λ effect. HasDone (λ context. creates transient count
        (new_list_of (arguments count context)) context) core.old effect core.new) }
{
    core.frames.turn_operands(count);
    let made = new_list(alloc, core.frames.topmost(count))?;
    create_made(core, made, transient, count)
}

/// Creates a vector of nils, or of the elements of a list or a vector.
fn create_vector(
    alloc: Global,
    pools: &Pools,
    core: &mut Core,
    transient: bool,
    count: u16,
) -> Result<Quiet, NoMemory>
    ensures { IfOk result (λ effect. HasDone (λ context. creates transient count
        (new_vector_of pools.now.constants context.store (arguments count context)) context)
        core.old effect core.new) }
{
    core.frames.turn_operands(count);
    let made = new_vector(alloc, core.frames.topmost(count), &core.store, pools)?;
    create_made(core, made, transient, count)
}

/// Creates a table without entries.
fn create_table(core: &mut Core, transient: bool, count: u16) -> Result<Quiet, NoMemory>
    ensures { IfOk result (λ effect. HasDone (λ context. creates transient count
        (new_table_of (arguments count context)) context) core.old effect core.new) }
{
    core.frames.turn_operands(count);
    let made = new_table(core.frames.topmost(count));
    create_made(core, made, transient, count)
}

/// Makes an object where there is one to be made, and answers it; so many operands go.
fn create_made(
    core: &mut Core,
    made: Result<NewObject, Fault>,
    transient: bool,
    count: u16,
) -> Result<Quiet, NoMemory>
    requires { IfOk made CanBeCreated }
    ensures { IfOk result (λ effect. HasDone (creates transient count (value_of_new made)) core.old
        effect core.new) }
{
    match made {
        Ok(what) => create_object(core, what, transient, count),
        Err(fault) => Ok(Quiet::Fault(fault)),
    }
}

/// Makes an object, and answers it; so many operands go.
fn create_object(
    core: &mut Core,
    what: NewObject,
    transient: bool,
    count: u16,
) -> Result<Quiet, NoMemory>
    requires supers { HasSupersIn (supers_for transient core.old.store.store) (new_value what) }
    requires length { HasFittingLength (new_value what) }
    ensures { IfOk result (λ effect. HasDone (creates transient count (Ok (new_value what))) core.old
        effect core.new) }
{
    match core.store.create(what, transient) {
        Ok(number) => Ok(answer(core, Holder::Obj(number), count)),
        Err(StoreRefusal::Full) => Ok(Quiet::StoreFull),
        Err(StoreRefusal::NoMemory) => Err(NoMemory),
    }
}

/// Creates a tads-object: without a superclass, or with the first argument as the only one. Its constructor,
/// if there is one, is called.
fn create_tads(
    alloc: Global,
    program: &Program,
    core: &mut Core,
    transient: bool,
    count: u16,
) -> Result<Quiet, NoMemory>
    ensures { IfOk result (λ effect. HasDone (λ context. tads_creation program.now transient 1 count
        (supers_from context.store transient count context.frame.operands) context) core.old effect
        core.new) }
{
    match class_argument(core, transient, count) {
        Ok(class) => create_of_class(alloc, program, core, transient, class, 1, count),
        Err(fault) => Ok(Quiet::Fault(fault)),
    }
}

/// Creates a tads-object with a value as its only superclass. Its constructor, if there is one, is called with all
/// of so many operands.
pub(crate) fn create_instance(
    alloc: Global,
    program: &Program,
    core: &mut Core,
    value: Holder,
    transient: bool,
    count: u16,
) -> Result<Quiet, NoMemory>
    ensures { IfOk result (λ effect. HasDone (makes_instance program.now value count transient)
        core.old effect core.new) }
{
    match class_by(&core.store, transient, value) {
        Ok(class) => create_of_class(alloc, program, core, transient, class, 0, count),
        Err(fault) => Ok(Quiet::Fault(fault)),
    }
}

/// Creates a tads-object of a superclass that is there, or of none. Its constructor, if there is one, is called
/// with the operands, so many, but for the first ones, which said the superclass.
fn create_of_class(
    alloc: Global,
    program: &Program,
    core: &mut Core,
    transient: bool,
    class: Option<u32>,
    said: u16,
    count: u16,
) -> Result<Quiet, NoMemory>
    requires { AreThere (supers_for transient core.old.store.store) (option_list class) }
    ensures { IfOk result (λ effect. HasDone
        (tads_creation program.now transient said count (Ok (option_list class))) core.old effect
        core.new) }
{
    let constructor = constructor_in(alloc, program, &core.store, class)?;
    let what = NewObject::Tads {
        supers: numbers_of(alloc, class)?,
        class: false,
        props: no_props(alloc),
    };
    match core.store.create(what, transient) {
        Ok(number) => Ok(construct(core, constructor, number, said, count)),
        Err(StoreRefusal::Full) => Ok(Quiet::StoreFull),
        Err(StoreRefusal::NoMemory) => Err(NoMemory),
    }
}

/// The superclass that the first argument says, if there is one.
fn class_argument(core: &Core, transient: bool, count: u16) -> Result<Option<u32>, Fault>
    ensures class { IsClass core.now.store.store transient
        (supers_from core.now.store.store transient count core.now.frames.newest.operands) result }
{
    if count == 0 {
        return Ok(None);
    }
    match core.frames.top() {
        None => Ok(None),
        Some(value) => class_by(&core.store, transient, value),
    }
}

/// The superclass that a value says, if there is one. `Kind` where it is neither nil nor an object.
fn class_by(store: &Store, transient: bool, value: Holder) -> Result<Option<u32>, Fault>
    ensures { IsClass store.now.store transient (supers_by store.now.store transient value) result }
{
    match value {
        Holder::Nil => Ok(None),
        Holder::Obj(number) => class_of(store, transient, number),
        _ => Err(Fault::Kind),
    }
}

/// An object as a superclass. `Stale` where it isn't there, else `Kind` where it is no tads-object, else
/// `TransientSuper` where it is transient and the new object isn't to be.
fn class_of(store: &Store, transient: bool, number: u32) -> Result<Option<u32>, Fault>
    ensures { IsClass store.now.store transient
        (super_of store.now.store transient number (value_at store.now.store number)) result }
{
    match store.kind(number) {
        None => Err(Fault::Stale),
        Some(Kind::Tads) if !transient && store.is_transient(number) => Err(Fault::TransientSuper),
        Some(Kind::Tads) => Ok(Some(number)),
        Some(_) => Err(Fault::Kind),
    }
}

/// The method of a superclass that is called when an object is made.
#[derive(Clone, Copy)]
struct Constructor {
    /// The object that has it.
    defining: u32,
    method: u32,
}

/// The constructor that a superclass has, if there is one.
fn constructor_in(
    alloc: Global,
    program: &Program,
    store: &Store,
    class: Option<u32>,
) -> Result<Option<Constructor>, NoMemory>
    ensures { IfOk result (λ found. constructor_found found ≡ constructor_of store.now.store
        (property_by program.now.symbols (codes "Constructor")) (option_list class)) }
{
    let Some(number) = class else {
        return Ok(None);
    };
    let Some(property) = property_named(&program.symbols, b"Constructor") else {
        return Ok(None);
    };
    let _ = store.kind(number);
    Ok(as_constructor(find_property(alloc, store, number, property)?))
}

/// What was found, where it is a method.
fn as_constructor(found: Option<Found>) -> Option<Constructor>
    ensures { constructor_found result ≡ method_found (found_value found) }
{
    match found {
        Some(
            Found {
                defining,
                value: Holder::Code(method),
            },
        ) => Some(Constructor { defining, method }),
        _ => None,
    }
}

/// Calls the constructor of an object that was made, if it has one, with the arguments but for the first ones,
/// so many. The register has the object.
fn construct(
    core: &mut Core,
    constructor: Option<Constructor>,
    number: u32,
    said: u16,
    count: u16,
) -> Quiet
    ensures { HasDone (constructs (constructor_found constructor) said count number) core.old result
        core.new }
{
    let Some(constructor) = constructor else {
        return answer(core, Holder::Obj(number), count);
    };
    core.frames.drop_operands(said);
    core.register = Holder::Obj(number);
    let call = Call {
        method: constructor.method,
        laid: None,
        count: count.saturating_sub(said),
        this: Holder::Obj(number),
        defining: constructor.defining,
        gives: Some(number),
    };
    ask_for_call(core, call)
}

fn numbers_of(alloc: Global, class: Option<u32>) -> Result<Numbers, NoMemory>
    ensures { IfOk result (λ numbers. numbers ≡ option_list class) }
{
    let mut numbers = Vec::new(alloc);
    if let Some(number) = class {
        numbers.push(number)?;
    }
    Ok(Numbers(numbers))
}
