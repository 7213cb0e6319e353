//! The first object that is its own ancestor.
ghost use Rattle.std.specs.Prelude.{◌≡◌, ℕ, ◌≤◌, ◌<◌, ◌↔◌, ◌⊎◌, List, [], ◌∷◌, ◌++◌, Option, Some, None, IfOk, IsSome, IsTrue, length, map, nat_eq};
ghost use Rattle.std.specs.List.{AllByRecursion};
ghost use Rattle.indexmap.specs.IndexMap.{get, Updates};
ghost use Rattle.t3_tadsobj.specs.Order.{IsAncestor};
ghost use Rattle.t3_tadsobj.specs.Cycles.{IsFirstCyclic};
ghost use Rattle.t3_tadsobj.specs.Inner.ComponentSteps.{mark_of, path_of, components_of, tasks_of, IsMerged, IsFinished, IsLeft};
ghost use Rattle.t3_tadsobj.specs.Inner.ComponentWalk.{IsAtRest};
ghost use Rattle.t3_tadsobj.specs.declared.cycles.Task.TheVariants.{Look};

use crate::order::Supers;
use indexmap::IndexMap;
use std::alloc::Global;
use std::hash::{BuildHasherDefault, DefaultHasher};
use t3_holder::NoMemory;

type Marks = IndexMap<u32, Mark, BuildHasherDefault<DefaultHasher>>;

/// What is known of a number that was met.
#[derive(Clone, Copy)]
enum Mark {
    /// It stands at this place of the path, since not all its ancestors were looked at.
    Open(usize),
    /// Its ancestors were all looked at. It is its own ancestor, or not.
    Done(bool),
}

/// A part of the path, up to the start of the next: each number reaches all that stand above its component,
/// and where the component is cyclic also all that stand in it. Where it isn't, it is one number.
#[derive(Clone, Copy)]
struct Component {
    start: usize,
    cyclic: bool,
}

/// What is still to be done of a walk.
#[derive(Clone, Copy)]
enum Task {
    /// The number at this place of the path has this superclass, which is to be looked at. Only the proof
    /// reads the place.
    Look(usize, u32),
    /// The superclasses of the number at this place were looked at.
    Leave(usize),
}

/// A walk that tells for each number that it meets whether it is its own ancestor.
#[derive(Drop)]
struct Walk {
    marks: Marks,
    path: Vec<u32>,
    components: Vec<Component>,
    tasks: Vec<Task>,
}

/// The first of these numbers that is its own ancestor. Each object and each superclass is looked at once:
/// the time grows with both together, the stack with neither.
///
/// ```text
/// // Object 3 has the superclass 2, which has 1, which has 2.
/// first_cyclic(alloc, &view, &[3, 2, 1])?    // Some(2)
/// ```
pub fn first_cyclic<S: Supers>(
    alloc: Global,
    view: &S,
    numbers: &[u32],
) -> Result<Option<u32>, NoMemory>
    ensures { IfOk result (IsFirstCyclic (S.supers_at view.now) numbers.now) }
{
    let mut walk = Walk {
        marks: IndexMap::with_hasher(alloc, BuildHasherDefault::new()),
        path: Vec::new(alloc),
        components: Vec::new(alloc),
        tasks: Vec::new(alloc),
    };
    for number in numbers {
        if is_cyclic(view, *number, &mut walk)? {
            return Ok(Some(*number));
        }
    }
    Ok(None)
}

/// Whether the number is its own ancestor.
fn is_cyclic<S: Supers>(view: &S, number: u32, walk: &mut Walk) -> Result<bool, NoMemory>
    requires { IsAtRest (S.supers_at view.now) (get nat_eq walk.old.marks) walk.old.path.items
        walk.old.components.items walk.old.tasks.items }
    ensures rests { IfOk result (λ _. IsAtRest (S.supers_at view.now) (get nat_eq walk.new.marks)
        walk.new.path.items walk.new.components.items walk.new.tasks.items) }
    ensures tells { IfOk result (λ found.
        IsTrue found ↔ IsAncestor (S.supers_at view.now) number number) }
{
    visit(view, number, walk)?;
    match walk.marks.get(&number).copied() {
        Some(Mark::Done(cyclic)) => Ok(cyclic),
        Some(Mark::Open(_)) => Ok(false),
        None => Ok(false),
    }
}

/// Walks over the ancestors of a number, as far as they aren't known.
fn visit<S: Supers>(view: &S, number: u32, walk: &mut Walk) -> Result<(), NoMemory>
    requires { IsAtRest (S.supers_at view.now) (get nat_eq walk.old.marks) walk.old.path.items
        walk.old.components.items walk.old.tasks.items }
    ensures rests { IfOk result (λ _. IsAtRest (S.supers_at view.now) (get nat_eq walk.new.marks)
        walk.new.path.items walk.new.components.items walk.new.tasks.items) }
    ensures marked { IfOk result (λ _. IsSome (get nat_eq walk.new.marks number)) }
{
    if walk.marks.contains_key(&number) {
        return Ok(());
    }
    enter(view, number, walk)?;
    while let Some(task) = walk.tasks.pop() {
        match task {
            Task::Look(_, above) => match walk.marks.get(&above).copied() {
                None => enter(view, above, walk)?,
                Some(Mark::Open(place)) => merge(place, &mut walk.components)?,
                Some(Mark::Done(_)) => {}
            },
            Task::Leave(place) => leave(place, walk)?,
        }
    }
    Ok(())
}

/// Puts a number on the path, and puts off its superclasses.
fn enter<S: Supers>(view: &S, number: u32, walk: &mut Walk) -> Result<(), NoMemory>
    ensures marks { IfOk result (λ _. Updates nat_eq walk.old.marks walk.new.marks number
        (Some (mark_of (length walk.old.path.items) (S.supers_at view.now number)))) }
    ensures path { IfOk result (λ _. walk.new.path.items
        ≡ walk.old.path.items ++ path_of number (S.supers_at view.now number)) }
    ensures components { IfOk result (λ _. walk.new.components.items ≡ walk.old.components.items
        ++ components_of (length walk.old.path.items) (S.supers_at view.now number)) }
    ensures tasks { IfOk result (λ _. walk.new.tasks.items ≡ walk.old.tasks.items
        ++ tasks_of (length walk.old.path.items) (S.supers_at view.now number)) }
{
    let Some(supers) = view.supers(number) else {
        walk.marks.insert(number, Mark::Done(false))?;
        return Ok(());
    };
    let place = walk.path.len();
    walk.marks.insert(number, Mark::Open(place))?;
    walk.path.push(number)?;
    walk.components.push(Component {
        start: place,
        cyclic: false,
    })?;
    walk.tasks.push(Task::Leave(place))?;
    put_off(place, supers, &mut walk.tasks)?;
    Ok(())
}

/// Puts off the superclasses of the number at a place.
fn put_off(place: usize, supers: &[u32], tasks: &mut Vec<Task>) -> Result<(), NoMemory>
    ensures { IfOk result (λ _.
        tasks.new.items ≡ tasks.old.items ++ map (Look place) supers.now) }
{
    for above in supers {
        tasks.push(Task::Look(place, *above))?;
    }
    Ok(())
}

/// Makes one component of the last one, the one of this place, and those between, since a number of the last
/// one has the superclass at this place.
fn merge(place: usize, components: &mut Vec<Component>) -> Result<(), NoMemory>
    ensures { IfOk result (λ _. IsMerged place components.old.items components.new.items
        ⊎ AllByRecursion (λ c. place < c.start) components.old.items) }
{
    while let Some(last) = components.pop() {
        if last.start <= place {
            components.push(Component {
                start: last.start,
                cyclic: true,
            })?;
            return Ok(());
        }
    }
    Ok(())
}

/// Leaves the number at a place. With the first of a component the component is done.
fn leave(place: usize, walk: &mut Walk) -> Result<(), NoMemory>
    ensures tasks { walk.new.tasks.items ≡ walk.old.tasks.items }
    ensures left { IfOk result (λ _. IsLeft place walk.old.components.items walk.new.components.items
        walk.old.path.items walk.new.path.items (get nat_eq walk.old.marks)
        (get nat_eq walk.new.marks)) }
{
    if let Some(last) = walk.components.pop() {
        if last.start == place {
            finish(last, walk)?;
        } else {
            walk.components.push(last)?;
        }
    }
    Ok(())
}

/// Takes the numbers of the last component off the path.
fn finish(last: Component, walk: &mut Walk) -> Result<(), NoMemory>
    ensures tasks { walk.new.tasks.items ≡ walk.old.tasks.items }
    ensures components { walk.new.components.items ≡ walk.old.components.items }
    ensures finished { IfOk result (λ _. IsFinished last walk.old.path.items walk.new.path.items
        (get nat_eq walk.old.marks) (get nat_eq walk.new.marks)) }
{
    while walk.path.len() > last.start {
        if let Some(number) = walk.path.pop() {
            walk.marks.insert(number, Mark::Done(last.cyclic))?;
        }
    }
    Ok(())
}
