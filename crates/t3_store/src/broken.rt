//! What is broken of the superclasses of objects.
ghost use Rattle.std.specs.Prelude.{◌≡◌, ◌↔◌, IsTrue, IfOk, is_none, filter};
ghost use Rattle.std.specs.List.{list_any};
ghost use Rattle.t3_store.specs.Broken.{LacksSuper, has_superclass};

use std::alloc::Global;
use t3_holder::NoMemory;
use t3_tadsobj::Supers;

/// What is broken of the superclasses of an object.
#[derive(Clone, Copy, Debug, PartialEq, Eq)]
pub enum Broken {
    /// One of them isn't a tads-object here.
    Missing,
    /// The object is its own ancestor.
    Cycle,
}

/// Whether a superclass of the object isn't a tads-object here.
pub(crate) fn lacks_super<S: Supers>(objects: &S, number: u32) -> bool
    ensures { IsTrue result ↔ LacksSuper (S.supers_at objects.now) number }
{
    match objects.supers(number) {
        Some(supers) => has_missing(objects, supers),
        None => false,
    }
}

/// Those of the numbers whose objects have superclasses.
pub(crate) fn subclasses<S: Supers>(
    alloc: Global,
    objects: &S,
    numbers: &[u32],
) -> Result<Vec<u32>, NoMemory>
    ensures { IfOk result (λ found. found.items
        ≡ filter (has_superclass (S.supers_at objects.now)) numbers.now) }
{
    let mut found = Vec::new(alloc);
    for number in numbers {
        if has_superclass(objects, *number) {
            found.push(*number)?;
        }
    }
    Ok(found)
}

/// Whether the object has a superclass.
fn has_superclass<S: Supers>(objects: &S, number: u32) -> bool
    ensures { result ≡ has_superclass (S.supers_at objects.now) number }
{
    match objects.supers(number) {
        Some(supers) => !supers.is_empty(),
        None => false,
    }
}

/// Whether one of the numbers isn't that of a tads-object here.
fn has_missing<S: Supers>(objects: &S, numbers: &[u32]) -> bool
    ensures { result ≡ list_any (λ number. is_none (S.supers_at objects.now number)) numbers.now }
{
    numbers
        .iter()
        .any(|number| objects.supers(*number).is_none())
}
