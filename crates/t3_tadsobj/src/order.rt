//! The order in which an object's superclasses are searched.
ghost use Rattle.std.specs.Prelude.{◌≡◌, ℕ, List, [], ◌∷◌, ◌++◌, Option, Some, None, IfOk, IsSome, Contains, option_map};
ghost use Rattle.std.specs.List.{flat_map, AllByRecursion};
ghost use Rattle.t3_tadsobj.specs.Order.{SupersAt, IsPreorder, IsAcyclicFrom, IsLinearOrder, IsChain};
ghost use Rattle.t3_tadsobj.specs.Inner.Visits.{entered};

use std::alloc::Global;
use std::collections::HashSet;
use t3_holder::NoMemory;

/// Objects, of which the superclasses are known.
pub trait Supers {
    /// The superclasses of each live tads-object, from left to right.
    ghost supers_at: { Self → ℕ → Option (List ℕ) };

    /// Numbers, among which are those of all live tads-objects.
    ghost numbers: { Self → List ℕ };

    /// The superclasses of an object from left to right, or `None` where the number isn't that of a live
    /// tads-object.
    fn supers(&self, number: u32) -> Option<&[u32]>
        ensures { option_map (λ s. s.now) result ≡ supers_at self.now number };

    ghost covers: { (view : Self) (number : ℕ) → IsSome (supers_at view number)
        → Contains (numbers view) number };
}

/// What is still to be done of a walk.
#[derive(Clone, Copy)]
enum Task {
    /// The object is to be visited, after its superclasses.
    Enter(u32),
    /// The superclasses of the object were visited, so it is its turn.
    Leave(u32),
}

/// The order of an object and its superclasses: the list of the object, then of its superclasses from
/// left to right, with each number kept at its last place, and those left out that aren't live
/// tads-objects.
///
/// Each object is visited once, on a stack of the heap.
///
/// ```text
/// // Object 4 has the superclasses 2 and 3, and each of these has the superclass 1.
/// linear_order(alloc, &view, 4)?    // 4, 2, 3, 1
/// ```
pub fn linear_order<S: Supers>(alloc: Global, view: &S, number: u32) -> Result<Vec<u32>, NoMemory>
    requires { IsAcyclicFrom (S.supers_at view.now) number }
    ensures { IfOk result (λ order. IsLinearOrder (S.supers_at view.now) number order.items) }
{
    let mut tasks = Vec::new(alloc);
    let mut order = Vec::new(alloc);
    let mut seen = HashSet::new(alloc);
    tasks.push(Task::Enter(number))?;
    // From right to left and backwards, so that the last place is met first.
    while let Some(task) = tasks.pop() {
        match task {
            Task::Enter(next) => {
                if !seen.contains(&next) {
                    enter(view, next, &mut tasks)?;
                }
            }
            Task::Leave(next) => {
                if seen.insert(next)? {
                    order.push(next)?;
                }
            }
        }
    }
    order.reverse();
    Ok(order)
}

/// Puts off an object until its superclasses are visited, the last one first.
fn enter<S: Supers>(view: &S, number: u32, tasks: &mut Vec<Task>) -> Result<(), NoMemory>
    ensures { IfOk result (λ _.
        tasks.new.items ≡ tasks.old.items ++ entered number (S.supers_at view.now number)) }
{
    if let Some(supers) = view.supers(number) {
        tasks.push(Task::Leave(number))?;
        for next in supers {
            tasks.push(Task::Enter(*next))?;
        }
    }
    Ok(())
}

/// The preorder list of a live tads-object is it and then the preorder lists of its superclasses from left
/// to right, and that of anything else is empty.
pub fn preorder_list()
    ensures live { (at : SupersAt) (n : ℕ) (list supers : List ℕ) → IsPreorder at n list → at n ≡ Some supers
        → (lists : ℕ → List ℕ) × AllByRecursion (λ above. IsPreorder at above (lists above)) supers
        × (list ≡ n ∷ flat_map lists supers) }
    ensures missing { (at : SupersAt) (n : ℕ) (list : List ℕ) → IsPreorder at n list → at n ≡ None → list ≡ [] }
{}

/// Where no walk comes back, a number has an order, and only one.
pub fn one_order()
    ensures some { (at : SupersAt) (numbers : List ℕ) (n : ℕ)
        → ((m : ℕ) → IsSome (at m) → Contains numbers m) → IsAcyclicFrom at n
        → (order : List ℕ) × IsLinearOrder at n order }
    ensures one { (at : SupersAt) (n : ℕ) (a b : List ℕ)
        → IsLinearOrder at n a → IsLinearOrder at n b → a ≡ b }
{}

/// As long as there is only one superclass, the order is the number and then the order of that one. So
/// along a chain with at most one superclass each the order is that chain, and a search may go along it
/// without a list.
pub fn order_along_chain()
    ensures missing { (at : SupersAt) (n : ℕ) → at n ≡ None → IsLinearOrder at n [] }
    ensures last { (at : SupersAt) (n : ℕ) → at n ≡ Some [] → IsLinearOrder at n (n ∷ []) }
    ensures step { (at : SupersAt) (n above : ℕ) (order : List ℕ)
        → at n ≡ Some (above ∷ []) → IsLinearOrder at above order → IsLinearOrder at n (n ∷ order) }
    ensures chain { (at : SupersAt) (n : ℕ) (chain : List ℕ)
        → IsChain at n chain → IsLinearOrder at n (n ∷ chain) }
{}
