//! Orders that were worked out by hand, and small graphs against a slow program.
ghost use Rattle.std.specs.Prelude.{◌≡◌, ◌<◌, nat_lt};
ghost use Rattle.std.specs.List.{list_all};
ghost use Rattle.t3_object_tests.specs.Rising.{rising_at, below};

use std::alloc::Global;
use std::process::Abort;
use std::test::Fail;
use t3_holder::NoMemory;
use t3_tadsobj::{Supers, linear_order};

/// Objects numbered from 0. Those are live whose superclasses all have smaller numbers, so that no walk
/// comes back.
#[derive(Drop)]
struct Objects {
    lists: Vec<Vec<u32>>,
}

impl Supers for Objects {
    ghost use Rattle.std.specs.Prelude.{length};
    ghost use Rattle.t3_object_tests.specs.RisingLaw.{rising_below};

    ghost supers_at = { λ objects. rising_at objects.lists.items };

    ghost numbers = { λ objects. below (length objects.lists.items) };

    ghost covers = { λ objects. rising_below objects.lists.items };

    fn supers(&self, number: u32) -> Option<&[u32]> {
        let index = number as usize;
        if index >= self.lists.len() {
            return None;
        }
        let list = &self.lists[index];
        if are_below(list, number) {
            Some(list)
        } else {
            None
        }
    }
}

fn are_below(list: &[u32], limit: u32) -> bool
    ensures { result ≡ list_all (λ number. nat_lt number limit) list.now }
{
    list.iter().all(|number| *number < limit)
}

fn make_objects(alloc: Global, lists: &[&[u32]]) -> Result<Objects, NoMemory> {
    let mut made = Vec::new(alloc);
    for list in lists {
        made.push(Vec::from_slice(alloc, list)?)?;
    }
    Ok(Objects { lists: made })
}

fn order_of(alloc: Global, objects: &Objects, number: u32) -> Result<Vec<u32>, NoMemory> {
    linear_order(alloc, objects, number)
}

/// The list with repeats of each object, made from those of the smaller numbers.
fn lists_with_repeats(
    alloc: Global,
    objects: &Objects,
    count: u32,
) -> Result<Vec<Vec<u32>>, NoMemory> {
    let mut lists: Vec<Vec<u32>> = Vec::new(alloc);
    for number in 0..count {
        let mut list = Vec::new(alloc);
        if let Some(supers) = objects.supers(number) {
            list.push(number)?;
            for above in supers {
                if let Some(repeated) = lists.get(*above as usize) {
                    list.extend_from_slice(repeated)?;
                }
            }
        }
        lists.push(list)?;
    }
    Ok(lists)
}

/// Each number at its last place.
fn last_places(alloc: Global, list: &[u32]) -> Result<Vec<u32>, NoMemory> {
    let mut kept = Vec::new(alloc);
    for (place, number) in list.iter().enumerate() {
        if !list[place + 1..].contains(number) {
            kept.push(*number)?;
        }
    }
    Ok(kept)
}

/// Each row has an object and its order, which is empty where the object isn't live.
fn check_orders(
    rt: &impl Abort,
    alloc: Global,
    lists: &[&[u32]],
    rows: &[(u32, &[u32])],
) -> Result<(), Fail> {
    let objects = make_objects(alloc, lists)?;
    for row in rows {
        let (number, want) = *row;
        assert!(rt;
            order_of(alloc, &objects, number)?.as_slice() == want,
            "of {number}"
        );
    }
    Ok(())
}

/// Object 0 isn't live, since it is its own superclass, and there is no object 9.
const DIAMOND: [&[u32]; 7] = [&[0], &[], &[1], &[1], &[2, 3], &[4, 1], &[2, 4, 3]];

const IN_DIAMOND: [(u32, &[u32]); 6] = [
    (4, &[4, 2, 3, 1]),
    (5, &[5, 4, 2, 3, 1]),
    (6, &[6, 4, 2, 3, 1]),
    (1, &[1]),
    (0, &[]),
    (9, &[]),
];

/// A diamond of diamonds, a number that stands twice, and superclasses that aren't live.
const DIAMONDS: [&[u32]; 11] = [
    &[0],
    &[],
    &[1],
    &[1],
    &[2, 3],
    &[4],
    &[4],
    &[5, 6],
    &[2, 3, 2],
    &[0, 3, 7],
    &[0],
];

const IN_DIAMONDS: [(u32, &[u32]); 4] = [
    (7, &[7, 5, 6, 4, 2, 3, 1]),
    (8, &[8, 3, 2, 1]),
    (9, &[9, 7, 5, 6, 4, 2, 3, 1]),
    (10, &[10]),
];

#[test]
fn orders_what_was_worked_out_by_hand(rt: HostRuntime) -> Result<(), Fail> {
    check_orders(&rt, rt.alloc(), &DIAMOND, &IN_DIAMOND)?;
    check_orders(&rt, rt.alloc(), &DIAMONDS, &IN_DIAMONDS)
}

/// Objects up to a number, each with the one before it as its superclass.
fn make_chain(alloc: Global, last: u32) -> Result<Objects, NoMemory> {
    let mut lists = Vec::new(alloc);
    lists.push(Vec::new(alloc))?;
    for above in 0..last {
        lists.push(Vec::from_slice(alloc, &[above])?)?;
    }
    Ok(Objects { lists })
}

#[test]
fn orders_a_chain_of_a_million(rt: HostRuntime) -> Result<(), Fail> {
    let chain = make_chain(rt.alloc(), 1_048_575)?;
    let order = order_of(rt.alloc(), &chain, 1_048_575)?;
    check_falling(&rt, &order)
}

/// The numbers go from 1,048,575 down to 0.
fn check_falling(rt: &impl Abort, order: &[u32]) -> Result<(), Fail> {
    assert_eq!(rt; order.len(), 1_048_576);
    let mut due = 1_048_576u32;
    for number in order {
        due = due.saturating_sub(1);
        assert_eq!(rt; *number, due);
    }
    Ok(())
}

/// The next of a row of numbers that look as if they were drawn.
pub(crate) fn drawn(seed: &mut u32, count: u32) -> u32
    requires { 0 < count }
{
    *seed = seed.wrapping_mul(1_664_525).wrapping_add(1_013_904_223);
    (*seed >> 16) % count
}

/// Superclasses up to an object's number. Now and then the object itself, so that it isn't live.
fn draw_supers(alloc: Global, seed: &mut u32, number: u32) -> Result<Vec<u32>, NoMemory>
    requires { number < 9 }
{
    let mut list = Vec::new(alloc);
    for _ in 0..drawn(seed, 4) {
        list.push(drawn(seed, number + 1))?;
    }
    Ok(list)
}

fn draw_objects(alloc: Global, seed: &mut u32) -> Result<Objects, NoMemory> {
    let mut lists = Vec::new(alloc);
    for number in 0..9u32 {
        lists.push(draw_supers(alloc, seed, number)?)?;
    }
    Ok(Objects { lists })
}

/// The order of an object by the slow program, from its list with repeats.
fn order_by_places(alloc: Global, repeats: &[Vec<u32>], number: u32) -> Result<Vec<u32>, NoMemory> {
    match repeats.get(number as usize) {
        Some(list) => last_places(alloc, list),
        None => Ok(Vec::new(alloc)),
    }
}

/// Both give the same order of an object.
fn check_same(
    rt: &impl Abort,
    alloc: Global,
    graph: &Objects,
    repeats: &[Vec<u32>],
    number: u32,
) -> Result<(), Fail> {
    let order = order_of(alloc, graph, number)?;
    let want = order_by_places(alloc, repeats, number)?;
    assert_eq!(rt;
        order.as_slice(),
        want.as_slice(),
        "of {number} in {:?}",
        graph.lists
    );
    Ok(())
}

/// Both give the same order of each object, and of one that isn't there.
fn check_each(rt: &impl Abort, alloc: Global, graph: &Objects) -> Result<(), Fail> {
    let repeats = lists_with_repeats(alloc, graph, 10)?;
    for number in 0..10u32 {
        check_same(rt, alloc, graph, &repeats, number)?;
    }
    Ok(())
}

#[test]
fn agrees_with_a_slow_program(rt: HostRuntime) -> Result<(), Fail> {
    let mut seed = 1;
    for _ in 0..3000 {
        let graph = draw_objects(rt.alloc(), &mut seed)?;
        check_each(&rt, rt.alloc(), &graph)?;
    }
    Ok(())
}
