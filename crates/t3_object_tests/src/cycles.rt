//! Cycles that were drawn by hand, long ones, and small graphs against a slow program.
ghost use Rattle.t3_object_tests.specs.Listed.{listed_at};
ghost use Rattle.t3_object_tests.specs.Rising.{below};

use crate::orders::drawn;
use std::alloc::Global;
use std::process::Abort;
use std::test::Fail;
use t3_holder::NoMemory;
use t3_tadsobj::{Supers, first_cyclic};

/// Objects numbered from 0, each with any superclasses.
#[derive(Drop)]
struct Graph {
    lists: Vec<Vec<u32>>,
}

impl Supers for Graph {
    ghost use Rattle.std.specs.Prelude.{length};
    ghost use Rattle.t3_object_tests.specs.ListedLaw.{listed_below};

    ghost supers_at = { λ graph. listed_at graph.lists.items };

    ghost numbers = { λ graph. below (length graph.lists.items) };

    ghost covers = { λ graph. listed_below graph.lists.items };

    fn supers(&self, number: u32) -> Option<&[u32]> {
        match self.lists.get(number as usize) {
            Some(list) => Some(list),
            None => None,
        }
    }
}

fn make_graph(alloc: Global, lists: &[&[u32]]) -> Result<Graph, NoMemory> {
    let mut made = Vec::new(alloc);
    for list in lists {
        made.push(Vec::from_slice(alloc, list)?)?;
    }
    Ok(Graph { lists: made })
}

/// Objects up to a number: the first has these superclasses, and each other one the object before it.
fn make_chain(alloc: Global, last: u32, first: &[u32]) -> Result<Graph, NoMemory> {
    let mut lists = Vec::new(alloc);
    lists.push(Vec::from_slice(alloc, first)?)?;
    for above in 0..last {
        lists.push(Vec::from_slice(alloc, &[above])?)?;
    }
    Ok(Graph { lists })
}

/// Whether the number is its own ancestor, where fewer than 64 are.
fn is_own_ancestor(alloc: Global, graph: &Graph, number: u32) -> Result<bool, NoMemory> {
    let mut reached = Vec::new(alloc);
    reached.extend_from_slice(graph.supers(number).unwrap_or(&[]))?;
    for place in 0..64 {
        let Some(next) = reached.get(place).copied() else {
            return Ok(reached.contains(&number));
        };
        add_new(graph.supers(next).unwrap_or(&[]), &mut reached)?;
    }
    Ok(reached.contains(&number))
}

fn add_new(numbers: &[u32], reached: &mut Vec<u32>) -> Result<(), NoMemory> {
    for number in numbers {
        if !reached.contains(number) {
            reached.push(*number)?;
        }
    }
    Ok(())
}

/// 1 is its own superclass. 2 and 3 are a cycle, and so are 5 and 6. 4 is between them. 7 has a
/// superclass that isn't there, and 8, 9, 10 and 0 are a diamond.
const BY_HAND: [&[u32]; 11] = [
    &[],
    &[0, 1],
    &[3],
    &[0, 2],
    &[0, 2],
    &[6, 4],
    &[5],
    &[11, 0],
    &[9, 10],
    &[0],
    &[0],
];

/// Numbers, and the first of them that is its own ancestor.
type Row = (&'static [u32], Option<u32>);

const CYCLIC: [Row; 6] = [
    (&[1], Some(1)),
    (&[3, 2], Some(3)),
    (&[0, 4, 7, 8, 9, 10, 11], None),
    (&[4, 8, 6, 1, 5], Some(6)),
    (&[4, 7, 2], Some(2)),
    (&[], None),
];

#[test]
fn tells_what_was_drawn_by_hand(rt: HostRuntime) -> Result<(), Fail> {
    let graph = make_graph(rt.alloc(), &BY_HAND)?;
    check_cycles(&rt, rt.alloc(), &graph, &CYCLIC)
}

/// Each row is so of the graph.
fn check_cycles(rt: &impl Abort, alloc: Global, graph: &Graph, rows: &[Row]) -> Result<(), Fail> {
    for row in rows {
        let (numbers, want) = *row;
        assert_eq!(rt; first_cyclic(alloc, graph, numbers)?, want);
    }
    Ok(())
}

#[test]
fn tells_long_cycles_and_chains(rt: HostRuntime) -> Result<(), Fail> {
    let rows: [(&[u32], &[u32], Option<u32>); 3] = [
        (&[9_999], &[7, 0], Some(7)),
        (&[1], &[9_999, 2, 1], Some(1)),
        (&[], &[9_999, 0], None),
    ];
    for (first, numbers, want) in rows {
        assert_eq!(rt; first_in_chain(rt.alloc(), first, numbers)?, want);
    }
    Ok(())
}

/// The first of the numbers that is its own ancestor, in a chain up to 9,999.
fn first_in_chain(alloc: Global, first: &[u32], numbers: &[u32]) -> Result<Option<u32>, NoMemory> {
    let chain = make_chain(alloc, 9_999, first)?;
    first_cyclic(alloc, &chain, numbers)
}

fn draw_graph(alloc: Global, seed: &mut u32) -> Result<Graph, NoMemory> {
    let mut lists = Vec::new(alloc);
    for _ in 0..8 {
        let mut list = Vec::new(alloc);
        for _ in 0..drawn(seed, 3) {
            list.push(drawn(seed, 9))?;
        }
        lists.push(list)?;
    }
    Ok(Graph { lists })
}

fn draw_numbers(alloc: Global, seed: &mut u32) -> Result<Vec<u32>, NoMemory> {
    let mut numbers = Vec::new(alloc);
    for _ in 0..5 {
        numbers.push(drawn(seed, 9))?;
    }
    Ok(numbers)
}

/// The first of the numbers that is its own ancestor, by the slow program.
fn first_by_walks(alloc: Global, graph: &Graph, numbers: &[u32]) -> Result<Option<u32>, NoMemory> {
    for number in numbers {
        if is_own_ancestor(alloc, graph, *number)? {
            return Ok(Some(*number));
        }
    }
    Ok(None)
}

/// Both tell the same of these numbers.
fn check_same(rt: &impl Abort, alloc: Global, graph: &Graph, numbers: &[u32]) -> Result<(), Fail> {
    let want = first_by_walks(alloc, graph, numbers)?;
    assert_eq!(rt;
        first_cyclic(alloc, graph, numbers)?,
        want,
        "of {:?} in {:?}",
        numbers,
        graph.lists
    );
    Ok(())
}

#[test]
fn agrees_with_a_slow_program_on_cycles(rt: HostRuntime) -> Result<(), Fail> {
    let mut seed = 1;
    for _ in 0..3000 {
        let graph = draw_graph(rt.alloc(), &mut seed)?;
        let numbers = draw_numbers(rt.alloc(), &mut seed)?;
        check_same(&rt, rt.alloc(), &graph, &numbers)?;
    }
    Ok(())
}
