//! A machine that is stepped by its public calls, from a small image to its end.
ghost use Rattle.std.specs.Prelude.{◌≤◌};

use super::*;
use crate::quick::{Quick, Returned, quick_at};
use crate::superinstruction::{Pushed, superinstruction_at};
use std::alloc::Global;
use std::test::Fail;
use t3_holder::Holder;
use t3_image_read::ImageReader;
use t3_load::{Program, load};
use t3_methods::instr_at;
use t3_ops::Fault;
use t3_store::StoreLimits;

/// The entry at address 0, a page of code, and the function set for input and output. The method says 42 and
/// divides by 0.
const BLOCKS: &[u8] =
    b"ENTP\x10\x00\x00\x00\x01\x00\x00\x00\x00\x00\x0A\x00\x0A\x00\x00\x00\x00\x00\x00\x00\x00\x00\
                        CPDF\x0A\x00\x00\x00\x01\x00\x01\x00\x01\x00\x00\x00\x40\x00\x00\x00\
                        FNSD\x0A\x00\x00\x00\x01\x00\x01\x00\x07tads-io\
                        CPPG\x19\x00\x00\x00\x01\x00\x01\x00\x00\x00\x00\x00\x00\
                        \x00\x00\x00\x00\x02\x00\x00\x00\x00\x00\x03\x2A\xB1\x01\x00\x02\x01\x2A\
                        EOF \x00\x00\x00\x00\x00\x00";

const LIMITS: StoreLimits = StoreLimits {
    objects: 10,
    units: 10,
    records: 1,
    savepoints: 1,
};

/// The entry, a page of code, and tads-objects as metaclass 0. The method makes two of them.
const MAKES_TWO: &[u8] =
    b"ENTP\x10\x00\x00\x00\x01\x00\x00\x00\x00\x00\x0A\x00\x0A\x00\x00\x00\x00\x00\x00\x00\x00\x00\
                        CPDF\x0A\x00\x00\x00\x01\x00\x01\x00\x01\x00\x00\x00\x40\x00\x00\x00\
                        MCLD\x14\x00\x00\x00\x01\x00\x01\x00\x12\x00\x0Btads-object\x00\x00\x02\x00\
                        CPPG\x18\x00\x00\x00\x01\x00\x01\x00\x00\x00\x00\x00\x00\
                        \x00\x00\x00\x00\x02\x00\x00\x00\x00\x00\xC0\x00\x00\xC0\x00\x00\x51\
                        EOF \x00\x00\x00\x00\x00\x00";

/// The entry, and a page of code. The method counts a local from 0 to 2.
const COUNTS: &[u8] =
    b"ENTP\x10\x00\x00\x00\x01\x00\x00\x00\x00\x00\x0A\x00\x0A\x00\x00\x00\x00\x00\x00\x00\x00\x00\
                        CPDF\x0A\x00\x00\x00\x01\x00\x01\x00\x01\x00\x00\x00\x40\x00\x00\x00\
                        CPPG\x21\x00\x00\x00\x01\x00\x01\x00\x00\x00\x00\x00\x00\
                        \x00\x00\x01\x00\x02\x00\x00\x00\x00\x00\xD6\x00\x80\x00\x02\x22\xE0\x00\
                        \x80\x00\x03\x02\x98\xF5\xFF\x51\
                        EOF \x00\x00\x00\x00\x00\x00";

/// The entry, and a page of code: eight instructions that come often, and what pushes an integer and the local, adds
/// them and returns the sum. The call is that of the method itself.
const FORMS: &[u8] =
    b"ENTP\x10\x00\x00\x00\x01\x00\x00\x00\x00\x00\x0A\x00\x0A\x00\x00\x00\x00\x00\x00\x00\x00\x00\
                        CPDF\x0A\x00\x00\x00\x01\x00\x01\x00\x01\x00\x00\x00\x40\x00\x00\x00\
                        CPPG\x2A\x00\x00\x00\x01\x00\x01\x00\x00\x00\x00\x00\x00\
                        \x00\x00\x01\x00\x02\x00\x00\x00\x00\x00\x03\x2A\x89\x80\x00\xE0\x00\x8B\x89\
                        \x91\x02\x00\x58\x00\x00\x00\x00\x00\x51\x03\x05\x80\x00\x22\x50\
                        EOF \x00\x00\x00\x00\x00\x00";

/// The program of an image of these blocks, with room for so many objects.
fn program(alloc: Global, blocks: &[u8], objects: u32) -> Result<Program, Fail>
    requires { objects ≤ 10 }
{
    let mut bytes = Vec::new(alloc);
    bytes.extend_from_slice(b"T3-image\r\n\x1a\x01\x00")?;
    bytes.extend_from_slice(&[0; 56])?;
    bytes.extend_from_slice(blocks)?;
    let mut reader = ImageReader::new(alloc);
    reader.feed(&bytes)?;
    let image = reader.finish()?;
    let limits = StoreLimits { objects, ..LIMITS };
    Ok(load(alloc, &image, [7; 32], limits)?)
}

/// The machine after a step, and what that did, or none where it wants no step or has made ten.
fn stepped(machine: Machine) -> Result<(Machine, Option<Event>), Fail> {
    match machine.wants() {
        Want::Go if machine.steps() < 10 => {
            let (next, event) = machine.step(Input::Go)?;
            Ok((next, Some(event)))
        }
        _ => Ok((machine, None)),
    }
}

/// What a run of at most ten steps said, how it ended, and the steps that it made.
fn ran(alloc: Global, program: Program) -> Result<(Vec<u8>, Option<End>, u64), Fail> {
    let mut machine = Machine::start(alloc, program)?;
    let mut said = Vec::new(alloc);
    let mut end = None;
    for _step in 0..10 {
        let (next, event) = stepped(machine)?;
        machine = next;
        match event {
            Some(Event::Said(text)) => said.extend_from_slice(&text.0)?,
            Some(Event::Ended(how)) => end = Some(how),
            _other => {}
        }
    }
    Ok((said, end, machine.steps()))
}

#[test]
fn says_a_number_and_ends_by_a_fault(rt: HostRuntime) -> Result<(), Fail> {
    let alloc = rt.alloc();
    let (said, end, steps) = ran(alloc, program(alloc, BLOCKS, 10)?)?;
    assert_eq!(rt; said.as_slice(), b"42".as_slice());
    // The fault's exception is the first object.
    let want = End::Unhandled {
        object: 1,
        fault: Some(Fault::DivideByZero),
    };
    assert_eq!(rt; end, Some(want));
    // The entry's call and five instructions.
    assert_eq!(rt; steps, 6);
    Ok(())
}

#[test]
fn a_store_without_room_ends_the_run(rt: HostRuntime) -> Result<(), Fail> {
    let alloc = rt.alloc();
    // The exception finds no room.
    let (_, end, steps) = ran(alloc, program(alloc, BLOCKS, 0)?)?;
    assert_eq!(rt; end, Some(End::StoreFull));
    assert_eq!(rt; steps, 6);
    // The second object finds none, and both do.
    let (_, end, steps) = ran(alloc, program(alloc, MAKES_TWO, 1)?)?;
    assert_eq!(rt; end, Some(End::StoreFull));
    assert_eq!(rt; steps, 3);
    let (_, end, steps) = ran(alloc, program(alloc, MAKES_TWO, 2)?)?;
    assert_eq!(rt; end, Some(End::Returned));
    assert_eq!(rt; steps, 4);
    Ok(())
}

#[test]
fn goes_to_a_text_and_no_further_than_it_may(rt: HostRuntime) -> Result<(), Fail> {
    let alloc = rt.alloc();
    let machine = Machine::start(alloc, program(alloc, BLOCKS, 10)?)?;
    // The entry's call, and pushing 42 in front of what says it.
    let (machine, made, event) = went(machine, 2)?;
    assert!(rt; made == 2 && matches!(event, Event::Went));
    let (machine, made, event) = went(machine, 9)?;
    assert!(rt; made == 1 && matches!(event, Event::Said(_)));
    let (machine, made, event) = went(machine, 9)?;
    assert!(rt; made == 3 && matches!(event, Event::Ended(_)));
    assert!(rt; machine.wants() == Want::Nothing && machine.steps() == 6);
    Ok(())
}

/// The quick form of what stands at an address.
fn form_at(program: &Program, address: u32) -> Result<Quick, Fail> {
    match instr_at(&program.pools, address) {
        Ok((instr, size)) => Ok(quick_at(&program.pools, address, instr, size)),
        Err(_) => Err(Fail::from("no instruction")),
    }
}

/// What a quick form is called, with the number that tells most of it.
fn named(form: Quick) -> (&'static str, u32) {
    match form {
        Quick::Push(Pushed::Local(n), _) => ("local", u32::from(n)),
        Quick::Push(_, behind) => ("push", behind),
        Quick::Constant(_, behind) => ("constant", behind),
        Quick::Drop(behind) => ("drop", behind),
        Quick::SetLocal(_, behind) => ("set", behind),
        Quick::Jump(target) => ("jump", target),
        Quick::Call(call) => ("call", call.size),
        Quick::Return(Returned::Value(Holder::Nil)) => ("nil", 0),
        Quick::Return(_) => ("return", 0),
        Quick::Compute(_, pair) => ("compute", pair.behind),
        Quick::ComputeLocal(_, n, _) => ("computes a local", u32::from(n)),
        Quick::Compare(_, _, target) => ("compare", target),
        Quick::ByCode => ("by code", 0),
    }
}

/// Where an instruction of the image of forms stands, and what its form is called.
const CALLED: [(u32, (&str, u32)); 10] = [
    (10, ("constant", 12)),
    (12, ("drop", 13)),
    (13, ("local", 0)),
    (15, ("set", 17)),
    (17, ("push", 18)),
    // Two bytes further than where its operand stands.
    (19, ("jump", 22)),
    (28, ("nil", 0)),
    // A sum that begins with an integer, and the sum alone.
    (29, ("compute", 34)),
    (33, ("by code", 0)),
    (34, ("return", 0)),
];

#[test]
fn instructions_that_come_often_have_quick_forms(rt: HostRuntime) -> Result<(), Fail> {
    let program = program(rt.alloc(), FORMS, 10)?;
    for (address, called) in CALLED {
        assert_eq!(rt; named(form_at(&program, address)?), called);
    }
    Ok(())
}

#[test]
fn a_call_has_what_its_header_says(rt: HostRuntime) -> Result<(), Fail> {
    let program = program(rt.alloc(), FORMS, 10)?;
    let Quick::Call(call) = form_at(&program, 22)? else {
        return Err(Fail::from("a call"));
    };
    assert_eq!(rt; (call.method, call.count, call.size), (0, 0, 6));
    assert_eq!(rt; (call.missing, call.locals), (0, 1));
    Ok(())
}

/// Whether a superinstruction begins at an address.
fn begins_one(program: &Program, address: u32) -> bool {
    match instr_at(&program.pools, address) {
        Ok((first, size)) => superinstruction_at(&program.pools, address, first, size).is_some(),
        Err(_) => false,
    }
}

#[test]
fn superinstructions_are_as_many_steps(rt: HostRuntime) -> Result<(), Fail> {
    let alloc = rt.alloc();
    let program = program(alloc, COUNTS, 10)?;
    // A sum that goes into a local, and a jump by a local and an integer.
    assert!(rt; begins_one(&program, 12) && begins_one(&program, 18));
    assert!(rt; !begins_one(&program, 10) && !begins_one(&program, 14));
    let machine = Machine::start(alloc, program)?;
    // The entry's call, the local, and one instruction of the sum, of which no more may be carried out.
    let (machine, made, _) = went(machine, 2)?;
    let (machine, more, _) = went(machine, 1)?;
    assert!(rt; (made, more) == (2, 1));
    // The rest of the sum, and the first turn to its end; then a turn in which all is carried out at once.
    let (machine, made, _) = went(machine, 6)?;
    let (machine, more, event) = went(machine, 9)?;
    assert!(rt; (made, more) == (6, 8));
    assert!(rt; matches!(event, Event::Ended(End::Returned)));
    assert!(rt; machine.steps() == 17);
    Ok(())
}

/// What a machine comes to by so many steps at most, or as it is where it wants none.
fn went(machine: Machine, most: u32) -> Result<(Machine, u32, Event), Fail>
    requires { most ≤ 9 }
{
    match machine.wants() {
        Want::Go if machine.steps() < 100 => Ok(machine.go(most)?),
        _ => Ok((machine, 0, Event::Went)),
    }
}
