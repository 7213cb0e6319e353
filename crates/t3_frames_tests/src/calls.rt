//! Calls and returns, beside lists and at the limits.
ghost use Rattle.std.specs.Prelude.{◌+◌, ◌<◌, ◌^◌};

use std::alloc::Global;
use std::test::Fail;
use t3_frames::{Call, Frames};
use t3_holder::Holder;

/// A method that is called: where, its arguments, how many of them were given, and its operands, the
/// topmost last.
#[derive(Drop)]
struct Plain {
    method: u32,
    arguments: Vec<Holder>,
    given: usize,
    operands: Vec<Holder>,
}

impl Plain {
    /// The arguments of a call leave the operands.
    fn call(&mut self, alloc: Global, call: Call, missing: u8) -> Result<Plain, Fail> {
        let mut arguments = Vec::new(alloc);
        if let Some(value) = call.laid {
            arguments.push(value)?;
        }
        for _ in 0..call.count {
            if let Some(value) = self.operands.pop() {
                arguments.push(value)?;
            }
        }
        let given = arguments.len();
        for _ in 0..missing {
            arguments.push(Holder::Nil)?;
        }
        Ok(Plain {
            method: call.method,
            arguments,
            given,
            operands: Vec::new(alloc),
        })
    }

    fn topmost(&self, count: usize) -> &[Holder] {
        let at = self.operands.len().saturating_sub(count);
        &self.operands[at..]
    }

    fn is_newest(&self, frames: &Frames) -> bool {
        let counts = (frames.method(), frames.arguments(), frames.given());
        counts == (self.method, self.arguments.len(), self.given)
            && frames.topmost(4) == self.topmost(4)
            && self.has_argument(frames, 0)
            && self.has_argument(frames, 1)
            && self.has_argument(frames, 4)
    }

    fn has_argument(&self, frames: &Frames, n: u16) -> bool {
        frames.argument(n) == self.arguments.get(usize::from(n)).copied()
    }
}

/// Calls a method where there is room for it, and tells whether there is.
fn enter(frames: &mut Frames, call: Call, locals: u16, missing: u8) -> bool
    requires { call.method + 10 < 2 ^ 31 }
{
    let more = u16::from(missing) + u16::from(call.laid.is_some());
    let has_room = frames.has_room(more, locals);
    if has_room {
        frames.enter(call, locals, u16::from(missing));
    }
    has_room
}

/// Puts an operand on top where there is room for it.
fn push(frames: &mut Frames, value: Holder) {
    if !frames.is_full() {
        frames.push(value);
    }
}

/// Calls a method in both, as a number says, where there is room for it.
fn call_both(
    alloc: Global,
    frames: &mut Frames,
    plain: &mut Vec<Plain>,
    number: u32,
) -> Result<(), Fail> {
    let call = Call {
        method: number >> 8,
        laid: (number & 4 == 0).then_some(Holder::Obj(number)),
        count: (number >> 3 & 3) as u16,
        this: Holder::Obj(number),
        defining: number,
        gives: Some(number),
    };
    let missing = (number >> 5 & 3) as u8;
    if enter(frames, call, (number >> 7 & 3) as u16, missing) {
        let Some(caller) = plain.last_mut() else {
            return Ok(());
        };
        let called = caller.call(alloc, call, missing)?;
        plain.push(called)?;
    }
    Ok(())
}

/// Does to both what a number says, and tells whether they are the same. The newest method is the last.
fn does_the_same(
    alloc: Global,
    frames: &mut Frames,
    plain: &mut Vec<Plain>,
    number: u32,
) -> Result<bool, Fail> {
    match number % 8 {
        0..=2 => {
            push(frames, Holder::Enum(number));
            if let Some(newest) = plain.last_mut() {
                newest.operands.push(Holder::Enum(number))?;
            }
        }
        3..=5 => call_both(alloc, frames, plain, number >> 3)?,
        6 => {
            if frames.leave() {
                plain.pop();
            }
        }
        _ => {
            frames.drop_operands(2);
            if let Some(newest) = plain.last_mut() {
                newest.operands.pop();
                newest.operands.pop();
            }
        }
    }
    Ok(plain.last().is_some_and(|newest| newest.is_newest(frames)))
}

/// Two thousand calls, returns and pushes, by numbers that seem random.
#[test]
fn calls_as_lists_do(rt: HostRuntime) -> Result<(), Fail> {
    let alloc = rt.alloc();
    let mut frames = Frames::new(alloc)?;
    frames.begin(100, 1, Some(Holder::True), 2);
    let first = Plain {
        method: 100,
        arguments: vec![in alloc; Holder::True, Holder::Nil, Holder::Nil]?,
        given: 1,
        operands: Vec::new(alloc),
    };
    let mut plain = vec![in alloc; first]?;
    let mut number: u32 = 1;
    for _ in 0..2_000 {
        number = number.wrapping_mul(1_103_515_245).wrapping_add(12_345);
        assert!(rt; does_the_same(alloc, &mut frames, &mut plain, number >> 4)?);
    }
    for _ in 1..plain.len() {
        assert!(rt; frames.leave());
        plain.pop();
        assert!(rt; plain.last().is_some_and(|newest| newest.is_newest(&frames)));
    }
    assert!(rt; !frames.leave());
    Ok(())
}

#[test]
fn gives_arguments_and_goes_back(rt: HostRuntime) -> Result<(), Fail> {
    let mut frames = Frames::new(rt.alloc())?;
    frames.begin(100, 1, Some(Holder::Int(9)), 1);
    push(&mut frames, Holder::Int(1));
    push(&mut frames, Holder::Int(2));
    push(&mut frames, Holder::Int(3));
    let call = Call {
        method: 200,
        laid: Some(Holder::True),
        count: 2,
        this: Holder::Obj(5),
        defining: 4,
        gives: Some(5),
    };
    assert!(rt; enter(&mut frames, call, 2, 1));
    assert_eq!(rt; (frames.arguments(), frames.given()), (4, 3));
    assert_eq!(rt; frames.argument(0), Some(Holder::True));
    assert_eq!(rt; frames.argument(1), Some(Holder::Int(3)));
    assert_eq!(rt; frames.argument(2), Some(Holder::Int(2)));
    assert_eq!(rt; frames.argument(3), Some(Holder::Nil));
    assert_eq!(rt; (frames.place(), frames.this()), (210, Holder::Obj(5)));
    assert_eq!(rt; (frames.defining(), frames.gives()), (4, Some(5)));
    assert_eq!(rt; (frames.local(1), frames.top()), (Some(Holder::Nil), None));
    assert!(rt; frames.leave());
    assert_eq!(rt; frames.topmost(9), [Holder::Int(1)].as_slice());
    assert_eq!(rt; frames.argument(0), Some(Holder::Int(9)));
    assert_eq!(rt; frames.argument(1), Some(Holder::Nil));
    assert_eq!(rt; frames.given(), 1);
    frames.clear_operands();
    assert_eq!(rt; frames.pop(), None);
    assert!(rt; !frames.leave());
    assert_eq!(rt; (frames.method(), frames.gives()), (100, None));
    Ok(())
}

#[test]
fn has_as_many_frames_as_it_may(rt: HostRuntime) -> Result<(), Fail> {
    let mut frames = Frames::new(rt.alloc())?;
    let call = Call::function(0, 0);
    for _ in 1..4_096 {
        assert!(rt; enter(&mut frames, call, 0, 0));
    }
    assert!(rt; !enter(&mut frames, call, 0, 0));
    assert!(rt; frames.leave());
    assert!(rt; enter(&mut frames, call, 0, 0));
    for _ in 1..4_096 {
        assert!(rt; frames.leave());
    }
    assert!(rt; !frames.leave());
    Ok(())
}

/// A call counts what is laid, what is missing, its locals and one value.
#[test]
fn calls_up_to_the_last_value(rt: HostRuntime) -> Result<(), Fail> {
    let mut frames = Frames::new(rt.alloc())?;
    frames.begin(0, 65_532, None, 0);
    let call = Call::function_on(0, Holder::True);
    assert!(rt; !enter(&mut frames, call, 2, 1));
    assert!(rt; !enter(&mut frames, call, 1, 2));
    assert!(rt; enter(&mut frames, call, 1, 1));
    assert!(rt; !frames.is_full());
    push(&mut frames, Holder::Nil);
    assert!(rt; frames.is_full());
    assert_eq!(rt; frames.argument(0), Some(Holder::True));
    assert_eq!(rt; frames.argument(1), Some(Holder::Nil));
    assert!(rt; !enter(&mut frames, Call::function(0, 1), 0, 0));
    assert!(rt; frames.leave());
    assert_eq!(rt; frames.local(65_531), Some(Holder::Nil));
    Ok(())
}
