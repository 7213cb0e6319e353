//! Frames beside lists.
use std::alloc::Global;
use std::test::Fail;
use t3_frames::Frames;
use t3_holder::Holder;

/// A method's locals and operands, the topmost last.
#[derive(Drop)]
struct Plain {
    locals: Vec<Holder>,
    operands: Vec<Holder>,
}

impl Plain {
    fn pop_two(&mut self) -> Option<(Holder, Holder)> {
        if self.operands.len() < 2 {
            return None;
        }
        let upper = self.operands.pop()?;
        let lower = self.operands.pop()?;
        Some((upper, lower))
    }

    fn turn_operands(&mut self, count: usize) {
        let at = self.operands.len().saturating_sub(count);
        self.operands[at..].reverse();
    }

    fn topmost(&self, count: usize) -> &[Holder] {
        let at = self.operands.len().saturating_sub(count);
        &self.operands[at..]
    }
}

/// Does to both what a number says, and tells whether they answer the same.
fn does_the_same(frames: &mut Frames, plain: &mut Plain, number: u32) -> Result<bool, Fail> {
    let n = (number >> 8 & 3) as u16;
    let value = Holder::Int((number >> 12).cast_signed());
    let same = match number % 10 {
        0..=3 => {
            if !frames.is_full() {
                frames.push(value);
                plain.operands.push(value)?;
            }
            let Ok(count) = u32::try_from(plain.operands.len()) else {
                return Ok(false);
            };
            frames.has_operands(count) && !frames.has_operands(count.saturating_add(1))
        }
        4 | 5 => frames.pop() == plain.operands.pop(),
        6 => {
            frames.set_local(n, value);
            if let Some(local) = plain.locals.get_mut(usize::from(n)) {
                *local = value;
            }
            frames.top() == plain.operands.last().copied()
        }
        7 => frames.local(n) == plain.locals.get(usize::from(n)).copied(),
        8 => frames.pop_two() == plain.pop_two(),
        _ => {
            frames.turn_operands(n);
            plain.turn_operands(usize::from(n));
            frames.topmost(n) == plain.topmost(usize::from(n))
        }
    };
    Ok(same)
}

/// Two thousand changes of a method with three locals, by numbers that seem random.
#[test]
fn does_as_lists_do(rt: HostRuntime) -> Result<(), Fail> {
    let alloc = rt.alloc();
    let mut frames = Frames::new(alloc)?;
    frames.begin(100, 3, None, 0);
    let mut plain = Plain {
        locals: vec![in alloc; Holder::Nil; 3]?,
        operands: Vec::new(alloc),
    };
    let mut number: u32 = 1;
    for _ in 0..2_000 {
        number = number.wrapping_mul(1_103_515_245).wrapping_add(12_345);
        assert!(rt; does_the_same(&mut frames, &mut plain, number >> 4)?);
    }
    Ok(())
}

#[test]
fn holds_as_many_values_as_it_may(rt: HostRuntime) -> Result<(), Fail> {
    let mut frames = Frames::new(rt.alloc())?;
    frames.begin(0, 65_535, None, 0);
    assert!(rt; !frames.is_full());
    frames.push(Holder::True);
    assert!(rt; frames.is_full());
    assert_eq!(rt; frames.local(65_534), Some(Holder::Nil));
    assert_eq!(rt; frames.local(65_535), None);
    assert_eq!(rt; frames.topmost(9), [Holder::True].as_slice());
    frames.drop_operands(9);
    assert_eq!(rt; frames.pop(), None);
    assert_eq!(rt; frames.argument(0), None);
    Ok(())
}

/// Pushes the value where there is place.
fn push(frames: &mut Frames, value: Holder) {
    if !frames.is_full() {
        frames.push(value);
    }
}

#[test]
fn turns_operands_over(rt: HostRuntime) -> Result<(), Fail> {
    let mut frames = Frames::new(rt.alloc())?;
    frames.begin(0, 1, None, 0);
    push(&mut frames, Holder::Int(1));
    push(&mut frames, Holder::Int(2));
    push(&mut frames, Holder::Int(3));
    frames.turn_operands(2);
    assert_eq!(rt; frames.pop_two(), Some((Holder::Int(2), Holder::Int(3))));
    push(&mut frames, Holder::Nil);
    // As many as there are.
    frames.turn_operands(9);
    assert_eq!(rt; frames.pop(), Some(Holder::Int(1)));
    assert_eq!(rt; frames.pop_two(), None);
    assert_eq!(rt; frames.pop(), Some(Holder::Nil));
    Ok(())
}

#[test]
fn goes_from_place_to_place(rt: HostRuntime) -> Result<(), Fail> {
    let mut frames = Frames::new(rt.alloc())?;
    frames.begin(100, 0, None, 0);
    frames.carry_out(5);
    assert_eq!(rt;
        (frames.method(), frames.place(), frames.next()),
        (100, 110, 115)
    );
    frames.go_on();
    assert_eq!(rt; (frames.place(), frames.next()), (115, 115));
    frames.go_to(7);
    assert_eq!(rt; (frames.place(), frames.next()), (7, 7));
    assert_eq!(rt;
        (frames.this(), frames.arguments(), frames.locals()),
        (Holder::Nil, 0, 0)
    );
    Ok(())
}
