//! Frames as contracts see them, over one stack of values.
ghost use Rattle.std.specs.Prelude.{◌≡◌, ◌+◌, ◌≤◌, ◌<◌, ◌^◌, [], ◌∷◌, length, reverse, take, drop, IfOk, IsSome, nat_le};
ghost use Rattle.std.specs.List.{slice_get};
ghost use Rattle.std.specs.Option.{option_to_list};
ghost use Rattle.t3_frames.specs.Frame.{values, value_limit, frame_limit, room, has_room, function, called, enters, of_newest, with_operands, turned, with_local, with_argument, HasLeft, Pops, PopsTwo, HasTop};

mod newest;

use crate::call::Call;
use crate::mark::{FrameMark, OlderMark};
use crate::stack::{count_of, push_nils, push_nils_below, push_some};
use std::alloc::Global;
use std::marker::Model;
use t3_holder::{Holder, NoMemory};

/// How many values the frames hold at most: arguments, locals and operands, counted together.
pub const VALUE_LIMIT: usize = 65_536;

/// How many frames there are at most.
pub const FRAME_LIMIT: usize = 4_096;

/// How many values there is room for: one more, so that a frame whose operands were dropped can always
/// be given one.
const ROOM: usize = VALUE_LIMIT + 1;

/// The frames of a run, the newest of which is carried out.
#[derive(Debug, Drop)]
pub struct Frames {
    /// The values of all frames. Those of the newest come last: its arguments and its locals, of each the
    /// first one last, and its operands, of which the topmost is the last.
    values: Vec<Holder>,
    /// How many of them lie below the operands of the newest.
    base: usize,
    newest: FrameMark,
    /// The newer last.
    older: Vec<OlderMark>,
}

impl Model for Frames {
    ghost use Rattle.t3_frames.specs.Frame.{FramesValue};

    ghost Value = { FramesValue };

    ghost use Rattle.std.specs.Prelude.{◌-◌, reverse, vec_len, vec_capacity};
    ghost use Rattle.t3_frames.specs.Inner.Marks.{frames_of, IsStack};

    ghost view = { λ f. frames_of (reverse f.values.items) (vec_len f.values - f.base) f.newest
        (reverse f.older.items) };

    ghost invariant = { λ f. IsStack (reverse f.values.items) f.base f.newest
        (reverse f.older.items) (vec_capacity f.values) (vec_capacity f.older) };
}

impl Frames {
    /// A frame of nothing. All the room for values and for frames is taken here.
    pub fn new(alloc: Global) -> Result<Frames, NoMemory>
        ensures { IfOk result (λ frames. frames ≡ record {
          newest = called (function 0 0) 0 0 [];
          older = [];
        }) }
    {
        Ok(Frames {
            values: Vec::with_capacity(alloc, ROOM)?,
            base: 0,
            newest: FrameMark::called(Call::function(0, 0), 0, 0, 0),
            older: Vec::with_capacity(alloc, FRAME_LIMIT)?,
        })
    }

    /// Begins a function, at its first instruction, which stands below 2^31: its frame is the only one.
    /// It gets the argument, if there is one, and nil for each that is missing; its locals are nil.
    pub fn begin(&mut self, method: u32, locals: u16, argument: Option<Holder>, missing: u16)
        requires method { method + 10 < 2 ^ 31 }
        requires room { length (option_to_list argument) + missing + locals < room }
        ensures { self.new ≡ record {
          newest = called (function method 0) locals missing (option_to_list argument);
          older = [];
        } }
    {
        self.older.clear();
        self.values.clear();
        push_nils(&mut self.values, missing);
        push_some(&mut self.values, argument);
        let function = Call::function(method, 0);
        self.newest = FrameMark::called(function, count_of(argument), missing, locals);
        push_nils(&mut self.values, locals);
        self.base = self.values.len();
    }

    /// Whether a method with so many locals may be called: one frame more is within the limit, and so
    /// are its locals and one value, where the frames hold `more` values besides. Those are its
    /// arguments that are no operands: what is laid, and the missing ones.
    #[inline(always)]
    pub fn has_room(&self, more: u16, locals: u16) -> bool
        ensures { result ≡ has_room (length self.now.older + 1) (values self.now + more) locals }
    {
        self.older.len() + 1 < FRAME_LIMIT
            && self.values.len() + usize::from(more) + usize::from(locals) < VALUE_LIMIT
    }

    /// Calls a method that has so many locals, and whose first instruction stands below 2^31. Its
    /// arguments leave the operands, as many as there are at most, and each that is missing is nil. Only
    /// where some are missing is a value moved. It takes no memory.
    pub fn enter(&mut self, call: Call, locals: u16, missing: u16)
        requires method { call.method + 10 < 2 ^ 31 }
        requires frames { length self.old.older + 1 < frame_limit }
        requires room { values self.old + length (option_to_list call.laid) + missing + locals
            < room }
        ensures { self.new ≡ enters call locals missing self.old }
    {
        let operands = self.values.len() - self.base;
        let arguments = usize::from(call.count).min(operands);
        self.older.push_reserved(OlderMark {
            mark: self.newest,
            operands: operands - arguments,
        });
        push_nils_below(&mut self.values, arguments, missing);
        push_some(&mut self.values, call.laid);
        let given = count_of(call.laid) + arguments;
        self.newest = FrameMark::called(call, given, missing, locals);
        push_nils(&mut self.values, locals);
        self.base = self.values.len();
    }

    /// Takes the newest frame away with its values, and answers whether it had a caller, which is then
    /// the newest. Without one nothing changes.
    pub fn leave(&mut self) -> bool
        ensures { HasLeft self.old result self.new }
    {
        let Some(caller) = self.older.pop() else {
            return false;
        };
        let left = self.base - self.newest.locals - self.newest.arguments;
        self.values.truncate(left);
        self.base = left - caller.operands;
        self.newest = caller.mark;
        true
    }

    /// Whether the frames hold as many values as they may.
    #[inline(always)]
    pub fn is_full(&self) -> bool
        ensures { result ≡ nat_le value_limit (values self.now) }
    {
        self.values.len() >= VALUE_LIMIT
    }

    /// Whether the frames may hold so many values more.
    #[inline(always)]
    pub fn may_hold(&self, count: u16) -> bool
        ensures { result ≡ nat_le (values self.now + count) value_limit }
    {
        self.values.len() + usize::from(count) <= VALUE_LIMIT
    }

    /// Whether there are so many operands.
    #[inline(always)]
    pub fn has_operands(&self, count: u32) -> bool
        ensures { result ≡ nat_le count (length self.now.newest.operands) }
    {
        self.base + count as usize <= self.values.len()
    }

    /// The topmost operand. `None` exactly where there is none.
    #[inline(always)]
    pub fn top(&self) -> Option<Holder>
        ensures { HasTop self.now result }
    {
        if self.values.len() <= self.base {
            return None;
        }
        Some(self.values[self.values.len() - 1])
    }

    /// Takes the topmost operand off. `None` exactly where there is none.
    #[inline(always)]
    pub fn pop(&mut self) -> Option<Holder>
        ensures pops { Pops self.old result self.new }
        ensures room { IsSome result → values self.new < room }
    {
        if self.values.len() <= self.base {
            return None;
        }
        self.values.pop()
    }

    /// Takes the two topmost operands off, and gives the topmost first. `None` exactly where there are fewer, and
    /// then all stay.
    #[inline(always)]
    pub fn pop_two(&mut self) -> Option<(Holder, Holder)>
        ensures pops { PopsTwo self.old result self.new }
        ensures room { IsSome result → values self.new + 1 < room }
    {
        if !self.has_operands(2) {
            return None;
        }
        let upper = self.pop()?;
        let lower = self.pop()?;
        Some((upper, lower))
    }

    /// Puts an operand on top, where there is room for a value more.
    #[inline(always)]
    pub fn push(&mut self, value: Holder)
        requires { values self.old < room }
        ensures { self.new ≡ of_newest (with_operands (value ∷ self.old.newest.operands)) self.old }
    {
        self.values.push_reserved(value);
    }

    /// Drops the topmost operands, so many, or as many as there are.
    pub fn drop_operands(&mut self, count: u16)
        ensures { self.new ≡ of_newest (with_operands (drop count self.old.newest.operands)) self.old }
    {
        let dropped = usize::from(count).min(self.values.len() - self.base);
        self.values.truncate(self.values.len() - dropped);
    }

    /// Drops all operands.
    pub fn clear_operands(&mut self)
        ensures cleared { self.new ≡ of_newest (with_operands []) self.old }
        ensures room { values self.new < room }
    {
        self.values.truncate(self.base);
    }

    /// Turns the topmost operands over, so many, or as many as there are: the topmost goes below the others. It
    /// takes no memory.
    pub fn turn_operands(&mut self, count: u16)
        ensures { self.new ≡ of_newest (with_operands (turned count self.old.newest.operands)) self.old }
    {
        let count = usize::from(count).min(self.values.len() - self.base);
        let at = self.values.len() - count;
        self.values[at..].reverse();
    }

    /// The topmost operands, so many, or as many as there are. The topmost stands last.
    pub fn topmost(&self, count: u16) -> &[Holder]
        ensures { reverse result.now ≡ take count self.now.newest.operands }
    {
        let shown = usize::from(count).min(self.values.len() - self.base);
        &self.values[self.values.len() - shown..]
    }

    /// The local variable of a number, from 0. `None` exactly where the frame has no such.
    #[inline(always)]
    pub fn local(&self, n: u16) -> Option<Holder>
        ensures { result ≡ slice_get self.now.newest.locals n }
    {
        if usize::from(n) >= self.newest.locals {
            return None;
        }
        Some(self.values[self.base - 1 - usize::from(n)])
    }

    /// Sets the local variable of a number, from 0, where the frame has such.
    #[inline(always)]
    pub fn set_local(&mut self, n: u16, value: Holder)
        ensures { self.new ≡ of_newest (with_local n value) self.old }
    {
        if usize::from(n) < self.newest.locals {
            self.values[self.base - 1 - usize::from(n)] = value;
        }
    }

    /// The argument of a number, from 0. `None` exactly where the frame has no such.
    #[inline(always)]
    pub fn argument(&self, n: u16) -> Option<Holder>
        ensures { result ≡ slice_get self.now.newest.arguments n }
    {
        if usize::from(n) >= self.newest.arguments {
            return None;
        }
        Some(self.values[self.base - 1 - (self.newest.locals + usize::from(n))])
    }

    /// Sets the argument of a number, from 0, where the frame has such.
    #[inline(always)]
    pub fn set_argument(&mut self, n: u16, value: Holder)
        ensures { self.new ≡ of_newest (with_argument n value) self.old }
    {
        if usize::from(n) < self.newest.arguments {
            self.values[self.base - 1 - (self.newest.locals + usize::from(n))] = value;
        }
    }
}
