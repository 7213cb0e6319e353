//! The machine: a program, and the state of its run.
ghost use Rattle.std.specs.Prelude.{◌≡◌, ◌+◌, ◌<◌, ◌≤◌, ◌^◌, IfOk, IsOk, IsErr, length};
ghost use Rattle.t3_store.specs.Store.{changed_cells};
ghost use Rattle.t3_snapshot.specs.State.{IsSoundState, trimmed};
ghost use Rattle.t3_interp.specs.declared.event.Event.TheVariants.{Went};
ghost use Rattle.t3_interp.specs.declared.event.Want.TheVariants.{Go};
ghost use Rattle.t3_interp.specs.Machine.{initial};
ghost use Rattle.t3_interp.specs.Step.{StepsBy, IsWanted, Goes};
ghost use Rattle.t3_interp.specs.View.{state_of};
ghost use Rattle.t3_interp.specs.Steady.{IsSteady, LacksMemory};
ghost use Rattle.t3_interp.specs.Wanting.{IsNamed};
ghost use Rattle.t3_interp.specs.Inner.Acting.{IsBetweenSteps, IsGoodRun};

use crate::decode_cache::DecodeCache;
use crate::event::{Event, Input, Want};
use crate::running::{Awaited, Running, Stage};
use std::alloc::Global;
use std::marker::Model;
use t3_frame_instructions::Core;
use t3_frames::{Call, Frames};
use t3_holder::{Holder, NoMemory};
use t3_load::Program;
use t3_store::Store;

/// A program, and how far its run has come. Contracts see both.
#[derive(Drop)]
pub struct Machine {
    /// Behind one pointer, since a machine is handed on at each call.
    whole: Box<Whole>,
}

#[derive(Drop)]
pub(crate) struct Whole {
    alloc: Global,
    program: Program,
    /// Instructions of the program. No contract sees it.
    cache: DecodeCache,
    running: Running,
}

impl Model for Machine {
    ghost use Rattle.t3_interp.specs.Machine.{MachineValue};

    ghost Value = { MachineValue };

    ghost use Rattle.std.specs.Coded.{codes};
    ghost use Rattle.t3_pools.specs.Pool.{coded_pools};
    ghost use Rattle.t3_store.specs.Value.{coded_objects};
    ghost use Rattle.t3_interp.specs.Machine.{coded_store};

    ghost coded = { Prim.hlevel (codes, coded_pools, coded_objects, coded_store) };

    ghost use Rattle.std.specs.Prelude.{◌≤◌, ◌+◌};
    ghost use Rattle.t3_interp.specs.View.{state_of};

    ghost view = { λ m. record { program = m.whole.value.program; state = state_of m.whole.value.running } };

    ghost use Rattle.t3_interp.specs.Inner.Acting.{IsBetweenSteps, IsGoodRun};
    ghost use Rattle.t3_interp.specs.Inner.DecodeCache.{IsCacheOf};

    ghost invariant = { λ m. IsBetweenSteps m.whole.value.running
        × IsCacheOf m.whole.value.program.pools.code m.whole.value.cache
        × IsGoodRun m.whole.value.program m.whole.value.running };
}

impl Machine {
    /// A machine that hasn't made a step. It takes all the room that the values of a run may want, and that of
    /// the instructions that it keeps decoded, and copies the objects of the program.
    pub fn start(alloc: Global, program: Program) -> Result<Machine, NoMemory>
        ensures program { IfOk result (λ machine. machine.program ≡ program) }
        ensures state { IfOk result (λ machine. machine.state ≡ initial program) }
    {
        let cache = DecodeCache::new(alloc)?;
        let running = begin(alloc, &program)?;
        Ok(Machine {
            whole: Box::new(
                alloc,
                Whole {
                    alloc,
                    program,
                    cache,
                    running,
                },
            )?,
        })
    }

    /// What the machine wants next.
    pub fn wants(&self) -> Want
        ensures { result ≡ self.now.state.wants }
    {
        match self.whole.running.stage {
            Stage::Entry | Stage::Method => Want::Go,
            Stage::Waits => match self.whole.running.awaited {
                Awaited::Line => Want::Line,
                Awaited::Stored => Want::Stored,
                Awaited::File => Want::File,
            },
            Stage::Over => Want::Nothing,
        }
    }

    /// What is saved of the persistent objects is a sound state.
    pub(crate) fn can_be_saved(&self)
        ensures { IsSoundState (trimmed self.now.state.store.persistent) self.now.state.store.next }
    {
        // What the store tells of its objects is known once it is asked.
        let store = &self.whole.running.core.store;
        let _ = (store.objects(), store.units());
    }

    /// The image's SHA-256.
    pub(crate) fn fingerprint(&self) -> &[u8; 32]
        ensures { result.now ≡ self.now.program.fingerprint }
    {
        &self.whole.program.fingerprint
    }

    /// How many savepoints are held: at most as many as the program's limits say.
    pub fn held(&self) -> u32
        ensures held { result ≡ length self.now.state.store.marks }
        ensures bound { result ≤ self.now.program.limits.savepoints }
    {
        self.whole.running.core.store.held()
    }

    /// How many cells of objects were changed first since one of them, together: at most as many as the program's limits
    /// say.
    pub fn records(&self) -> u32
        ensures records { result ≡ changed_cells self.now.state.store.marks }
        ensures bound { result ≤ self.now.program.limits.records }
    {
        self.whole.running.core.store.records()
    }

    /// How many steps were made.
    pub fn steps(&self) -> u64
        ensures { result ≡ self.now.state.steps }
    {
        self.whole.running.steps
    }

    /// Moves on by what the machine wants, which has to be what it is given. `Go` makes a step: it calls the
    /// entry method at first, and then carries out an instruction. Any other input finishes the instruction that
    /// waits, which isn't counted as a step again: a line, or that none is left; that a file was put; a file, whose
    /// state takes the place of the persistent objects where it is one of this image, or that there is none. A
    /// file that is wanted has a name that files may have. Fewer than 2^40 steps were made. Want of
    /// memory takes the machine with it. It doesn't come where the instruction makes a savepoint, undoes to
    /// one, or sets a property or a vector's element that is present.
    pub fn step(mut self, input: Input) -> Result<(Machine, Event), NoMemory>
        requires wants { IsWanted self.state.wants input }
        requires few { self.state.steps < 2 ^ 40 }
        ensures program { IfOk result (λ stepped. stepped.0.program ≡ self.program) }
        ensures step { IfOk result (λ stepped. StepsBy self.program input self.state
            (record { state = stepped.0.state; event = stepped.1 })) }
        ensures named { IfOk result (λ stepped. IsNamed stepped.1) }
        ensures steady { IsSteady self.program self.state input → IsOk result }
    {
        let whole = &mut *self.whole;
        whole
            .running
            .take(whole.alloc, &whole.program, &mut whole.cache, input)?;
        let event = whole.running.take_event();
        Ok((self, event))
    }

    /// Makes steps up to the first that says a text, be it empty, wants a line, a file or that one be put, or ends the run,
    /// and `most` at most. Gives how many were made, and what the last did. The run may not have ended, and as many steps as may be made here don't take
    /// it past 2^40. Want of memory takes the machine with it, and comes at a step that may take some.
    pub fn go(mut self, most: u32) -> Result<(Machine, u32, Event), NoMemory>
        requires wants { self.state.wants ≡ Go }
        requires few { self.state.steps + most ≤ 2 ^ 40 }
        ensures program { IfOk result (λ gone. gone.0.program ≡ self.program) }
        ensures goes { IfOk result (λ gone. Goes self.program gone.1 self.state
            (record { state = gone.0.state; event = gone.2 })) }
        ensures bound { IfOk result (λ gone. gone.1 ≤ most) }
        ensures all { IfOk result (λ gone. gone.2 ≡ Went → gone.1 ≡ most) }
        ensures named { IfOk result (λ gone. IsNamed gone.2) }
        ensures steady { IsErr result → LacksMemory self.program most self.state }
    {
        let whole = &mut *self.whole;
        let made = whole
            .running
            .go(whole.alloc, &whole.program, &mut whole.cache, most)?;
        let event = whole.running.take_event();
        Ok((self, made, event))
    }
}

/// The number of the pool of code.
const CODE: u8 = 1;

/// The number of the pool of constants.
const CONSTANTS: u8 = 2;

/// The state before the first step.
fn begin(alloc: Global, program: &Program) -> Result<Running, NoMemory>
    ensures state { IfOk result (λ running. state_of running ≡ initial program.now) }
    ensures between { IfOk result IsBetweenSteps }
    ensures good { IfOk result (IsGoodRun program.now) }
{
    // These calls tell which bytes code and constants have, and which numbers a store's objects.
    let _ = program.pools.run(CODE, 0x7FFF_FFFF);
    let _ = program.pools.run(CONSTANTS, 0);
    let first = program.first.copy(alloc)?;
    let passing = program.passing.copy(alloc)?;
    let store = Store::start(alloc, program.limits, first, passing, program.next)?;
    let _ = store.next();
    Ok(Running {
        core: Core {
            frames: Frames::new(alloc)?,
            register: Holder::Nil,
            store,
            say: None,
            call: Call::function(0, 0),
        },
        stage: Stage::Entry,
        awaited: Awaited::Line,
        steps: 0,
        event: Event::Went,
    })
}
