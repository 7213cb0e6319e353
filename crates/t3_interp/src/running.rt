//! What changes from step to step.
ghost use Rattle.std.specs.Prelude.{◌≡◌};
ghost use Rattle.t3_interp.specs.declared.event.Event.TheVariants.{Went};

use crate::event::Event;
use std::mem;
use t3_frame_instructions::Core;

/// How far a run has come.
#[derive(Clone, Copy, Debug)]
pub(crate) enum Stage {
    /// The entry method is to be called.
    Entry,
    /// A method is carried out.
    Method,
    /// The newest method's instruction waits for an input.
    Waits,
    /// The run has ended.
    Over,
}

/// What an instruction waits for.
#[derive(Clone, Copy, Debug)]
pub(crate) enum Awaited {
    /// A line of input.
    Line,
    /// That a file is stored.
    Stored,
    /// A file.
    File,
}

/// What changes from step to step. Contracts see a state by `state_of`.
#[derive(Drop)]
pub(crate) struct Running {
    /// Its frames count while a method is carried out.
    pub(crate) core: Core,
    pub(crate) stage: Stage,
    /// What the newest method's instruction waits for, where it does.
    pub(crate) awaited: Awaited,
    pub(crate) steps: u64,
    /// What the step that is made tells. It lies here so that a step that tells nothing moves none of it.
    pub(crate) event: Event,
}

impl Running {
    /// Hands out what the last step told.
    pub(crate) fn take_event(&mut self) -> Event
        ensures event { result ≡ self.old.event }
        ensures rest { self.new ≡ record self.old { event = Went } }
    {
        mem::replace(&mut self.event, Event::Went)
    }
}
