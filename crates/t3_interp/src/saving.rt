//! Saving the persistent objects, restoring them, and restarting.
ghost use Rattle.std.specs.Prelude.{◌≡◌, ◌≤◌, ◌^◌, IfOk, OnOk};
ghost use Rattle.t3_holder.specs.FileName.{IsFileName};
ghost use Rattle.t3_store.specs.Store.{AreBelow};
ghost use Rattle.t3_store.specs.Whole.{IsWhole, supers_in};
ghost use Rattle.t3_snapshot.specs.Good.{AreGoodObjects};
ghost use Rattle.t3_snapshot.specs.Layout.{IsGoodHolder};
ghost use Rattle.t3_frame_instructions.specs.Acting.{context_of};
ghost use Rattle.t3_frame_instructions.specs.Effect.{Save, Restart};
ghost use Rattle.t3_interp.specs.declared.event.Event.TheVariants.{Went};
ghost use Rattle.t3_interp.specs.declared.running.Stage.TheVariants as stages;
ghost use Rattle.t3_interp.specs.Step.{after_effect, after_replacing, state_bytes as bytes_of_state, ReadsState, TakesFile};
ghost use Rattle.t3_interp.specs.View.{state_of, comes_to};
ghost use Rattle.t3_interp.specs.Wanting.{IsNamed};
ghost use Rattle.t3_interp.specs.Inner.Acting.{HasFewWrites, Tells};

use crate::event::Event;
use crate::running::{Awaited, Running, Stage};
use std::alloc::Global;
use t3_holder::{Bytes, Holder, NoMemory};
use t3_load::Program;
use t3_ops::Fault;
use t3_snapshot::{
    SnapshotRefusal, decode, encode_objects, good_objects_can_be_saved, savable_objects, state_text,
};
use t3_store::{Admit, Persistent, Store};

impl Running {
    /// Tells to put the saved state of the persistent objects into a file, and waits until it is stored.
    #[cold]
    pub(crate) fn save(
        &mut self,
        alloc: Global,
        program: &Program,
        name: Bytes,
    ) -> Result<bool, NoMemory>
        requires stage { self.old.stage ≡ stages.Method }
        requires untold { self.old.event ≡ Went }
        requires name { IsFileName name }
        requires objects { AreGoodObjects IsGoodHolder self.old.core.store.store.next
            self.old.core.store.store.persistent }
        ensures after { OnOk result (comes_to self.new ≡ after_effect program.now
            self.old.core.frames.older self.old.steps (Save name) (context_of self.old.core)) }
        ensures told { IfOk result (Tells self.new) }
        ensures core { self.new.core ≡ self.old.core }
        ensures steps { self.new.steps ≡ self.old.steps }
    {
        let bytes = state_bytes(alloc, program, &self.core.store)?;
        Ok(self.wait(Awaited::Stored, Event::WantPut(name, Bytes(bytes))))
    }

    /// Puts the image's objects in place of the persistent ones, and answers whether something is told.
    #[cold]
    pub(crate) fn restart(&mut self, alloc: Global, program: &Program) -> Result<bool, NoMemory>
        requires stage { self.old.stage ≡ stages.Method }
        requires untold { self.old.event ≡ Went }
        requires few { HasFewWrites self.old }
        ensures after { OnOk result (comes_to self.new ≡ after_effect program.now
            self.old.core.frames.older self.old.steps Restart (context_of self.old.core)) }
        ensures told { IfOk result (Tells self.new) }
        ensures writes { OnOk result (HasFewWrites self.new) }
        ensures savepoints { self.new.core.store.savepoints ≡ self.old.core.store.savepoints }
        ensures steps { self.new.steps ≡ self.old.steps }
    {
        let first = program.first.copy(alloc)?;
        self.replace(alloc, program, first, program.next)
    }

    /// Gives the instruction that waits a file: the state that its bytes spell takes the place of the persistent
    /// objects. `BadSnapshot` where they spell none of this image, and is thrown where it waits.
    pub(crate) fn take_file(
        &mut self,
        alloc: Global,
        program: &Program,
        bytes: &[u8],
    ) -> Result<(), NoMemory>
        requires stage { self.old.stage ≡ stages.Waits }
        requires untold { self.old.event ≡ Went }
        requires few { HasFewWrites self.old }
        ensures after { OnOk result (TakesFile program.now bytes.now (state_of self.old).frames
            (state_of self.old) (comes_to self.new)) }
        ensures named { OnOk result (IsNamed self.new.event) }
        ensures writes { OnOk result (HasFewWrites self.new) }
        ensures savepoints { self.new.core.store.savepoints ≡ self.old.core.store.savepoints }
        ensures steps { self.new.steps ≡ self.old.steps }
    {
        good_objects_can_be_saved();
        self.stage = Stage::Method;
        match read_state(alloc, bytes, &program.fingerprint)? {
            Some((state, next)) => {
                self.replace(alloc, program, state, next)?;
            }
            None => {
                self.fault_here(alloc, program, Fault::BadSnapshot)?;
            }
        }
        Ok(())
    }

    /// Puts a state in place of the persistent objects, where it fits, and goes on behind the instruction.
    /// `BadSnapshot` where one of its objects has the number of a transient one. Answers whether something is
    /// told.
    fn replace(
        &mut self,
        alloc: Global,
        program: &Program,
        state: Persistent,
        next: u32,
    ) -> Result<bool, NoMemory>
        requires stage { self.old.stage ≡ stages.Method }
        requires untold { self.old.event ≡ Went }
        requires few { HasFewWrites self.old }
        requires whole { IsWhole (supers_in state) }
        requires below { AreBelow next state }
        requires next { next ≤ 2 ^ 31 }
        ensures after { OnOk result (comes_to self.new ≡ after_replacing program.now state next
            self.old.core.frames.newest self.old.core.frames.older (state_of self.old)) }
        ensures told { IfOk result (Tells self.new) }
        ensures writes { OnOk result (HasFewWrites self.new) }
        ensures savepoints { self.new.core.store.savepoints ≡ self.old.core.store.savepoints }
        ensures steps { self.new.steps ≡ self.old.steps }
    {
        // That its units are few is known once they are asked for.
        let _ = state.units();
        match self.core.store.admits(&state) {
            Admit::Fits => {
                self.core.store.replace(state, next);
                self.answer(Holder::Nil);
                Ok(false)
            }
            Admit::Clash => self.fault_here(alloc, program, Fault::BadSnapshot),
            Admit::Full => Ok(self.end_full()),
        }
    }
}

/// The state that a file's bytes spell, for the image with this fingerprint, with its next number; or none.
fn read_state(
    alloc: Global,
    bytes: &[u8],
    fingerprint: &[u8; 32],
) -> Result<Option<(Persistent, u32)>, NoMemory>
    ensures { IfOk result (ReadsState fingerprint.now bytes.now) }
{
    // What is refused spells no state.
    state_text();
    match decode(alloc, bytes, fingerprint) {
        Ok(read) => Ok(Some(read)),
        Err(SnapshotRefusal::NoMemory) => Err(NoMemory),
        Err(_) => Ok(None),
    }
}

/// The saved state of the persistent objects, for the program's image.
fn state_bytes(alloc: Global, program: &Program, store: &Store) -> Result<Vec<u8>, NoMemory>
    requires { AreGoodObjects IsGoodHolder store.now.store.next store.now.store.persistent }
    ensures { IfOk result (λ bytes. bytes.items ≡ bytes_of_state program.now store.now.store) }
{
    // What a store knows of its objects, and what holds of their values, makes them a state.
    good_objects_can_be_saved();
    savable_objects();
    let objects = store.persistent_objects();
    encode_objects(alloc, &objects, &program.fingerprint, store.next())
}
