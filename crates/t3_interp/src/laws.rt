//! Laws about the machine's definitions.
ghost use Rattle.std.specs.Prelude.{◌≡◌, ◌∷◌, ℕ, true, List, map};
ghost use Rattle.t3_holder.specs.declared.holder.Holder.TheVariants.{Nil};
ghost use Rattle.t3_pools.specs.Pool.{Pool};
ghost use Rattle.t3_frames.specs.Frame.{FrameValue};
ghost use Rattle.t3_except.specs.Covering.{covered};
ghost use Rattle.t3_store.specs.Store.{is_held, admit_of, replaced};
ghost use Rattle.t3_store.specs.declared.admit.Admit.TheVariants.{Fits};
ghost use Rattle.t3_snapshot.specs.State.{IsSoundState, trimmed};
ghost use Rattle.t3_load.specs.Loading.{ProgramValue};
ghost use Rattle.t3_interp.specs.Machine.{State, initial};
ghost use Rattle.t3_good_instructions.specs.Contexts.{IsGoodProgram};
ghost use Rattle.t3_interp.specs.declared.event.Input.{Input as AnyInput};
ghost use Rattle.t3_interp.specs.declared.event.Input.TheVariants.{File};
ghost use Rattle.t3_interp.specs.declared.event.Event.TheVariants.{WantPut};
ghost use Rattle.t3_interp.specs.Good.{IsGoodInput, IsGoodState};
ghost use Rattle.t3_interp.specs.Step.{After, StepsBy, IsStateFile, answered, catcher_in, state_bytes};
ghost use Rattle.t3_interp.specs.Undoing.{MakesSavepoint, MakesUndo, MovesOnTo, IsTakenBack};
ghost use Rattle.t3_interp.specs.Catching.{spot_of, covered_from};

use crate::machine::Machine;
use t3_snapshot::HolderProperty;

/// What catches an object in a machine's frames is what [`t3_except::cover`] tells of where they are.
pub fn one_cover()
    ensures { (code : Pool) (classes : List ℕ) (frames : List FrameValue)
        → covered_from (catcher_in code classes frames) ≡ covered code classes (map spot_of frames) }
{}

/// An undo takes back all that was done since the savepoint: of a state whose next step makes a savepoint, and of a
/// later one, to which no step led that made a savepoint or undid to one, and in which a savepoint is still held, an
/// undo leaves exactly the persistent objects of the first state. All else stays as it was in the later one: transient
/// objects, the numbers that are next, the callers' frames and the function by which values are said.
pub fn undo_takes_back()
    ensures { (program : ProgramValue) (first later : State) (marked taken : After) (count : ℕ)
        → MakesSavepoint program first marked → MovesOnTo program count marked.state later
        → MakesUndo program later taken → is_held later.store.marks ≡ true
        → IsTakenBack first later taken.state }
{}

/// Each step, and each input that finishes an instruction, keeps of a state that all of its values have a property, where
/// those of the program have it, and those of an input: so has the state before the first step. A line is UTF-8, and what
/// a file spells of the program's image is objects that have it.
pub fn steps_stay_good<G: HolderProperty>()
    ensures begins { (program : ProgramValue) → IsGoodProgram G.good program
        → IsGoodState G.good (initial program) }
    ensures steps { (program : ProgramValue) (input : AnyInput) (state : State) (after : After)
        → IsGoodProgram G.good program → IsGoodInput G.good program input
        → StepsBy program input state after → IsGoodState G.good state
        → IsGoodState G.good after.state }
{}

/// What a machine would save now is a sound state, whatever steps led to it: its persistent objects, without what refers
/// to objects that aren't there. These are the bytes that it would put into a file, and what it wants put are such bytes.
/// Each state of a program of the same image in which an instruction waits for a file takes them, wherever the objects
/// fit: they take the place of its persistent objects, no savepoint is held any more, and its transient objects, its
/// frames and the function by which values are said stay. What all values of the machine have, those have that the bytes
/// spell.
pub fn saved_states_are_taken<G: HolderProperty>(machine: &Machine, bytes: &[u8])
    requires { bytes.now ≡ state_bytes machine.now.program machine.now.state.store }
    ensures put { (program : ProgramValue) (input : AnyInput) (state : State) (after : After)
        (name stored : List ℕ) → StepsBy program input state after → after.event ≡ WantPut name stored
        → stored ≡ state_bytes program after.state.store }
    ensures sound { IsSoundState (trimmed machine.now.state.store.persistent) machine.now.state.store.next }
    ensures taken { (program : ProgramValue) (state : State) (frame : FrameValue)
        (older : List FrameValue) (after : After) → program.fingerprint ≡ machine.now.program.fingerprint
        → state.frames ≡ frame ∷ older
        → admit_of (trimmed machine.now.state.store.persistent) state.store ≡ Fits
        → StepsBy program (File bytes.now) state after
        → after ≡ answered Nil frame older (record state {
          store =
              replaced (trimmed machine.now.state.store.persistent) machine.now.state.store.next state.store;
        }) }
    ensures good { (program : ProgramValue) → program.fingerprint ≡ machine.now.program.fingerprint
        → IsGoodProgram G.good machine.now.program → IsGoodState G.good machine.now.state
        → IsGoodInput G.good program (File bytes.now) }
{
    machine.can_be_saved();
    is_state_file(bytes, machine.fingerprint());
}

/// Bytes are bytes, and a fingerprint has 32 of them.
fn is_state_file(bytes: &[u8], fingerprint: &[u8; 32])
    ensures { IsStateFile fingerprint.now bytes.now }
{}
