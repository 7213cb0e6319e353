//! The one call that the program makes.
ghost use Rattle.std.specs.Prelude.{◌≡◌, ◌<◌, ◌-◌, ◌^◌, List, ℕ, Option, None, IfSome, map, string_bytes};
ghost use Rattle.t3_io.specs.Files.{Files};
ghost use Rattle.t3_cli.specs.declared.status.Status.{Status as AnyStatus};
ghost use Rattle.t3_words.specs.Command.{CommandValue};
ghost use Rattle.t3_words.specs.Verbs.{command_of};
ghost use Rattle.t3_cli.specs.Lines.{usage_line};
ghost use Rattle.t3_cli.specs.Outcome.{Outcome, IsResult, HoldBytes};
ghost use Rattle.t3_cli.specs.Cause.{Cause};
ghost use Rattle.t3_cli.specs.Top.{CountsFaults, CutsShort, HasExactCause, IsWhole, IsCut, IsShown, MovesSome};

use crate::commands::carry::carry_out;
use crate::console::end_with;
use crate::lines;
use crate::status::Status;
use std::alloc::Global;
use t3_io::{Console, Depot};
use t3_words::Command;

/// Does all that the program does: carries out the command that the words are, over the files of a
/// depot and a console, and answers how that ended.
///
/// `check IMAGE` shows `ok blocks=B bytes=U`, and `show IMAGE` a line for each block before it. `rewrite
/// IN OUT [--mask=N]` puts the image as written anew, its pages under the mask where one is given, and
/// shows `ok bytes=N`; `list IMAGE OUT` does so with a source that assembles to the image, and `asm SOURCE
/// OUT` with the image that a source says, or shows the source's first bad line. `run IMAGE [--steps=N]
/// [--records=N] [--savepoints=N] [--width=N]` runs the image by at most so many steps, holds at most so many
/// savepoints with so many changes, shows what it says on lines of that width, gives it the console's lines of
/// input where it wants them and the depot's files where it restores them, puts its saved states into files, and
/// shows, if it didn't return, how it ended; of an image of which no program is made it shows `load refused RULE`,
/// by the first rule that it breaks. `drill N` makes an image for the number, from 0 to 200, runs it so, and shows
/// `drill actions=A steps=S held=H records=R`.
/// Each that names a file shows that it isn't there, and each but `asm` why it is no image. Words that are no
/// command show how the program is used.
///
/// `DepotFault` and `ConsoleFault` come exactly where that device counted a fault. `NoMemory` is meant
/// for refused allocations, though no clause ties it to them. Each other answer comes with its whole
/// outcome, and exactly for its cause where the call wasn't cut short by one of these three. So where
/// neither device counted a fault and the answer isn't `NoMemory`, the outcome is that of the words. After
/// one of the three a prefix of the right text was shown, and the files are as the puts left them that were
/// done; only after `DepotFault` may the file that was being put be spoiled. Input is taken only where a run
/// wants a line that the bytes taken so far don't end, and when what comes before that line was shown; at most
/// 16,777,216 bytes of it.
pub fn t3_main<D: Depot, C: Console>(
    alloc: Global,
    words: &[String],
    depot: &mut D,
    console: &mut C,
) -> Status
    requires depot { D.faults depot.old < 2 ^ 64 - 1 }
    requires console { C.faults console.old < 2 ^ 64 - 1 }

    // Where the call wasn't cut short, the whole outcome of the words stands: for every image that is run, every input and
    // all options the bytes that are shown, the files that are put and the status are those of a machine that is
    // described apart from the code.
    // Each instruction does what its row says. An undo puts each persistent object back as the newest savepoint's copy
    // has it, and takes away those made since; and a savepoint is lost unasked only oldest first, to a full journal.
    ensures whole { IfSome (D.files depot.old) (λ files. ¬ CutsShort result
        → IsWhole (command_of (map string_bytes words.now)) files (C.session console.old) result (D.files depot.new) (C.session console.new)) }

    // Where it was, what had been done of it.
    ensures cut { IfSome (D.files depot.old) (λ files. CutsShort result
        → IsCut (command_of (map string_bytes words.now)) files (C.session console.old) result (D.files depot.new) (C.session console.new)) }

    // The cause of each answer but those of a failure.
    ensures causes { IfSome (D.files depot.old) (λ files. (status : AnyStatus) → ¬ CutsShort status
        → HasExactCause result status (C.session console.old) (Cause status (command_of (map string_bytes words.now)) files)) }

    // The usage depends on the words alone.
    ensures usage { result ≡ Status.Usage → command_of (map string_bytes words.now) ≡ None }
    ensures usage_shown { command_of (map string_bytes words.now) ≡ None
        → IsShown (C.session console.old) (C.session console.new) usage_line Status.Usage result }

    // Whatever the depot tells, nothing is done to the console but that more is shown, and that a prefix of the input
    // is taken, of 16,777,216 bytes at most.
    ensures moved { MovesSome (C.session console.old) (C.session console.new) }

    // A fault is answered exactly where one was counted.
    ensures depot { CountsFaults (result ≡ Status.DepotFault)
        (D.faults depot.old) (D.faults depot.new) }
    ensures console { CountsFaults (result ≡ Status.ConsoleFault)
        (C.faults console.old) (C.faults console.new) }
{
    match Command::parse(words) {
        None => end_with(console, lines::USAGE, Status::Usage),
        Some(command) => carry_out(alloc, command, depot, console),
    }
}

/// The words give exactly one outcome with any files of bytes and any input.
pub fn one_outcome()
    ensures some { (command : Option CommandValue) (files : Files) (input : List ℕ) → HoldBytes files
        → (outcome : Outcome) × IsResult command files input outcome }
    ensures one { (command : Option CommandValue) (files : Files) (input : List ℕ) (a b : Outcome)
        → IsResult command files input a → IsResult command files input b → a ≡ b }
{}
