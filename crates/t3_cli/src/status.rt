ghost use Rattle.std.specs.Prelude.{◌≡◌};
ghost use Rattle.t3_cli.specs.Status.{code_of, words_status};

use std::io::ErrorKind;

/// How a call of the program ended. Its code is the exit status of the process.
#[derive(Clone, Copy, Debug, PartialEq, Eq, Hash)]
pub enum Status {
    /// The command was carried out.
    Done = 0,
    /// The words are no command.
    Usage = 1,
    /// The named input file isn't there.
    Absent = 2,
    /// The input file is no image.
    ImageRefused = 3,
    /// The image can't be run.
    LoadRefused = 4,
    /// The run ended by an object that nothing caught.
    Unhandled = 5,
    /// The run came to an instruction or a method that can't be carried out.
    BadCode = 6,
    /// The store of objects had no room.
    StoreFull = 7,
    /// The run had no step left.
    StepLimit = 8,
    /// A line was wanted that the first 16,777,216 bytes of the input don't end, and the input has so many.
    InputLimit = 9,
    /// The source breaks a rule.
    SourceRefused = 10,
    /// The files failed.
    DepotFault = 11,
    /// The console failed.
    ConsoleFault = 12,
    /// An allocation was refused.
    NoMemory = 13,
}

impl Status {
    /// The status of words that the system couldn't hand over, where memory was wanting for them. Any
    /// other error means a word that isn't text. That is no word of any command, so the words are then
    /// carried out as none.
    pub fn of_words_error(kind: ErrorKind) -> Option<Status>
        ensures { result ≡ words_status kind }
    {
        match kind {
            ErrorKind::OutOfMemory => Some(Status::NoMemory),
            _ => None,
        }
    }

    /// The exit status of the process.
    pub fn code(self) -> u8
        ensures { result ≡ code_of self }
    {
        self as u8
    }
}
