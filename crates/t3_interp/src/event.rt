//! What steps do, what they want, and how a run ends.
use t3_frame_instructions::CodeWhy;
use t3_holder::Bytes;
use t3_ops::Fault;

/// How a run ends by itself.
#[derive(Clone, Copy, Debug, PartialEq, Eq)]
pub enum End {
    /// The entry method returned.
    Returned,
    /// An object was thrown, and nothing caught it: by this fault, of which it is the exception, or by an
    /// instruction.
    Unhandled { object: u32, fault: Option<Fault> },
    /// At an address of code nothing could be carried out.
    BadCode { at: u32, why: CodeWhy },
    /// The store had no room for an object, a property, an element or an entry.
    StoreFull,
}

/// What a step did.
#[derive(Debug, Drop)]
pub enum Event {
    /// It went on, and said nothing.
    Went,
    /// It said a text, which may be empty.
    Said(Bytes),
    /// It wants a line of input, by which its instruction is finished.
    WantLine,
    /// It wants a saved state to be put into the file of this name, and to be told that it is stored.
    WantPut(Bytes, Bytes),
    /// It wants the file of this name, or to be told that there is none.
    WantGet(Bytes),
    /// It ended the run.
    Ended(End),
}

/// What a machine wants next.
#[derive(Clone, Copy, Debug, PartialEq, Eq)]
pub enum Want {
    /// To make a step.
    Go,
    /// A line of input, or to be told that none is left.
    Line,
    /// To be told that a file is stored.
    Stored,
    /// A file, or to be told that there is none.
    File,
    /// Nothing: the run has ended.
    Nothing,
}

/// What a machine is given.
#[derive(Debug, Drop)]
pub enum Input {
    /// To make a step.
    Go,
    /// A line of input, which is UTF-8, without its newline.
    Line(Bytes),
    /// That no line of input is left.
    EndOfInput,
    /// That the file is stored.
    Stored,
    /// The bytes of the file.
    File(Bytes),
    /// That there is no such file.
    NoFile,
}
