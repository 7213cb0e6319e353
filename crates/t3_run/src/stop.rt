use t3_interp::End;

/// Why a run stops.
#[derive(Clone, Copy, Debug, PartialEq, Eq)]
pub enum Stop {
    /// It has ended by itself.
    Ends(End),
    /// It may make no step more.
    NoStep,
    /// A line is wanted that the first 16,777,216 bytes of the input don't end, and the input has so many.
    NoLine,
}

/// How a run ends.
#[derive(Clone, Copy, Debug, PartialEq, Eq)]
pub struct RunEnd {
    /// Why it stops.
    pub stop: Stop,
    /// How many steps were made.
    pub steps: u64,
    /// How many savepoints are held then.
    pub held: u32,
    /// How many cells of objects were changed first since one of them, together.
    pub records: u32,
}
