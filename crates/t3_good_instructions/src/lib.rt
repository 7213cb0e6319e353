//! What instructions keep, for any property of holders that all values of a run have: of what an instruction
//! sees and leaves, and of what it asks for.
//!
//! There is no code here: [`instructions_stay_good`] is a law about what the definitions say.
#![tactic(auto)]

mod laws;

pub use laws::instructions_stay_good;
