//! What instructions see and change.
use t3_frames::{Call, Frames};
use t3_holder::Holder;
use t3_store::Store;

/// What instructions see and change: the frames of a run, of which an instruction sees the newest alone, the
/// register, the objects, and the function by which values are said.
#[derive(Drop)]
pub struct Core {
    pub frames: Frames,
    /// Where calls answer.
    pub register: Holder,
    pub store: Store,
    /// The function by which values are said, if there is one.
    pub say: Option<u32>,
    /// What is called, where an instruction asks for a call, and else anything. It lies here so that what is
    /// asked for is small, and handed on at no cost.
    pub call: Call,
}
