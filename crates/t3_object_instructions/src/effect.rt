//! What an instruction asks for that makes an object, throws, says a text, or saves, restores or restarts.
use t3_frame_instructions::Quiet;
use t3_holder::Bytes;

/// What an instruction asks for that makes, throws, may say a text, or calls a built-in function.
#[derive(Debug, Drop)]
pub enum MakeEffect {
    Quiet(Quiet),
    /// To say a text to the console, and go on.
    Say(Bytes),
    /// To save the persistent objects in the file of this name, by which the instruction is finished.
    Save(Bytes),
    /// To be given the file of this name, by which the instruction is finished: a saved state takes the place of the
    /// persistent objects.
    Restore(Bytes),
    /// To put the image's persistent objects in place of those that there are, and go on.
    Restart,
}
