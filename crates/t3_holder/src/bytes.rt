use std::marker::Model;

/// A list of bytes that owns its memory. Contracts see the list.
///
/// It is made from a `Vec`, and gives it back, without memory.
#[derive(Debug, Drop)]
pub struct Bytes(pub Vec<u8>);

impl Model for Bytes {
    ghost use Rattle.std.specs.Prelude.{List, ℕ};

    ghost Value = { List ℕ };

    ghost view = { λ b. b.0.items };
}
