use std::marker::Model;
use t3_holder::Holder;

/// A list of holders that owns its memory. Contracts see the list.
///
/// It is made from a `Vec`, and gives it back, without memory.
#[derive(Debug, Drop)]
pub struct Holders(pub Vec<Holder>);

impl Model for Holders {
    ghost use Rattle.std.specs.Prelude.{List};
    ghost use Rattle.t3_holder.specs.declared.holder.Holder.{Holder};

    ghost Value = { List Holder };

    ghost view = { λ h. h.0.items };
}
