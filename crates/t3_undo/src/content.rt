ghost use Rattle.std.specs.Prelude.{◌≡◌, is_some, option_and_then};
ghost use Rattle.t3_undo.specs.Content.{shown};
ghost use Rattle.t3_undo.specs.Present.{value_in};

use t3_holder::Holder;

/// What stands in a cell of an object.
#[derive(Debug, PartialEq, Eq, Drop)]
pub enum Content {
    /// Nothing: the object doesn't have the cell.
    Absent,
    /// The value of a property or an element, or a table's default.
    Held(Holder),
    /// The value of a table's entry behind its tick. Ticks give the order in which entries were added.
    Slot(u64, Holder),
}

impl Content {
    /// Whether there is one.
    pub fn is_present(&self) -> bool
        ensures { result ≡ is_some (shown self.now) }
    {
        !matches!(self, Content::Absent)
    }

    /// The value, without a tick. `None` exactly where the content is absent.
    pub fn value(&self) -> Option<Holder>
        ensures { result ≡ option_and_then value_in (shown self.now) }
    {
        match self {
            Content::Absent => None,
            Content::Held(value) | Content::Slot(_, value) => Some(*value),
        }
    }
}

/// A content like this one.
pub(crate) fn like(content: &Content) -> Content
    ensures { result ≡ content.now }
{
    match content {
        Content::Absent => Content::Absent,
        Content::Held(value) => Content::Held(*value),
        Content::Slot(tick, value) => Content::Slot(*tick, *value),
    }
}
