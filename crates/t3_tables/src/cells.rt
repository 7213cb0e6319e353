//! One cell of a table.
ghost use Rattle.std.specs.Prelude.{◌≡◌, IsTrue};
ghost use Rattle.t3_undo.specs.Content.{shown, is_form};
ghost use Rattle.t3_undo.specs.declared.cell.Cell.TheVariants.{Default};
ghost use Rattle.t3_undo.specs.declared.content.Content.TheVariants.{Held};
ghost use Rattle.t3_tables.specs.Table.{tick_after};

use std::mem;
use t3_holder::Holder;
use t3_undo::{Cell, Content};

/// Sets a default, and hands out what stood there.
pub(crate) fn exchange_default(default: &mut Holder, content: Content) -> Content
    requires { IsTrue (is_form Default (shown content)) }
    ensures new { shown (Held default.new) ≡ shown content }
    ensures old { result ≡ Held default.old }
{
    match content {
        Content::Held(value) => Content::Held(mem::replace(default, value)),
        _ => Content::Absent,
    }
}

/// The next tick behind a content that is put.
pub(crate) fn tick_after(next_tick: u64, cell: &Cell, content: &Content) -> u64
    requires { IsTrue (is_form cell.now (shown content.now)) }
    ensures { result ≡ tick_after next_tick (shown content.now) }
{
    match content {
        Content::Slot(tick, _) => next_tick.max(*tick + 1),
        _ => next_tick,
    }
}
