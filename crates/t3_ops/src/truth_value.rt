//! Which values are true.
ghost use Rattle.std.specs.Prelude.{◌≡◌};
ghost use Rattle.t3_ops.specs.Truth.{truth_of};

use t3_holder::Holder;

/// Whether a value is true: all are but nil and the integer 0. It takes no memory.
pub fn truth(value: Holder) -> bool
    ensures { result ≡ truth_of value }
{
    !matches!(value, Holder::Nil | Holder::Int(0))
}
