//! How many units the persistent objects counted at each savepoint, the newest last.
ghost use Rattle.std.specs.Prelude.{◌≡◌, ◌-◌, ◌<◌, ◌≤◌, ◌∷◌, take, reverse, length, vec_len, vec_capacity};

/// Adds the units of a further savepoint. Where there are as many as the limit says, the oldest go first.
pub(crate) fn push_units(units: &mut Vec<u32>, limit: u32, count: u32)
    requires some { 0 < limit }
    requires few { length units.old.items ≤ limit }
    requires room { limit ≤ vec_capacity units.old }
    ensures units { reverse units.new.items ≡ count ∷ take (limit - 1) (reverse units.old.items) }
    ensures few { length units.new.items ≤ limit }
    ensures room { vec_capacity units.new ≡ vec_capacity units.old }
{
    if units.len() == limit as usize {
        let _oldest = units.remove(0);
    }
    units.push_reserved(count);
}

/// Takes the units of the newest savepoint off.
pub(crate) fn pop_units(units: &mut Vec<u32>) -> u32
    requires { 0 < length units.old.items }
    ensures units { reverse units.old.items ≡ result ∷ reverse units.new.items }
    ensures few { length units.new.items ≤ length units.old.items }
    ensures room { vec_capacity units.new ≡ vec_capacity units.old }
{
    units.pop().unwrap()
}
