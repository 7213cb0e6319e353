//! What is done to the values alone.
ghost use Rattle.std.specs.Prelude.{◌≡◌, ◌+◌, ◌-◌, ◌≤◌, ◌++◌, length, replicate, take, drop, vec_len, vec_capacity};
ghost use Rattle.std.specs.Option.{option_to_list};
ghost use Rattle.t3_holder.specs.declared.holder.Holder.TheVariants.{Nil};

use t3_holder::Holder;

/// Puts so many nils on top.
pub(crate) fn push_nils(values: &mut Vec<Holder>, count: u16)
    requires { vec_len values.old + count ≤ vec_capacity values.old }
    ensures items { values.new.items ≡ values.old.items ++ replicate count Nil }
    ensures len { vec_len values.new ≡ vec_len values.old + count }
    ensures room { vec_capacity values.new ≡ vec_capacity values.old }
{
    for _ in 0..count {
        values.push_reserved(Holder::Nil);
    }
}

/// Puts `count` nils below the `above` topmost values.
pub(crate) fn push_nils_below(values: &mut Vec<Holder>, above: usize, count: u16)
    requires above { above ≤ vec_len values.old }
    requires room { vec_len values.old + count ≤ vec_capacity values.old }
    ensures items { values.new.items ≡ take (vec_len values.old - above) values.old.items
        ++ (replicate count Nil ++ drop (vec_len values.old - above) values.old.items) }
    ensures len { vec_len values.new ≡ vec_len values.old + count }
    ensures room { vec_capacity values.new ≡ vec_capacity values.old }
{
    if count == 0 {
        return;
    }
    let at = values.len() - above;
    push_nils(values, count);
    values[at..].rotate_right(usize::from(count));
}

/// Puts a value on top, if there is one.
pub(crate) fn push_some(values: &mut Vec<Holder>, value: Option<Holder>)
    requires { vec_len values.old + length (option_to_list value) ≤ vec_capacity values.old }
    ensures items { values.new.items ≡ values.old.items ++ option_to_list value }
    ensures len { vec_len values.new ≡ vec_len values.old + length (option_to_list value) }
    ensures room { vec_capacity values.new ≡ vec_capacity values.old }
{
    if let Some(value) = value {
        values.push_reserved(value);
    }
}

/// 1 where there is a value, and else 0.
pub(crate) fn count_of(value: Option<Holder>) -> usize
    ensures { result ≡ length (option_to_list value) }
{
    usize::from(value.is_some())
}
