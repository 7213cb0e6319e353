ghost use Rattle.std.specs.Prelude.{◌≡◌, is_some};

use crate::optional_holder::OptionalHolder;
use std::marker::Model;
use t3_holder::Holder;

/// A stamp, and a value or none, in 16 bytes: the place of a property or an element. Contracts see both.
#[derive(Clone, Copy)]
pub struct StampedValue {
    stamp: u64,
    holder: OptionalHolder,
}

impl Model for StampedValue {
    ghost use Rattle.t3_undo.specs.StampedValue.{ValuePlace, coded_value_place};
    ghost use Rattle.t3_undo.specs.Inner.OptionalHolder.{holder_of, optional_of, optional_of-holder_of};

    ghost Value = { ValuePlace };

    ghost coded = { coded_value_place };

    ghost view = { λ p. record { stamp = p.stamp; value = holder_of p.holder } };

    ghost inverse = { λ v. record { stamp = v.stamp; holder = optional_of v.value } };

    ghost inverse_ok = { λ p h i. record { stamp = p.stamp; holder = optional_of-holder_of p.holder i } };
}

impl StampedValue {
    #[inline(always)]
    pub fn new(stamp: u64, value: Option<Holder>) -> StampedValue
        ensures { result ≡ record { stamp = stamp; value = value } }
    {
        StampedValue {
            stamp,
            holder: OptionalHolder::of(value),
        }
    }

    #[inline(always)]
    pub fn stamp(&self) -> u64
        ensures { result ≡ self.now.stamp }
    {
        self.stamp
    }

    #[inline(always)]
    pub fn value(&self) -> Option<Holder>
        ensures { result ≡ self.now.value }
    {
        self.holder.holder()
    }

    /// Whether there is a value.
    #[inline(always)]
    pub fn is_present(&self) -> bool
        ensures { result ≡ is_some self.now.value }
    {
        self.value().is_some()
    }

    #[inline(always)]
    pub fn set_stamp(&mut self, stamp: u64)
        ensures { self.new ≡ record self.old { stamp = stamp } }
    {
        self.stamp = stamp;
    }

    /// Sets the value, and hands out what was there.
    #[inline(always)]
    pub fn replace(&mut self, value: Option<Holder>) -> Option<Holder>
        ensures set { self.new ≡ record self.old { value = value } }
        ensures old { result ≡ self.old.value }
    {
        let old = self.holder.holder();
        self.holder = OptionalHolder::of(value);
        old
    }
}
