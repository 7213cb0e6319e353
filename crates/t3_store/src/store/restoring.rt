//! Whether a state can take the place of the persistent objects, and putting it there.
ghost use Rattle.std.specs.Prelude.{◌≡◌, ◌+◌, ◌≤◌, ◌^◌, ◌↔◌, [], max, vec_capacity};
ghost use Rattle.t3_store.specs.Value.{units_in};
ghost use Rattle.t3_store.specs.Store.{AreBelow, admit_of, is_past_limits, replaced};
ghost use Rattle.t3_store.specs.Whole.{AreApart, IsWhole, supers_in};

use crate::admit::Admit;
use crate::persistent::Persistent;
use crate::store::Store;
use t3_undo::Journal;

impl Store {
    /// Whether a state can take the place of the persistent objects: `Clash` exactly where one of its numbers is
    /// a transient object's here, and else `Full` exactly where its objects and the transient ones, or their
    /// units, are together more than the limits say.
    pub fn admits(&self, state: &Persistent) -> Admit
        ensures admit { result ≡ admit_of state.now self.now.store }
        ensures clash { (result ≡ Admit.Clash) ↔ ¬ AreApart state.now self.now.store.transient }
    {
        if state.meets(&self.transient) {
            return Admit::Clash;
        }
        if self.is_past_limits(state) {
            return Admit::Full;
        }
        Admit::Fits
    }

    /// Whether a state and the transient objects are together more than the limits say.
    fn is_past_limits(&self, state: &Persistent) -> bool
        ensures { result ≡ is_past_limits state.now self.now.store }
    {
        let objects = state.len() + self.transient.len();
        let units = u64::from(state.units()) + u64::from(self.transient.units());
        objects > u64::from(self.limits.objects) || units > u64::from(self.limits.units)
    }

    /// Puts a state in place of all persistent objects, and gives up all savepoints. Transient objects stay. The
    /// next persistent number is the greater of the store's and this one. No memory is taken.
    ///
    /// The state is one that the store [`admits`](Store::admits). Each superclass in it is one of its tads-objects,
    /// none of which is its own ancestor, as [`Persistent::first_broken`] tests. Its numbers are below `next`, which
    /// is at most 2^31.
    pub fn replace(&mut self, state: Persistent, next: u32)
        requires fits { admit_of state self.old.store ≡ Admit.Fits }
        requires whole { IsWhole (supers_in state) }
        requires below { AreBelow next state }
        requires next { next ≤ 2 ^ 31 }
        ensures store { self.new ≡ record self.old {
          store = replaced state next self.old.store;
          writes = max self.old.writes (units_in state);
        } }
        ensures few { self.new.writes ≤ self.old.writes + 2 ^ 22 }
    {
        let persistent = state.into_map();
        // A table of the state has a tick for each of its entries.
        self.writes = self.writes.max(u64::from(persistent.units()));
        self.next = self.next.max(next);
        self.persistent = persistent;
        give_up(&mut self.journal, &mut self.units);
    }
}

/// Gives up all savepoints, with their records and their units.
fn give_up(journal: &mut Journal, units: &mut Vec<u32>)
    ensures journal { journal.new ≡ record journal.old { segments = [] } }
    ensures units { units.new.items ≡ [] }
    ensures room { vec_capacity units.new ≡ vec_capacity units.old }
{
    journal.clear();
    units.clear();
}
