//! Laws of saved states.
ghost use Rattle.std.specs.Prelude.{◌≡◌, ◌≤◌, ◌^◌, ◌⊎◌, ℕ, List, Some, length};
ghost use Rattle.std.specs.FinMap.{get, len};
ghost use Rattle.t3_holder.specs.NumberText.{AreBytes};
ghost use Rattle.t3_store.specs.Distinct.{HasDistinctEntries};
ghost use Rattle.t3_store.specs.Value.{Value, Objects, units_in, HasFittingLength};
ghost use Rattle.t3_store.specs.Whole.{IsWhole, supers_in};
ghost use Rattle.t3_snapshot.specs.Good.{AreGoodObjects, HasGoodParts};
ghost use Rattle.t3_snapshot.specs.Layout.{IsGoodHolder};
ghost use Rattle.t3_snapshot.specs.Refusal.{IsRefused};
ghost use Rattle.t3_snapshot.specs.Savable.{IsSavable};
ghost use Rattle.t3_snapshot.specs.State.{Version, IsSoundState, Spells, saved, trimmed};
ghost use Rattle.t3_snapshot.specs.declared.refusal.SnapshotRefusal.{SnapshotRefusal as AnyRefusal};

/// The bytes of a sound state, in each version, spell it, and in one version no others do. No bytes spell two
/// states, none are refused by two rules, what spells a state is refused by none, and what spells no state by
/// one. Of a sound state nothing is trimmed, so its bytes are what [`crate::encode`] gives.
pub fn state_text()
    ensures read_back { (version : Version) (state : Objects) (next : ℕ) (fingerprint : List ℕ)
        → length fingerprint ≡ 32 → IsSoundState state next
        → Spells state next fingerprint (saved version state fingerprint next) }
    ensures one_spelling { (state : Objects) (next : ℕ) (fingerprint bytes other : List ℕ)
        → (spells : Spells state next fingerprint bytes)
        → (spells_other : Spells state next fingerprint other)
        → spells.version ≡ spells_other.version → bytes ≡ other }
    ensures one_state { (a b : Objects) (n m : ℕ) (fingerprint bytes : List ℕ)
        → Spells a n fingerprint bytes → Spells b m fingerprint bytes → (a ≡ b) × (n ≡ m) }
    ensures one_refusal { (fingerprint bytes : List ℕ) (why other : AnyRefusal)
        → IsRefused fingerprint bytes why → IsRefused fingerprint bytes other → why ≡ other }
    ensures not_refused { (state : Objects) (next : ℕ) (fingerprint bytes : List ℕ)
        (why : AnyRefusal) → length fingerprint ≡ 32 → Spells state next fingerprint bytes
        → ¬ IsRefused fingerprint bytes why }
    ensures some_answer { (fingerprint bytes : List ℕ) → AreBytes bytes
        → ((state : Objects) × (next : ℕ) × Spells state next fingerprint bytes)
        ⊎ ((why : AnyRefusal) × IsRefused fingerprint bytes why) }
    ensures nothing_trimmed { (state : Objects) (next : ℕ) → IsSoundState state next
        → trimmed state ≡ state }
{}

/// What can be saved is sound once it is trimmed.
pub fn savable_objects()
    ensures { (objects : Objects) (next : ℕ) → IsSavable next objects
        → IsSoundState (trimmed objects) next }
{}

/// Persistent objects whose holders are good can be saved, by what a store knows of them; and the objects of a
/// saved state are such objects.
pub fn good_objects_can_be_saved()
    ensures saved { (objects : Objects) (next : ℕ) → AreGoodObjects IsGoodHolder next objects
        → next ≤ 2 ^ 31 → IsWhole (supers_in objects) → len objects ≤ 1048576
        → units_in objects ≤ 4194304
        → ((number : ℕ) (value : Value) → get objects number ≡ Some value
        → HasFittingLength value × HasDistinctEntries value)
        → IsSavable next objects }
    ensures restored { (objects : Objects) (next : ℕ) → IsSoundState objects next
        → AreGoodObjects IsGoodHolder next objects × (next ≤ 2 ^ 31) }
{}

/// Something that can hold of a holder.
pub trait HolderProperty {
    ghost use Rattle.t3_holder.specs.declared.holder.Holder.{Holder};

    ghost good: { Holder → Type 0 };
}

/// The objects of a saved state whose holders have a property are persistent objects that have it: their
/// numbers and their keys are as such objects have them.
pub fn state_objects_are_good<G: HolderProperty>()
    ensures { (objects : Objects) (next : ℕ) → IsSoundState objects next
        → ((number : ℕ) (value : Value) → get objects number ≡ Some value
        → HasGoodParts G.good value) → AreGoodObjects G.good next objects }
{}
