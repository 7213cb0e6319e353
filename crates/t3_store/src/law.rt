ghost use Rattle.t3_store.specs.CellLaw.{SetsOneCell};
ghost use Rattle.t3_store.specs.Invariant.{IsKeptByCalls};

/// What setting a cell of an object leaves, in any store: that object has the cell set, every other
/// one is as before, and so are the numbers that are given next and the limits.
pub fn cell_law()
    ensures { SetsOneCell }
{}

/// Something that can hold of the value of an object.
pub trait ValueInvariant {
    ghost use Rattle.t3_store.specs.Value.{Value};

    ghost holds: { Value → Type 0 };
}

/// What holds of each value of a store, and of each value that a savepoint's copy has, does so after any call: where
/// it holds of what is made or put in place, and where a cell that is set or taken away keeps it.
pub fn invariant_law<I: ValueInvariant>()
    ensures { IsKeptByCalls I.holds }
{}
