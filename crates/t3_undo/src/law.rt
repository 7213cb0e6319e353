ghost use Rattle.t3_undo.specs.UndoLaw.{IsUndoLaw};
ghost use Rattle.t3_undo.specs.Stamps.{IsStampLaw};

/// Records of first changes are as good as whole copies, whatever `S` an object has besides its parts:
/// whatever happens, putting the old contents back in any order, and taking away the objects that were made
/// since, gives the objects as they were at each savepoint.
pub fn undo_law<S>()
    ensures { IsUndoLaw S }
{}

/// A place's stamp is as good as a search of the journal: as long as stamps are right, it is the serial of
/// the newest savepoint exactly where that savepoint has a record of the cell.
pub fn stamp_law()
    ensures { IsStampLaw }
{}
