ghost use Rattle.t3_tables.specs.Order.{NewComesLast, PresentKeepsPlace, OthersStay, OldStandsWhereItStood, DefaultIsApart};

/// What a change of one cell does to the order of the entries: a new key with a tick above all others comes
/// last, a present key keeps its place, one that is taken away leaves the others in their order, and old
/// contents that are put back stand where they stood.
pub fn entry_order()
    ensures last { NewComesLast }
    ensures kept { PresentKeepsPlace }
    ensures away { OthersStay }
    ensures back { OldStandsWhereItStood }
    ensures default { DefaultIsApart }
{}
