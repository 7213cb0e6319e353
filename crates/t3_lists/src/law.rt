ghost use Rattle.t3_lists.specs.ItemLaw.{HasItsItems, SetsItem, AddsItem, TakesItemAway};

/// What a change of one cell does to the items of a vector in which no element is missing: an element that
/// is present is set anew, one behind the last is added, or the last is taken away.
pub fn item_law()
    ensures items { HasItsItems }
    ensures set { SetsItem }
    ensures added { AddsItem }
    ensures away { TakesItemAway }
{}
