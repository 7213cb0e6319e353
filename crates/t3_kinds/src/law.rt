//! Laws about what the definitions say.
ghost use Rattle.std.specs.Prelude.{◌≡◌, List, ℕ};
ghost use Rattle.t3_tadsobj.specs.Order.{IsAcyclicFrom, IsLinearOrder};
ghost use Rattle.t3_store.specs.Store.{StoreValue};
ghost use Rattle.t3_store.specs.Whole.{supers_of_live};
ghost use Rattle.t3_kinds.specs.Search.{order_of};
ghost use Rattle.t3_kinds.specs.TextMethods.{HasCharacters};

/// A text in UTF-8 has as many characters as it has code points, and it is cut before each of them and
/// after each.
pub fn character_law()
    ensures { (points : List ℕ) → HasCharacters points }
{}

/// The order in which an object and its superclasses are searched is the one that there is, where no walk over
/// superclasses comes back. In a store none does (`Store::kind`).
pub fn search_order()
    ensures is { (store : StoreValue) (number : ℕ) → IsAcyclicFrom (supers_of_live store) number
        → IsLinearOrder (supers_of_live store) number (order_of store number) }
    ensures one { (store : StoreValue) (number : ℕ) (order : List ℕ)
        → IsAcyclicFrom (supers_of_live store) number
        → IsLinearOrder (supers_of_live store) number order → order ≡ order_of store number }
{}
