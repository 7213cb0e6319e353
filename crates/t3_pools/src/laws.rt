//! What holds of constants whatever the code does: each law is the contract of a function that does
//! nothing.
ghost use Rattle.std.specs.Prelude.{◌≡◌, ℕ, List};
ghost use Rattle.t3_pools.specs.Pool.{Pool};
ghost use Rattle.t3_pools.specs.Constants.{HasText, HasHolder, HasList, text_in, holder_in, list_in, IsOfBytes};
ghost use Rattle.t3_holder.specs.declared.holder.Holder.{Holder as AnyHolder};

/// A constant string that stands at an address is the one that is read there, so no other does. In a
/// pool whose bytes fit a byte, one that is read stands there.
pub fn constant_text()
    ensures read { (pool : Pool) (address : ℕ) (text : List ℕ)
        → HasText pool address text → text_in pool address ≡ Some text }
    ensures stands { (pool : Pool) (address : ℕ) (text : List ℕ) → IsOfBytes pool
        → text_in pool address ≡ Some text → HasText pool address text }
{}

/// A holder that stands at an address is the one that is read there, so no other does. In a pool whose
/// bytes fit a byte, one that is read stands there.
pub fn constant_holder()
    ensures read { (pool : Pool) (address : ℕ) (holder : AnyHolder)
        → HasHolder pool address holder → holder_in pool address ≡ Some holder }
    ensures stands { (pool : Pool) (address : ℕ) (holder : AnyHolder) → IsOfBytes pool
        → holder_in pool address ≡ Some holder → HasHolder pool address holder }
{}

/// A constant list that stands at an address is the one that is read there, so no other does. In a pool
/// whose bytes fit a byte, one that is read stands there.
pub fn constant_list()
    ensures read { (pool : Pool) (address : ℕ) (elements : List AnyHolder)
        → HasList pool address elements → list_in pool address ≡ Some elements }
    ensures stands { (pool : Pool) (address : ℕ) (elements : List AnyHolder) → IsOfBytes pool
        → list_in pool address ≡ Some elements → HasList pool address elements }
{}
