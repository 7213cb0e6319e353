//! Laws about what the definitions say.
ghost use Rattle.std.specs.Prelude.{◌≡◌, ◌<◌, ◌≤◌, ◌^◌, ℕ, ℤ, Bool, Option, Some, List, FitsSigned};
ghost use Rattle.std.specs.Int.{w32};
ghost use Rattle.std.specs.List.{AllByRecursion};
ghost use Rattle.t3_holder.specs.declared.holder.Holder.{Holder as AnyHolder};
ghost use Rattle.t3_undo.specs.declared.cell.Cell.{Cell};
ghost use Rattle.t3_pools.specs.Pool.{Pool};
ghost use Rattle.t3_store.specs.Value.{Value, Objects};
ghost use Rattle.t3_store.specs.Store.{StoreValue, started, created_in, written, taken, saved, undone, replaced};
ghost use Rattle.t3_store.specs.declared.limits.StoreLimits.{StoreLimits};
ghost use Rattle.t3_ops.specs.declared.arithmetic.ArithOp.{ArithOp};
ghost use Rattle.t3_ops.specs.Arithmetic.{arith_of};
ghost use Rattle.t3_ops.specs.Adding.{sum_of};
ghost use Rattle.t3_ops.specs.Builtins.{pure_builtin_of};
ghost use Rattle.t3_ops.specs.Creating.{new_string_of, new_list_of, new_vector_of, new_table_of};
ghost use Rattle.t3_ops.specs.Elements.{after_writes, element_writes};
ghost use Rattle.t3_ops.specs.Indexing.{index_of, list_with_element_of};
ghost use Rattle.t3_ops.specs.Keys.{key_of};
ghost use Rattle.t3_kinds.specs.Changes.{Change, changed};
ghost use Rattle.t3_kinds.specs.Methods.{listed_deed};
ghost use Rattle.t3_kinds.specs.declared.methods.Methods.{Methods};
ghost use Rattle.t3_snapshot.specs.Good.{AreGoodObjects};
ghost use Rattle.t3_good_values.specs.Values.{IsClosed, HasGoodConstants, IsGoodNew, IsGoodResult};
ghost use Rattle.t3_good_values.specs.Stores.{ArePassing, IsGoodStore, IsGoodCell, IsGoodKeyIn, IsGoodMade, IsGoodChange, IsGoodDeed};

use t3_snapshot::HolderProperty;

/// What a store keeps of its values, where what it is given has it: where it begins, an object is made, a cell
/// is set or taken away, a savepoint is made, an undo puts its copy back, and a state takes the place of the
/// persistent objects.
pub fn stores_stay_good<G: HolderProperty>()
    ensures starts { (limits : StoreLimits) (first passing : Objects) (next : ℕ)
        → AreGoodObjects G.good next first → ArePassing G.good next (2 ^ 31) passing
        → (0 < next) × (next ≤ 2 ^ 31) → IsGoodStore G.good (started limits first passing next) }
    ensures creates { (value : Value) (transient : Bool) (old new : StoreValue) (number : ℕ)
        → IsClosed G.good → created_in value transient old ≡ Some (number, new)
        → IsGoodNew G.good value → IsGoodStore G.good old
        → IsGoodStore G.good new × G.good (AnyHolder.Obj number) }
    ensures writes { (number : ℕ) (cell : Cell) (value : AnyHolder) (old new : StoreValue)
        → written number cell value old ≡ Some new → IsGoodCell G.good old cell → G.good value
        → IsGoodStore G.good old → IsGoodStore G.good new }
    ensures elements { (number length index : ℕ) (value : AnyHolder) (old : StoreValue)
        → IsClosed G.good → G.good value → IsGoodStore G.good old
        → IsGoodStore G.good (after_writes number (element_writes length index value) old).1 }
    ensures takes { (number : ℕ) (cell : Cell) (old : StoreValue)
        → IsGoodStore G.good old → IsGoodStore G.good (taken number cell old) }
    ensures changes { (changes : List Change) (old : StoreValue) → IsClosed G.good
        → AllByRecursion (IsGoodChange G.good) changes → IsGoodStore G.good old
        → IsGoodStore G.good (changed changes old).1 }
    ensures savepoint { (old : StoreValue) → IsGoodStore G.good old
        → IsGoodStore G.good (saved old) }
    ensures undo { (old : StoreValue) → IsGoodStore G.good old → IsGoodStore G.good (undone old) }
    ensures replaces { (state : Objects) (next : ℕ) (old : StoreValue)
        → AreGoodObjects G.good next state → next ≤ 2 ^ 31 → IsGoodStore G.good old
        → IsGoodStore G.good (replaced state next old) }
{}

/// What operations answer or make of good values.
pub fn operations_give_good_values<G: HolderProperty>()
    ensures arithmetic { (op : ArithOp) (x y : ℤ) → FitsSigned w32 x → FitsSigned w32 y
        → IsGoodResult (λ z. FitsSigned w32 z) (arith_of op x y) }
    ensures sum { (constants : Pool) (store : StoreValue) (x y : AnyHolder) → IsClosed G.good
        → HasGoodConstants G.good constants → IsGoodStore G.good store → G.good x → G.good y
        → IsGoodResult (IsGoodMade G.good) (sum_of constants store x y) }
    ensures builtin { (constants : Pool) (store : StoreValue) (index : ℕ) (args : List AnyHolder)
        → IsClosed G.good → HasGoodConstants G.good constants → IsGoodStore G.good store
        → AllByRecursion G.good args
        → IsGoodResult (IsGoodMade G.good) (pure_builtin_of constants store index args) }
    ensures item { (constants : Pool) (store : StoreValue) (container index : AnyHolder)
        → IsClosed G.good → HasGoodConstants G.good constants → IsGoodStore G.good store
        → G.good container → IsGoodResult G.good (index_of constants store container index) }
    ensures list { (constants : Pool) (store : StoreValue) (list index value : AnyHolder)
        → IsClosed G.good → HasGoodConstants G.good constants → IsGoodStore G.good store
        → G.good list → G.good value
        → IsGoodResult (IsGoodMade G.good) (list_with_element_of constants store list index value) }
    ensures key { (constants : Pool) (store : StoreValue) (value : AnyHolder) → IsClosed G.good
        → HasGoodConstants G.good constants → IsGoodStore G.good store → G.good value
        → IsGoodResult (IsGoodKeyIn G.good store) (key_of constants store value) }
    ensures new_string { (constants : Pool) (store : StoreValue) (args : List AnyHolder)
        → IsGoodStore G.good store
        → IsGoodResult (IsGoodNew G.good) (new_string_of constants store args) }
    ensures new_list { (args : List AnyHolder) → AllByRecursion G.good args
        → IsGoodResult (IsGoodNew G.good) (new_list_of args) }
    ensures new_vector { (constants : Pool) (store : StoreValue) (args : List AnyHolder)
        → IsClosed G.good → HasGoodConstants G.good constants → IsGoodStore G.good store
        → AllByRecursion G.good args
        → IsGoodResult (IsGoodNew G.good) (new_vector_of constants store args) }
    ensures new_table { (args : List AnyHolder) → IsClosed G.good
        → IsGoodResult (IsGoodNew G.good) (new_table_of args) }
{}

/// What the methods of the kinds of objects change and answer, on a good value with good arguments.
pub fn methods_give_good_values<G: HolderProperty>()
    ensures { (constants : Pool) (store : StoreValue) (turns : ℕ) (kind : Methods) (index : ℕ)
        (this : AnyHolder) (args : List AnyHolder) → IsClosed G.good
        → HasGoodConstants G.good constants → IsGoodStore G.good store → G.good this
        → AllByRecursion G.good args
        → IsGoodResult (λ done. IsGoodDeed G.good done.0)
        (listed_deed constants store turns kind index this args) }
{}
