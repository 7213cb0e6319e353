//! The keys under which tables have values.
ghost use Rattle.std.specs.Prelude.{◌≡◌, IfOk};
ghost use Rattle.t3_ops.specs.Keys.{key_of, plain_key_of};
ghost use Rattle.t3_ops.specs.Making.{when_read};
ghost use Rattle.t3_ops.specs.References.{text_of};

use crate::copying::text_bytes;
use crate::fault::Fault;
use crate::values::{TextOrListRef, TextRef, text_or_list};
use std::alloc::Global;
use t3_holder::{Bytes, Holder, NoMemory};
use t3_pools::Pools;
use t3_store::Store;
use t3_undo::Key;

/// The key that a value is. A text is the key of its bytes, wherever they stand, and an object that
/// is neither a string nor a list that of its number.
///
/// `Stale` where the value is a reference to an object that isn't there. Else `KeyKind` where it is
/// a list, a method, or a string that is to be said, and `BadConstant` where it is a constant
/// string that can't be read.
pub fn key(
    alloc: Global,
    value: Holder,
    store: &Store,
    pools: &Pools,
) -> Result<Result<Key, Fault>, NoMemory>
    ensures { IfOk result (λ key. key ≡ key_of pools.now.constants store.now.store value) }
{
    match text_or_list(store, pools, value) {
        TextOrListRef::Text(text) => text_key(alloc, text, pools),
        TextOrListRef::List(_) => Ok(Err(Fault::KeyKind)),
        TextOrListRef::Neither => Ok(plain_key(value, store)),
    }
}

/// The key of the bytes of a text.
fn text_key(alloc: Global, text: TextRef<'_>, pools: &Pools) -> Result<Result<Key, Fault>, NoMemory>
    ensures { IfOk result (λ key. key
        ≡ when_read (text_of pools.now.constants text.entry) (λ bytes. Ok (Key.Text bytes))) }
{
    match text_bytes(alloc, text, pools)? {
        Some(bytes) => Ok(Ok(Key::Text(Bytes(bytes)))),
        None => Ok(Err(Fault::BadConstant)),
    }
}

/// The key that a value is which is neither a text nor a list.
fn plain_key(value: Holder, store: &Store) -> Result<Key, Fault>
    ensures { result ≡ plain_key_of store.now.store value }
{
    match value {
        Holder::Nil => Ok(Key::Nil),
        Holder::True => Ok(Key::True),
        Holder::Int(number) => Ok(Key::Int(number)),
        Holder::Enum(number) => Ok(Key::Enum(number)),
        Holder::Prop(number) => Ok(Key::Prop(number)),
        Holder::Func(address) => Ok(Key::Func(address)),
        Holder::Obj(number) => {
            if store.live(number) {
                Ok(Key::Obj(number))
            } else {
                Err(Fault::Stale)
            }
        }
        Holder::Text(_) | Holder::Shown(_) | Holder::List(_) | Holder::Code(_) => {
            Err(Fault::KeyKind)
        }
    }
}
