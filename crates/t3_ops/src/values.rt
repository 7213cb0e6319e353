//! Which values are texts and lists, and where their bytes and elements stand.
ghost use Rattle.std.specs.Prelude.{◌≡◌, ◌||◌, ◌+◌, ◌<◌, ◌≤◌, ◌^◌, [], length, drop, option_map, IfSome};
ghost use Rattle.std.specs.List.{slice_get};
ghost use Rattle.t3_ops.specs.Values.{text_or_list_of, object_text_or_list, same_holder};
ghost use Rattle.t3_ops.specs.References.{is_plain, text_of, list_of, text_or_list_by, bytes_of, elements_of, IsTextBytes, IsListItems, IsPrefixOf};

use t3_holder::Holder;
use t3_pools::Pools;
use t3_store::{ObjectAt, Store};

/// The number of the pool of constants.
const CONSTANTS: u8 = 2;

/// How many bytes a holder has.
const HOLDER_SIZE: u32 = 5;

/// A text. A constant isn't read yet.
#[derive(Clone, Copy)]
pub enum TextRef<'o> {
    /// At an address of the constants.
    Constant(u32),
    Live(&'o [u8]),
}

/// A list. A constant isn't read yet.
#[derive(Clone, Copy)]
pub enum ListRef<'o> {
    /// At an address of the constants.
    Constant(u32),
    Live(&'o [Holder]),
}

/// A value that is a text or a list, or neither.
#[derive(Clone, Copy)]
pub enum TextOrListRef<'o> {
    Text(TextRef<'o>),
    List(ListRef<'o>),
    Neither,
}

/// The bytes of a text, all of which are there.
#[derive(Clone, Copy)]
pub enum TextBytes<'o> {
    /// From an address of the constants on, and their count.
    Constant(u32, u16),
    Live(&'o [u8]),
}

/// The elements of a list, all of which are there.
#[derive(Clone, Copy)]
pub enum ListItems<'o> {
    /// From an address of the constants on, and their count.
    Constant(u32, u16),
    Live(&'o [Holder]),
}

/// Whether a value is a text or a list. No constant is read.
pub fn text_or_list<'o>(store: &'o Store, pools: &'o Pools, value: Holder) -> TextOrListRef<'o>
    ensures { text_or_list_by pools.now.constants result
        ≡ text_or_list_of pools.now.constants store.now.store value }
{
    let _ = pools;
    match value {
        Holder::Text(address) => TextOrListRef::Text(TextRef::Constant(address)),
        Holder::List(address) => TextOrListRef::List(ListRef::Constant(address)),
        Holder::Obj(number) => object_text_or_list(&store.at(number), pools),
        _ => TextOrListRef::Neither,
    }
}

fn object_text_or_list<'o>(object: &ObjectAt<'o>, pools: &'o Pools) -> TextOrListRef<'o>
    ensures { text_or_list_by pools.now.constants result ≡ object_text_or_list object.now }
{
    let _ = pools;
    if let Some(bytes) = object.text() {
        return TextOrListRef::Text(TextRef::Live(bytes));
    }
    if let Some(items) = object.items() {
        return TextOrListRef::List(ListRef::Live(items));
    }
    TextOrListRef::Neither
}

impl<'o> TextRef<'o> {
    /// Its bytes. `None` exactly where it is a constant that can't be read.
    pub fn read(self, pools: &Pools) -> Option<TextBytes<'o>>
        ensures text { option_map (bytes_of pools.now.constants) result
            ≡ text_of pools.now.constants self.entry }
        ensures stands { IfSome result (IsTextBytes pools.now.constants) }
    {
        match self {
            TextRef::Constant(address) => {
                let (first, length) = pools.text_at(address)?;
                Some(TextBytes::Constant(first, length))
            }
            TextRef::Live(bytes) => Some(TextBytes::Live(bytes)),
        }
    }
}

impl<'o> ListRef<'o> {
    /// Its elements. `None` exactly where it is a constant that can't be read.
    pub fn read(self, pools: &Pools) -> Option<ListItems<'o>>
        ensures list { option_map (elements_of pools.now.constants) result
            ≡ list_of pools.now.constants self.entry }
        ensures stands { IfSome result (IsListItems pools.now.constants) }
    {
        match self {
            ListRef::Constant(address) => {
                let (first, count) = pools.list_at(address)?;
                Some(ListItems::Constant(first, count))
            }
            ListRef::Live(items) => Some(ListItems::Live(items)),
        }
    }
}

impl<'o> TextBytes<'o> {
    /// The bytes from an index on, of a constant as far as its page goes. Empty only at the end.
    pub(crate) fn piece(self, pools: &'o Pools, at: usize) -> &'o [u8]
        requires stands { IsTextBytes pools.now.constants self }
        requires within { at ≤ length (bytes_of pools.now.constants self) }
        ensures first { IsPrefixOf result.now (drop at (bytes_of pools.now.constants self.entry)) }
        ensures some { result.now ≡ [] → at ≡ length (bytes_of pools.now.constants self.entry) }
        ensures fits { at + length result.now < 2 ^ 64 }
    {
        match self {
            TextBytes::Constant(first, length) => {
                let left = usize::from(length) - at;
                let run = pools.run(CONSTANTS, first + at as u32);
                &run[..run.len().min(left)]
            }
            TextBytes::Live(bytes) => {
                let end = bytes.len();
                &bytes[at..end]
            }
        }
    }
}

impl<'o> ListItems<'o> {
    /// How many elements there are.
    pub fn len(self, pools: &Pools) -> usize
        requires { IsListItems pools.now.constants self }
        ensures { result ≡ length (elements_of pools.now.constants self.entry) }
    {
        let _ = pools;
        match self {
            ListItems::Constant(_, count) => usize::from(count),
            ListItems::Live(items) => items.len(),
        }
    }

    /// The element of an index, from 0 on.
    pub fn element(self, pools: &Pools, index: usize) -> Option<Holder>
        requires { IsListItems pools.now.constants self }
        ensures element { result ≡ slice_get (elements_of pools.now.constants self.entry) index }
        ensures fits { IfSome result (λ _. index + 1 < 2 ^ 64) }
    {
        match self {
            ListItems::Constant(first, count) => {
                if index >= usize::from(count) {
                    return None;
                }
                pools.holder_at(first + HOLDER_SIZE * index as u32)
            }
            ListItems::Live(items) => item(items, index),
        }
    }
}

/// The item of an index, from 0 on.
fn item(items: &[Holder], index: usize) -> Option<Holder>
    ensures item { result ≡ slice_get items.now index }
    ensures fits { IfSome result (λ _. index + 1 < 2 ^ 64) }
{
    if index >= items.len() {
        return None;
    }
    items.get(index).copied()
}

/// Whether a value is neither a text, nor a list, nor a reference: all there is of it is the holder.
#[inline(always)]
fn is_plain(value: Holder) -> bool
    ensures { result ≡ is_plain value }
{
    !matches!(value, Holder::Text(_) | Holder::List(_) | Holder::Obj(_))
}

/// Whether one of two values is plain, so that both are equal only where they are the same holder.
#[inline(always)]
pub(crate) fn has_plain(left: Holder, right: Holder) -> bool
    ensures { result ≡ (is_plain left || is_plain right) }
{
    is_plain(left) || is_plain(right)
}

/// Whether two values are the same holder, whatever stands behind them. It takes no memory.
#[inline(always)]
pub fn same_holder(left: Holder, right: Holder) -> bool
    ensures { result ≡ same_holder left right }
{
    left == right
}
