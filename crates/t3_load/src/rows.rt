//! Items of so many bytes each, one after the other.
ghost use Rattle.std.specs.Prelude.{◌≡◌, length, Some, IfOk};
ghost use Rattle.t3_holder.specs.HolderText.{raw_text, IsRaw};
ghost use Rattle.t3_load.specs.Inner.Reading.{Gives, number_read, holder_read, front_read, row_read};

use std::alloc::Global;
use t3_holder::{Holder, NoMemory, Raw, holder_of, read_raw, u16_at, u32_at};
use t3_tadsobj::PropValue;

/// An item of a row.
pub(crate) trait Item {
    ghost use Rattle.std.specs.Prelude.{◌≡◌, ℕ, List, Option, length};

    type Value: Drop;

    /// How many bytes it has.
    ghost WIDTH: { ℕ };

    const WIDTH: usize;

    /// The item that bytes spell.
    ghost item: { List ℕ → Option Self.Value };

    fn read(bytes: &[u8]) -> Option<Self::Value>
        requires { length bytes.now ≡ WIDTH }
        ensures { result ≡ item bytes.now };
}

/// So many items with which bytes begin, and the rest. Room for them is made at once, but for no more of them than
/// there are bytes.
pub(crate) fn take_row<'a, I: Item>(
    alloc: Global,
    count: u16,
    bytes: &'a [u8],
) -> Result<Option<(Vec<I::Value>, &'a [u8])>, NoMemory>
    ensures { IfOk result (λ taken. Gives (λ row. (row.0.items, row.1.now)) taken
        (row_read I.WIDTH I.item count bytes.now)) }
{
    let count = usize::from(count);
    let mut items = Vec::with_capacity(alloc, count.min(bytes.len()))?;
    let mut rest = bytes;
    while items.len() < count {
        let Some((item, behind)) = split_item::<I>(rest) else {
            return Ok(None);
        };
        items.push(item)?;
        rest = behind;
    }
    Ok(Some((items, rest)))
}

/// The item with which bytes begin, and the rest.
#[tactic(auto, unfolding(crate::specs::Inner::Reading::front_read))]
fn split_item<I: Item>(bytes: &[u8]) -> Option<(I::Value, &[u8])>
    ensures { Gives (λ split. (split.0, split.1.now)) result (front_read I.WIDTH I.item bytes.now) }
{
    let (front, behind) = bytes.split_at_checked(I::WIDTH)?;
    let item = I::read(front)?;
    Some((item, behind))
}

/// A superclass.
pub(crate) struct SuperItem;

impl Item for SuperItem {
    ghost use Rattle.t3_load.specs.Inner.Reading.{number_read};

    type Value = u32;

    ghost WIDTH = { 4 };

    const WIDTH: usize = 4;

    ghost item = { number_read 4 };

    fn read(bytes: &[u8]) -> Option<u32> {
        Some(u32_at(bytes, 0))
    }
}

/// An element of a list or a vector.
pub(crate) struct HolderItem;

impl Item for HolderItem {
    ghost use Rattle.t3_load.specs.Inner.Reading.{holder_read};

    type Value = Holder;

    ghost WIDTH = { 5 };

    const WIDTH: usize = 5;

    ghost item = { holder_read };

    fn read(bytes: &[u8]) -> Option<Holder> {
        read_holder(bytes)
    }
}

/// A property of a tads-object.
pub(crate) struct PropItem;

impl Item for PropItem {
    ghost use Rattle.t3_load.specs.Inner.Reading.{prop_read};

    type Value = PropValue;

    ghost WIDTH = { 7 };

    const WIDTH: usize = 7;

    ghost item = { prop_read };

    #[tactic(auto, unfolding(crate::specs::Inner::Reading::prop_read))]
    fn read(bytes: &[u8]) -> Option<PropValue> {
        let number = number_in(&bytes[..2]);
        if number == 0 {
            return None;
        }
        let value = read_holder(&bytes[2..])?;
        Some(PropValue { number, value })
    }
}

/// The holder that five bytes mean.
fn read_holder(bytes: &[u8]) -> Option<Holder>
    requires { length bytes.now ≡ 5 }
    ensures { result ≡ holder_read bytes.now }
{
    holder_of(raw_in(bytes))
}

/// The raw holder in five bytes.
fn raw_in(bytes: &[u8]) -> Raw
    requires { length bytes.now ≡ 5 }
    ensures fits { IsRaw result }
    ensures text { raw_text result ≡ bytes.now }
{
    read_raw(&[bytes[0], bytes[1], bytes[2], bytes[3], bytes[4]])
}

/// The number in two bytes.
pub(crate) fn number_in(bytes: &[u8]) -> u16
    requires { length bytes.now ≡ 2 }
    ensures { number_read 2 bytes.now ≡ Some result }
{
    u16_at(bytes, 0)
}
