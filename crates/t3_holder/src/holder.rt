//! Data holders: a type and a value, in five bytes.
ghost use Rattle.std.specs.Prelude.{◌≡◌, ◌↔◌, ℕ, List, length, IfSome, IsNone};
ghost use Rattle.t3_holder.specs.NumberText.{AreBytes};
ghost use Rattle.t3_holder.specs.HolderText.{raw_text, tag_of, bits_of, IsRaw, IsHolder, IsGood, Means, IsNoHolder};
ghost use Rattle.t3_holder.specs.declared.holder.Raw.{Raw as AnyRaw};
ghost use Rattle.t3_holder.specs.declared.holder.Holder.{Holder as AnyHolder};

use crate::number::{u32_at, u32_bytes};

/// A holder as it stands in an image, whatever its type. A type may use fewer than all of the value's
/// bits; the others are kept.
#[derive(Clone, Copy, Debug, PartialEq, Eq, Hash)]
pub struct Raw {
    pub tag: u8,
    pub bits: u32,
}

/// What a holder means. Of what [`holder_of`] gives, no object and no property has the number 0.
#[derive(Clone, Copy, Debug, PartialEq, Eq, Hash)]
pub enum Holder {
    Nil,
    True,
    Int(i32),
    Enum(u32),
    /// A property's number.
    Prop(u16),
    /// An object's number.
    Obj(u32),
    /// The address of a constant string in single quotes.
    Text(u32),
    /// The address of a constant string in double quotes, which is shown where it is evaluated.
    Shown(u32),
    /// The address of a constant list.
    List(u32),
    /// A code address.
    Code(u32),
    /// The code address of a function.
    Func(u32),
}

const NIL: u8 = 1;

const TRUE: u8 = 2;

const OBJECT: u8 = 5;

const PROPERTY: u8 = 6;

const INTEGER: u8 = 7;

const SINGLE_QUOTED: u8 = 8;

const DOUBLE_QUOTED: u8 = 9;

const LIST: u8 = 10;

const CODE: u8 = 11;

const FUNCTION: u8 = 12;

const ENUM: u8 = 15;

/// The holder that these five bytes are.
pub fn read_raw(bytes: &[u8; 5]) -> Raw
    ensures { raw_text result ≡ bytes.now }
{
    Raw {
        tag: bytes[0],
        bits: u32_at(bytes, 1),
    }
}

/// The five bytes of a holder.
pub fn raw_bytes(raw: Raw) -> [u8; 5]
    ensures { result ≡ raw_text raw }
{
    let [a, b, c, d] = u32_bytes(raw.bits);
    [raw.tag, a, b, c, d]
}

/// What a holder means.
///
/// `None` exactly where the type is none of 1, 2, 5 to 12 and 15, or an object's number is 0, or a
/// property's, which is in the value's low two bytes.
pub fn holder_of(raw: Raw) -> Option<Holder>
    ensures means { IfSome result (λ holder. Means raw holder) }
    ensures meant { (holder : AnyHolder) → Means raw holder → result ≡ Some holder }
    ensures none { IsNone result ↔ IsNoHolder raw }
{
    let bits = raw.bits;
    let low = (bits % 0x10000) as u16;
    match raw.tag {
        NIL => Some(Holder::Nil),
        TRUE => Some(Holder::True),
        OBJECT => (bits != 0).then_some(Holder::Obj(bits)),
        PROPERTY => (low != 0).then_some(Holder::Prop(low)),
        INTEGER => Some(Holder::Int(bits.cast_signed())),
        SINGLE_QUOTED => Some(Holder::Text(bits)),
        DOUBLE_QUOTED => Some(Holder::Shown(bits)),
        LIST => Some(Holder::List(bits)),
        CODE => Some(Holder::Code(bits)),
        FUNCTION => Some(Holder::Func(bits)),
        ENUM => Some(Holder::Enum(bits)),
        _ => None,
    }
}

/// The holder that means this, with 0 in all bits that its type doesn't use.
pub fn raw_of(holder: Holder) -> Raw
    requires { IsGood holder }
    ensures means { Means result holder }

    // What its type doesn't use is 0.
    ensures bits { result.bits ≡ bits_of holder }
{
    let (tag, bits) = match holder {
        Holder::Nil => (NIL, 0),
        Holder::True => (TRUE, 0),
        Holder::Int(number) => (INTEGER, number.cast_unsigned()),
        Holder::Enum(number) => (ENUM, number),
        Holder::Prop(number) => (PROPERTY, u32::from(number)),
        Holder::Obj(number) => (OBJECT, number),
        Holder::Text(address) => (SINGLE_QUOTED, address),
        Holder::Shown(address) => (DOUBLE_QUOTED, address),
        Holder::List(address) => (LIST, address),
        Holder::Code(address) => (CODE, address),
        Holder::Func(address) => (FUNCTION, address),
    };
    Raw { tag, bits }
}

/// Five bytes are the text of one raw holder, which has one text. It means one holder or none, and each
/// holder whose number fits, and isn't 0 where it may not be, is meant by the one that `raw_of` gives.
pub fn holder_text()
    ensures some { (text : List ℕ) → length text ≡ 5 → AreBytes text
        → (raw : AnyRaw) × IsRaw raw × (raw_text raw ≡ text) }
    ensures one_raw { (a b : AnyRaw) → IsRaw a → IsRaw b → raw_text a ≡ raw_text b → a ≡ b }
    ensures one_holder { (raw : AnyRaw) (a b : AnyHolder) → Means raw a → Means raw b → a ≡ b }
    ensures none { (raw : AnyRaw) (holder : AnyHolder) → IsNoHolder raw → ¬ Means raw holder }
    ensures meant { (holder : AnyHolder) → IsHolder holder → IsGood holder
        → Means (record { tag = tag_of holder; bits = bits_of holder }) holder }
{}
