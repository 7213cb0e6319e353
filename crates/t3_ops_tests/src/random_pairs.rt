//! Random values compared by `equal`, and beside it by a plain program that makes the whole list of pairs.
use crate::equality::told;
use crate::fixture::{add_list, add_text, empty_store, paged};
use std::alloc::{AllocError, Global};
use std::test::Fail;
use t3_holder::Holder;
use t3_ops::Fault;
use t3_pools::Pools;
use t3_store::Store;

/// How many constants there are, each in as many bytes.
const CONSTANTS: u32 = 12;

const SLOT: u32 = 32;

/// How many objects there are, half of them strings and half of them lists.
const OBJECTS: u32 = 8;

/// Numbers that look random, each from the one before.
#[derive(Drop)]
struct Dice(u32);

impl Dice {
    fn roll(&mut self, sides: u32) -> u32 {
        self.0 = self.0.wrapping_mul(1_664_525).wrapping_add(1_013_904_223);
        (self.0 >> 16).checked_rem(sides).unwrap_or(0)
    }

    /// A value, which is a text, a list or an object in three of four cases, and seldom a stale reference.
    fn value(&mut self) -> Holder {
        let address = self.roll(CONSTANTS).wrapping_mul(SLOT);
        match self.roll(8) {
            0 => Holder::Nil,
            1 => Holder::Int(i32::from(self.roll(2) == 0)),
            2 | 3 => Holder::Text(address),
            4 | 5 => Holder::List(address),
            _ => Holder::Obj(self.roll(OBJECTS + 1).wrapping_add(1)),
        }
    }

    fn values(&mut self, alloc: Global) -> Result<Vec<Holder>, AllocError> {
        let mut values = Vec::new(alloc);
        for _ in 0..self.roll(4) {
            values.push(self.value())?;
        }
        Ok(values)
    }

    /// Up to three bytes, which often are no UTF-8.
    fn text(&mut self, alloc: Global) -> Result<Vec<u8>, AllocError> {
        let mut bytes = Vec::new(alloc);
        for _ in 0..self.roll(4) {
            bytes.push(match self.roll(4) {
                0 => b'a',
                1 => b'b',
                2 => 0xC3,
                _ => 0xA9,
            })?;
        }
        Ok(bytes)
    }
}

/// A length or a count, in its two bytes.
fn length_bytes(length: usize) -> [u8; 2] {
    u16::try_from(length).unwrap_or(0).to_le_bytes()
}

/// One of the values that [`Dice::value`] gives, in its five bytes.
fn holder_bytes(value: Holder) -> [u8; 5] {
    let (tag, bits) = match value {
        Holder::Int(number) => (7, number.cast_unsigned()),
        Holder::Text(address) => (8, address),
        Holder::List(address) => (10, address),
        Holder::Obj(number) => (5, number),
        _ => (1, 0),
    };
    let [a, b, c, d] = bits.to_le_bytes();
    [tag, a, b, c, d]
}

/// Adds a text, with its length.
fn push_text(bytes: &mut Vec<u8>, text: &[u8]) -> Result<(), AllocError> {
    bytes.extend_from_slice(&length_bytes(text.len()))?;
    bytes.extend_from_slice(text)
}

/// Adds a list, with its count.
fn push_list(bytes: &mut Vec<u8>, values: &[Holder]) -> Result<(), AllocError> {
    bytes.extend_from_slice(&length_bytes(values.len()))?;
    for value in values {
        bytes.extend_from_slice(&holder_bytes(*value))?;
    }
    Ok(())
}

/// A constant in its slot: a list, or a text.
fn slot(alloc: Global, dice: &mut Dice) -> Result<Vec<u8>, AllocError> {
    let mut bytes = Vec::new(alloc);
    if dice.roll(2) == 0 {
        push_text(&mut bytes, &dice.text(alloc)?)?;
    } else {
        push_list(&mut bytes, &dice.values(alloc)?)?;
    }
    bytes.resize(SLOT as usize, 0)?;
    Ok(bytes)
}

/// The bytes of a text or the elements of a list; none of a constant that can't be read.
#[derive(Drop)]
enum ValueContents {
    Text(Option<Vec<u8>>),
    List(Option<Vec<Holder>>),
    Other,
}

fn constant_text(alloc: Global, pools: &Pools, address: u32) -> Result<Option<Vec<u8>>, Fail> {
    let Some((first, length)) = pools.text_at(address) else {
        return Ok(None);
    };
    let mut bytes = Vec::new(alloc);
    for index in 0..u32::from(length) {
        bytes.push(pools.byte(2, first.wrapping_add(index)).ok_or("a byte")?)?;
    }
    Ok(Some(bytes))
}

fn constant_list(alloc: Global, pools: &Pools, address: u32) -> Result<Option<Vec<Holder>>, Fail> {
    let Some((first, count)) = pools.list_at(address) else {
        return Ok(None);
    };
    let mut items = Vec::new(alloc);
    for index in 0..u32::from(count) {
        let at = first.wrapping_add(index.wrapping_mul(5));
        items.push(pools.holder_at(at).ok_or("a holder")?)?;
    }
    Ok(Some(items))
}

fn contents(
    alloc: Global,
    value: Holder,
    store: &Store,
    pools: &Pools,
) -> Result<ValueContents, Fail> {
    match value {
        Holder::Text(address) => Ok(ValueContents::Text(constant_text(alloc, pools, address)?)),
        Holder::List(address) => Ok(ValueContents::List(constant_list(alloc, pools, address)?)),
        Holder::Obj(number) => {
            if let Some(bytes) = store.text(number) {
                return Ok(ValueContents::Text(Some(Vec::from_slice(alloc, bytes)?)));
            }
            if let Some(items) = store.items(number) {
                return Ok(ValueContents::List(Some(Vec::from_slice(alloc, items)?)));
            }
            Ok(ValueContents::Other)
        }
        _ => Ok(ValueContents::Other),
    }
}

/// Puts the pairs of two lists in front of the others, which stand last to first.
fn push_pairs(
    pairs: &mut Vec<(Holder, Holder)>,
    left: &[Holder],
    right: &[Holder],
) -> Result<(), AllocError> {
    for index in (0..left.len()).rev() {
        if let (Some(x), Some(y)) = (left.get(index), right.get(index)) {
            pairs.push((*x, *y))?;
        }
    }
    Ok(())
}

/// What is told of one pair: that it is the same so far, or not, or a fault. Pairs of lists follow.
fn tell_pair(
    pairs: &mut Vec<(Holder, Holder)>,
    same: bool,
    left: &ValueContents,
    right: &ValueContents,
) -> Result<Result<bool, Fault>, AllocError> {
    match (left, right) {
        (ValueContents::Text(Some(left)), ValueContents::Text(Some(right))) => {
            Ok(Ok(left.as_slice() == right.as_slice()))
        }
        (ValueContents::List(Some(left)), ValueContents::List(Some(right))) => {
            push_pairs(pairs, left, right)?;
            Ok(Ok(left.len() == right.len()))
        }
        (ValueContents::Text(_), ValueContents::Text(_))
        | (ValueContents::List(_), ValueContents::List(_)) => { Ok(Err(Fault::BadConstant)) }
        _ => Ok(Ok(same)),
    }
}

/// The same of two values.
fn tell_values(
    alloc: Global,
    pair: (Holder, Holder),
    pairs: &mut Vec<(Holder, Holder)>,
    store: &Store,
    pools: &Pools,
) -> Result<Result<bool, Fault>, Fail> {
    let left = contents(alloc, pair.0, store, pools)?;
    let right = contents(alloc, pair.1, store, pools)?;
    Ok(tell_pair(pairs, pair.0 == pair.1, &left, &right)?)
}

/// What is told of two values with some turns, and those that are left; by all pairs in a list.
fn told_plainly(
    alloc: Global,
    left: Holder,
    right: Holder,
    store: &Store,
    pools: &Pools,
    turns: u32,
) -> Result<(Result<bool, Fault>, u32), Fail> {
    let mut pairs = Vec::new(alloc);
    pairs.push((left, right))?;
    for taken in 1..=turns {
        let Some(pair) = pairs.pop() else {
            return Ok((Ok(true), turns.wrapping_sub(taken).wrapping_add(1)));
        };
        match tell_values(alloc, pair, &mut pairs, store, pools)? {
            Ok(true) => {}
            Ok(false) => return Ok((Ok(false), turns.wrapping_sub(taken))),
            Err(fault) => return Ok((Err(fault), 0)),
        }
    }
    if pairs.is_empty() {
        Ok((Ok(true), 0))
    } else {
        Ok((Err(Fault::CompareLong), 0))
    }
}

/// The constants of a world, in their slots.
fn slots(alloc: Global, dice: &mut Dice) -> Result<Vec<u8>, AllocError> {
    let mut bytes = Vec::new(alloc);
    for _ in 0..CONSTANTS {
        bytes.extend_from_slice(&slot(alloc, dice)?)?;
    }
    Ok(bytes)
}

/// The constants of a world, on pages of up to 40 bytes.
fn constants(alloc: Global, dice: &mut Dice) -> Result<Pools, Fail> {
    let bytes = slots(alloc, dice)?;
    paged(alloc, dice.roll(40).wrapping_add(1), &bytes)
}

/// The objects of a world.
fn objects(alloc: Global, dice: &mut Dice) -> Result<Store, Fail> {
    let mut store = empty_store(alloc, OBJECTS, 1_000)?;
    for _ in 0..OBJECTS / 2 {
        let _ = add_text(alloc, &mut store, &dice.text(alloc)?)?;
        let _ = add_list(alloc, &mut store, &dice.values(alloc)?)?;
    }
    Ok(store)
}

/// Two values, and the turns that there are to compare them.
type Pair = (Holder, Holder, u32);

/// One in four is a value and itself.
fn pair(dice: &mut Dice) -> Pair {
    let left = dice.value();
    let right = if dice.roll(4) == 0 {
        left
    } else {
        dice.value()
    };
    (left, right, dice.roll(40))
}

/// Whether `equal` tells of two values what the plain program tells, and whether that is that they are equal.
fn is_told_alike(
    alloc: Global,
    pair: Pair,
    store: &Store,
    pools: &Pools,
) -> Result<(bool, bool), Fail> {
    let (left, right, turns) = pair;
    let want = told_plainly(alloc, left, right, store, pools, turns)?;
    let told = told(alloc, left, right, store, pools, turns)?;
    Ok((told == want, want.0 == Ok(true)))
}

/// The first of 250 pairs that isn't told alike. The equal ones are counted.
fn first_unlike(
    alloc: Global,
    dice: &mut Dice,
    store: &Store,
    pools: &Pools,
    equals: &mut u32,
) -> Result<Option<Pair>, Fail> {
    for _ in 0..250 {
        let pair = pair(dice);
        let (is_alike, is_equal) = is_told_alike(alloc, pair, store, pools)?;
        if !is_alike {
            return Ok(Some(pair));
        }
        *equals = equals.wrapping_add(u32::from(is_equal));
    }
    Ok(None)
}

/// The same of a new world.
fn first_unlike_in_world(
    alloc: Global,
    dice: &mut Dice,
    equals: &mut u32,
) -> Result<Option<Pair>, Fail> {
    let pools = constants(alloc, dice)?;
    let store = objects(alloc, dice)?;
    first_unlike(alloc, dice, &store, &pools, equals)
}

/// The same of 20 worlds, with the number of its world.
fn first_unlike_in_worlds(alloc: Global, equals: &mut u32) -> Result<Option<(u32, Pair)>, Fail> {
    let mut dice = Dice(1);
    for world in 0..20 {
        if let Some(pair) = first_unlike_in_world(alloc, &mut dice, equals)? {
            return Ok(Some((world, pair)));
        }
    }
    Ok(None)
}

#[test]
fn thousands_of_pairs_are_told_as_a_plain_program_tells_them(rt: HostRuntime) -> Result<(), Fail> {
    let mut equals = 0;
    assert_eq!(rt; first_unlike_in_worlds(rt.alloc(), &mut equals)?, None);
    assert!(rt; equals > 0 && equals < 5_000, "{equals} of 5,000 are equal");
    Ok(())
}
