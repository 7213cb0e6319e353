//! The bytes of an instruction, a header, a case or an entry of an exception table, looked at where they
//! stand.
ghost use Rattle.std.specs.Prelude.{◌≡◌, ◌≤◌, ◌<◌, ◌^◌, ◌++◌, ℕ, None, length, take};
ghost use Rattle.std.specs.FinMap.{get};
ghost use Rattle.std.specs.Int.{w8, w16, w32, cast_signed};
ghost use Rattle.t3_holder.specs.NumberText.{little_endian, AreBytes};
ghost use Rattle.t3_methods.specs.Inner.Window.{number_at, Shows, ShowsAll};

use t3_holder::{u16_at, u16_bytes, u32_at};
use t3_pools::Pools;

/// The number of the pool of code.
const CODE: u8 = 1;

/// As many bytes as a method's header has, or an entry of an exception table. An instruction has 8
/// at most, but for the cases of a switch.
pub(crate) const WINDOW_SIZE: usize = 10;

/// As many bytes as a `u64` has.
const WORD_SIZE: usize = 8;

/// Bytes of code from an address on: those of its page, or at most `WINDOW_SIZE` over its border.
#[derive(Clone, Copy)]
pub(crate) struct Window<'b> {
    /// Where the first stands.
    pub(crate) address: u32,
    pub(crate) bytes: &'b [u8],
}

impl<'b> Window<'b> {
    #[inline(always)]
    fn new(address: u32, bytes: &'b [u8]) -> Window<'b>
        ensures at { result.address ≡ address }
        ensures same { result.bytes.now ≡ bytes.now }
        ensures are { AreBytes bytes.now }
    {
        Window { address, bytes }
    }

    /// The bytes from an address on that stand in its page.
    #[inline(always)]
    pub(crate) fn in_page(pools: &'b Pools, address: u32) -> Window<'b>
        ensures at { result.address ≡ address }
        ensures shows { Shows pools.now.code address result.bytes.now }
        ensures beyond { (far : ℕ) → 2 ^ 31 ≤ far → get pools.now.code far ≡ None }
    {
        Window::new(address, pools.run(CODE, address))
    }

    /// The bytes from an address on, which are gathered in the room where a page ends within them.
    #[inline(always)]
    pub(crate) fn at(pools: &'b Pools, address: u32, room: &'b mut [u8; WINDOW_SIZE]) -> Window<'b>
        ensures at { result.address ≡ address }
        ensures shows { ShowsAll pools.now.code address result.bytes.now }
    {
        let window = Window::in_page(pools, address);
        if window.bytes.len() < WINDOW_SIZE {
            return Window::gathered(pools, address, room);
        }
        window
    }

    /// The bytes from an address on, gathered in the room.
    #[inline(always)]
    pub(crate) fn gathered(
        pools: &Pools,
        address: u32,
        room: &'b mut [u8; WINDOW_SIZE],
    ) -> Window<'b>
        ensures at { result.address ≡ address }
        ensures shows { ShowsAll pools.now.code address result.bytes.now }
    {
        let count = gather(pools, address, room);
        Window::new(address, &room[..count])
    }

    /// The byte at a place, or 0 where none stands there.
    #[inline(always)]
    pub(crate) fn ubyte(&self, at: u32) -> u8
        ensures { result ≡ number_at 1 self.now.bytes.now at }
    {
        let at = at as usize;
        if at < self.bytes.len() {
            self.bytes[at]
        } else {
            0
        }
    }

    /// The first five bytes.
    pub(crate) fn five(&self) -> [u8; 5]
        requires { 5 ≤ length self.now.bytes.now }
        ensures { result ≡ take 5 self.now.bytes.now }
    {
        let mut five = [0; 5];
        five.copy_from_slice(&self.bytes[..5]);
        five
    }

    #[inline(always)]
    pub(crate) fn sbyte(&self, at: u32) -> i8
        ensures { result ≡ cast_signed w8 (number_at 1 self.now.bytes.now at) }
    {
        self.ubyte(at).cast_signed()
    }

    /// The number in the two bytes from a place on, or 0 where one of them is missing.
    #[inline(always)]
    pub(crate) fn uint2(&self, at: u32) -> u16
        ensures { result ≡ number_at 2 self.now.bytes.now at }
    {
        let at = at as usize;
        if at + 2 <= self.bytes.len() {
            u16_at(self.bytes, at)
        } else {
            0
        }
    }

    #[inline(always)]
    pub(crate) fn int2(&self, at: u32) -> i16
        ensures { result ≡ cast_signed w16 (number_at 2 self.now.bytes.now at) }
    {
        self.uint2(at).cast_signed()
    }

    /// The number in the four bytes from a place on, or 0 where one of them is missing.
    #[inline(always)]
    pub(crate) fn uint4(&self, at: u32) -> u32
        ensures { result ≡ number_at 4 self.now.bytes.now at }
    {
        let at = at as usize;
        if at + 4 <= self.bytes.len() {
            u32_at(self.bytes, at)
        } else {
            0
        }
    }

    #[inline(always)]
    pub(crate) fn int4(&self, at: u32) -> i32
        ensures { result ≡ cast_signed w32 (number_at 4 self.now.bytes.now at) }
    {
        self.uint4(at).cast_signed()
    }
}

/// Puts the bytes from an address on into a room, page by page, until the room is full or no byte stands
/// there. The answer is how many they are.
///
/// Mostly two pages have them all, which takes few steps.
#[cold]
#[inline(never)]
fn gather(pools: &Pools, address: u32, room: &mut [u8; WINDOW_SIZE]) -> usize
    ensures few { result ≤ 10 }
    ensures shows { ShowsAll pools.now.code address (take result room.new) }
{
    let front = Window::in_page(pools, address).bytes;
    if front.len() <= WORD_SIZE {
        let back = Window::in_page(pools, address + front.len() as u32).bytes;
        if back.len() >= WINDOW_SIZE {
            join(front, back, room);
            return WINDOW_SIZE;
        }
    }
    gather_each(pools, address, room)
}

/// Fills a room with the bytes of two parts, the one behind the other.
///
/// The first eight are stored at once: a load of several bytes waits where each of them was stored alone.
#[inline(always)]
fn join(front: &[u8], back: &[u8], room: &mut [u8; WINDOW_SIZE])
    requires few { length front.now ≤ 8 }
    requires many { 10 ≤ length back.now }
    ensures { take 10 room.new ≡ take 10 (front.now ++ back.now) }
{
    let mut word = first_word(back);
    for count in 0..front.len() {
        word = (word << 8) + u64::from(front[front.len() - 1 - count]);
    }
    room[..WORD_SIZE].copy_from_slice(&word.to_le_bytes());
    room[WORD_SIZE..].copy_from_slice(&u16_bytes(u16_at(back, WORD_SIZE - front.len())));
}

/// The number in the first eight bytes, lowest first.
#[inline(always)]
fn first_word(bytes: &[u8]) -> u64
    requires { 8 ≤ length bytes.now }
    ensures { little_endian 8 result ≡ take 8 bytes.now }
{
    let mut word = [0; WORD_SIZE];
    word.copy_from_slice(&bytes[..WORD_SIZE]);
    u64::from_le_bytes(word)
}

/// As `gather`, one byte after the other, however short the pages are.
#[cold]
#[inline(never)]
fn gather_each(pools: &Pools, address: u32, room: &mut [u8; WINDOW_SIZE]) -> usize
    ensures few { result ≤ 10 }
    ensures shows { ShowsAll pools.now.code address (take result room.new) }
{
    let mut rest = Window::in_page(pools, address).bytes;
    for count in 0..WINDOW_SIZE {
        if rest.is_empty() {
            rest = Window::in_page(pools, address + count as u32).bytes;
        }
        let Some((byte, trailing)) = rest.split_first() else {
            return count;
        };
        room[count] = *byte;
        rest = trailing;
    }
    WINDOW_SIZE
}
