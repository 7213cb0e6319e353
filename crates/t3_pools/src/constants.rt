//! Constant strings and lists in a pool, over the borders of its pages.
ghost use Rattle.std.specs.Prelude.{◌≡◌, ◌<◌, ◌≤◌, ◌+◌, ◌*◌, ◌^◌, length, IfSome, IsTrue};
ghost use Rattle.t3_pools.specs.Inner.Reading.{Fills, ReadsNumber, ReadsHolder, ReadsHolders, ReadsText, HasCharacters, BeginsText, IsLongestUtf8, TextAnswer, ListAnswer};

use crate::paged::PagedPool;
use t3_holder::{Holder, holder_of, read_raw, u16_at};

/// How many bytes a length or a count has.
const COUNT_SIZE: u32 = 2;

const HOLDER_SIZE: u32 = 5;

/// No character has more bytes.
const LONGEST_CHARACTER: usize = 4;

impl PagedPool {
    /// The address of the first byte of the constant string at an address, and how many it has.
    pub(crate) fn text_at(&self, address: u32) -> Option<(u32, u16)>
        ensures answer { TextAnswer self.now.bytes address result }
        ensures bounded { IfSome result (λ found. found.0 + found.1 < 2 ^ 31) }
    {
        let length = self.count_at(address)?;
        let first = address + COUNT_SIZE;
        if self.is_text(first, length) {
            Some((first, length))
        } else {
            None
        }
    }

    /// The address of the first holder of the constant list at an address, and how many it has.
    pub(crate) fn list_at(&self, address: u32) -> Option<(u32, u16)>
        ensures answer { ListAnswer self.now.bytes address result }
        ensures bounded { IfSome result (λ found. found.0 + 5 * found.1 < 2 ^ 31) }
    {
        let count = self.count_at(address)?;
        let first = address + COUNT_SIZE;
        if self.has_holders(first, count) {
            Some((first, count))
        } else {
            None
        }
    }

    /// The length or the count in the two bytes at an address.
    fn count_at(&self, address: u32) -> Option<u16>
        ensures reads { ReadsNumber 2 self.now.bytes address result }
        ensures bounded { IfSome result (λ _. address + 2 < 2 ^ 31) }
    {
        let mut bytes = [0; COUNT_SIZE as usize];
        if self.fill(address, &mut bytes) {
            Some(u16_at(&bytes, 0))
        } else {
            None
        }
    }

    /// Whether so many bytes from an address on are there and are UTF-8.
    fn is_text(&self, first: u32, count: u16) -> bool
        requires { first < 2 ^ 31 }
        ensures reads { ReadsText count self.now.bytes first result }
        ensures bounded { IsTrue result → first + count < 2 ^ 31 }
    {
        let mut address = first;
        let mut left = usize::from(count);
        while left > 0 {
            let found = self.characters(address, left);
            if found == 0 {
                return false;
            }
            address += found as u32;
            left -= found;
        }
        true
    }

    /// Of so many bytes from an address on, how many are whole characters that stand there, one after
    /// the other. 0 only where those bytes are no text.
    fn characters(&self, address: u32, left: usize) -> usize
        requires { 0 < left }
        ensures begins { BeginsText left self.now.bytes address result }
        ensures bounded { 0 < result → address + result < 2 ^ 31 }
    {
        let in_page = self.characters_in_page(address, left);
        if in_page > 0 {
            return in_page;
        }
        // The first character may go on in the next page.
        let mut window = [0; LONGEST_CHARACTER];
        let window = &mut window[..left.min(LONGEST_CHARACTER)];
        if self.fill(address, window) {
            whole_characters(window)
        } else {
            0
        }
    }

    /// The length of the whole characters that so many bytes from an address on begin with in its page.
    fn characters_in_page(&self, address: u32, left: usize) -> usize
        ensures within { result ≤ left }
        ensures whole { HasCharacters result self.now.bytes address }
        ensures bounded { 0 < result → address + result < 2 ^ 31 }
    {
        let run = self.run(address);
        whole_characters(&run[..run.len().min(left)])
    }

    /// Whether so many good holders stand from an address on.
    fn has_holders(&self, first: u32, count: u16) -> bool
        requires { first < 2 ^ 31 }
        ensures reads { ReadsHolders count self.now.bytes first result }
        ensures bounded { IsTrue result → first + 5 * count < 2 ^ 31 }
    {
        let mut address = first;
        for _ in 0..count {
            if self.holder(address).is_none() {
                return false;
            }
            address += HOLDER_SIZE;
        }
        true
    }

    /// The holder in the five bytes at an address.
    pub(crate) fn holder(&self, address: u32) -> Option<Holder>
        ensures reads { ReadsHolder self.now.bytes address result }
        ensures bounded { IfSome result (λ _. address + 5 < 2 ^ 31) }
    {
        let mut bytes = [0; HOLDER_SIZE as usize];
        if self.fill(address, &mut bytes) {
            holder_of(read_raw(&bytes))
        } else {
            None
        }
    }

    /// Fills a window with the bytes from an address on, where all of them are there.
    fn fill(&self, address: u32, window: &mut [u8]) -> bool
        ensures fills { Fills self.now.bytes address window.new result }
        ensures bounded { IsTrue result → 0 < length window.new → address + length window.new < 2 ^ 31 }
    {
        let run = self.run(address);
        let size = window.len();
        if size <= run.len() {
            window.copy_from_slice(&run[..size]);
            return true;
        }
        self.fill_over(address, window)
    }

    /// As `fill`, byte by byte, where a page may end within the window.
    fn fill_over(&self, address: u32, window: &mut [u8]) -> bool
        ensures fills { Fills self.now.bytes address window.new result }
        ensures bounded { IsTrue result → 0 < length window.new → address + length window.new < 2 ^ 31 }
    {
        let mut next = address;
        for slot in window.iter_mut() {
            match self.byte(next) {
                Some(byte) => *slot = byte,
                None => return false,
            }
            next += 1;
        }
        true
    }
}

/// The length of the whole characters that bytes begin with.
fn whole_characters(bytes: &[u8]) -> usize
    ensures { IsLongestUtf8 bytes.now result }
{
    match str::from_utf8(bytes) {
        Ok(_) => bytes.len(),
        Err(error) => error.valid_up_to(),
    }
}
