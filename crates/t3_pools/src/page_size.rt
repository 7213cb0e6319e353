//! The size of a pool's pages, and what it makes of an address.
ghost use Rattle.std.specs.Prelude.{◌≡◌, ◌<◌, ◌^◌, ◌/◌, ◌%◌, MatchOption};

/// The size of a pool's pages. A division takes as long as many simple instructions, so where the size
/// is a power of two, as it mostly is, its shift is kept to serve in place of one.
#[derive(Clone, Copy, Debug, Drop)]
pub(crate) struct PageSize {
    pub(crate) size: u32,
    /// The shift, or 32 where the size isn't a power of two.
    shift: u32,
    ghost shifts: { shift < 32 → 2 ^ shift ≡ size },
}

impl PageSize {
    pub(crate) fn new(size: u32) -> PageSize
        ensures { result.size ≡ size }
    {
        let shift = size.trailing_zeros();
        if shift < u32::BITS && 1 << shift == size {
            PageSize { size, shift }
        } else {
            PageSize {
                size,
                shift: u32::BITS,
            }
        }
    }

    /// The index of an address' page, and the address' place in that page. `None` exactly where pages
    /// have no bytes.
    #[inline(always)]
    pub(crate) fn index_and_place(self, address: u32) -> Option<(u32, u32)>
        ensures { MatchOption result (self.size ≡ 0) (λ found. (0 < self.size)
            × (found.0 ≡ address / self.size) × (found.1 ≡ address % self.size)) }
    {
        if self.shift < u32::BITS {
            Some((address >> self.shift, address & (self.size - 1)))
        } else if self.size == 0 {
            None
        } else {
            Some((address / self.size, address % self.size))
        }
    }
}
