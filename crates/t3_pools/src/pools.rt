ghost use Rattle.std.specs.Prelude.{◌≡◌, ◌≢◌, ℕ, None, ◌<◌, ◌≤◌, ◌+◌, ◌*◌, ◌^◌, [], length, IfOk, IfSome};
ghost use Rattle.std.specs.FinMap.{get};
ghost use Rattle.t3_pools.specs.Pool.{numbered, page_size_of, pools_in, HasBytes, ReachesPageEnd};
ghost use Rattle.t3_pools.specs.Building.{BreaksFirst, Builds, GivesOnly, GivesRefusal, KeepsRules};
ghost use Rattle.t3_pools.specs.declared.refusal.PoolRefusal.{PoolRefusal as AnyRefusal};
ghost use Rattle.t3_pools.specs.Constants.{FindsText, FindsHolder, FindsList, extent_of, text_in, list_in, holder_in, IsOfBytes};

use crate::paged::PagedPool;
use crate::pages::gathered;
use crate::refusal::PoolRefusal;
use std::alloc::Global;
use std::marker::Model;
use t3_holder::Holder;
use t3_image_read::Image;

/// The code and the constants of an image. Contracts see each pool as a map from addresses to bytes, and
/// the size of its pages.
#[derive(Debug, Drop)]
pub struct Pools {
    code: PagedPool,
    constants: PagedPool,
}

impl Model for Pools {
    ghost use Rattle.t3_pools.specs.Pool.{PoolsValue, coded_pools, pools_of};

    ghost Value = { PoolsValue };

    ghost coded = { coded_pools };

    ghost view = { λ p. pools_of p.code p.constants };
}

impl Pools {
    /// The pools of an image, which have the bytes of its pages together with it.
    ///
    /// Pages may stand in any order and be shorter than the page size, and a definition may stand behind
    /// its pages. Blocks of other pool numbers aren't looked at. A refusal names the first rule that the
    /// image breaks, in the order of `PoolRefusal`; want of memory may come first, but not before the
    /// rules on definitions. Work and memory grow with the pages that are there, never with the count
    /// or the size that a definition says.
    pub fn build(alloc: Global, image: &Image) -> Result<Pools, PoolRefusal>
        ensures built { IfOk result (λ pools. pools ≡ pools_in image.now.blocks) }
        ensures decides { Builds image.now.blocks result }
        ensures only { KeepsRules image.now.blocks → GivesOnly (pools_in image.now.blocks) result }
        ensures refuses { (why : AnyRefusal) → BreaksFirst image.now.blocks why → GivesRefusal why result }
    {
        Pools::by_rules(alloc, image)
    }

    /// The same, by the rules in their order.
    fn by_rules(alloc: Global, image: &Image) -> Result<Pools, PoolRefusal>
        ensures { Builds image.now.blocks result }
    {
        let (code, constants) = gathered(alloc, &image.blocks.0)?;
        Ok(Pools {
            code: PagedPool::new(alloc, code.size, &code.pages)?,
            constants: PagedPool::new(alloc, constants.size, &constants.pages)?,
        })
    }

    /// The bytes from an address of a pool to the end of its page: pool 1 is the code, 2 the constants.
    /// Empty exactly where no byte stands there; none stands at 2^31 or beyond. It takes a shift where the
    /// page size is a power of two, else a division, and no memory.
    #[inline(always)]
    pub fn run(&self, pool: u8, address: u32) -> &[u8]
        ensures stand { HasBytes (numbered self.now pool) address result.now }
        ensures empty { result.now ≡ [] → get (numbered self.now pool) address ≡ None }
        ensures bounded { result.now ≢ [] → address + length result.now < 2 ^ 31 }
        ensures beyond { (far : ℕ) → 2 ^ 31 ≤ far → get (numbered self.now pool) far ≡ None }
        ensures bytes { IsOfBytes (numbered self.now pool) }
        ensures whole { ReachesPageEnd (page_size_of self.now pool) (numbered self.now pool) address
            result.now }
    {
        if pool == 1 {
            self.code.run(address)
        } else if pool == 2 {
            self.constants.run(address)
        } else {
            &[]
        }
    }

    /// The byte at an address of a pool: 1 is the code, 2 the constants. `None` exactly where no byte
    /// stands there.
    pub fn byte(&self, pool: u8, address: u32) -> Option<u8>
        ensures byte { result ≡ get (numbered self.now pool) address }
        ensures bounded { IfSome result (λ _. address + 1 < 2 ^ 31) }
    {
        self.run(pool, address).first().copied()
    }

    /// The address of the first byte of the constant string at an address, and how many bytes it has.
    /// `None` exactly where no constant string stands there: two bytes of its length, and then so many
    /// bytes that are UTF-8. It may go over the borders of pages, and takes no memory.
    pub fn text_at(&self, address: u32) -> Option<(u32, u16)>
        ensures text { FindsText self.now.constants address result }
        ensures read { result ≡ extent_of address (text_in self.now.constants address) }
        ensures bounded { IfSome result (λ found. found.0 + found.1 < 2 ^ 31) }
    {
        self.constants.text_at(address)
    }

    /// The address of the first holder of the constant list at an address, and how many holders it has.
    /// `None` exactly where no constant list stands there: two bytes of its count, and then so many
    /// holders of five bytes that `holder_of` takes. It may go over the borders of pages, and takes
    /// no memory.
    pub fn list_at(&self, address: u32) -> Option<(u32, u16)>
        ensures list { FindsList self.now.constants address result }
        ensures read { result ≡ extent_of address (list_in self.now.constants address) }
        ensures bounded { IfSome result (λ found. found.0 + 5 * found.1 < 2 ^ 31) }
    {
        self.constants.list_at(address)
    }

    /// The holder in the five bytes at an address of the constants. `None` exactly where five bytes aren't
    /// there, or `holder_of` doesn't take them. It may go over the borders of pages, and takes no memory.
    pub fn holder_at(&self, address: u32) -> Option<Holder>
        ensures holder { FindsHolder self.now.constants address result }
        ensures read { result ≡ holder_in self.now.constants address }
    {
        self.constants.holder(address)
    }
}
