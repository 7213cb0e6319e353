ghost use Rattle.std.specs.Prelude.{◌≡◌};
ghost use Rattle.t3_pools.specs.Inner.Breaking.{definition_refusal, page_refusal};
ghost use Rattle.t3_pools.specs.declared.refusal.PoolRefusal.TheVariants.{NoMemory as Wanting};

use std::alloc::{AllocError, AllocFailed};
use thiserror::Error;

/// Why an image gives no pools: the first of these, over the code and the constants together, but that
/// want of memory may come before the rules on pages. A page count is 0 where nothing defines the pool.
#[derive(Clone, Copy, Debug, PartialEq, Eq, Hash, Error)]
pub enum PoolRefusal {
    /// Nothing defines the pool of code.
    #[error("no definition of a code pool")]
    NoCode,
    /// A pool is defined more than once.
    #[error("two definitions of one pool")]
    TwoDefs,
    /// A page count times the page size is 2^31 or more.
    #[error("a pool of 2 GiB or more")]
    TooWide,
    /// A page's index isn't below the page count.
    #[error("a page's index isn't below the page count")]
    PageIndex,
    /// Two pages of a pool have one index.
    #[error("two pages of one index")]
    PageTwice,
    /// There is no page of an index below the page count.
    #[error("a page is missing")]
    PageMissing,
    /// A page has more bytes than the page size.
    #[error("a page is longer than the page size")]
    PageLong,
    /// An allocation was refused.
    #[error("out of memory")]
    NoMemory,
}

/// The rules on definitions, in their order.
#[derive(Clone, Copy, Debug)]
pub(crate) enum DefinitionRule {
    NoCode,
    TwoDefs,
    TooWide,
}

/// The rules on pages, in their order.
#[derive(Clone, Copy, Debug)]
pub(crate) enum PageRule {
    Index,
    Twice,
    Missing,
    Long,
}

impl From<DefinitionRule> for PoolRefusal {
    ghost from_gives = { λ rule e. e ≡ definition_refusal rule };

    fn from(rule: DefinitionRule) -> PoolRefusal {
        match rule {
            DefinitionRule::NoCode => PoolRefusal::NoCode,
            DefinitionRule::TwoDefs => PoolRefusal::TwoDefs,
            DefinitionRule::TooWide => PoolRefusal::TooWide,
        }
    }
}

impl From<PageRule> for PoolRefusal {
    ghost from_gives = { λ rule e. e ≡ page_refusal rule };

    fn from(rule: PageRule) -> PoolRefusal {
        match rule {
            PageRule::Index => PoolRefusal::PageIndex,
            PageRule::Twice => PoolRefusal::PageTwice,
            PageRule::Missing => PoolRefusal::PageMissing,
            PageRule::Long => PoolRefusal::PageLong,
        }
    }
}

impl From<AllocError> for PoolRefusal {
    ghost from_gives = { λ _ e. e ≡ Wanting };

    fn from(_error: AllocError) -> PoolRefusal {
        PoolRefusal::NoMemory
    }
}

impl<T: Drop> From<AllocFailed<T>> for PoolRefusal {
    ghost from_gives = { λ _ e. e ≡ Wanting };

    fn from(_error: AllocFailed<T>) -> PoolRefusal {
        PoolRefusal::NoMemory
    }
}
