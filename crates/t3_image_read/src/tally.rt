//! The blocks that were taken, which are counted and not kept.
ghost use Rattle.std.specs.Prelude.{◌≡◌, ◌<◌, ◌^◌, [], ◌∷◌, ◌++◌, length};

use crate::image::PlacedBlock;
use std::marker::Model;
use std::mem;
use std::snapshot::Snapshot;

/// The blocks that a reader has taken. Only contracts see them: it has no bytes.
#[cycle(history)]
#[derive(Drop)]
pub(crate) struct History {
    last: Snapshot<Link>,
}

/// A block, and those before it.
#[cycle(history)]
#[derive(Drop)]
pub(crate) enum Link {
    Start,
    After(History, Snapshot<PlacedBlock>),
}

impl Model for History {
    ghost use Rattle.std.specs.Prelude.{List, length};
    ghost use Rattle.t3_image_read.specs.declared.image.PlacedBlock.{PlacedBlock};

    ghost Value = { List PlacedBlock };

    ghost use Rattle.t3_image_read.specs.Inner.History.{blocks_of};

    ghost view = { λ h. blocks_of h.last.value };

    ghost size = { length };

    ghost use Rattle.std.proofs.Common.{arith, length-append};

    ghost size_decreases = { λ a h. Prim.grind (arith, length-append) };
}

impl History {
    /// No block.
    fn new() -> History
        ensures { result ≡ [] }
    {
        History {
            last: Snapshot::of(&Link::Start),
        }
    }

    /// One block more.
    fn after(self, placed: &PlacedBlock) -> History
        ensures { result ≡ self ++ placed.now ∷ [] }
    {
        let link = Link::After(self, Snapshot::of(placed));
        History {
            last: Snapshot::of(&link),
        }
    }
}

/// How many blocks were taken. Contracts see the blocks.
#[derive(Drop)]
pub(crate) struct Tally {
    count: usize,
    history: History,
}

impl Model for Tally {
    ghost use Rattle.std.specs.Prelude.{◌≡◌, List, length};
    ghost use Rattle.t3_image_read.specs.declared.image.PlacedBlock.{PlacedBlock};

    ghost Value = { List PlacedBlock };

    ghost view = { λ t. t.history };

    ghost invariant = { λ t. t.count ≡ length t.history };
}

impl Tally {
    /// Of no block.
    pub(crate) fn new() -> Tally
        ensures { result ≡ [] }
    {
        Tally {
            count: 0,
            history: History::new(),
        }
    }

    /// How many there are.
    pub(crate) fn count(&self) -> usize
        ensures { result ≡ length self.now }
    {
        self.count
    }

    /// Counts one more.
    pub(crate) fn add(&mut self, placed: &PlacedBlock)
        requires { length self.old < 2 ^ 32 }
        ensures { self.new ≡ self.old ++ placed.now ∷ [] }
    {
        let history = mem::replace(&mut self.history, History::new());
        self.history = history.after(placed);
        self.count += 1;
    }
}
