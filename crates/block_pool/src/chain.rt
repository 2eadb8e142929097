//! Lists in a pool.
ghost use Rattle.std.specs.Prelude.{◌≡◌};

use std::marker::Model;

/// A list in a pool: its first block and its last, and the number of its items. An empty list has no block.
#[derive(Drop)]
pub struct Chain {
    pub(crate) first: u32,
    pub(crate) last: u32,
    pub(crate) length: usize,
}

impl Model for Chain {
    ghost use Rattle.block_pool.specs.Blocks.{Links};

    ghost Value = { Links };

    ghost view = { λ c. record { first = c.first; last = c.last; length = c.length } };
}

impl Chain {
    /// Returns a list without items.
    pub(crate) fn empty() -> Chain
        ensures { result.length ≡ 0 }
    {
        Chain {
            first: 0,
            last: 0,
            length: 0,
        }
    }

    /// Returns the number of items of the list.
    pub fn len(&self) -> usize
        ensures { result ≡ self.now.length }
    {
        self.length
    }
}
