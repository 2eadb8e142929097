//! The items of a list, in order.
ghost use Rattle.std.specs.Prelude.{◌≡◌, ◌∷◌, [], MatchOption};

use crate::pool::{BLOCK, Item, Pool};
use std::marker::Model;

/// The items of a list that are still to come. Its model is the list of these items.
#[derive(Drop)]
pub struct Items<'a> {
    pub(crate) pool: &'a Pool,
    pub(crate) block: u32,
    pub(crate) place: usize,
    pub(crate) left: usize,
}

impl<'a> Model for Items<'a> {
    ghost use Rattle.std.specs.Prelude.{◌<◌, List, map};
    ghost use Rattle.std.specs.List.{range_with_len};
    ghost use Rattle.block_pool.specs.Blocks.{Item};
    ghost use Rattle.block_pool.specs.Chains.{item_at, IsWithin};

    ghost Value = { List Item };

    ghost view = { λ i. map (item_at i.pool.now i.block) (range_with_len i.place i.left) };

    ghost invariant = { λ i. (i.place < 16) × IsWithin i.pool.now.blocks i.block i.place i.left };
}

impl<'a> Items<'a> {
    /// Returns the next item, or `None` after the last.
    pub fn next(&mut self) -> Option<Item>
        ensures { MatchOption result (self.old ≡ []) (λ item. self.old ≡ item ∷ self.new) }
    {
        if self.left == 0 {
            return None;
        }
        let item = self.pool.item(self.block, self.place);
        self.left -= 1;
        if self.place + 1 < BLOCK {
            self.place += 1;
            return Some(item);
        }
        self.block = self.pool.behind(self.block);
        self.place = 0;
        Some(item)
    }
}
