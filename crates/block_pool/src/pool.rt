//! The pool.
ghost use Rattle.std.specs.Prelude.{◌≡◌, ◌≢◌, ◌+◌, ◌*◌, ◌/◌, ◌-◌, ◌%◌, ◌<◌, ◌≤◌, ◌^◌, [], ◌++◌, ◌∷◌, get_or, length, if◌then◌else◌, ◌==◌, set, IfOk, OnOk};
ghost use Rattle.block_pool.specs.Blocks.{block_of, nobody, spare_of, Blocks, Links};
ghost use Rattle.block_pool.specs.Chains.{block_at, blocks_for, list_of, room_of, HasBlocks, IsApart, IsKept, IsFreed, IsOf, IsReady, IsRoomy, AllKept, KeepsOthers};

use crate::chain::Chain;
use crate::items::Items;
use no_memory::NoMemory;
use std::alloc::Global;
use std::marker::Model;

/// An item of a list.
pub type Item = [u32; 3];

/// The number of items in a block.
pub(crate) const BLOCK: usize = 16;

/// The owner of a spare block.
const NOBODY: u32 = 0xFFFF_FFFF;

/// A block: the next block of its list, the first block of that list, and its place there, from 0.
#[derive(Clone, Copy)]
pub(crate) struct Block {
    pub next: u32,
    pub owner: u32,
    pub place: usize,
}

/// Blocks of sixteen items for growing lists. Its model has the blocks, the items and the spare blocks; the items of a
/// list are `list_of`.
#[derive(Drop)]
pub struct Pool {
    blocks: Vec<Block>,
    slots: Vec<Item>,
    free: Vec<u32>,
}

impl Model for Pool {
    ghost use Rattle.std.specs.Prelude.{◌≤◌, length, vec_capacity};
    ghost use Rattle.block_pool.specs.Blocks.{AreBlocks, Blocks};

    ghost Value = { Blocks };

    ghost view = { λ p. record { blocks = p.blocks.items; slots = p.slots.items; free = p.free.items } };

    ghost invariant = { λ p. AreBlocks (record { blocks = p.blocks.items; slots = p.slots.items; free = p.free.items }) × (length p.blocks.items ≤ vec_capacity p.free) };
}

impl Pool {
    /// Returns a pool without blocks.
    pub fn new(alloc: Global) -> Pool
        ensures blocks { result.blocks ≡ [] }
        ensures spare { spare_of result ≡ 0 }
    {
        Pool {
            blocks: Vec::new(alloc),
            slots: Vec::new(alloc),
            free: Vec::new(alloc),
        }
    }

    /// Returns the number of blocks, spare or not.
    pub fn blocks(&self) -> usize
        ensures { result ≡ length self.now.blocks }
    {
        self.blocks.len()
    }

    /// Adds `more` spare blocks. Each list is unchanged, even if memory runs out.
    ///
    /// # Errors
    ///
    /// Returns `Err(NoMemory)` if memory runs out.
    pub fn reserve(&mut self, more: usize) -> Result<(), NoMemory>
        requires { length self.old.blocks + more < 2 ^ 32 }
        ensures spare { OnOk result (spare_of self.new ≡ spare_of self.old + more) }
        ensures blocks { OnOk result (length self.new.blocks ≡ length self.old.blocks + more) }
        ensures kept { (chain : Links) → IsOf self.old chain → IsKept self.old self.new chain }
    {
        for _ in 0..more {
            self.add_spare()?;
        }
        Ok(())
    }

    // Adds a spare block.
    fn add_spare(&mut self) -> Result<(), NoMemory>
        requires { length self.old.blocks + 1 < 2 ^ 32 }
        ensures spare { OnOk result (spare_of self.new ≡ spare_of self.old + 1) }
        ensures blocks { OnOk result (length self.new.blocks ≡ length self.old.blocks + 1) }
        ensures kept { AllKept self.old self.new }
    {
        let number = self.blocks.len();
        let place = self.free.len();
        self.free.reserve(number + 1)?;
        self.slots.extend_from_slice(&[[0; 3]; BLOCK])?;
        self.blocks.push(Block {
            next: 0,
            owner: NOBODY,
            place,
        })?;
        match self.free.push(number as u32) {
            Ok(()) => Ok(()),
            Err(_) => unreachable!(),
        }
    }

    /// Takes back the blocks of a list, which become spare again.
    pub fn give_back(&mut self, what: Chain)
        requires { IsOf self.old what }
        ensures spare { spare_of self.new ≡ spare_of self.old + blocks_for what.length }
        ensures others { (other : Links) → IsOf self.old other → IsApart what other → IsKept self.old self.new other }
    {
        prove!(self.blocks.len() <= u32::MAX as usize);
        let mut number = what.first;
        let count = (what.length + (BLOCK - 1)) / BLOCK;
        for _ in 0..count {
            number = self.free_block(number);
        }
    }

    // Makes a block spare, and returns the next block of its list.
    fn free_block(&mut self, number: u32) -> u32
        requires there { number < length self.old.blocks }
        requires owned { (block_of self.old.blocks number).owner ≢ nobody }
        ensures { IsFreed self.old self.new number result }
    {
        let block = self.blocks[number as usize];
        let place = self.free.len();
        self.blocks[number as usize] = Block {
            next: 0,
            owner: NOBODY,
            place,
        };
        match self.free.push(number) {
            Ok(()) => block.next,
            Err(_) => unreachable!(),
        }
    }

    /// Returns an empty list.
    pub fn chain(&self) -> Chain
        ensures own { IsOf self.now result }
        ensures empty { result.length ≡ 0 }
    {
        Chain::empty()
    }

    /// Returns the number of spare blocks.
    pub fn spare(&self) -> usize
        ensures { result ≡ spare_of self.now }
    {
        self.free.len()
    }

    /// Returns how many more items fit into the blocks of the list.
    pub fn room(&self, of: &Chain) -> usize
        requires { IsOf self.now of.now }
        ensures { result ≡ room_of of.now }
    {
        (BLOCK - of.length % BLOCK) % BLOCK
    }

    /// Returns the items of the list, in the order in which they were added.
    pub fn items(&self, of: &Chain) -> Items<'_>
        requires { IsOf self.now of.now }
        ensures { result ≡ list_of self.now of.now }
    {
        Items {
            pool: self,
            block: of.first,
            place: 0,
            left: of.length,
        }
    }

    // Returns the item at a place of a block.
    pub(crate) fn item(&self, block: u32, place: usize) -> Item
        requires block { block < length self.now.blocks }
        requires place { place < 16 }
        ensures { result ≡ get_or self.now.slots (block * 16 + place) [] }
    {
        self.slots[block as usize * BLOCK + place]
    }

    // Returns the block after a block.
    pub(crate) fn behind(&self, block: u32) -> u32
        requires { block < length self.now.blocks }
        ensures { result ≡ (block_of self.now.blocks block).next }
    {
        self.blocks[block as usize].next
    }

    /// Adds an item to the end of the list. It takes no memory, and takes a spare block only if the list has no room.
    pub fn push(&mut self, to: &mut Chain, item: Item)
        requires own { IsOf self.old to.old }
        requires room { 0 < spare_of self.old + room_of to.old }
        ensures own { IsOf self.new to.new }
        ensures appended { list_of self.new to.new ≡ list_of self.old to.old ++ item ∷ [] }
        ensures others { KeepsOthers self.old self.new to.old to.new }
        ensures spare { spare_of self.new + (if room_of to.old == 0 then 1 else 0) ≡ spare_of self.old }
    {
        self.make_room(to);
        self.write(to, item);
    }

    // Makes sure that the last block of the list has room, with a new block if necessary.
    fn make_room(&mut self, to: &mut Chain)
        requires own { IsOf self.old to.old }
        requires room { 0 < spare_of self.old + room_of to.old }
        ensures { IsRoomy self.old self.new to.old to.new }
    {
        if to.length % BLOCK != 0 {
            return;
        }
        if to.length == 0 {
            self.begin(to);
        } else {
            self.go_on(to);
        }
    }

    // Gives an empty list its first block.
    fn begin(&mut self, to: &mut Chain)
        requires empty { to.old.length ≡ 0 }
        requires room { 0 < spare_of self.old }
        ensures { IsReady self.old self.new to.old to.new }
    {
        let Some(number) = self.free.pop() else {
            return;
        };
        self.blocks[number as usize] = Block {
            next: 0,
            owner: number,
            place: 0,
        };
        to.first = number;
        to.last = number;
    }

    // Gives a list whose blocks are full another block.
    fn go_on(&mut self, to: &mut Chain)
        requires own { IsOf self.old to.old }
        requires long { 0 < to.old.length }
        requires full { to.old.length % 16 ≡ 0 }
        requires room { 0 < spare_of self.old }
        ensures { IsReady self.old self.new to.old to.new }
    {
        let Some(number) = self.free.pop() else {
            return;
        };
        let place = to.length / BLOCK;
        let last = self.blocks[to.last as usize];
        self.blocks[to.last as usize] = Block {
            next: number,
            owner: last.owner,
            place: last.place,
        };
        self.blocks[number as usize] = Block {
            next: 0,
            owner: to.first,
            place,
        };
        to.last = number;
    }

    // Writes the next item of the list, whose last block has room.
    fn write(&mut self, to: &mut Chain, item: Item)
        requires { HasBlocks self.old.blocks to.old.first to.old.last (to.old.length / 16 + 1) }
        ensures own { IsOf self.new to.new }
        ensures first { to.new.first ≡ to.old.first }
        ensures appended { list_of self.new to.new ≡ list_of self.old to.old ++ item ∷ [] }
        ensures others { (other : Links) → IsOf self.old other → to.old.first ≢ other.first → IsKept self.old self.new other }
        ensures spare { spare_of self.new ≡ spare_of self.old }
    {
        let at = to.last as usize * BLOCK + to.length % BLOCK;
        self.slots[at] = item;
        to.length += 1;
    }
}
