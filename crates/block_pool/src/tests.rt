//! Two lists in a pool: worked by hand, and compared with vectors while they grow and are given back in a random order.
ghost use Rattle.std.specs.Prelude.{◌≡◌};
ghost use Rattle.block_pool.specs.Chains.{AreTwo, IsOf, KeepsOthers};

use crate::{Chain, Item, Pool};
use std::mem::replace;
use std::test::Fail;

// Adds `count` items, if they fit.
fn push_many(pool: &mut Pool, to: &mut Chain, count: u32) -> Result<(), Fail>
    requires { IsOf pool.old to.old }
    ensures own { IsOf pool.new to.new }
    ensures others { KeepsOthers pool.old pool.new to.old to.new }
{
    for i in 0..count {
        push_one(pool, to, [i, i / 2, 7])?;
    }
    Ok(())
}

// Adds an item, if it fits.
fn push_one(pool: &mut Pool, to: &mut Chain, item: Item) -> Result<(), Fail>
    requires { IsOf pool.old to.old }
    ensures own { IsOf pool.new to.new }
    ensures others { KeepsOthers pool.old pool.new to.old to.new }
{
    if pool.spare() == 0 && pool.room(to) == 0 {
        return Err(Fail::from("no room"));
    }
    pool.push(to, item);
    Ok(())
}

// Empties a list, and gives its blocks back.
fn empty(pool: &mut Pool, what: &mut Chain)
    requires { IsOf pool.old what.old }
    ensures own { IsOf pool.new what.new }
    ensures others { KeepsOthers pool.old pool.new what.old what.new }
{
    let full = replace(what, pool.chain());
    pool.give_back(full);
}

// Returns whether a list has exactly these items.
fn holds(pool: &Pool, of: &Chain, expected: &[Item]) -> bool
    requires { IsOf pool.now of.now }
{
    let mut items = pool.items(of);
    for item in expected {
        if items.next() != Some(*item) {
            return false;
        }
    }
    items.next().is_none()
}

// Adds an item to a list and to a vector, or empties both.
fn change(
    pool: &mut Pool,
    one: &mut Chain,
    expected: &mut Vec<Item>,
    drawn: u32,
) -> Result<(), Fail>
    requires { IsOf pool.old one.old }
    ensures own { IsOf pool.new one.new }
    ensures others { KeepsOthers pool.old pool.new one.old one.new }
{
    if drawn % 64 == 0 {
        empty(pool, one);
        expected.clear();
        return Ok(());
    }
    push_one(pool, one, [drawn, 1, 2])?;
    expected.push([drawn, 1, 2])?;
    Ok(())
}

// Changes one of two lists.
fn change_either(
    pool: &mut Pool,
    a: &mut Chain,
    b: &mut Chain,
    of_a: &mut Vec<Item>,
    of_b: &mut Vec<Item>,
    drawn: u32,
) -> Result<(), Fail>
    requires { AreTwo pool.old a.old b.old }
    ensures { AreTwo pool.new a.new b.new }
{
    if drawn >> 31 == 0 {
        return change(pool, a, of_a, drawn >> 8);
    }
    change(pool, b, of_b, drawn >> 8)
}

// Seventeen items take two blocks, and leave room for fifteen more.
#[test]
fn blocks(rt: HostRuntime) -> Result<(), Fail> {
    let mut pool = Pool::new(rt.alloc());
    if pool.blocks() > 1000 {
        return Err(Fail::from("not empty"));
    }
    pool.reserve(3)?;
    let mut a = pool.chain();
    let mut b = pool.chain();
    push_many(&mut pool, &mut a, 17)?;
    assert_eq!(rt; (pool.spare(), pool.room(&a)), (1, 15));
    push_many(&mut pool, &mut b, 1)?;
    assert_eq!(rt; pool.spare(), 0);
    assert_eq!(rt; (a.len(), b.len()), (17, 1));
    assert!(rt; holds(&pool, &b, &[[0, 0, 7]]));
    pool.give_back(a);
    assert_eq!(rt; pool.spare(), 2);
    Ok(())
}

#[test]
fn random_changes(rt: HostRuntime) -> Result<(), Fail> {
    let mut pool = Pool::new(rt.alloc());
    if pool.blocks() > 1000 {
        return Err(Fail::from("not empty"));
    }
    pool.reserve(200)?;
    let mut a = pool.chain();
    let mut b = pool.chain();
    let mut of_a = Vec::new(rt.alloc());
    let mut of_b = Vec::new(rt.alloc());
    let mut drawn = 1u32;
    for _ in 0..3000 {
        drawn = drawn.wrapping_mul(1664525).wrapping_add(1013904223);
        change_either(&mut pool, &mut a, &mut b, &mut of_a, &mut of_b, drawn)?;
        assert!(rt; holds(&pool, &a, &of_a) && holds(&pool, &b, &of_b));
    }
    Ok(())
}
