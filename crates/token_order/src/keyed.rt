//! Members with the fronts of their keys, so that sorting them seldom reads the keys.
ghost use Rattle.std.specs.Prelude.{◌≡◌, ◌<◌, bytes_eq};
ghost use Rattle.std.specs.Cmp.Lexicographic.{slice_cmp};
ghost use Rattle.std.specs.Ordering.{nat_cmp};
ghost use Rattle.std.specs.List.{All};
ghost use Rattle.token_order.specs.Fronts.{front_of, rest_by};
ghost use Rattle.token_order.specs.Keyed.{compared_with, front_held, IsKeyed};
ghost use Rattle.token_order.specs.Places.{pointed_by};

use crate::columns::ColumnAt;
use crate::fronts::front_of;
use crate::places::key_at;
use column_set::SharedTable;
use search_model::TokenAt;
use std::cmp::Ordering;

/// A member, with the front of its key in two halves, which take less room than one number of 128 bits.
#[derive(Clone, Copy)]
pub struct Keyed {
    pub high: u64,
    pub low: u64,
    pub member: TokenAt,
}

impl Keyed {
    /// Makes a member with the front of its key.
    #[inline]
    pub fn of_key(key: &str, member: TokenAt) -> Keyed
        ensures member { result.member ≡ member }
        ensures front { front_held result ≡ front_of key.now }
        ensures bytes { All (λ byte. byte < 256) key.now }
    {
        let front = front_of(key);
        Keyed {
            high: (front / 0x1_0000_0000_0000_0000) as u64,
            low: (front % 0x1_0000_0000_0000_0000) as u64,
            member,
        }
    }

    /// Returns the front.
    #[inline(always)]
    pub fn front(&self) -> u128
        ensures { result ≡ front_held self.now }
    {
        self.high as u128 * 0x1_0000_0000_0000_0000 + self.low as u128
    }
}

/// Compares members by their fronts, and then by their keys, which are read only if the fronts are equal and more bytes
/// may follow. The order is that of the bytes of their keys.
#[inline(always)]
pub fn order(tables: &[SharedTable], columns: &[ColumnAt], a: &Keyed, b: &Keyed) -> Ordering
    ensures { result ≡ slice_cmp nat_cmp (compared_with tables.now columns.now a.now) (compared_with tables.now columns.now b.now) }
{
    let front = a.front();
    match front.cmp(&b.front()) {
        Ordering::Equal => order_by_rest(tables, columns, front, a.member, b.member),
        unequal => unequal,
    }
}

// Compares members that have the same front.
#[inline(never)]
fn order_by_rest(
    tables: &[SharedTable],
    columns: &[ColumnAt],
    front: u128,
    a: TokenAt,
    b: TokenAt,
) -> Ordering
    ensures { result ≡ slice_cmp nat_cmp (rest_by front (pointed_by tables.now columns.now a)) (rest_by front (pointed_by tables.now columns.now b)) }
{
    if front % 2 == 0 {
        return Ordering::Equal;
    }
    key_at(tables, columns, a).cmp(key_at(tables, columns, b))
}

/// Returns whether two members have the same key.
pub fn same_key(tables: &[SharedTable], columns: &[ColumnAt], a: &Keyed, b: &Keyed) -> bool
    requires first { IsKeyed tables.now columns.now a.now }
    requires second { IsKeyed tables.now columns.now b.now }
    ensures { result ≡ bytes_eq (pointed_by tables.now columns.now a.now.member) (pointed_by tables.now columns.now b.now.member) }
{
    order(tables, columns, a, b).is_eq()
}
