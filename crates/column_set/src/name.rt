//! The name of a table, stored inline.
ghost use Rattle.std.specs.Prelude.{◌≡◌, ◌&&◌, ◌<◌, ◌↔◌, IfSome, IsSome, IsTrue, nat_le, true};
ghost use Rattle.std.specs.Cmp.Lexicographic.{slice_cmp};
ghost use Rattle.std.specs.List.{All, list_all};
ghost use Rattle.std.specs.Ordering.{nat_cmp};
ghost use Rattle.lake_model.specs.Tables.{is_name};
ghost use Rattle.list_laws.specs.Digits.{digit_at, digits};

use std::cmp::Ordering;
use std::marker::Model;
use std::str;

/// The most bytes that a name may have.
const MOST_BYTES: usize = 255;

/// How many bytes of a name are in its front: as many as fit, one more than each of them being a digit to base 129.
const FRONT_BYTES: usize = 9;

/// The name of a table: 1 to 255 bytes, each from `!` (0x21) to `~` (0x7E), that is, printable ASCII without the space.
/// Its model is the list of its bytes. It is stored inline and never allocates.
///
/// The first bytes are also kept as one number, the front, so that comparing two names mostly means comparing two
/// numbers, which lie in the same line of memory as the first bytes and the length.
#[derive(Drop)]
pub struct Name {
    front: u64,
    len: u8,
    bytes: [u8; 255],
}

impl Model for Name {
    ghost use Rattle.std.specs.Prelude.{◌≡◌, ◌≤◌, List, ℕ, take, true};
    ghost use Rattle.lake_model.specs.Tables.{is_name};
    ghost use Rattle.list_laws.specs.Digits.{digits};

    ghost Value = { List ℕ };

    ghost view = { λ n. take n.len n.bytes };

    ghost invariant = { λ n. (n.len ≤ 255) × (is_name (take n.len n.bytes) ≡ true) × (n.front ≡ digits 129 9 (take n.len n.bytes)) };
}

impl Name {
    /// Returns the name that consists of these bytes, or `None` if they are not a name.
    pub fn read(bytes: &[u8]) -> Option<Name>
        ensures name { IfSome result (λ name. name ≡ bytes.now) }
        ensures exact { IsSome result ↔ IsTrue (is_name bytes.now) }
    {
        if bytes.is_empty() || bytes.len() > MOST_BYTES || !are_printable(bytes) {
            return None;
        }
        let mut held = [0; 255];
        held[..bytes.len()].copy_from_slice(bytes);
        Some(Name {
            front: front_of(bytes),
            len: bytes.len() as u8,
            bytes: held,
        })
    }

    /// Returns the bytes of the name.
    pub fn bytes(&self) -> &[u8]
        ensures same { result.now ≡ self.now }
        ensures name { is_name self.now ≡ true }
    {
        &self.bytes[..self.len as usize]
    }

    /// Returns the name as a text.
    pub fn text(&self) -> &str
        ensures { result.now ≡ self.now }
    {
        match str::from_utf8(self.bytes()) {
            Ok(text) => text,
            Err(_) => unreachable!(),
        }
    }

    /// Compares two names by their bytes.
    pub fn order(&self, other: &Name) -> Ordering
        ensures { result ≡ slice_cmp nat_cmp self.now other.now }
    {
        match self.front.cmp(&other.front) {
            Ordering::Equal => self.bytes().cmp(other.bytes()),
            unequal => unequal,
        }
    }

    /// Returns a copy of the name. It does not allocate.
    pub fn copy(&self) -> Name
        ensures { result ≡ self.now }
    {
        Name {
            front: self.front,
            len: self.len,
            bytes: self.bytes,
        }
    }
}

// Returns whether every byte is printable ASCII other than the space.
fn are_printable(bytes: &[u8]) -> bool
    ensures { result ≡ list_all (λ byte. nat_le 0x21 byte && nat_le byte 0x7E) bytes.now }
{
    bytes.iter().all(|byte| 0x21 <= *byte && *byte <= 0x7e)
}

// Returns the first bytes as one number. Names are ordered as their fronts are, where these differ.
fn front_of(bytes: &[u8]) -> u64
    requires { All (λ byte. byte < 128) bytes.now }
    ensures { result ≡ digits 129 9 bytes.now }
{
    let mut front = 0u64;
    for i in 0..FRONT_BYTES {
        front = front * 129 + digit_at(bytes, i);
    }
    front
}

// Returns one more than the byte at an index, from 0, or 0 past the last byte.
fn digit_at(bytes: &[u8], i: usize) -> u64
    requires { All (λ byte. byte < 128) bytes.now }
    ensures value { result ≡ digit_at bytes.now i }
    ensures small { result < 129 }
{
    match bytes.get(i) {
        Some(byte) => u64::from(*byte) + 1,
        None => 0,
    }
}
