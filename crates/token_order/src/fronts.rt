//! The fronts of keys. The front of a key is its first 15 bytes as one number, so that comparing two keys mostly means
//! comparing two numbers.
ghost use Rattle.std.specs.Prelude.{◌≡◌, ◌<◌, ◌^◌, drop};
ghost use Rattle.std.specs.List.{All};
ghost use Rattle.list_laws.specs.Digits.{digit_at, digits};
ghost use Rattle.token_order.specs.Fronts.{front_of};

/// How many bytes of a key are in its front.
const FRONT_BYTES: usize = 15;

/// How many numbers have five digits in base 257.
const FIVE_DIGITS: u128 = 257 * 257 * 257 * 257 * 257;

/// Returns the front of a key: twice the number made of its first 15 bytes, plus one if more bytes may follow. Fronts
/// are ordered as the keys are, and keys whose fronts are equal and even are equal.
pub fn front_of(key: &str) -> u128
    ensures value { result ≡ front_of key.now }
    ensures bytes { All (λ byte. byte < 256) key.now }
{
    let bytes = key.as_bytes();
    let digits = first_digits(bytes);
    if bytes.len() < FRONT_BYTES {
        digits * 2
    } else {
        digits * 2 + 1
    }
}

// Returns the first 15 bytes as a number of 15 digits in base 257. Each digit is one more than its byte, and 0 past the
// last byte. Its three parts do not wait for one another, and take no products of 128 bits.
fn first_digits(bytes: &[u8]) -> u128
    ensures value { result ≡ digits 257 15 bytes.now }
    ensures small { result < 2 ^ 125 }
{
    let first = five_digits(bytes, 0);
    let second = five_digits(bytes, 5);
    let third = five_digits(bytes, 10);
    (first as u128 * FIVE_DIGITS + second as u128) * FIVE_DIGITS + third as u128
}

// Returns five bytes as a number of five such digits. The first of them is at an index, from 0.
fn five_digits(bytes: &[u8], from: usize) -> u64
    requires { from < 2 ^ 32 }
    ensures value { result ≡ digits 257 5 (drop from bytes.now) }
    ensures small { result < 257 ^ 5 }
{
    let mut digits = 0u64;
    for i in 0..5 {
        digits = digits * 257 + digit_at(bytes, from + i);
    }
    digits
}

// Returns one more than the byte at an index, from 0, or 0 past the last byte.
fn digit_at(bytes: &[u8], i: usize) -> u64
    ensures value { result ≡ digit_at bytes.now i }
    ensures small { result < 257 }
{
    match bytes.get(i) {
        Some(byte) => *byte as u64 + 1,
        None => 0,
    }
}
