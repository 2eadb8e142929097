//! The block of a command.
ghost use Rattle.std.specs.Prelude.{◌≡◌, ◌<◌, ◌≤◌, ◌↔◌, IfSome, IsNone, length};

use std::marker::Model;

/// The most bytes that a body may have: 64 MiB.
const MOST_BODY_BYTES: usize = 67108864;

/// The contents of a block: any bytes, at most 67,108,864 of them. Its model is the list of the bytes.
#[derive(Drop)]
pub struct Body {
    bytes: Vec<u8>,
}

impl Model for Body {
    ghost use Rattle.std.specs.Prelude.{◌≤◌, List, ℕ, length};

    ghost Value = { List ℕ };

    ghost view = { λ b. b.bytes.items };

    ghost invariant = { λ b. length b.bytes.items ≤ 67108864 };
}

impl Body {
    /// Returns a body of these bytes, or `None` if there are more than 67,108,864.
    pub fn new(bytes: Vec<u8>) -> Option<Body>
        ensures body { IfSome result (λ body. body ≡ bytes.items) }
        ensures exact { IsNone result ↔ (67108864 < length bytes.items) }
    {
        if bytes.len() > MOST_BODY_BYTES {
            return None;
        }
        Some(Body { bytes })
    }

    /// Returns the bytes.
    pub fn bytes(&self) -> &[u8]
        ensures value { result.now ≡ self.now }
        ensures short { length self.now ≤ 67108864 }
    {
        &self.bytes
    }
}
