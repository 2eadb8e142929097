//! What the lock requires of the value that it holds.
ghost use Rattle.std.specs.Prelude.{◌≡◌, ℕ, ◌<◌, ◌^◌, List, length};

/// A value whose model is a list of entries, each belonging to one caller. The lock keeps the history of this list.
pub trait Kept: Drop {
    /// One entry of the list.
    type Entry;

    // The list that is the value's model. Only contracts see it.
    ghost list: { Self → List Self.Entry };

    // The number of the caller that an entry belongs to.
    ghost caller_of: { Self.Entry → ℕ };

    /// Returns the length of the list. It takes no memory.
    fn entries(&self) -> u64
        requires { length (list self.now) < 2 ^ 62 }
        ensures { result ≡ length (list self.now) };
}
