//! A turn at the lock: the value, while its pass holds the lock.
ghost use Rattle.std.specs.Prelude.{◌≡◌};

/// The value, lent to the pass that took it.
///
/// It has no `Drop`, so it must be given back: a program that drops it fails the check.
pub struct Turn<V> {
    pub(crate) value: V,
}

impl<V> Turn<V> {
    ghost use Rattle.std.specs.Borrow.{sem};
    ghost use Rattle.turn_lock.specs.Lending.{LendsValue};

    /// Lends the value, to read and to change. The turn then holds what was last written through the reference.
    pub fn value(&mut self) -> &mut V
        ensures* writes_back { sem 𝓛 (LendsValue V.row self.entry result) }
        ensures value { result.now ≡ self.old.value }
    {
        &mut self.value
    }
}
