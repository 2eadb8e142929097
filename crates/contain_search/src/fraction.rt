//! What a column has to hold.
ghost use Rattle.std.specs.Prelude.{◌≡◌};
ghost use Rattle.contain_search.specs.Contained.{least_of};

use column_set::QuerySet;
use std::marker::Model;

/// The keys of a query, and the fraction of them, a of b parts and at least one key, that a column has to hold. Its
/// model is the keys and both numbers.
#[derive(Drop)]
pub(crate) struct Fraction<'q> {
    pub keys: &'q QuerySet,
    pub a: u32,
    pub b: u32,
}

impl<'q> Model for Fraction<'q> {
    ghost use Rattle.std.specs.Prelude.{◌≤◌};
    ghost use Rattle.contain_search.specs.Contained.{FractionOf, fraction_with};

    ghost Value = { FractionOf };

    ghost view = { λ f. fraction_with f.keys.now f.a f.b };

    ghost invariant = { λ f. (1 ≤ f.a) × (f.a ≤ f.b) × (f.b ≤ 10000) };
}

impl<'q> Fraction<'q> {
    /// Returns how many keys a column has to hold.
    pub(crate) fn least(&self) -> u32
        ensures { result ≡ least_of self.now }
    {
        let share = u64::from(self.a) * u64::from(self.keys.len());
        share.div_ceil(u64::from(self.b)).max(1) as u32
    }
}
