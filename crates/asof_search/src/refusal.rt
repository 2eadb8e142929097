//! The reasons for which there is no pin of the past.
use no_memory::NoMemory;

/// Says why there is no pin of an earlier position.
#[derive(Clone, Copy, Debug, PartialEq, Eq)]
pub enum PastRefused {
    /// More entries were asked for than were taken; `at` is how many were taken.
    Later { at: u64 },
    /// Memory ran out.
    NoMemory,
}

impl From<NoMemory> for PastRefused {
    ghost use Rattle.std.specs.Prelude.{◌≡◌};
    ghost use Rattle.asof_search.specs.declared.refusal.PastRefused.TheVariants as refused;

    ghost from_gives = { λ _ e. e ≡ refused.NoMemory };

    fn from(_error: NoMemory) -> PastRefused {
        PastRefused::NoMemory
    }
}
