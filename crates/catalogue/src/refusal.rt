//! The reasons for which a load, a drop, a replace or a swap is refused.
use lake_model::Which;
use no_memory::NoMemory;

/// Says why a load is refused. In the first two cases `at` is the number of entries of the journal.
#[derive(Clone, Copy, Debug, PartialEq, Eq)]
pub enum LoadRefused {
    /// A table of the name is live.
    Repeated {
        at: u64,
    },
    /// The count against a limit of the lake is `count`; adding `more`, which the load would add, would pass the limit.
    /// Of the limits that would be passed it is the first, in the order of `Which`.
    Full {
        which: Which,
        count: u64,
        more: u64,
        at: u64,
    },
    /// Memory ran out.
    NoMemory,
}

/// Says why a drop is refused. In the first two cases `at` is the number of entries of the journal.
#[derive(Clone, Copy, Debug, PartialEq, Eq)]
pub enum DropRefused {
    /// No table of the name is live.
    Unknown {
        at: u64,
    },
    /// The count against a limit of the lake is `count`; adding `more`, which the drop would add, would pass the limit.
    /// The only limit that a drop can pass is that of the loads, drops and replaces.
    Full {
        which: Which,
        count: u64,
        more: u64,
        at: u64,
    },
    /// Memory ran out.
    NoMemory,
}

/// Says why a replace is refused. In the first two cases `at` is the number of entries of the journal.
#[derive(Clone, Copy, Debug, PartialEq, Eq)]
pub enum ReplaceRefused {
    /// No table of the name is live.
    Unknown {
        at: u64,
    },
    /// The count against a limit of the lake is `count`; adding `more`, which the replace would add, would pass the
    /// limit. Of the limits that would be passed it is the first, in the order of `Which`. A replace cannot pass that
    /// of the live tables.
    Full {
        which: Which,
        count: u64,
        more: u64,
        at: u64,
    },
    /// Memory ran out.
    NoMemory,
}

/// A limit of the lake that would be passed: the count against it, and what would be added.
#[derive(Clone, Copy)]
pub struct Passed {
    pub which: Which,
    pub count: u64,
    pub more: u64,
}

/// Says why a swap is refused.
#[derive(Clone, Copy, Debug, PartialEq, Eq)]
pub enum SwapRefused {
    /// The layout of the journal, which has `at` entries, lacks a planned part; `gone` is the number of the first such
    /// part.
    Stale { gone: u64, at: u64 },
    /// Memory ran out.
    NoMemory,
}

impl From<NoMemory> for LoadRefused {
    ghost use Rattle.std.specs.Prelude.{◌≡◌};
    ghost use Rattle.catalogue.specs.declared.refusal.LoadRefused.TheVariants as refused;

    ghost from_gives = { λ _ e. e ≡ refused.NoMemory };

    fn from(_error: NoMemory) -> LoadRefused {
        LoadRefused::NoMemory
    }
}

impl From<NoMemory> for DropRefused {
    ghost use Rattle.std.specs.Prelude.{◌≡◌};
    ghost use Rattle.catalogue.specs.declared.refusal.DropRefused.TheVariants as refused;

    ghost from_gives = { λ _ e. e ≡ refused.NoMemory };

    fn from(_error: NoMemory) -> DropRefused {
        DropRefused::NoMemory
    }
}

impl From<NoMemory> for ReplaceRefused {
    ghost use Rattle.std.specs.Prelude.{◌≡◌};
    ghost use Rattle.catalogue.specs.declared.refusal.ReplaceRefused.TheVariants as refused;

    ghost from_gives = { λ _ e. e ≡ refused.NoMemory };

    fn from(_error: NoMemory) -> ReplaceRefused {
        ReplaceRefused::NoMemory
    }
}

impl From<NoMemory> for SwapRefused {
    ghost use Rattle.std.specs.Prelude.{◌≡◌};
    ghost use Rattle.catalogue.specs.declared.refusal.SwapRefused.TheVariants as refused;

    ghost from_gives = { λ _ e. e ≡ refused.NoMemory };

    fn from(_error: NoMemory) -> SwapRefused {
        SwapRefused::NoMemory
    }
}
