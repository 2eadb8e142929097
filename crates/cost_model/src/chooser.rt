//! What a chooser is, and the three choosers without state.
ghost use Rattle.std.specs.Prelude.{◌≡◌, ◌<◌, Bool, IfSome, false};
ghost use Rattle.search_model.specs.Choosers.{never, profile};
ghost use Rattle.search_model.specs.declared.Summary.{Summary as SummaryOf};
ghost use Rattle.cost_model.specs.Answers.{always};

use search_model::Summary;

/// Decides whether the best open column is probed or the next list is read.
pub trait Chooser {
    /// The answer to a summary: whether to probe.
    ghost says: { Self → SummaryOf → Bool };

    /// Returns whether to probe. It takes no memory.
    fn probe(&self, summary: &Summary) -> bool
        ensures { result ≡ says self.now summary.now };

    /// Returns a number such that the chooser surely reads if the best column has more tokens left than this, the next
    /// list has length `next_len`, and a probe gains nothing (`gain` is 0); `None` if it promises nothing. It takes no
    /// memory.
    fn reads_beyond(&self, next_len: u32) -> Option<u64>
        ensures { IfSome result (λ rest. (summary : SummaryOf) → summary.next_len ≡ next_len → summary.gain ≡ 0 → rest < summary.rest → says self.now summary ≡ false) };
}

/// Probes exactly if a probe costs no more than the next list, or no more than the lists that the estimated overlap
/// would spare.
#[derive(Clone, Copy, Debug)]
pub struct Profile;

impl Chooser for Profile {
    ghost says = { λ _ summary. profile summary };

    fn probe(&self, summary: &Summary) -> bool {
        let probe = 64 + u64::from(summary.rest);
        let read = 64 + 4 * u64::from(summary.next_len);
        probe <= read || probe <= summary.gain
    }

    fn reads_beyond(&self, next_len: u32) -> Option<u64> {
        Some(4 * u64::from(next_len))
    }
}

/// Never probes: a search with it only reads lists.
#[derive(Clone, Copy, Debug)]
pub struct AlwaysRead;

impl Chooser for AlwaysRead {
    ghost says = { λ _ summary. never summary };

    fn probe(&self, _summary: &Summary) -> bool {
        false
    }

    fn reads_beyond(&self, _next_len: u32) -> Option<u64> {
        Some(0)
    }
}

/// Probes whenever a column is open.
#[derive(Clone, Copy, Debug)]
pub struct AlwaysProbe;

impl Chooser for AlwaysProbe {
    ghost says = { λ _ summary. always summary };

    fn probe(&self, _summary: &Summary) -> bool {
        true
    }

    fn reads_beyond(&self, _next_len: u32) -> Option<u64> {
        None
    }
}
