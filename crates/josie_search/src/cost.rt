//! What a chooser sees.
ghost use Rattle.std.specs.Prelude.{◌≡◌, ◌<◌, ◌≤◌, ◌+◌, ◌^◌, List, ℕ, get_or, length, map, vec_capacity};
ghost use Rattle.std.specs.List.{All};
ghost use Rattle.search_model.specs.Choosers.{read_cost};
ghost use Rattle.search_model.specs.Looks.{estimate, spared};
ghost use Rattle.segment_core.specs.Versions.{segment_at};
ghost use Rattle.josie_search.specs.Costs.{gain_of, lengths_of, summary_of, AreSums};

use cost_model::Summary;
use part_columns::Tally;
use search_bounds::bound;
use segment_core::Looks;

/// Returns how many columns hold a token: the length of its posting list.
pub(crate) fn length_of(looks: &Looks<'_>, part: u32, token: u32) -> u32
    requires part { part < length looks.now.version.parts }
    requires token { token < length (segment_at looks.now.version.parts part).tokens }
    ensures { result ≡ get_or (map (λ t. t.frequency) (segment_at looks.now.version.parts part).tokens) token 0 }
{
    looks.list_len(part, token)
}

// Returns what it costs to read a list of this length.
fn read_cost(length: u32) -> u64
    ensures value { result ≡ read_cost length }
    ensures small { result ≤ 2 ^ 35 }
{
    64 + 4 * u64::from(length)
}

/// Puts what it costs to read the first lists of these tokens into `sums`, for each number of lists from 0 on.
pub(crate) fn sum_costs(looks: &Looks<'_>, part: u32, tokens: &[u32], sums: &mut Vec<u64>)
    requires part { part < length looks.now.version.parts }
    requires few { length tokens.now ≤ 4194304 }
    requires tokens { All (λ token. token < length (segment_at looks.now.version.parts part).tokens) tokens.now }
    requires room { length tokens.now < vec_capacity sums.old }
    ensures sums { AreSums (lengths_of (segment_at looks.now.version.parts part) tokens.now) sums.new.items }
    ensures room { vec_capacity sums.old ≤ vec_capacity sums.new }
{
    let mut sum = 0;
    sums.clear();
    sums.push_reserved(sum);
    for token in tokens {
        sum += read_cost(length_of(looks, part, *token));
        sums.push_reserved(sum);
    }
}

// Returns what the unread lists cost that an overlap of `estimate` would spare, given the sums of the costs.
fn spared(sums: &[u64], read: u32, threshold: u32, estimate: u32) -> u64
    requires few { length sums.now ≤ 4194305 }
    requires sums { (lengths : List ℕ) × AreSums lengths sums.now }
    requires read { read < length sums.now }
    ensures { (lengths : List ℕ) → AreSums lengths sums.now → result ≡ spared lengths read threshold estimate }
{
    // Where n lists were read, so many are left: sums.len() - 1 - n. A list is spared if at least the threshold and
    // fewer than the estimate are left before it.
    let places = sums.len() as u32;
    let first = read.max(places.saturating_sub(estimate));
    let end = places.saturating_sub(threshold.max(1));
    if first < end {
        sums[end as usize] - sums[first as usize]
    } else {
        0
    }
}

// Returns the overlap that a column is assumed to have, given how many of the lists read so far hold it.
fn estimate(count: u32, most: u32, lists: u32, read: u32) -> u32
    requires { 0 < read }
    ensures { result ≡ estimate count most lists read }
{
    let guess = u64::from(count) * u64::from(lists) / u64::from(read);
    count.max(guess.min(u64::from(most)) as u32)
}

// Returns the cost of the lists that the estimate would spare, if k rows are known and the last of them has overlap
// `worst`; else 0.
fn gain(sums: &[u64], read: u32, worst: Option<u32>, estimate: u32) -> u64
    requires few { length sums.now ≤ 4194305 }
    requires sums { (lengths : List ℕ) × AreSums lengths sums.now }
    requires read { read < length sums.now }
    ensures { (lengths : List ℕ) → AreSums lengths sums.now → result ≡ gain_of worst lengths read estimate }
{
    match worst {
        Some(worst) if estimate > worst => spared(sums, read, worst, estimate),
        _ => 0,
    }
}

/// Returns what a chooser sees of the best open column, whose tally after the lists read so far is `tally`; `sums` has
/// what the first lists cost, and `worst` is the overlap of the k-th known row.
pub(crate) fn summarize(
    looks: &Looks<'_>,
    part: u32,
    tokens: &[u32],
    sums: &[u64],
    read: u32,
    tally: Tally,
    worst: Option<u32>,
) -> Summary
    requires part { part < length looks.now.version.parts }
    requires few { length tokens.now ≤ 4194304 }
    requires tokens { All (λ token. token < length (segment_at looks.now.version.parts part).tokens) tokens.now }
    requires sums { AreSums (lengths_of (segment_at looks.now.version.parts part) tokens.now) sums.now }
    requires some { 0 < read }
    requires read { read < length tokens.now }
    requires small { tally.count ≤ read }
    ensures { result ≡ summary_of (lengths_of (segment_at looks.now.version.parts part) tokens.now) read tally worst }
{
    let lists = tokens.len() as u32;
    let left = lists - read;
    let most = bound(tally.count, left, tally.rest);
    let estimate = estimate(tally.count, most, lists, read);
    Summary {
        next_len: length_of(looks, part, tokens[read as usize]),
        left,
        c: tally.count,
        u: most,
        rest: tally.rest,
        t: worst.unwrap_or(1),
        gain: gain(sums, read, worst, estimate),
    }
}
