//! The search of a rising list of tokens for others that rise as well.
ghost use Rattle.std.specs.Prelude.{◌≡◌, ◌<◌, ◌≤◌, ℕ, get_or, length};
ghost use Rattle.std.specs.List.Sorted.{IsStrictlyIncreasing};
ghost use Rattle.lake_model.specs.Layout.{is_among};

/// The result of a search for a token: whether it was found, and the tokens behind its place.
#[derive(Clone, Copy)]
pub struct Sought<'a> {
    pub found: bool,
    pub rest: &'a [u32],
}

/// Looks for a token among these, which rise. Greater ones can then be looked for among the rest. It costs the logarithm
/// of the number of tokens that are skipped, so a walk over two lists costs little more than the shorter one.
pub fn seek(tokens: &[u32], token: u32) -> Sought<'_>
    requires { IsStrictlyIncreasing tokens.now }
    ensures found { result.found ≡ is_among tokens.now token }
    ensures rising { IsStrictlyIncreasing result.rest.now }
    ensures rest { (other : ℕ) → token < other → is_among result.rest.now other ≡ is_among tokens.now other }
{
    let near = &tokens[..reach(tokens, token)];
    match near.binary_search(&token) {
        Ok(at) => Sought {
            found: true,
            rest: &tokens[at + 1..],
        },
        Err(at) => Sought {
            found: false,
            rest: &tokens[at..],
        },
    }
}

// Returns a number of first tokens behind which all are greater than the given one.
fn reach(tokens: &[u32], token: u32) -> usize
    requires { IsStrictlyIncreasing tokens.now }
    ensures within { result ≤ length tokens.now }
    ensures behind { (i : ℕ) → result ≤ i → i < length tokens.now → token < get_or tokens.now i 0 }
{
    let mut count = 1usize;
    while count < tokens.len() && tokens[count] <= token {
        count = count.saturating_mul(2);
    }
    count.min(tokens.len())
}
