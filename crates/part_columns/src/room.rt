//! The room that a search takes.
ghost use Rattle.std.specs.Prelude.{◌≡◌, ◌<◌, length};
ghost use Rattle.std.specs.List.{All};
ghost use Rattle.part_columns.specs.Room.{IsMost, probes_bound};
ghost use Rattle.segment_core.specs.Versions.{part_at, segment_at};

use segment_core::Looks;

/// Returns how many columns of a part a search for these tokens can probe at most.
pub fn most_probes(looks: &Looks<'_>, part: u32, tokens: &[u32]) -> u32
    requires part { part < length looks.now.version.parts }
    requires tokens { All (λ token. token < length (segment_at looks.now.version.parts part).tokens) tokens.now }
    ensures { result ≡ probes_bound (part_at looks.now.version.parts part) tokens.now }
{
    let columns = looks.sets(part);
    let mut most = 0;
    for token in tokens {
        most += looks.list_len(part, *token).min(columns - most);
    }
    most
}

/// Returns how many columns the part with the most columns has.
pub fn most_columns(looks: &Looks<'_>) -> u32
    ensures { IsMost looks.now.version.parts result }
{
    let mut most = 0;
    for part in 0..looks.parts() {
        most = most.max(looks.sets(part));
    }
    most
}
