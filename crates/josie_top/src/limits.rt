//! The limits of a lake, which depend on how a run compares values.
ghost use Rattle.std.specs.Prelude.{◌≡◌, ◌<◌, ◌^◌};
ghost use Rattle.record_model.specs.Rules.{limits_of, wide_limits};
ghost use Rattle.catalogue.specs.Kept.{IsWithin};

use catalogue::Limits;
use lake_model::Keys;

/// Returns the limits of a lake in this program, whose values are compared by the given kind of keys. A lake with
/// compatibility keys has room for 262,144 live tables.
pub(crate) fn limits_of(keys: Keys) -> Limits
    ensures value { result ≡ limits_of keys }
    ensures narrow { result.updates < 2 ^ 32 }
    ensures wide { IsWithin wide_limits result }
{
    let mut limits = Limits::standard();
    match keys {
        Keys::Canonical => (),
        Keys::Compatibility => limits.live = 262_144,
    }
    limits
}
