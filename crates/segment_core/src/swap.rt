//! The effect of a swap on a version: adjacent parts are replaced by one part or by none.
ghost use Rattle.std.specs.Prelude.{◌≡◌, ◌<◌, ◌≤◌, ◌+◌, length, OnErr, OnOk};
ghost use Rattle.lake_model.specs.Layout.{positions_of};
ghost use Rattle.segment_core.specs.Distinct.{unmarked_names};
ghost use Rattle.list_laws.specs.Distinct.{AreDistinct};
ghost use Rattle.segment_core.specs.Plans.{replaced};
ghost use Rattle.segment_core.specs.Versions.{version_with};

use crate::version::{Part, Version};
use no_memory::NoMemory;
use std::sync::Arc;

impl Version {
    /// Moves the version to position `at` and replaces the `count` parts from index `first` on, counted from 0, by
    /// `part`, or removes them if it is `None`. The list of the parts is copied only if the version has another owner,
    /// such as a pin; the segments never are. If memory runs out, the version is unchanged.
    pub fn swap(
        version: &mut Arc<Version>,
        at: u64,
        first: u32,
        count: u32,
        part: Option<Part>,
    ) -> Result<(), NoMemory>
        requires some { 0 < count }
        requires within { first + count ≤ length version.old.value.parts }
        requires positions { AreDistinct (positions_of (replaced first count part version.old.value.parts)) }
        requires names { AreDistinct (unmarked_names (replaced first count part version.old.value.parts)) }
        ensures ok { OnOk result (version.new.value ≡ version_with at (replaced first count part version.old.value.parts)) }
        ensures err { OnErr result (version.new.value ≡ version.old.value) }
    {
        let own = Arc::make_mut(version)?;
        own.replace(at, first, count, part)
    }
}
