//! The names of the live tables, each with the position of its load or replace. They are kept in order, so that no
//! choice of names makes a look-up slow.
ghost use Rattle.std.specs.Prelude.{◌≡◌, List, ℕ, bytes_eq, if◌then◌else◌, IsSome, None, OnErr, OnOk, Some};
ghost use Rattle.std.specs.BTreeMap.{get_by_text};

use column_set::Name;
use no_memory::NoMemory;
use std::alloc::Global;
use std::collections::BTreeMap;

/// Adds the name of a load at a position of the journal. If memory runs out, the names stay as they are.
pub fn add_name(
    alloc: Global,
    positions: &mut BTreeMap<String, u64>,
    name: &Name,
    at: u64,
) -> Result<(), NoMemory>
    ensures ok { OnOk result ((q : List ℕ) → get_by_text positions.new q ≡ (if bytes_eq name.now q then Some at else get_by_text positions.old q)) }
    ensures err { OnErr result ((q : List ℕ) → get_by_text positions.new q ≡ get_by_text positions.old q) }
{
    let key = String::from_str(alloc, name.text())?;
    positions.insert(key, at)?;
    Ok(())
}

/// Removes a name.
pub fn remove_name(positions: &mut BTreeMap<String, u64>, name: &Name)
    ensures { (q : List ℕ) → get_by_text positions.new q ≡ (if bytes_eq name.now q then None else get_by_text positions.old q) }
{
    positions.remove(name.text());
}

/// Gives a name that is present the position of its replace. It takes no memory.
pub fn move_name(positions: &mut BTreeMap<String, u64>, name: &Name, at: u64)
    requires { IsSome (get_by_text positions.old name.now) }
    ensures { (q : List ℕ) → get_by_text positions.new q ≡ (if bytes_eq name.now q then Some at else get_by_text positions.old q) }
{
    let Some(position) = positions.get_mut(name.text()) else {
        unreachable!()
    };
    *position = at;
}
