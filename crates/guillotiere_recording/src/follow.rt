//! A rearrangement in a replay: its list is compared with the recorded one, and the live names get their new ids.
ghost use Rattle.std.specs.Prelude.{◌≡◌, ◌↔◌, IsTrue, IfOk, IfErr, All, Some};
ghost use Rattle.std.specs.Ordering.{nat_cmp};
ghost use Rattle.std.specs.BTreeMap.{get, IsOrdered};
ghost use Rattle.guillotiere_recording.specs.Events.{list_value_of};
ghost use Rattle.guillotiere_recording.specs.Names.{AreRisingNames};
ghost use Rattle.guillotiere_recording.specs.Kept.{entries_in, HasEntries, IsRearranged, IsFollowed, IsUnlike};

use crate::moves::under_names;
use crate::names::LiveName;
use crate::steps::EventFault;
use guillotiere::{AllocId, ChangeList};
use std::alloc::{AllocError, Allocator};
use std::collections::BTreeMap;

/// The live names with their ids, by rising name.
pub fn list_names<A: Allocator + Copy>(
    alloc: A,
    names: &BTreeMap<u32, AllocId, A>,
) -> Result<Vec<LiveName, A>, AllocError>
    ensures list { IfOk result (λ entries. entries.items ≡ entries_in names.now) }
    ensures ordered { IfOk result (λ entries. IsOrdered nat_cmp names.now) }
    ensures found { IfOk result (λ entries. All (λ e. get nat_cmp names.now e.0 ≡ Some e.1) names.now.entries) }
{
    let mut entries = Vec::new(alloc);
    for (name, id) in names {
        entries.push(LiveName {
            name: *name,
            id: *id,
        })?;
    }
    Ok(entries)
}

/// The entries in a map.
pub fn map_names<A: Allocator + Copy>(
    alloc: A,
    entries: &[LiveName],
) -> Result<BTreeMap<u32, AllocId, A>, AllocError>
    requires { AreRisingNames entries.now }
    ensures { IfOk result (HasEntries entries.now) }
{
    let mut names = BTreeMap::new(alloc);
    for entry in entries {
        names.insert(entry.name, entry.id)?;
    }
    Ok(names)
}

/// Whether two change lists have the same changes and failures.
pub fn are_equal<A: Allocator + Copy>(one: &ChangeList<A>, other: &ChangeList<A>) -> bool
    ensures { IsTrue result ↔ (list_value_of one.now ≡ list_value_of other.now) }
{
    one == other
}

/// Compares the list of a rearrangement, under the names of the live ids, with the recorded one, and gives the names that
/// are live now.
pub fn follow<A: Allocator + Copy>(
    alloc: A,
    entries: &[LiveName],
    list: &ChangeList<A>,
    recorded: &ChangeList<A>,
) -> Result<BTreeMap<u32, AllocId, A>, EventFault>
    requires { IsRearranged entries.now list.now }
    ensures ok { IfOk result (IsFollowed entries.now list.now (list_value_of recorded.now)) }
    ensures fault { IfErr result (IsUnlike entries.now list.now (list_value_of recorded.now)) }
{
    let Ok(moved) = under_names(alloc, entries, list) else {
        return Err(EventFault::Memory);
    };
    if !are_equal(&moved.list, recorded) {
        return Err(EventFault::Differs);
    }
    Ok(map_names(alloc, &moved.names)?)
}
