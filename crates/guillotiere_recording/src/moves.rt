//! What a rearrangement of the atlas did, under names in place of ids.
ghost use Rattle.std.specs.Prelude.{◌≡◌, ◌≤◌, ℕ, IfOk, IsOkUnless, All, Contains, IsPermutation, map};
ghost use Rattle.std.specs.List.Sorted.{IsNonDecreasingBy};
ghost use Rattle.guillotiere.specs.declared.Allocation.{Allocation as Grant};
ghost use Rattle.guillotiere.specs.declared.Change.{Change as Transfer};
ghost use Rattle.guillotiere_recording.specs.declared.names.LiveName.{LiveName as Entry};
ghost use Rattle.guillotiere_recording.specs.Names.{entries_of, name_among};
ghost use Rattle.guillotiere_recording.specs.Moves.{change_under, failure_under, entry_under, AreEntered, IsMoved};

use crate::error::RecordingError;
use crate::names::{LiveName, under_name};
use guillotiere::{Allocation, Change, ChangeList};
use std::alloc::Allocator;

/// What moved and what found no room, under names, and the names of what is live now, by rising name.
#[derive(Drop)]
pub struct Moved<A: Allocator + Copy> {
    pub list: ChangeList<A>,
    pub names: Vec<LiveName, A>,
}

// Puts entries in the order of their ids.
fn sort_by_id<A: Allocator>(entries: &mut Vec<LiveName, A>)
    ensures sorted { IsNonDecreasingBy (λ (n : Entry). n.id) entries.new.items }
    ensures same { IsPermutation entries.old.items entries.new.items }
{
    entries.sort_unstable_by_key(|entry| entry.id.serialize());
}

// Puts entries in the order of their names.
fn sort_by_name<A: Allocator>(entries: &mut Vec<LiveName, A>)
    ensures sorted { IsNonDecreasingBy (λ (n : Entry). n.name) entries.new.items }
    ensures same { IsPermutation entries.old.items entries.new.items }
{
    entries.sort_unstable_by_key(|entry| entry.name);
}

// The name of an id, by its number, that has an entry.
fn name_at(by_id: &[LiveName], number: u32) -> u32
    requires sorted { IsNonDecreasingBy (λ (n : Entry). n.id) by_id.now }
    requires entered { 1 ≤ entries_of number by_id.now }
    ensures { Contains by_id.now (record { name = result; id = number }) }
{
    let at = by_id.partition_point(|entry| entry.id.serialize() < number);
    by_id[at].name
}

// Changes under names, in their order.
fn name_changes<A: Allocator + Copy>(
    alloc: A,
    by_id: &[LiveName],
    changes: &[Change],
) -> Result<Vec<Change, A>, RecordingError>
    requires sorted { IsNonDecreasingBy (λ (n : Entry). n.id) by_id.now }
    requires entered { All (λ (c : Transfer). 1 ≤ entries_of c.old.id by_id.now) changes.now }
    requires once { (id : ℕ) → entries_of id by_id.now ≤ 1 }
    ensures unless { IsOkUnless result RecordingError.Memory }
    ensures list { IfOk result (λ named. named.items ≡ map (change_under (name_among by_id.now)) changes.now) }
{
    let mut named = Vec::new(alloc);
    for change in changes {
        let name = name_at(by_id, change.old.id.serialize());
        named.push(Change {
            old: under_name(name, &change.old),
            new: under_name(name, &change.new),
        })?;
    }
    Ok(named)
}

// Failures under names, in their order.
fn name_failures<A: Allocator + Copy>(
    alloc: A,
    by_id: &[LiveName],
    failures: &[Allocation],
) -> Result<Vec<Allocation, A>, RecordingError>
    requires sorted { IsNonDecreasingBy (λ (n : Entry). n.id) by_id.now }
    requires entered { All (λ (a : Grant). 1 ≤ entries_of a.id by_id.now) failures.now }
    requires once { (id : ℕ) → entries_of id by_id.now ≤ 1 }
    ensures unless { IsOkUnless result RecordingError.Memory }
    ensures list { IfOk result (λ named. named.items ≡ map (failure_under (name_among by_id.now)) failures.now) }
{
    let mut named = Vec::new(alloc);
    for failure in failures {
        let name = name_at(by_id, failure.id.serialize());
        named.push(under_name(name, failure))?;
    }
    Ok(named)
}

// The entries of what was moved, in its order.
fn name_entries<A: Allocator + Copy>(
    alloc: A,
    by_id: &[LiveName],
    changes: &[Change],
) -> Result<Vec<LiveName, A>, RecordingError>
    requires sorted { IsNonDecreasingBy (λ (n : Entry). n.id) by_id.now }
    requires entered { All (λ (c : Transfer). 1 ≤ entries_of c.old.id by_id.now) changes.now }
    requires once { (id : ℕ) → entries_of id by_id.now ≤ 1 }
    ensures unless { IsOkUnless result RecordingError.Memory }
    ensures list { IfOk result (λ entries. entries.items ≡ map (entry_under (name_among by_id.now)) changes.now) }
{
    let mut entries = Vec::new(alloc);
    for change in changes {
        let name = name_at(by_id, change.old.id.serialize());
        entries.push(LiveName {
            name,
            id: change.new.id,
        })?;
    }
    Ok(entries)
}

/// What a rearrangement did, under the names of the ids that were live. `Memory` is the only error.
pub fn under_names<A: Allocator + Copy>(
    alloc: A,
    names: &[LiveName],
    answer: &ChangeList<A>,
) -> Result<Moved<A>, RecordingError>
    requires { AreEntered names.now answer.now.changes.items answer.now.failures.items }
    ensures unless { IsOkUnless result RecordingError.Memory }
    ensures moved { IfOk result (IsMoved names.now answer.now) }
{
    let mut by_id = Vec::from_slice(alloc, names)?;
    sort_by_id(&mut by_id);
    let changes = name_changes(alloc, &by_id, &answer.changes)?;
    let failures = name_failures(alloc, &by_id, &answer.failures)?;
    let mut entries = name_entries(alloc, &by_id, &answer.changes)?;
    sort_by_name(&mut entries);
    Ok(Moved {
        list: ChangeList { changes, failures },
        names: entries,
    })
}
