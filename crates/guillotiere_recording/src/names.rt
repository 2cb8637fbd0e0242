//! The names of live ids, by rising name.
ghost use Rattle.std.specs.Prelude.{◌≡◌, ◌++◌, ◌∷◌, [], ◌<◌, length, vec_capacity, vec_len, IfSome, IfNone, All};
ghost use Rattle.std.specs.List.{HoldsAt};
ghost use Rattle.guillotiere_recording.specs.Names.{AreRisingNames};
ghost use Rattle.guillotiere_recording.specs.declared.names.LiveName.{LiveName as Entry};

use guillotiere::{AllocId, Allocation};
use std::alloc::Allocator;

/// A live id and its name.
#[derive(Clone, Copy, Debug, PartialEq)]
pub struct LiveName {
    pub name: u32,
    pub id: AllocId,
}

/// Where a name is among names that rise.
pub fn place_of(names: &[LiveName], name: u32) -> Option<usize>
    requires { AreRisingNames names.now }
    ensures inside { IfSome result (λ at. at < length names.now) }
    ensures found { IfSome result (λ at. HoldsAt (λ (n : Entry). n.name ≡ name) names.now at) }
    ensures none { IfNone result (All (λ (n : Entry). n.name ≡ name → ⊥) names.now) }
{
    let at = names.partition_point(|entry| entry.name < name);
    if at < names.len() && names[at].name == name {
        Some(at)
    } else {
        None
    }
}

/// A live id, and where its name is.
#[derive(Clone, Copy)]
pub struct Found {
    pub at: usize,
    pub id: AllocId,
}

/// The live id that a name is given to, among names that rise.
pub fn find<A: Allocator>(names: &Vec<LiveName, A>, name: u32) -> Option<Found>
    requires { AreRisingNames names.now.items }
    ensures inside { IfSome result (λ found. found.at < length names.now.items) }
    ensures found { IfSome result (λ found. HoldsAt (λ (n : Entry). n
        ≡ record { name = name; id = found.id }) names.now.items found.at) }
    ensures none { IfNone result (All (λ (n : Entry). n.name ≡ name → ⊥) names.now.items) }
{
    let at = place_of(names, name)?;
    Some(Found {
        at,
        id: names[at].id,
    })
}

/// Appends to a vector that has room.
pub fn append<T: Drop, A: Allocator>(items: &mut Vec<T, A>, item: T)
    requires { vec_len items.old < vec_capacity items.old }
    ensures { items.new.items ≡ items.old.items ++ item ∷ [] }
{
    if items.push(item).is_err() {
        unreachable!();
    }
}

/// A grant under a name.
pub fn under_name(name: u32, granted: &Allocation) -> Allocation
    ensures { result ≡ record { id = name; rectangle = granted.now.rectangle } }
{
    Allocation {
        id: AllocId::deserialize(name),
        rectangle: granted.rectangle,
    }
}
