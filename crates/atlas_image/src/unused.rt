//! The list of unused slots.
ghost use Rattle.std.specs.Prelude.{◌≡◌, ◌<◌, ◌↔◌, ℕ, List, true, length, map, IfOk, IsTrue};
ghost use Rattle.atlas_image.specs.Unused.{is_unused, AreUnmarked, IsMarkedLine, IsTakenFrom};
ghost use Rattle.atlas_search.specs.Numbers.{no_slot};
ghost use Rattle.atlas_store.specs.Store.Restoring.{IsUnusedLine};

use crate::members::node;
use atlas_search::link::{Link, NO_SLOT};
use atlas_store::slots::{Node, NodeKind};
use std::alloc::{AllocError, Allocator};

// Whether a slot is unused.
fn is_unused(node: &Node) -> bool
    ensures { result ≡ is_unused node.now }
{
    node.kind == NodeKind::Unused
}

// A mark for each slot, of those that are unused.
fn marks_of<A: Allocator>(alloc: A, nodes: &[Node]) -> Result<Vec<bool, A>, AllocError>
    ensures { IfOk result (λ marks. marks.items ≡ map is_unused nodes.now) }
{
    let mut marks = Vec::with_capacity(alloc, nodes.len())?;
    for member in nodes {
        marks.push(is_unused(member))?;
    }
    Ok(marks)
}

// Whether the list that begins at `first` goes through marked slots alone, and none twice; their marks go.
fn take_marks(nodes: &[Node], marks: &mut [bool], first: Link) -> bool
    requires { length marks.old ≡ length nodes.now }
    ensures sound { result ≡ true → (xs : List ℕ) × IsTakenFrom nodes.now marks.old marks.new first.number xs }
    ensures complete { length nodes.now < no_slot → (xs : List ℕ) → IsMarkedLine nodes.now marks.old first.number xs
        → (result ≡ true) × IsTakenFrom nodes.now marks.old marks.new first.number xs }
{
    let mut at = first;
    for _step in 0..nodes.len() {
        if at.number == NO_SLOT {
            return true;
        }
        let i = at.number as usize;
        if i >= marks.len() {
            return false;
        }
        if !marks[i] {
            return false;
        }
        marks[i] = false;
        at = node(nodes, at).next;
    }
    at.number == NO_SLOT
}

// Whether there is no mark.
fn are_unmarked(marks: &[bool]) -> bool
    ensures { IsTrue result ↔ AreUnmarked marks.now }
{
    for mark in marks {
        if *mark {
            return false;
        }
    }
    true
}

// Whether the list that begins at `first` goes through all marked slots, each once, and no other slot.
fn take_all(nodes: &[Node], marks: &mut [bool], first: Link) -> bool
    requires { marks.old ≡ map is_unused nodes.now }
    ensures sound { result ≡ true → (xs : List ℕ) × IsUnusedLine nodes.now first.number xs }
    ensures complete { length nodes.now < no_slot → (xs : List ℕ) → IsUnusedLine nodes.now first.number xs → result ≡ true }
{
    if !take_marks(nodes, marks, first) {
        return false;
    }
    are_unmarked(marks)
}

/// Whether the list of unused slots that begins at `first` has each of them once, and no other slot.
pub(crate) fn are_lined<A: Allocator>(
    alloc: A,
    nodes: &[Node],
    first: Link,
) -> Result<bool, AllocError>
    ensures sound { IfOk result (λ lined. lined ≡ true → (xs : List ℕ) × IsUnusedLine nodes.now first.number xs) }
    ensures complete { IfOk result (λ lined. length nodes.now < no_slot → (xs : List ℕ)
        → IsUnusedLine nodes.now first.number xs → lined ≡ true) }
{
    let mut marks = marks_of(alloc, nodes)?;
    let lined = take_all(nodes, &mut marks, first);
    Ok(lined)
}
