//! What a store holds as plain nodes, and a store made of such nodes again.
ghost use Rattle.std.specs.Prelude.{◌≡◌, ℕ, IfOk, map, length};
ghost use Rattle.atlas_store.specs.Slots.{nodes};
ghost use Rattle.atlas_store.specs.Stored.{Holding};
ghost use Rattle.atlas_store.specs.Store.Restoring.{image_node, made_slot, CanRestore, IsListedFrom, IsRestored, ListsAll};

use crate::slots::lists::Recent;
use crate::slots::{Node, NodeKind, Slot};
use crate::store::Store;
use crate::store::turns::Turns;
use atlas_model::AllocatorOptions;
use atlas_search::bands::Scale;
use atlas_search::link::Link;
use atlas_search::table::{FEW, Table};
use std::alloc::{AllocError, Allocator};

// The node of a slot. That of an unused one says which unused slot comes next.
fn image_of(slot: &Slot) -> Node
    ensures { result ≡ image_node slot.now }
{
    let next = match slot.kind {
        NodeKind::Unused => slot.right,
        _ => slot.next,
    };
    Node {
        parent: slot.parent,
        previous: slot.previous,
        next,
        area: slot.area,
        kind: slot.kind,
        axis: slot.axis,
        generation: slot.generation,
    }
}

// The slot of such a node, in no list of free slots.
fn slot_of(node: &Node) -> Slot
    ensures { result ≡ made_slot node.now }
{
    Slot {
        parent: node.parent,
        previous: node.previous,
        next: node.next,
        area: node.area,
        up: Link::NONE,
        left: Link::NONE,
        right: node.next,
        kind: node.kind,
        axis: node.axis,
        generation: node.generation,
        is_fork: false,
    }
}

// The nodes of slots.
fn images_of<A: Allocator>(alloc: A, slots: &[Slot]) -> Result<Vec<Node, A>, AllocError>
    ensures { IfOk result (λ it. it.items ≡ map image_node slots.now) }
{
    let mut nodes = Vec::with_capacity(alloc, slots.len())?;
    for slot in slots {
        nodes.push(image_of(slot))?;
    }
    Ok(nodes)
}

// The slots of nodes.
fn slots_of<A: Allocator>(alloc: A, nodes: &[Node]) -> Result<Vec<Slot, A>, AllocError>
    ensures { IfOk result (λ it. it.items ≡ map made_slot nodes.now) }
{
    let mut slots = Vec::with_capacity(alloc, nodes.len())?;
    for node in nodes {
        slots.push(slot_of(node))?;
    }
    Ok(slots)
}

impl<A: Allocator> Store<A> {
    ghost use Rattle.atlas_store.specs.Store.Holdings.{shelf_of, turns_in};

    /// The unused slot that is taken next, or none.
    pub fn unused(&self) -> Link
        ensures { result ≡ (shelf_of self.now).unused }
    {
        self.unused
    }

    /// The nodes of the slots, by their numbers. That of an unused slot says which unused one comes next.
    pub fn nodes(&self) -> Result<Vec<Node, A>, AllocError>
    where
        A: Copy,
        ensures { IfOk result (λ it. it.items ≡ map image_node (shelf_of self.now).slots) }
    {
        images_of(*self.slots.allocator(), &self.slots)
    }

    // Puts each free slot into its list, where none is.
    fn list_all(&mut self)
        requires { (h : Holding) × IsListedFrom 0 (shelf_of self.old) h }
        ensures { ListsAll self.old self.new }
    {
        for number in 0..self.slots.len() {
            let at = Link {
                number: number as u32,
            };
            if self.is_free(at) {
                self.list(at);
            }
        }
    }

    /// A store of slots with these nodes, each free one in its list, and of unused slots from this one on. Requires that the nodes stand
    /// for a tree, and that the list of the unused ones has each once.
    pub fn restore(
        alloc: A,
        nodes: &[Node],
        unused: Link,
        options: &AllocatorOptions,
    ) -> Result<Store<A>, AllocError>
    where
        A: Copy,
        requires { CanRestore nodes.now unused options.now }
        ensures restored { IfOk result (λ it. IsRestored it nodes.now unused options.now) }
        ensures turns { IfOk result (λ it. (turns_in it).count ≡ 0) }
    {
        let slots = slots_of(alloc, nodes)?;
        let mut lists = Table::new(alloc);
        if slots.capacity() > FEW {
            lists.grow()?;
        }
        let mut store = Store {
            slots,
            lists,
            unused,
            options: Scale::new(options),
            turns: Turns::new(),
            recent: Recent::NONE,
        };
        store.list_all();
        Ok(store)
    }
}
