//! The slots of an atlas with their lists: each call keeps the tree that the slots represent, and the lists, in order.
ghost use Rattle.std.specs.Prelude.{◌≡◌, ◌≢◌, ◌<◌, ◌≤◌, ◌↔◌, ℕ, true, false, IsTrue, IfOk, length, vec_capacity};
ghost use Rattle.atlas_store.specs.declared.slots.NodeKind.TheVariants.{Alloc, Free};
ghost use Rattle.atlas_model.specs.Trees.{most_slots};
ghost use Rattle.atlas_search.specs.Numbers.{no_slot};
ghost use Rattle.atlas_store.specs.Slots.Standing.{IsSlot};
ghost use Rattle.atlas_store.specs.Stored.{Holding, Holds, HoldsWith};

pub mod choosing;
pub mod extend;
pub mod restoring;
pub mod start;
pub mod turns;
pub mod views;

use crate::slots::lists::{Recent, enlist, give_back, take_slot, unlist};
use crate::slots::placing::{Parts, Plan, place_leaf};
use crate::slots::{Node, NodeKind, Slot, join_next, lift, mark_free, read_node};
use crate::store::turns::Turns;
use atlas_search::bands::Scale;
use atlas_search::link::{Link, NO_SLOT};
use atlas_search::table::{FEW, Table};
use std::alloc::{AllocError, Allocator};

/// The slots, the lists that run through them, and the options by which free slots are listed. `turns` counts the
/// markings, joins and lifts, and is nothing at run time. The lists have room for the slots that there is memory for (`room`).
#[derive(Drop)]
pub struct Store<A: Allocator> {
    slots: Vec<Slot, A>,
    lists: Table<A>,
    unused: Link,
    options: Scale,
    turns: Turns,
    recent: Recent,
    ghost room: { lists.is_grown ≡ false → vec_capacity slots ≤ 8 },
}

impl<A: Allocator> Store<A> {
    ghost use Rattle.atlas_store.specs.Slots.Placing.{slots_of, taken_by};
    ghost use Rattle.atlas_store.specs.Store.Holdings.{shelf_of, node_in, turns_in, HasSlotsFor, IsDetachedLeaf};
    ghost use Rattle.atlas_store.specs.Store.Holdings.{IsHeld};
    ghost use Rattle.atlas_store.specs.Store.StoreCalls.{AreSlotsTaken, IsDetached, IsJoined, IsLeafPlaced, IsLifted};
    ghost use Rattle.atlas_store.specs.Store.StoreCalls.{IsMarkedFree, CanCarryOut, IsSlotTaken};
    ghost use Rattle.atlas_store.specs.Store.StoreCalls.{ListsLeaf, UnlistsLeaf};

    /// A copy: the same slots and lists, in new memory of the same allocator. No turn was taken in it yet.
    pub fn copy(&self) -> Result<Store<A>, AllocError>
    where
        A: Copy,
        ensures same { IfOk result (λ it. shelf_of it ≡ shelf_of self.now) }
        ensures turns { IfOk result (λ it. (turns_in it).count ≡ 0) }
    {
        let slots = Vec::from_slice(*self.slots.allocator(), &self.slots)?;
        let mut lists = self.lists.copy()?;
        if slots.capacity() > FEW {
            // Only where a copy has more memory than it holds.
            lists.grow()?;
        }
        Ok(Store {
            slots,
            lists,
            unused: self.unused,
            options: self.options.copy(),
            turns: Turns::new(),
            recent: self.recent,
        })
    }

    /// The tree's part of a slot.
    pub fn node(&self, at: Link) -> Node
        requires { at.number < length (shelf_of self.now).slots }
        ensures { result ≡ node_in (shelf_of self.now) at.number }
    {
        read_node(&self.slots, at)
    }

    /// Whether this is a slot of a free leaf.
    pub fn is_free(&self, at: Link) -> bool
        requires slot { IsSlot (length (shelf_of self.now).slots) at.number }
        requires short { length (shelf_of self.now).slots ≤ most_slots }
        ensures { IsTrue result ↔ ((node_in (shelf_of self.now) at.number).kind ≡ Free) }
    {
        at.number != NO_SLOT && read_node(&self.slots, at).kind == NodeKind::Free
    }

    /// Takes a free leaf out of its list.
    #[inline(always)]
    pub fn unlist(&mut self, at: Link)
        requires ready { (h : Holding) × Holds (shelf_of self.old) h × (h.detached at.number ≡ false) }
        requires free { (node_in (shelf_of self.old) at.number).kind ≡ Free }
        ensures { UnlistsLeaf self.old self.new at.number }
    {
        unlist(&mut self.slots, &mut self.lists, &mut self.recent, at);
    }

    /// Puts a detached leaf into its list.
    #[inline(always)]
    pub fn list(&mut self, at: Link)
        requires { IsDetached self.old at.number }
        ensures { ListsLeaf self.old self.new at.number }
    {
        enlist(
            &mut self.slots,
            &mut self.lists,
            &self.options,
            &mut self.recent,
            at,
        );
    }

    // Takes an unused slot, the one given back last, or else a new one at the end. It is claimed.
    fn take(&mut self) -> Link
        requires { (h : Holding) × (claimed : ℕ → ℕ) × HoldsWith claimed (shelf_of self.old) h
            × HasSlotsFor 1 self.old h }
        ensures { IsSlotTaken self.old self.new result.number }
    {
        take_slot(&mut self.slots, &mut self.unused)
    }

    // Takes the slots of a plan: of what the first cut leaves, of the inner container, of what is granted and of what
    // the second cut leaves, each where there is one. They are claimed.
    #[inline(always)]
    fn take_for(&mut self, plan: Plan) -> Parts
        requires { (h : Holding) × Holds (shelf_of self.old) h × HasSlotsFor (slots_of plan) self.old h }
        ensures { AreSlotsTaken self.old self.new (taken_by plan result) }
    {
        let none = Link::NONE;
        let mut parts = Parts {
            split: none,
            container: none,
            granted: none,
            leftover: none,
        };
        match plan {
            Plan::Whole => {}
            Plan::StripAlong(_) => {
                parts.split = self.take();
            }
            Plan::CornerAlong(_, _) => {
                parts.split = self.take();
                parts.granted = self.take();
                parts.leftover = self.take();
            }
            Plan::StripAcross(_) => {
                parts.split = self.take();
                parts.granted = self.take();
            }
            Plan::CornerAcross(_, _) => {
                parts.split = self.take();
                parts.container = self.take();
                parts.granted = self.take();
                parts.leftover = self.take();
            }
        }
        parts
    }

    /// A detached leaf gives way to what a plan says, for which there are slots. What is left free is detached.
    #[inline(always)]
    pub fn place(&mut self, at: Link, plan: Plan) -> Parts
        requires { (h : Holding) × CanCarryOut self.old at.number plan h }
        ensures { IsLeafPlaced self.old self.new at.number plan result }
    {
        let parts = self.take_for(plan);
        place_leaf(&mut self.slots, at, plan, parts);
        parts
    }

    /// A granted leaf becomes free, and is detached. One turn of a freeing.
    pub fn mark(&mut self, at: Link)
        requires held { IsHeld (shelf_of self.old) }
        requires granted { (node_in (shelf_of self.old) at.number).kind ≡ Alloc }
        ensures { IsMarkedFree self.old self.new at.number }
    {
        mark_free(&mut self.slots, at);
        self.turns.tick();
    }

    /// A detached leaf takes in the next one, which is detached too and whose slot is given back. One turn of a
    /// freeing.
    pub fn join(&mut self, at: Link)
        requires ready { (h : Holding) × IsDetachedLeaf (shelf_of self.old) at.number h
            × (h.detached (node_in (shelf_of self.old) at.number).next.number ≡ true) }
        requires next_free { (node_in (shelf_of self.old) (node_in (shelf_of self.old) at.number).next.number).kind
            ≡ Free }
        ensures { IsJoined self.old self.new at.number (node_in (shelf_of self.old) at.number).next.number }
    {
        let next = join_next(&mut self.slots, at);
        give_back(&mut self.slots, &mut self.unused, next);
        self.turns.tick();
    }

    /// A detached leaf that is alone in its container takes its place; its own slot is given back. One turn of a
    /// freeing. The answer is the container's slot, which is detached now.
    pub fn lift(&mut self, child: Link) -> Link
        requires ready { IsDetached self.old child.number }
        requires first { (node_in (shelf_of self.old) child.number).previous.number ≡ no_slot }
        requires last { (node_in (shelf_of self.old) child.number).next.number ≡ no_slot }
        requires nested { (node_in (shelf_of self.old) child.number).parent.number ≢ no_slot }
        ensures { IsLifted self.old self.new child.number result }
    {
        let container = lift(&mut self.slots, child);
        give_back(&mut self.slots, &mut self.unused, child);
        self.turns.tick();
        container
    }
}
