//! The first member of each sequence, and ranks of the used slots.
ghost use Rattle.std.specs.Prelude.{◌≡◌, ◌≤◌, ◌<◌, ◌+◌, ◌↔◌, [], IsTrue, IfOk, length};
ghost use Rattle.atlas_model.specs.Trees.{most_slots};
ghost use Rattle.atlas_image.specs.Members.{rank_in, first_in};
ghost use Rattle.atlas_image.specs.Ranks.{AreBlank, AreNoted, AreRanked, IsEnqueued, IsNoting, IsOrderOfNodes, IsWalkedTo, LacksRank};
ghost use Rattle.atlas_image.specs.Ranks.{numbers_in};

use crate::members::{is_container, is_used, node};
use atlas_search::link::{Link, NO_SLOT};
use atlas_store::slots::Node;
use std::alloc::{AllocError, Allocator};

// What stands for no rank.
const NO_RANK: u32 = 4294967295;

/// The first member of the top sequence and of each container, and for each used slot a rank, below which are the ranks of its container
/// and of the member before it. They are found by the links alone, so that a check of each slot has to show that they are right.
#[derive(Drop)]
pub struct Order<A: Allocator> {
    pub top: Link,
    pub firsts: Vec<Link, A>,
    pub ranks: Vec<u32, A>,
}

impl<A: Allocator> Order<A> {
    /// The first member of the sequence that a slot holds, or of the top sequence.
    pub(crate) fn first(&self, parent: Link) -> Link
        ensures { result ≡ first_in self.now parent.number }
    {
        if parent.number == NO_SLOT {
            return self.top;
        }
        match self.firsts.get(parent.number as usize) {
            Some(first) => *first,
            None => Link::NONE,
        }
    }

    /// The rank of a slot; past the end it is 0.
    pub(crate) fn rank(&self, at: Link) -> u32
        ensures { result ≡ rank_in self.now at.number }
    {
        match self.ranks.get(at.number as usize) {
            Some(rank) => *rank,
            None => 0,
        }
    }

    // Whether there is such a slot, and it has no rank.
    fn lacks_rank(&self, at: Link) -> bool
        ensures { IsTrue result ↔ LacksRank self.now.ranks.items at.number }
    {
        let i = at.number as usize;
        i < self.ranks.len() && self.ranks[i] == NO_RANK
    }

    // Gives a slot a rank and puts it in the queue, unless it has one.
    fn enqueue(&mut self, queue: &mut Vec<Link, A>, at: Link, rank: u32) -> Result<(), AllocError>
        ensures top { self.new.top ≡ self.old.top }
        ensures firsts { self.new.firsts.items ≡ self.old.firsts.items }
        ensures queued { IfOk result (λ _. IsEnqueued (numbers_in queue.old.items) (numbers_in queue.new.items)
            self.old.ranks.items self.new.ranks.items at.number rank) }
    {
        if !self.lacks_rank(at) {
            return Ok(());
        }
        queue.push(at)?;
        self.ranks[at.number as usize] = rank;
        Ok(())
    }

    // Notes a slot, if that comes first somewhere.
    fn note_first(&mut self, member: &Node, at: Link)
        ensures { IsNoting self.old self.new member.now at }
    {
        if !is_used(member) {
            return;
        }
        if member.previous.number != NO_SLOT {
            return;
        }
        if member.parent.number == NO_SLOT {
            self.top = at;
            return;
        }
        let parent = member.parent.number as usize;
        if parent >= self.firsts.len() {
            return;
        }
        self.firsts[parent] = at;
    }

    // Notes which members come first.
    fn note_firsts(&mut self, nodes: &[Node])
        requires short { length nodes.now ≤ most_slots }
        requires long { length self.old.firsts.items ≡ length nodes.now }
        ensures noted { AreNoted nodes.now self.new (length nodes.now) }
        ensures ranks { self.new.ranks.items ≡ self.old.ranks.items }
    {
        for number in 0..nodes.len() {
            let at = Link {
                number: number as u32,
            };
            let member = node(nodes, at);
            self.note_first(&member, at);
        }
    }

    // Gives ranks to what the slot at this place of the queue leads to.
    fn look_at(
        &mut self,
        queue: &mut Vec<Link, A>,
        nodes: &[Node],
        place: usize,
    ) -> Result<(), AllocError>
        requires short { length nodes.now ≤ most_slots }
        requires inside { place < length queue.old.items }
        requires walked { IsWalkedTo nodes.now self.old.top self.old.firsts.items queue.old.items self.old.ranks.items place }
        ensures top { self.new.top ≡ self.old.top }
        ensures firsts { self.new.firsts.items ≡ self.old.firsts.items }
        ensures walked { IfOk result (λ _. IsWalkedTo nodes.now self.old.top self.old.firsts.items queue.new.items
            self.new.ranks.items (place + 1)) }
    {
        let at = queue[place];
        let member = node(nodes, at);
        let rank = place as u32 + 1;
        self.enqueue(queue, member.next, rank)?;
        if !is_container(&member) {
            return Ok(());
        }
        let first = self.first(at);
        self.enqueue(queue, first, rank)?;
        Ok(())
    }

    // Gives each slot that is come to from the first one a rank: 0 the first one, and each other one 1 more than the place in the queue of
    // the slot that leads to it.
    fn note_ranks(&mut self, queue: &mut Vec<Link, A>, nodes: &[Node]) -> Result<(), AllocError>
        requires short { length nodes.now ≤ most_slots }
        requires none { queue.old.items ≡ [] }
        requires blank { AreBlank self.old.ranks.items }
        requires long { length self.old.ranks.items ≡ length nodes.now }
        ensures top { self.new.top ≡ self.old.top }
        ensures firsts { self.new.firsts.items ≡ self.old.firsts.items }
        ensures ranked { IfOk result (λ _. AreRanked nodes.now self.old.top self.old.firsts.items self.new.ranks.items) }
    {
        let top = self.top;
        self.enqueue(queue, top, 0)?;
        for place in 0..nodes.len() {
            if place >= queue.len() {
                return Ok(());
            }
            self.look_at(queue, nodes, place)?;
        }
        Ok(())
    }

    /// The order of these nodes.
    pub(crate) fn of(alloc: A, nodes: &[Node]) -> Result<Order<A>, AllocError>
    where
        A: Copy,
        requires { length nodes.now ≤ most_slots }
        ensures { IfOk result (λ order. IsOrderOfNodes nodes.now order) }
    {
        let mut order = Order {
            top: Link::NONE,
            firsts: Vec::with_capacity(alloc, nodes.len())?,
            ranks: Vec::with_capacity(alloc, nodes.len())?,
        };
        order.firsts.resize(nodes.len(), Link::NONE)?;
        order.ranks.resize(nodes.len(), NO_RANK)?;
        let mut queue = Vec::with_capacity(alloc, nodes.len())?;
        order.note_firsts(nodes);
        order.note_ranks(&mut queue, nodes)?;
        Ok(order)
    }
}
