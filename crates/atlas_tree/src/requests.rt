//! Granting a request: how the leaf of the free slot that it takes gives way (a plan), the slots that this needs, and
//! the placing itself, by the calls of `store`.
ghost use Rattle.std.specs.Prelude.{◌≡◌, ◌<◌};
ghost use Rattle.atlas_model.specs.Boxes.{IsPositive, Fits, Sides, box_sides, side, other};
ghost use Rattle.atlas_model.specs.Pixels.{sides_of, box_of, rectangle_of};
ghost use Rattle.atlas_store.specs.Slots.{axis_of};
ghost use Rattle.atlas_store.specs.Slots.Placing.{across_of, slots_of, IsFeasible};
ghost use Rattle.atlas_tree.specs.Plans.Chosen.{CanGrant, IsRequestGranted};
ghost use Rattle.atlas_store.specs.declared.slots.Node.{Node};
ghost use Rattle.atlas_model.specs.Cuts.{cut};
ghost use Rattle.atlas_model.specs.Cuts.Cut.{Whole, Strip, Corner};
ghost use Rattle.atlas_store.specs.Slots.Reading.{extent_of};
ghost use Rattle.atlas_tree.specs.Plans.Planning.{IsPlanFor, IsPlanReady, IsPlanDone};

use atlas_model::{Allocation, Size};
use atlas_search::best::Found;
use atlas_search::cut::{Orientation, exact_size, orientation_of};
use atlas_search::link::Link;
use atlas_store::slots::Node;
use atlas_store::slots::placing::Plan;
use atlas_store::slots::walks::slot_id;
use atlas_store::store::Store;
use std::alloc::Allocator;

/// Places a request in the slot that it takes, which gives way by this plan. The answer is its id and its rectangle.
pub fn grant<A: Allocator>(store: &mut Store<A>, chosen: Found, plan: Plan) -> Allocation
    requires { CanGrant store.old chosen plan }
    ensures { IsRequestGranted store.old store.new chosen plan result }
{
    store.unlist(chosen.at);
    let slot = place(store, chosen.at, plan);
    let node = store.node(slot);
    Allocation {
        id: slot_id(slot.number as usize, node.generation),
        rectangle: node.area,
    }
}

/// How many slots a plan takes.
pub fn slots_needed(plan: Plan) -> u32
    ensures { result ≡ slots_of plan }
{
    match plan {
        Plan::Whole => 0,
        Plan::StripAlong(_) => 1,
        Plan::CornerAlong(_, _) => 3,
        Plan::StripAcross(_) => 2,
        Plan::CornerAcross(_, _) => 4,
    }
}

// The pixels of a size along an axis, and those across it.
fn along_and_across(size: Size, axis: Orientation) -> (u32, u32)
    requires { IsPositive (sides_of size) }
    ensures along { result.0 ≡ side (axis_of axis) (sides_of size) }
    ensures across { result.1 ≡ side (other (axis_of axis)) (sides_of size) }
{
    let width = size.width as u32;
    let height = size.height as u32;
    match axis {
        Orientation::Horizontal => (width, height),
        Orientation::Vertical => (height, width),
    }
}

// The plan for a request that has all pixels of a leaf but on one axis.
fn strip(leaf: &Node, axis: Orientation, pixels: u32) -> Plan
    ensures line { (r : Sides) → cut (box_sides (box_of leaf.now.area)) r ≡ Strip (axis_of axis)
        → pixels ≡ side (axis_of axis) r → IsPlanFor leaf.now r result }
    ensures feasible { 0 < pixels → pixels < side (axis_of axis) (box_sides (box_of leaf.now.area))
        → IsFeasible result (extent_of leaf.now) (across_of leaf.now) }
{
    if axis == leaf.axis {
        Plan::StripAlong(pixels)
    } else {
        Plan::StripAcross(pixels)
    }
}

// The plan for a request that is smaller than a leaf on both axes.
fn corner(leaf: &Node, whole: Size, size: Size) -> Plan
    requires whole { sides_of whole ≡ box_sides (box_of leaf.now.area) }
    requires positive { IsPositive (sides_of size) }
    requires narrower { (sides_of size).width < (sides_of whole).width }
    requires lower { (sides_of size).height < (sides_of whole).height }
    ensures line { IsPlanFor leaf.now (sides_of size) result }
    ensures feasible { IsFeasible result (extent_of leaf.now) (across_of leaf.now) }
{
    let (along, across) = along_and_across(size, leaf.axis);
    if orientation_of(whole, size) == leaf.axis {
        Plan::CornerAlong(along, across)
    } else {
        Plan::CornerAcross(along, across)
    }
}

/// The plan for a request that fits a leaf.
pub fn plan_for(leaf: &Node, size: Size) -> Plan
    requires exact { leaf.now.area ≡ rectangle_of (box_of leaf.now.area) }
    requires positive { IsPositive (sides_of size) }
    requires fits { Fits (sides_of size) (box_sides (box_of leaf.now.area)) }
    ensures line { IsPlanFor leaf.now (sides_of size) result }
    ensures feasible { IsFeasible result (extent_of leaf.now) (across_of leaf.now) }
{
    let whole = exact_size(leaf.area);
    if whole.width == size.width {
        if whole.height == size.height {
            Plan::Whole
        } else {
            strip(leaf, Orientation::Vertical, size.height as u32)
        }
    } else if whole.height == size.height {
        strip(leaf, Orientation::Horizontal, size.width as u32)
    } else {
        corner(leaf, whole, size)
    }
}

/// Carries out a plan in the detached leaf of a slot, for which there are slots. The answer is the slot that is
/// granted.
pub fn place<A: Allocator>(store: &mut Store<A>, at: Link, plan: Plan) -> Link
    requires { IsPlanReady store.old at.number plan }
    ensures { IsPlanDone store.old store.new at.number result.number plan }
{
    match plan {
        Plan::Whole => {
            store.place(at, plan);
            at
        }
        Plan::StripAlong(along) => strip_along(store, at, along),
        Plan::CornerAlong(along, across) => corner_along(store, at, along, across),
        Plan::StripAcross(across) => strip_across(store, at, across),
        Plan::CornerAcross(along, across) => corner_across(store, at, along, across),
    }
}

fn strip_along<A: Allocator>(store: &mut Store<A>, at: Link, along: u32) -> Link
    requires { IsPlanReady store.old at.number (Plan.StripAlong along) }
    ensures { IsPlanDone store.old store.new at.number result.number (Plan.StripAlong along) }
{
    let parts = store.place(at, Plan::StripAlong(along));
    store.list(parts.split);
    at
}

fn corner_along<A: Allocator>(store: &mut Store<A>, at: Link, along: u32, across: u32) -> Link
    requires { IsPlanReady store.old at.number (Plan.CornerAlong along across) }
    ensures { IsPlanDone store.old store.new at.number result.number (Plan.CornerAlong along across) }
{
    let parts = store.place(at, Plan::CornerAlong(along, across));
    store.list(parts.split);
    store.list(parts.leftover);
    parts.granted
}

fn strip_across<A: Allocator>(store: &mut Store<A>, at: Link, across: u32) -> Link
    requires { IsPlanReady store.old at.number (Plan.StripAcross across) }
    ensures { IsPlanDone store.old store.new at.number result.number (Plan.StripAcross across) }
{
    let parts = store.place(at, Plan::StripAcross(across));
    store.list(parts.split);
    parts.granted
}

fn corner_across<A: Allocator>(store: &mut Store<A>, at: Link, along: u32, across: u32) -> Link
    requires { IsPlanReady store.old at.number (Plan.CornerAcross along across) }
    ensures { IsPlanDone store.old store.new at.number result.number (Plan.CornerAcross along across) }
{
    let parts = store.place(at, Plan::CornerAcross(along, across));
    store.list(parts.split);
    store.list(parts.leftover);
    parts.granted
}
