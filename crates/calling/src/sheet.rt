//! A sheet of sprites over an atlas, whose clauses see the atlas's state.
ghost use Rattle.std.specs.Prelude.{◌≡◌, ◌↔◌, ◌+◌, [], IsTrue, Ok, IfOk, IfSome, OnErr};
ghost use Rattle.guillotiere.specs.Boxes.{IsPositive};
ghost use Rattle.guillotiere.specs.Pixels.{sides_of, box_of};
ghost use Rattle.guillotiere.specs.States.{State, live_in, IsLive};
ghost use Rattle.guillotiere.specs.Callers.{AddsBox, KeepsLive, LeavesNoBox, rectangle_in};

use guillotiere::{AllocId, Allocation, AtlasAllocator, AtlasError, Rectangle, Size};
use std::alloc::{Allocator, Global};
use std::marker::Model;

/// Sprites that each have a rectangle of their own.
#[derive(Drop)]
pub struct Sheet<A: Allocator + Copy = Global> {
    atlas: AtlasAllocator<A>,
}

impl<A: Allocator + Copy> Model for Sheet<A> {
    ghost use Rattle.guillotiere.specs.States.{State};
    ghost use Rattle.guillotiere.specs.Stored.{state_of};
    ghost use Rattle.guillotiere.specs.Codes.{state_code};

    ghost Value = { State };

    ghost coded = { state_code };

    ghost view = { λ a. state_of a.atlas };
}

impl<A: Allocator + Copy> Sheet<A> {
    /// An empty sheet.
    pub fn new(alloc: A, size: Size) -> Result<Self, AtlasError>
        requires { IsPositive (sides_of size) }
        ensures { IfOk result (λ it. live_in it ≡ []) }
    {
        Ok(Sheet {
            atlas: AtlasAllocator::new(alloc, size)?,
        })
    }

    /// Puts a sprite where there is room for it. No other sprite moves.
    pub fn put(&mut self, size: Size) -> Result<Option<Allocation>, AtlasError>
        ensures put { IfOk result (λ put. IfSome put (λ a. AddsBox self.old self.new a.id (box_of a.rectangle))) }
        ensures keeps { KeepsLive self.old self.new }
        ensures refused { OnErr result (self.new ≡ self.old) }
    {
        self.atlas.allocate(size)
    }

    /// The rectangle of a sprite.
    pub fn get(&self, id: AllocId) -> Option<Rectangle>
        ensures { result ≡ rectangle_in self.now id }
    {
        self.atlas.get(id)
    }

    /// Takes a sprite out. No other sprite moves.
    pub fn remove(&mut self, id: AllocId) -> Result<(), AtlasError>
        ensures removes { LeavesNoBox self.old self.new id }
        ensures ok { (result ≡ Ok tt) ↔ IsLive self.old id }
    {
        self.atlas.deallocate(id)
    }

    /// Whether there is no sprite.
    pub fn is_empty(&self) -> bool
        ensures { IsTrue result ↔ (live_in self.now ≡ []) }
    {
        self.atlas.is_empty()
    }
}
