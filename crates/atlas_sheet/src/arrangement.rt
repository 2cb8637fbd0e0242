//! Sprites as they lie, the order in which they ask for places, and what they find.
use crate::ways::Choice;
use guillotiere::{Rectangle, Size};
use std::alloc::Allocator;

/// Sprites as they lie, the order in which they ask for places in a sheet, and what they find.
#[derive(Drop)]
pub struct Arrangement<A: Allocator> {
    /// The size of the sheet.
    pub size: Size,
    /// How each takes a free box.
    pub choice: Choice,
    /// The sides of each sprite, as it lies.
    pub lying: Vec<Size, A>,
    /// The sprites with their numbers, in the order in which they ask.
    pub order: Vec<(usize, Size), A>,
    /// A place or none for each sprite, in the order of the sprites.
    pub places: Vec<Option<Rectangle>, A>,
}
