//! The first lines of the README.
use guillotiere::{AtlasAllocator, AtlasError, Rectangle, size2};
use std::alloc::Allocator;

// Stands for what is drawn.
fn draw(area: Rectangle) {
    let _area = area;
}

/// A glyph that is put into an atlas, drawn, and taken out again.
pub fn show<A: Allocator + Copy>(alloc: A) -> Result<(), AtlasError> {
    let mut atlas = AtlasAllocator::new(alloc, size2(1024, 1024))?;
    if let Some(glyph) = atlas.allocate(size2(20, 60))? {
        draw(glyph.rectangle);
        let area = atlas[glyph.id];
        prove_eq!(area, glyph.rectangle);
        let freed = atlas.deallocate(glyph.id);
        prove!(freed.is_ok());
    }
    Ok(())
}
