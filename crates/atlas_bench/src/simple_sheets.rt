//! A sheet that the simple allocator packs.
ghost use Rattle.std.specs.Prelude.{◌≡◌, ◌<◌, ◌≤◌, ◌^◌, IfOk, length};

use crate::answers::Answers;
use crate::error::BenchError;
use crate::sizes::{Kind, sizes};
use guillotiere::{SimpleAtlasAllocator, Size, size2};
use std::alloc::Global;

// Requests a box of each size, in order, in a sheet of this side, in pixels.
fn pack(alloc: Global, side: u16, sizes: &[Size]) -> Result<Answers, BenchError>
    requires side { 1 ≤ side }
    requires sizes { length sizes.now < 2 ^ 32 }
    ensures { IfOk result (λ it. it.calls ≡ length sizes.now) }
{
    let mut sheet = SimpleAtlasAllocator::new(alloc, size2(i32::from(side), i32::from(side)))?;
    let mut answers = Answers::new();
    for size in sizes {
        match sheet.allocate(*size)? {
            Some(rectangle) => answers.placed(rectangle),
            None => answers.refused(),
        }
    }
    Ok(answers)
}

/// Packs so many sprites in a sheet of 4096x4096 pixels, each requested once in the order in which they come.
pub fn sheet(alloc: Global, count: u32) -> Result<Answers, BenchError>
    ensures { IfOk result (λ it. it.calls ≡ count) }
{
    let sizes = sizes(alloc, Kind::Sprites, 2, count)?;
    pack(alloc, 4096, &sizes)
}

/// Packs so many glyphs in a sheet of 16384x16384 pixels, each requested once in the order in which they come.
pub fn large_sheet(alloc: Global, count: u32) -> Result<Answers, BenchError>
    ensures { IfOk result (λ it. it.calls ≡ count) }
{
    let sizes = sizes(alloc, Kind::Glyphs, 1, count)?;
    pack(alloc, 16_384, &sizes)
}
