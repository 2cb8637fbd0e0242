//! A sheet of sprites.
ghost use Rattle.std.specs.Prelude.{◌≡◌, ◌<◌, ◌^◌, IfOk, length};

use crate::answers::Answers;
use crate::error::BenchError;
use crate::sizes::{Kind, sizes};
use guillotiere::{AtlasAllocator, Size, size2};
use std::alloc::Global;

// Requests a box of each size, in order, in an atlas of 4096x4096 pixels.
fn pack(alloc: Global, sizes: &[Size]) -> Result<Answers, BenchError>
    requires { length sizes.now < 2 ^ 32 }
    ensures { IfOk result (λ it. it.calls ≡ length sizes.now) }
{
    let mut atlas = AtlasAllocator::new(alloc, size2(4096, 4096))?;
    let mut answers = Answers::new();
    for size in sizes {
        match atlas.allocate(*size)? {
            Some(allocation) => answers.granted(allocation),
            None => answers.refused(),
        }
    }
    Ok(answers)
}

/// Packs so many sprites, each requested once in the order in which they come.
pub fn sprite(alloc: Global, count: u32) -> Result<Answers, BenchError>
    ensures { IfOk result (λ it. it.calls ≡ count) }
{
    let sizes = sizes(alloc, Kind::Sprites, 2, count)?;
    pack(alloc, &sizes)
}

/// Packs so many sprites, the highest first and of equally high ones the widest.
pub fn sorted_sprite(alloc: Global, count: u32) -> Result<Answers, BenchError>
    ensures { IfOk result (λ it. it.calls ≡ count) }
{
    let mut sizes = sizes(alloc, Kind::Sprites, 2, count)?;
    sizes.sort_by(|a, b| (b.height, b.width).cmp(&(a.height, a.width)))?;
    pack(alloc, &sizes)
}
