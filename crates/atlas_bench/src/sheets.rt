//! A sheet of sprites that is rearranged.
ghost use Rattle.std.specs.Prelude.{◌≡◌, ◌<◌, ◌≤◌, ◌+◌, ◌^◌, IfOk, OnOk, length, vec_len};

use crate::answers::Answers;
use crate::boards::free_others;
use crate::error::BenchError;
use crate::sizes::{Kind, sizes};
use guillotiere::{AllocId, AtlasAllocator, Size, size2};
use std::alloc::Global;

// Requests a box of each size, in order, and keeps the ids of those that are granted.
fn fill(
    atlas: &mut AtlasAllocator,
    sizes: &[Size],
    ids: &mut Vec<AllocId>,
    answers: &mut Answers,
) -> Result<(), BenchError>
    requires { answers.old.calls + length sizes.now < 2 ^ 64 }
    ensures calls { OnOk result (answers.new.calls ≡ answers.old.calls + length sizes.now) }
    ensures ids { OnOk result (vec_len ids.new ≤ vec_len ids.old + length sizes.now) }
{
    for size in sizes {
        match atlas.allocate(*size)? {
            Some(allocation) => {
                let id = allocation.id;
                answers.granted(allocation);
                ids.push(id)?;
            }
            None => answers.refused(),
        }
    }
    Ok(())
}

// The sprites of which the sheet is made.
const SPRITES: u32 = 5_000;

/// Packs 5,000 sprites in an atlas of 4096x4096 pixels, frees the first one and every other one of those that were
/// granted, and rearranges the atlas so many times.
pub fn rearrange(alloc: Global, times: u32) -> Result<Answers, BenchError>
    ensures least { IfOk result (λ it. 5000 + times ≤ it.calls) }
    ensures most { IfOk result (λ it. it.calls ≤ 7500 + times) }
{
    let sizes = sizes(alloc, Kind::Sprites, 2, SPRITES)?;
    let mut atlas = AtlasAllocator::new(alloc, size2(4096, 4096))?;
    let mut ids = Vec::new(alloc);
    let mut answers = Answers::new();
    fill(&mut atlas, &sizes, &mut ids, &mut answers)?;
    free_others(&mut atlas, &ids, 0, &mut answers)?;
    for _ in 0..times {
        let list = atlas.rearrange()?;
        answers.rearranged(&list);
    }
    Ok(answers)
}
