//! An atlas that grows where it has no room.
ghost use Rattle.std.specs.Prelude.{◌≡◌, ◌<◌, ◌≤◌, ◌+◌, ◌^◌, ◌≤ℤ◌, ◌<ℤ◌, ◌*ℤ◌, pos, None, IfOk, IfSome, OnOk};
ghost use Rattle.guillotiere.specs.Boxes.{Fits};
ghost use Rattle.guillotiere.specs.Pixels.{sides_of};

use crate::answers::Answers;
use crate::error::BenchError;
use crate::random::Random;
use guillotiere::{AtlasAllocator, Size, size2};
use std::alloc::Global;

#[derive(Drop)]
struct GrowingAtlas {
    atlas: AtlasAllocator,
    random: Random,
    answers: Answers,
}

// The size with its lesser side doubled, of equal ones the width. None where that side has reached the limit.
fn enlarged(size: Size, limit: i32) -> Option<Size>
    requires wide { pos 0 ≤ℤ size.width }
    requires high { pos 0 ≤ℤ size.height }
    requires limit { limit ≤ℤ pos 32768 }
    ensures wide { IfSome result
        (λ it. size.width ≤ℤ size.height → it ≡ record { width = size.width *ℤ pos 2; height = size.height }) }
    ensures high { IfSome result
        (λ it. size.height <ℤ size.width → it ≡ record { width = size.width; height = size.height *ℤ pos 2 }) }
    ensures fits { IfSome result (λ it. Fits (sides_of size) (sides_of it)) }
    ensures none { result ≡ None → (limit ≤ℤ size.width) × (limit ≤ℤ size.height) }
{
    if size.width <= size.height {
        if size.width >= limit {
            return None;
        }
        Some(size2(size.width * 2, size.height))
    } else {
        if size.height >= limit {
            return None;
        }
        Some(size2(size.width, size.height * 2))
    }
}

impl GrowingAtlas {
    // An empty atlas of 64x64 pixels.
    fn new(alloc: Global) -> Result<Self, BenchError>
        ensures { IfOk result (λ it. it.answers.calls ≡ 0) }
    {
        Ok(GrowingAtlas {
            atlas: AtlasAllocator::new(alloc, size2(64, 64))?,
            random: Random::new(4),
            answers: Answers::new(),
        })
    }

    // Requests a box. Whether it was granted.
    fn request(&mut self, size: Size) -> Result<bool, BenchError>
        requires { self.old.answers.calls + 1 < 2 ^ 64 }
        ensures { OnOk result (self.new.answers.calls ≡ self.old.answers.calls + 1) }
    {
        match self.atlas.allocate(size)? {
            Some(allocation) => {
                self.answers.granted(allocation);
                Ok(true)
            }
            None => {
                self.answers.refused();
                Ok(false)
            }
        }
    }

    // Doubles the lesser side. False, and nothing is done, where both sides have reached the limit.
    fn enlarge(&mut self, limit: i32) -> Result<bool, BenchError>
        requires limit { limit ≤ℤ pos 32768 }
        requires calls { self.old.answers.calls + 1 < 2 ^ 64 }
        ensures { OnOk result (self.new.answers.calls ≤ self.old.answers.calls + 1) }
    {
        let Some(size) = enlarged(self.atlas.size(), limit) else {
            return Ok(false);
        };
        self.atlas.grow(size)?;
        self.answers.grown();
        Ok(true)
    }
}

/// Requests boxes with sides of 4 to 100 pixels, one after another, in an atlas of 64x64 at first. Where one has no
/// room, the atlas grows and it is requested again, until both sides have reached the limit.
pub fn growth(alloc: Global, limit: u32) -> Result<Answers, BenchError>
    requires { limit ≤ 32768 }
    ensures { IfOk result (λ it. it.calls < 2 ^ 32) }
{
    let mut growing = GrowingAtlas::new(alloc)?;
    let mut size = growing.random.size_between(4, 100);
    let mut is_full = false;
    for _ in 0..u32::MAX {
        if is_full {
            if !growing.enlarge(limit as i32)? {
                return Ok(growing.answers);
            }
            is_full = false;
        } else if growing.request(size)? {
            size = growing.random.size_between(4, 100);
        } else {
            is_full = true;
        }
    }
    Ok(growing.answers)
}
