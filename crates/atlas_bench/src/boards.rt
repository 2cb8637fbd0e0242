//! A board of unit squares, of which every other one is freed.
ghost use Rattle.std.specs.Prelude.{◌≡◌, ◌<◌, ◌≤◌, ◌+◌, ◌-◌, ◌*◌, ◌/◌, ◌^◌, IfOk, IsTrue, OnOk, length, vec_len};

use crate::answers::Answers;
use crate::error::BenchError;
use guillotiere::{AllocId, AtlasAllocator, AtlasError, size2};
use std::alloc::Global;

#[derive(Drop)]
struct Board {
    atlas: AtlasAllocator,
    ids: Vec<AllocId>,
    answers: Answers,
}

impl Board {
    // A board of one column and so many rows, of which each square was granted, one by one.
    fn filled(alloc: Global, rows: u32) -> Result<Self, BenchError>
        requires least { 1 ≤ rows }
        requires most { rows < 2 ^ 31 }
        ensures ids { IfOk result (λ it. vec_len it.ids ≡ rows) }
        ensures calls { IfOk result (λ it. it.answers.calls ≡ rows) }
    {
        let mut board = Board {
            atlas: AtlasAllocator::new(alloc, size2(1, rows as i32))?,
            ids: Vec::new(alloc),
            answers: Answers::new(),
        };
        for _ in 0..rows {
            if !board.fill()? {
                return Err(BenchError::WrongAnswer);
            }
        }
        Ok(board)
    }

    // Requests a square, and says whether it was granted.
    fn fill(&mut self) -> Result<bool, AtlasError>
        requires { self.old.answers.calls + 1 < 2 ^ 64 }
        ensures ids { IfOk result (λ granted. IsTrue granted → vec_len self.new.ids ≡ vec_len self.old.ids + 1) }
        ensures calls { IfOk result (λ granted. IsTrue granted
            → self.new.answers.calls ≡ self.old.answers.calls + 1) }
    {
        let Some(allocation) = self.atlas.allocate(size2(1, 1))? else {
            return Ok(false);
        };
        let id = allocation.id;
        self.answers.granted(allocation);
        self.ids.push(id)?;
        Ok(true)
    }

    // Requests two squares where no two are free side by side. `WrongAnswer` where they are granted.
    fn fail(&mut self) -> Result<(), BenchError>
        requires { self.old.answers.calls + 1 < 2 ^ 64 }
        ensures { OnOk result (self.new.answers.calls ≡ self.old.answers.calls + 1) }
    {
        if self.atlas.allocate(size2(1, 2))?.is_some() {
            return Err(BenchError::WrongAnswer);
        }
        self.answers.refused();
        Ok(())
    }
}

/// Frees every other one of these boxes, from the first or the second on.
pub fn free_others(
    atlas: &mut AtlasAllocator,
    ids: &[AllocId],
    first: usize,
    answers: &mut Answers,
) -> Result<(), BenchError>
    requires first { first ≤ 1 }
    requires calls { answers.old.calls + length ids.now < 2 ^ 64 }
    ensures { OnOk result (answers.new.calls ≡ answers.old.calls + (length ids.now + 1 - first) / 2) }
{
    for (place, id) in ids.iter().enumerate() {
        if place % 2 == first {
            atlas.deallocate(*id)?;
            answers.freed();
        }
    }
    Ok(())
}

/// Fills an atlas 1 pixel wide and so many high, frees the first box and every other one, and then the others.
pub fn column(alloc: Global, rows: u32) -> Result<Answers, BenchError>
    requires least { 1 ≤ rows }
    requires most { rows < 2 ^ 31 }
    ensures { IfOk result (λ it. it.calls ≡ 2 * rows) }
{
    let mut board = Board::filled(alloc, rows)?;
    free_others(&mut board.atlas, &board.ids, 0, &mut board.answers)?;
    free_others(&mut board.atlas, &board.ids, 1, &mut board.answers)?;
    if !board.atlas.is_empty() {
        return Err(BenchError::WrongAnswer);
    }
    Ok(board.answers)
}

// The rows of the board that `search` goes over.
const SEARCHED_ROWS: u32 = 400_000;

/// Fills an atlas 1 pixel wide and 400,000 high, frees every other box, and searches it in vain so many times.
pub fn search(alloc: Global, searches: u32) -> Result<Answers, BenchError>
    ensures { IfOk result (λ it. it.calls ≡ 600000 + searches) }
{
    let mut board = Board::filled(alloc, SEARCHED_ROWS)?;
    free_others(&mut board.atlas, &board.ids, 0, &mut board.answers)?;
    for _ in 0..searches {
        board.fail()?;
    }
    Ok(board.answers)
}
