//! The sizes of a list, and the halves that they are divided into.
ghost use Rattle.std.specs.Prelude.{◌≡◌, ◌+◌, ◌*◌, ◌/◌, ◌<◌, ◌≤◌, ◌⊎◌, true, false};
ghost use Rattle.atlas_model.specs.Boxes.{IsPositive};
ghost use Rattle.atlas_model.specs.Pixels.{sides_of};
ghost use Rattle.atlas_search.specs.Forks.{IsCell, IsIn, cell_of, end_of, first_of, half, high_by, is_before_end, is_beyond, is_cut_wide};
ghost use Rattle.atlas_search.specs.Forks.{low_by, middle};

use atlas_model::Size;

/// Sizes: widths from `left` on and before `right`, heights from `top` on and before `bottom`.
#[derive(Clone, Copy, Debug, PartialEq, Eq)]
pub struct Cell {
    pub left: u32,
    pub right: u32,
    pub top: u32,
    pub bottom: u32,
}

/// The halves of a cell.
#[derive(Clone, Copy)]
pub struct Halves {
    pub low: Cell,
    pub high: Cell,
}

/// One of the halves of a cell, and which one it is.
#[derive(Clone, Copy)]
pub struct Half {
    pub is_low: bool,
    pub cell: Cell,
}

// The sides of one step: from one on, and before another.
#[derive(Clone, Copy)]
struct Step {
    first: u32,
    end: u32,
}

// The step of a side: so many sides from a multiple on.
fn step_from(side: u32, many: u32) -> Step
    requires many { 0 < many }
    requires few { many ≤ 64 }
    requires below { side < 256 }
    ensures first { result.first ≡ side / many * many }
    ensures end { result.end ≡ side / many * many + many }
{
    let first = side / many * many;
    Step {
        first,
        end: first + many,
    }
}

// The step of a side.
fn step_around(side: u32) -> Step
    ensures first { result.first ≡ first_of side }
    ensures end { result.end ≡ end_of side }
{
    if side < 16 {
        Step {
            first: side,
            end: side + 1,
        }
    } else if side < 64 {
        step_from(side, 2)
    } else if side < 128 {
        step_from(side, 8)
    } else if side < 256 {
        step_from(side, 64)
    } else {
        Step {
            first: 256,
            end: 2147483648,
        }
    }
}

// Where sides are divided.
#[inline(always)]
fn middle(first: u32, end: u32) -> u32
    requires some { first < end }
    requires most { end ≤ 2147483648 }
    ensures { result ≡ middle first end }
{
    (first + (end - first) / 2).min(2 * first)
}

impl Cell {
    /// The sizes with both sides in the steps of these.
    pub fn around(size: Size) -> Cell
        requires { IsPositive (sides_of size) }
        ensures { result ≡ cell_of (sides_of size) }
    {
        let widths = step_around(size.width as u32);
        let heights = step_around(size.height as u32);
        Cell {
            left: widths.first,
            right: widths.end,
            top: heights.first,
            bottom: heights.end,
        }
    }

    /// Whether a size is before the end of the widths, or before that of the heights.
    #[inline(always)]
    pub fn is_before_end(self, size: Size, is_wide: bool) -> bool
        requires { IsPositive (sides_of size) }
        ensures { result ≡ is_before_end is_wide (sides_of size) self }
    {
        if is_wide {
            (size.width as u32) < self.right
        } else {
            (size.height as u32) < self.bottom
        }
    }

    /// Whether both sides of a size, and so much more, are before the first ones.
    #[inline(always)]
    pub fn is_beyond(self, size: Size, more: u32) -> bool
        requires { IsPositive (sides_of size) }
        ensures { result ≡ is_beyond (sides_of size) more self }
    {
        let width = size.width as u32 as u64 + more as u64;
        let height = size.height as u32 as u64 + more as u64;
        width < self.left as u64 && height < self.top as u64
    }

    /// Whether it is divided by width.
    #[inline(always)]
    pub fn is_cut_wide(self) -> bool
        requires { IsCell self }
        ensures wide { result ≡ true → is_cut_wide self ≡ true }
        ensures tall { result ≡ false → is_cut_wide self ≡ false }
    {
        let wide = self.right - self.left;
        let tall = self.bottom - self.top;
        if wide <= tall {
            wide == 2 || wide == tall
        } else {
            tall != 2
        }
    }

    /// The halves of a cell that is divided by width, or by height.
    #[inline(always)]
    pub fn halves(self, is_wide: bool) -> Halves
        requires { IsCell self }
        ensures low { result.low ≡ low_by is_wide self }
        ensures high { result.high ≡ high_by is_wide self }
    {
        if is_wide {
            let at = middle(self.left, self.right);
            Halves {
                low: Cell { right: at, ..self },
                high: Cell { left: at, ..self },
            }
        } else {
            let at = middle(self.top, self.bottom);
            Halves {
                low: Cell { bottom: at, ..self },
                high: Cell { top: at, ..self },
            }
        }
    }

    /// The half that a size of a cell of more than one size is in.
    #[inline(always)]
    pub fn half_of(self, size: Size) -> Half
        requires cell { IsCell self }
        requires inside { IsIn (sides_of size) self }
        ensures cell { result.cell ≡ half result.is_low self }
        ensures inside { IsIn (sides_of size) result.cell }
    {
        let width = size.width as u32;
        let height = size.height as u32;
        if self.is_cut_wide() {
            let at = middle(self.left, self.right);
            if width < at {
                Half {
                    is_low: true,
                    cell: Cell { right: at, ..self },
                }
            } else {
                Half {
                    is_low: false,
                    cell: Cell { left: at, ..self },
                }
            }
        } else {
            let at = middle(self.top, self.bottom);
            if height < at {
                Half {
                    is_low: true,
                    cell: Cell { bottom: at, ..self },
                }
            } else {
                Half {
                    is_low: false,
                    cell: Cell { top: at, ..self },
                }
            }
        }
    }
}
