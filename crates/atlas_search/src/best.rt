//! The best free box that a search was shown.
ghost use Rattle.std.specs.Prelude.{◌≡◌, ◌≢◌, ◌<◌, ◌≤◌, ◌++◌, ◌∷◌, [], ℕ, Bool, List, pos};
ghost use Rattle.std.specs.Prelude.{◌+◌, ◌<ℤ◌, ◌≤ℤ◌, ◌↔◌, ◌&&◌, not, IsTrue, IfSome, None, Contains, false, true};
ghost use Rattle.std.specs.Int.{cast_unsigned, w32};
ghost use Rattle.atlas_model.specs.Boxes.{Box, IsNonempty, IsPositive, Sides, box_sides};
ghost use Rattle.atlas_model.specs.Choice.{ComesFirst};
ghost use Rattle.atlas_model.specs.Pixels.{box_of, natural, sides_of};
ghost use Rattle.atlas_search.specs.Forks.{is_before_end, is_beyond};
ghost use Rattle.atlas_search.specs.Ranks.{corner_of, flip_of, no_corner, no_rank, rank_of, IsReach};
ghost use Rattle.atlas_search.specs.Rectangles.{IsUnsigned};

use crate::cells::Cell;
use crate::choice::margin_in;
use crate::link::Link;
use atlas_model::{Rectangle, Size};

/// The free box that a request takes, and its entry.
#[derive(Clone, Copy)]
pub struct Found {
    pub rectangle: Rectangle,
    pub at: Link,
}

// The rank of no box, and the corner of none.
const NO_RANK: u32 = 2147483647;

const NO_CORNER: u64 = 18446744073709551615;

// No limit of margins.
const NO_REACH: u32 = 4294967295;

// Half of what an `i32` can hold.
const FAR: u32 = 1073741824;

// A side, and so much more.
fn longer(side: i32, more: u32) -> i32
    requires side { pos 0 <ℤ side }
    requires short { side <ℤ pos 1073741824 }
    requires more { more < 1073741824 }
    ensures { result ≡ pos (natural side + more) }
{
    (side as u32 + more) as i32
}

/// The best of the boxes that a search was shown.
#[derive(Clone, Copy)]
pub struct Best {
    size: Size,
    is_large: bool,
    // A least margin above 0 is the rank by exclusive or with this.
    flip: u32,
    // The lesser the better, and 0 for an equal side; `NO_RANK` as long as no box was shown that the request fits.
    rank: u32,
    // Its `min`, as `corner` has it.
    corner: u64,
    // Its corner once it has an equal side: no box that begins there or later is better. Before that `NO_CORNER`.
    bar: u64,
    // No box with a greater least margin is better; `NO_REACH` as long as that isn't known.
    reach: u32,
    // Its entry.
    at: Link,
    ghost positive: { IsPositive (sides_of size) },
    ghost flipped: { flip ≡ flip_of is_large },
    ghost barred: { bar < 18446744073709551615 → (rank ≡ 0) × (bar ≡ corner) },
    ghost reached: { reach < 4294967295 → IsReach reach rank is_large },
    ghost ranked: { rank ≤ 2147483647 },
}

// By exclusive or with this a margin above 0 is its rank: of a large request the greater the lesser.
fn flip_of(is_large: bool) -> u32
    ensures { result ≡ flip_of is_large }
{
    if is_large { NO_RANK } else { 0 }
}

// The rank of a box with this least margin, if that is above 0.
fn rank_above_zero(flip: u32, margin: i32) -> u32
    ensures rank { (is_large : Bool) → flip ≡ flip_of is_large → pos 0 <ℤ margin → result ≡ rank_of is_large (natural margin) }
    ensures same { flip ≡ 0 → result ≡ cast_unsigned w32 margin }
{
    margin.cast_unsigned() ^ flip
}

// The rank of a box with this least margin.
fn rank(flip: u32, margin: i32) -> u32
    requires { pos 0 ≤ℤ margin }
    ensures { (is_large : Bool) → flip ≡ flip_of is_large → result ≡ rank_of is_large (natural margin) }
{
    if margin == 0 {
        return 0;
    }
    rank_above_zero(flip, margin)
}

// How great the least margin of a box may be that is better than the best of this rank. For a large request that doesn't end, unless there
// is an equal side.
fn reach_of(is_large: bool, rank: u32) -> u32
    ensures { result < 4294967295 → IsReach result rank is_large }
{
    if rank == 0 {
        return 0;
    }
    if is_large {
        return NO_REACH;
    }
    if rank >= NO_RANK {
        return NO_REACH;
    }
    rank
}

// The `min` of a box as one number, the greater the later the box comes: the y, and below it the x.
pub fn corner(rectangle: Rectangle) -> u64
    requires { IsUnsigned rectangle }
    ensures corner { result ≡ corner_of (box_of rectangle) }
    ensures below { result < no_corner }
{
    rectangle.min.y as u32 as u64 * 4294967296 + rectangle.min.x as u32 as u64
}

impl Best {
    ghost use Rattle.atlas_search.specs.Bests.{HasSeen, IsAhead, IsFarther, IsOut, IsPassed, BecomesBest};
    ghost use Rattle.atlas_search.specs.Forks.{IsIn};
    ghost use Rattle.atlas_search.specs.Searches.{Shown, shown_at};

    /// No box was shown yet for a request of this rounded size.
    pub fn new(size: Size, is_large: bool) -> Best
        requires { IsPositive (sides_of size) }
        ensures { HasSeen result is_large (sides_of size) [] }
    {
        Best {
            size,
            is_large,
            flip: flip_of(is_large),
            rank: NO_RANK,
            corner: NO_CORNER,
            bar: NO_CORNER,
            reach: NO_REACH,
            at: Link::NONE,
        }
    }

    // Whether a box of this rank with this corner is to be kept rather than the best one.
    fn is_beaten_by(&self, rank: u32, corner: u64) -> bool
        ensures { IsTrue result ↔ IsAhead rank corner self.now }
    {
        rank < self.rank || (rank == self.rank && corner < self.corner)
    }

    // The rank of a box with this corner, if it is to be kept rather than the best one.
    fn rank_ahead(&self, rectangle: Rectangle, corner: u64) -> Option<u32>
        requires unsigned { IsUnsigned rectangle }
        requires nonempty { IsNonempty (box_of rectangle) }
        requires corner { corner ≡ corner_of (box_of rectangle) }
        ensures passed { result ≡ None → IsPassed self.now (box_of rectangle) }
        ensures taken { IfSome result (λ rank. BecomesBest self.now (box_of rectangle) rank corner) }
        ensures ranked { IfSome result (λ rank. rank ≤ 2147483647) }
    {
        let margin = margin_in(rectangle, self.size);
        if margin < 0 {
            return None;
        }
        let rank = rank(self.flip, margin);
        if self.is_beaten_by(rank, corner) {
            Some(rank)
        } else {
            None
        }
    }

    /// Shows the box of an entry, which has this corner. Answers whether it is the best now and has an equal side: no box that begins there
    /// or later is better then.
    pub fn look(&mut self, rectangle: Rectangle, corner: u64, at: Link) -> bool
        requires unsigned { IsUnsigned rectangle }
        requires nonempty { IsNonempty (box_of rectangle) }
        requires corner { corner ≡ corner_of (box_of rectangle) }
        ensures seen { (is_large : Bool) (r : Sides) (shown : List Shown) → HasSeen self.old is_large r shown
            → HasSeen self.new is_large r (shown ++ shown_at (box_of rectangle) at.number ∷ []) }
        ensures equal { result ≡ true → (self.new.rank ≡ 0) × (self.new.corner ≡ corner) }
    {
        if let Some(rank) = self.rank_ahead(rectangle, corner) {
            *self = Best {
                size: self.size,
                is_large: self.is_large,
                flip: self.flip,
                rank,
                corner,
                bar: if rank == 0 { corner } else { NO_CORNER },
                reach: reach_of(self.is_large, rank),
                at,
            };
            return rank == 0;
        }
        false
    }

    /// Shows the box of an entry, which has this corner and is longer on both sides than the request.
    #[inline(always)]
    pub fn look_larger(&mut self, rectangle: Rectangle, corner: u64, at: Link)
        requires unsigned { IsUnsigned rectangle }
        requires nonempty { IsNonempty (box_of rectangle) }
        requires corner { corner ≡ corner_of (box_of rectangle) }
        ensures { (is_large : Bool) (r : Sides) (shown : List Shown) → IsFarther r (box_sides (box_of rectangle))
            → HasSeen self.old is_large r shown
            → HasSeen self.new is_large r (shown ++ shown_at (box_of rectangle) at.number ∷ []) }
    {
        let rank = rank_above_zero(self.flip, margin_in(rectangle, self.size));
        if self.is_beaten_by(rank, corner) {
            *self = Best {
                size: self.size,
                is_large: self.is_large,
                flip: self.flip,
                rank,
                corner,
                bar: NO_CORNER,
                reach: if self.is_large { NO_REACH } else { rank },
                at,
            };
        }
    }

    /// Whether the best has an equal side.
    pub fn has_equal_side(&self) -> bool
        ensures { IsTrue result ↔ (self.now.rank ≡ 0) }
    {
        self.rank == 0
    }

    /// Whether the best has an equal side and begins at this corner or before it: no box that begins there or later is
    /// better.
    pub fn passes(&self, corner: u64) -> bool
        requires { corner < no_corner }
        ensures { IsTrue result → (self.now.rank ≡ 0) × (self.now.corner ≤ corner) }
    {
        self.bar <= corner
    }

    /// Whether the best leaves over 1 or nothing and begins at this corner or before it: of boxes that are longer on both sides than the
    /// request, none that begins there or later is better.
    #[inline(always)]
    pub fn passes_larger(&self, corner: u64) -> bool
        ensures { result ≡ true → (is_large : Bool) (r : Sides) (shown more : List Shown) (b : Box)
            → corner ≡ corner_of b → b.min.x < 4294967296 → HasSeen self.now is_large r shown
            → ((c : Shown) → Contains more c → IsFarther r (box_sides c.box) × ComesFirst b c.box)
            → HasSeen self.now is_large r (shown ++ more) }
    {
        self.reach <= 1 && self.corner <= corner
    }

    /// Whether the request may fit a box of a size in this cell, by the widths there alone, or by the heights.
    #[inline(always)]
    pub fn may_fit_by(&self, cell: Cell, is_wide: bool) -> bool
        ensures exact { result ≡ is_before_end is_wide (sides_of self.now.size) cell }
        ensures out { result ≡ false → IsOut self.now cell }
    {
        cell.is_before_end(self.size, is_wide)
    }

    /// Whether the request may fit a box of a size in this cell.
    #[inline(always)]
    pub fn may_fit_in(&self, cell: Cell) -> bool
        ensures exact { result
            ≡ (is_before_end true (sides_of self.now.size) cell && is_before_end false (sides_of self.now.size) cell) }
        ensures out { result ≡ false → IsOut self.now cell }
    {
        self.may_fit_by(cell, true) && self.may_fit_by(cell, false)
    }

    /// Whether a box of a size in this cell may leave no more over than the best does, or anything where the request is large and the best
    /// has no equal side.
    #[inline(always)]
    pub fn may_gain_in(&self, cell: Cell) -> bool
        ensures exact { result ≡ not (is_beyond (sides_of self.now.size) self.now.reach cell) }
        ensures out { result ≡ false → IsOut self.now cell }
    {
        !cell.is_beyond(self.size, self.reach)
    }

    /// Whether no box of a size in this cell that begins at this corner or later is better than the best, since each leaves over as much as
    /// that or more. It isn't said where the best has an equal side, nor of a large request.
    #[inline(always)]
    pub fn ends_in(&self, cell: Cell, corner: u64) -> bool
        ensures { result ≡ true → (is_large : Bool) (r : Sides) (shown more : List Shown) (b : Box)
            → corner ≡ corner_of b → b.min.x < 4294967296 → HasSeen self.now is_large r shown
            → ((c : Shown) → Contains more c → IsIn (box_sides c.box) cell × ComesFirst b c.box)
            → HasSeen self.now is_large r (shown ++ more) }
    {
        if corner < self.corner {
            return false;
        }
        if self.reach == 0 {
            return false;
        }
        cell.is_beyond(self.size, self.reach - 1)
    }

    /// A size such that no box is better than the best that is both wider and higher; None as long as none is known, where the
    /// request is large and the best has no equal side, and where a side may pass what an `i32` can hold.
    pub fn farthest(&self) -> Option<Size>
        ensures positive { IfSome result (λ far. IsPositive (sides_of far)) }
        ensures far { IfSome result (λ far. (is_large : Bool) (r : Sides) (shown more : List Shown)
            → HasSeen self.now is_large r shown
            → ((c : Shown) → Contains more c → IsFarther (sides_of far) (box_sides c.box))
            → HasSeen self.now is_large r (shown ++ more)) }
    {
        if self.reach >= FAR {
            return None;
        }
        if self.size.width >= FAR as i32 || self.size.height >= FAR as i32 {
            return None;
        }
        Some(Size {
            width: longer(self.size.width, self.reach),
            height: longer(self.size.height, self.reach),
        })
    }

    /// The entry of the best of the boxes shown.
    pub fn found(&self) -> Option<Link>
        ensures none { result ≡ None → self.now.rank ≡ no_rank }
        ensures some { IfSome result (λ at. (at ≡ self.now.at) × (self.now.rank ≢ no_rank)) }
    {
        if self.rank == NO_RANK {
            None
        } else {
            Some(self.at)
        }
    }
}
