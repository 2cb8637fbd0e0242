//! The lists of free slots by the bands of both sides.
ghost use Rattle.std.specs.Prelude.{◌≡◌, true, ◌+◌, ◌<◌, ◌≤◌, pos, ◌<ℤ◌, ◌≤ℤ◌, ℕ};
ghost use Rattle.atlas_search.specs.Bands.{band_of, border_of, list_of, number_of, passes, start_of, step_of};
ghost use Rattle.atlas_model.specs.Choice.{Options};
ghost use Rattle.atlas_search.specs.Lookups.{AreBorders, AreUsual, IsEndAfter};
ghost use Rattle.atlas_model.specs.Boxes.{IsPositive};
ghost use Rattle.atlas_search.specs.Heaps.{tag_of};
ghost use Rattle.atlas_model.specs.Pixels.{natural, options_of, sides_of};

use crate::link::{Link, TAG};
use atlas_model::{AllocatorOptions, Size};
use std::marker::Model;

/// How many bands a side may have: the lists have as many rows, and as many columns.
pub const BANDS: usize = 52;

/// The row and the column of a list.
#[derive(Clone, Copy, Debug, PartialEq, Eq)]
pub struct Place {
    pub row: usize,
    pub column: usize,
}

impl Place {
    /// What stands above the first entry of the list.
    pub fn tag(self) -> Link
        requires row { self.row < BANDS }
        requires column { self.column < BANDS }
        ensures { result.number ≡ tag_of (number_of self) }
    {
        Link {
            number: TAG + (BANDS * self.row + self.column) as u32,
        }
    }
}

// The step of each side up to 256.
static STEPS: [u8; 257] = [
    0, 0, 1, 2, 3, 4, 5, 6, 7, 8, 9, 10, 11, 12, 13, 14, 15, 15, 16, 16, 17, 17, 18, 18, 19, 19,
    20, 20, 21, 21, 22, 22, 23, 23, 24, 24, 25, 25, 26, 26, 27, 27, 28, 28, 29, 29, 30, 30, 31, 31,
    32, 32, 33, 33, 34, 34, 35, 35, 36, 36, 37, 37, 38, 38, 39, 39, 39, 39, 39, 39, 39, 39, 40, 40,
    40, 40, 40, 40, 40, 40, 41, 41, 41, 41, 41, 41, 41, 41, 42, 42, 42, 42, 42, 42, 42, 42, 43, 43,
    43, 43, 43, 43, 43, 43, 44, 44, 44, 44, 44, 44, 44, 44, 45, 45, 45, 45, 45, 45, 45, 45, 46, 46,
    46, 46, 46, 46, 46, 46, 47, 47, 47, 47, 47, 47, 47, 47, 47, 47, 47, 47, 47, 47, 47, 47, 47, 47,
    47, 47, 47, 47, 47, 47, 47, 47, 47, 47, 47, 47, 47, 47, 47, 47, 47, 47, 47, 47, 47, 47, 47, 47,
    47, 47, 47, 47, 47, 47, 47, 47, 47, 47, 47, 47, 47, 47, 47, 47, 47, 47, 47, 47, 47, 47, 48, 48,
    48, 48, 48, 48, 48, 48, 48, 48, 48, 48, 48, 48, 48, 48, 48, 48, 48, 48, 48, 48, 48, 48, 48, 48,
    48, 48, 48, 48, 48, 48, 48, 48, 48, 48, 48, 48, 48, 48, 48, 48, 48, 48, 48, 48, 48, 48, 48, 48,
    48, 48, 48, 48, 48, 48, 48, 48, 48, 48, 48, 48, 48, 48, 49,
];

// The step of a side.
fn step(side: u32) -> usize
    requires { 0 < side }
    ensures step { result ≡ step_of side }
    ensures most { result ≤ 49 }
{
    STEPS[side.min(256) as usize] as usize
}

// The band of each side up to 256 with the usual thresholds, 32 and 256.
static USUAL_BANDS: [u8; 257] = [
    0, 0, 1, 2, 3, 4, 5, 6, 7, 8, 9, 10, 11, 12, 13, 14, 15, 15, 16, 16, 17, 17, 18, 18, 19, 19,
    20, 20, 21, 21, 22, 22, 24, 24, 25, 25, 26, 26, 27, 27, 28, 28, 29, 29, 30, 30, 31, 31, 32, 32,
    33, 33, 34, 34, 35, 35, 36, 36, 37, 37, 38, 38, 39, 39, 40, 40, 40, 40, 40, 40, 40, 40, 41, 41,
    41, 41, 41, 41, 41, 41, 42, 42, 42, 42, 42, 42, 42, 42, 43, 43, 43, 43, 43, 43, 43, 43, 44, 44,
    44, 44, 44, 44, 44, 44, 45, 45, 45, 45, 45, 45, 45, 45, 46, 46, 46, 46, 46, 46, 46, 46, 47, 47,
    47, 47, 47, 47, 47, 47, 48, 48, 48, 48, 48, 48, 48, 48, 48, 48, 48, 48, 48, 48, 48, 48, 48, 48,
    48, 48, 48, 48, 48, 48, 48, 48, 48, 48, 48, 48, 48, 48, 48, 48, 48, 48, 48, 48, 48, 48, 48, 48,
    48, 48, 48, 48, 48, 48, 48, 48, 48, 48, 48, 48, 48, 48, 48, 48, 48, 48, 48, 48, 48, 48, 49, 49,
    49, 49, 49, 49, 49, 49, 49, 49, 49, 49, 49, 49, 49, 49, 49, 49, 49, 49, 49, 49, 49, 49, 49, 49,
    49, 49, 49, 49, 49, 49, 49, 49, 49, 49, 49, 49, 49, 49, 49, 49, 49, 49, 49, 49, 49, 49, 49, 49,
    49, 49, 49, 49, 49, 49, 49, 49, 49, 49, 49, 49, 49, 49, 51,
];

// The band of a side with the usual thresholds.
fn usual_band(side: u32) -> usize
    ensures band { (o : Options) → AreUsual o → result ≡ band_of o side }
    ensures inside { result < BANDS }
{
    USUAL_BANDS[side.min(256) as usize] as usize
}

// Whether the thresholds are the usual ones.
fn are_usual(options: &AllocatorOptions) -> bool
    ensures { result ≡ true → AreUsual (options_of options.now) }
{
    options.small_size_threshold == 32 && options.large_size_threshold == 256
}

// 1 if a side is at least a threshold.
fn passed(side: i32, threshold: i32) -> usize
    requires { pos 0 <ℤ side }
    ensures passes { result ≡ passes threshold (natural side) }
    ensures most { result ≤ 1 }
{
    if side >= threshold { 1 } else { 0 }
}

// The band of a side.
#[tactic(auto, unfolding(crate::specs::Bands::band_of))]
fn band(side: i32, options: &AllocatorOptions) -> usize
    requires { pos 0 <ℤ side }
    ensures band { result ≡ band_of (options_of options.now) (natural side) }
    ensures inside { result < BANDS }
{
    step(side as u32)
        + passed(side, options.small_size_threshold)
        + passed(side, options.large_size_threshold)
}

// The first band of the sides from a threshold on.
fn border(threshold: i32, options: &AllocatorOptions) -> usize
    ensures border { result ≡ border_of (options_of options.now) threshold }
    ensures inside { result < BANDS }
{
    if threshold <= 1 {
        0
    } else {
        band(threshold, options)
    }
}

// The first band of the sides that reach the small threshold, and that of those that reach the large one.
#[derive(Clone, Copy)]
struct Borders {
    small: usize,
    large: usize,
}

// The borders of the classes.
fn borders_for(options: &AllocatorOptions) -> Borders
    ensures { AreBorders (options_of options.now) result }
{
    Borders {
        small: border(options.small_size_threshold, options),
        large: border(options.large_size_threshold, options),
    }
}

/// Options, with what the lists take of them: the borders of the classes, and whether the bands of sides are the usual
/// ones. Contracts see the options alone.
#[derive(Drop)]
pub struct Scale {
    options: AllocatorOptions,
    borders: Borders,
    are_usual: bool,
}

impl Model for Scale {
    ghost use Rattle.std.specs.Prelude.{◌≡◌, true};
    ghost use Rattle.atlas_model.specs.declared.options.AllocatorOptions.{AllocatorOptions};
    ghost use Rattle.atlas_model.specs.Pixels.{options_of};
    ghost use Rattle.atlas_search.specs.Lookups.{AreBorders, AreUsual};

    ghost Value = { AllocatorOptions };

    ghost view = { λ s. s.options };

    ghost invariant = { λ s. AreBorders (options_of s.options) s.borders
        × (s.are_usual ≡ true → AreUsual (options_of s.options)) };
}

impl Scale {
    /// That of these options.
    pub fn new(options: &AllocatorOptions) -> Scale
        ensures { result ≡ options.now }
    {
        Scale {
            options: *options,
            borders: borders_for(options),
            are_usual: are_usual(options),
        }
    }

    /// That of these options from now on.
    pub fn set(&mut self, options: &AllocatorOptions)
        ensures { self.new ≡ options.now }
    {
        if self.options != *options {
            *self = Scale::new(options);
        }
    }

    /// A scale of these options too.
    pub fn copy(&self) -> Scale
        ensures { result ≡ self.now }
    {
        Scale {
            options: self.options,
            borders: self.borders,
            are_usual: self.are_usual,
        }
    }

    /// The options.
    pub fn plain(&self) -> AllocatorOptions
        ensures { result ≡ self.now }
    {
        self.options
    }

    /// The first row and column of large sizes.
    pub fn large(&self) -> usize
        ensures { result ≡ start_of (options_of self.now) 2 }
    {
        self.borders.large
    }

    /// The border of a class after a row or a column.
    pub fn end_after(&self, first: usize) -> usize
        requires { first < BANDS }
        ensures after { first < result }
        ensures most { result ≤ BANDS }
        ensures class { IsEndAfter (options_of self.now) first result }
    {
        if first < self.borders.small {
            self.borders.small
        } else if first < self.borders.large {
            self.borders.large
        } else {
            BANDS
        }
    }

    /// The list of a size.
    pub fn place_for(&self, size: Size) -> Place
        requires { IsPositive (sides_of size) }
        ensures number { number_of result ≡ list_of (options_of self.now) (sides_of size) }
        ensures row { result.row ≡ band_of (options_of self.now) (sides_of size).width }
        ensures column { result.column ≡ band_of (options_of self.now) (sides_of size).height }
        ensures row_inside { result.row < BANDS }
        ensures column_inside { result.column < BANDS }
    {
        if self.are_usual {
            return Place {
                row: usual_band(size.width as u32),
                column: usual_band(size.height as u32),
            };
        }
        Place {
            row: band(size.width, &self.options),
            column: band(size.height, &self.options),
        }
    }
}
