//! The sheets that are allowed.
ghost use Rattle.std.specs.Prelude.{◌≡◌, ◌+◌, ◌-◌, ◌<◌, ◌≤◌, IfErr, OnOk};
ghost use Rattle.guillotiere.specs.Boxes.{IsPositive};
ghost use Rattle.guillotiere.specs.Pixels.{natural, sides_of};
ghost use Rattle.atlas_sheet.specs.Allowances.{IsAllowanceFault, IsUsable};
ghost use Rattle.atlas_sheet.specs.Allowances.{greatest_sides, least_sides, nth_sides, row_length};

use crate::error::SheetError;
use guillotiere::{Size, size2};

/// Which sheets are allowed, in pixels.
#[derive(Clone, Copy, Debug, PartialEq, Eq)]
pub enum Allowed {
    /// This size alone.
    One(Size),
    /// Squares with a side from `least` to `greatest`.
    Squares { least: i32, greatest: i32 },
    /// Each side a power of two, up to `greatest`. The sides may differ.
    Powers { greatest: i32 },
    /// This width, and a height from 1 to `greatest`.
    Heights { width: i32, greatest: i32 },
}

impl Allowed {
    /// A size whose sides are at most those of every allowed sheet.
    pub fn least(self) -> Size
        ensures { sides_of result ≡ least_sides self }
    {
        match self {
            Allowed::One(size) => size,
            Allowed::Squares { least, .. } => size2(least, least),
            Allowed::Powers { .. } => size2(1, 1),
            Allowed::Heights { width, .. } => size2(width, 1),
        }
    }

    /// A size whose sides are at least those of every allowed sheet.
    pub fn greatest(self) -> Size
        ensures { sides_of result ≡ greatest_sides self }
    {
        match self {
            Allowed::One(size) => size,
            Allowed::Squares { greatest, .. } => size2(greatest, greatest),
            Allowed::Powers { greatest } => size2(greatest, greatest),
            Allowed::Heights { width, greatest } => size2(width, greatest),
        }
    }

    // How many sizes there are, each a pixel higher than the one before it. Not of powers of two.
    pub fn count(self) -> u32
        requires { IsUsable self }
        ensures count { result ≡ row_length self }
        ensures some { 0 < result }
    {
        (self.greatest().height - self.least().height) as u32 + 1
    }

    // The size that is this much higher than the least.
    pub fn nth(self, number: u32) -> Size
        requires usable { IsUsable self }
        requires inside { number < row_length self }
        ensures sides { sides_of result ≡ nth_sides self number }
        ensures positive { IsPositive (sides_of result) }
    {
        let least = self.least();
        let height = (least.height as u32 + number) as i32;
        match self {
            Allowed::Squares { .. } => size2(height, height),
            _ => size2(least.width, height),
        }
    }
}

// Whether a sheet is allowed at all, and none that is empty.
pub fn check_allowed(allowed: Allowed) -> Result<(), SheetError>
    ensures ok { OnOk result (IsUsable allowed) }
    ensures fault { IfErr result (λ e. IsAllowanceFault allowed e) }
{
    let least = allowed.least();
    if !least.is_positive() {
        return Err(SheetError::EmptySheet);
    }
    let greatest = allowed.greatest();
    if greatest.width < least.width || greatest.height < least.height {
        return Err(SheetError::EmptyRange);
    }
    Ok(())
}
