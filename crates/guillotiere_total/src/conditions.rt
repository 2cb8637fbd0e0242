//! What calls ask, tested one after another.
ghost use Rattle.std.specs.Prelude.{◌≡◌, ◌↔◌, IfErr, Ok};
ghost use Rattle.guillotiere.specs.Boxes.{IsPositive};
ghost use Rattle.guillotiere.specs.Choice.{AreValid};
ghost use Rattle.guillotiere.specs.Pixels.{options_of, sides_of};
ghost use Rattle.guillotiere_total.specs.Faults.{IsLimit, IsLimitFault, IsOptionsFault};

use crate::error::CallError;
use guillotiere::{AllocatorOptions, MOST_SLOTS, Size};

// That a size isn't empty.
pub(crate) fn check_size(size: Size) -> Result<(), CallError>
    ensures ok { (result ≡ Ok tt) ↔ IsPositive (sides_of size) }
    ensures fault { IfErr result (λ e. e ≡ CallError.EmptySize) }
{
    if !size.is_positive() {
        return Err(CallError::EmptySize);
    }
    Ok(())
}

// That a size isn't empty, and that options are valid.
pub(crate) fn check_start(size: Size, options: &AllocatorOptions) -> Result<(), CallError>
    ensures ok { (result ≡ Ok tt) ↔ (IsPositive (sides_of size) × AreValid (options_of options.now)) }
    ensures fault { IfErr result (IsOptionsFault (sides_of size) (options_of options.now)) }
{
    check_size(size)?;
    if !options.alignment.is_positive() {
        return Err(CallError::Alignment);
    }
    if options.small_size_threshold > options.large_size_threshold {
        return Err(CallError::Thresholds);
    }
    Ok(())
}

// That a size isn't empty, that options are valid, and that a limit is one that an atlas may have.
pub(crate) fn check_limited_start(
    size: Size,
    options: &AllocatorOptions,
    limit: u32,
) -> Result<(), CallError>
    ensures ok { (result ≡ Ok tt)
        ↔ (IsPositive (sides_of size) × AreValid (options_of options.now) × IsLimit limit) }
    ensures fault { IfErr result (IsLimitFault (sides_of size) (options_of options.now) limit) }
{
    check_start(size, options)?;
    if limit < 1 || MOST_SLOTS < limit {
        return Err(CallError::SlotLimit);
    }
    Ok(())
}
