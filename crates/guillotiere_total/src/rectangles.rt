//! The sides of any rectangle.
ghost use Rattle.std.specs.Prelude.{◌≡◌, ◌↔◌, ◌-ℤ◌, IfOk, IsOk, IsOkUnless};
ghost use Rattle.guillotiere.specs.Pixels.{IsMeasurable};

use crate::error::CallError;
use guillotiere::{Rectangle, Size};

/// `Rectangle::width` of any rectangle. `Unmeasurable` where its width or its height fits no `i32`.
pub fn width(rectangle: &Rectangle) -> Result<i32, CallError>
    ensures ok { IsOk result ↔ IsMeasurable rectangle.now }
    ensures unless { IsOkUnless result CallError.Unmeasurable }
    ensures width { IfOk result (λ width. width ≡ rectangle.now.max.x -ℤ rectangle.now.min.x) }
{
    if !rectangle.is_measurable() {
        return Err(CallError::Unmeasurable);
    }
    Ok(rectangle.width())
}

/// `Rectangle::height` of any rectangle. `Unmeasurable` where its width or its height fits no `i32`.
pub fn height(rectangle: &Rectangle) -> Result<i32, CallError>
    ensures ok { IsOk result ↔ IsMeasurable rectangle.now }
    ensures unless { IsOkUnless result CallError.Unmeasurable }
    ensures height { IfOk result (λ height. height ≡ rectangle.now.max.y -ℤ rectangle.now.min.y) }
{
    if !rectangle.is_measurable() {
        return Err(CallError::Unmeasurable);
    }
    Ok(rectangle.height())
}

/// `Rectangle::size` of any rectangle. `Unmeasurable` where its width or its height fits no `i32`.
pub fn size(rectangle: &Rectangle) -> Result<Size, CallError>
    ensures ok { IsOk result ↔ IsMeasurable rectangle.now }
    ensures unless { IsOkUnless result CallError.Unmeasurable }
    ensures width { IfOk result (λ size. size.width ≡ rectangle.now.max.x -ℤ rectangle.now.min.x) }
    ensures height { IfOk result (λ size. size.height ≡ rectangle.now.max.y -ℤ rectangle.now.min.y) }
{
    if !rectangle.is_measurable() {
        return Err(CallError::Unmeasurable);
    }
    Ok(rectangle.size())
}
