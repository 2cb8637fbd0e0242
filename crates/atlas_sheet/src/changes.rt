//! Small changes of the order in which sprites ask.
ghost use Rattle.std.specs.Prelude.{◌≡◌, ◌<◌, length, slice_set, true, IfOk, IsOkUnless, IsPermutation};
ghost use Rattle.std.specs.List.{AllZip};
ghost use Rattle.atlas_sheet.specs.declared.error.SheetError.TheVariants.{Memory};
ghost use Rattle.atlas_sheet.specs.Lying.{MayLie, turned_size};
ghost use Rattle.atlas_sheet.specs.Orders.{IsOrderOf};

use crate::error::SheetError;
use crate::random::Random;
use guillotiere::{Size, size2};
use std::alloc::Allocator;

// Two sprites change places in the order.
fn swap_two(random: &mut Random, order: &mut [(usize, Size)])
    requires { 0 < length order.old }
    ensures { IsPermutation order.old order.new }
{
    let one = random.below(order.len());
    let other = random.below(order.len());
    order.swap(one, other);
}

// A sprite goes to another place in the order.
fn move_one(random: &mut Random, order: &mut [(usize, Size)])
    requires { 0 < length order.old }
    ensures { IsPermutation order.old order.new }
{
    let from = random.below(order.len());
    let to = random.below(order.len());
    if from < to {
        order[from..to + 1].rotate_left(1);
    } else {
        order[to..from + 1].rotate_right(1);
    }
}

// A run of two to four sprites is turned round.
fn turn_run(random: &mut Random, order: &mut [(usize, Size)])
    requires { 0 < length order.old }
    ensures { IsPermutation order.old order.new }
{
    let first = random.below(order.len());
    let end = (first + 2 + random.below(3)).min(order.len());
    order[first..end].reverse();
}

/// The sides of a sprite that is turned.
pub fn flipped(size: Size) -> Size
    ensures { result ≡ turned_size size }
{
    size2(size.height, size.width)
}

// The sprite with this number lies so from now on.
fn lie_so(lying: &mut [Size], number: usize, size: Size)
    requires { number < length lying.old }
    ensures { lying.new ≡ slice_set lying.old number size }
{
    lying[number] = size;
}

// A sprite is turned by 90 degrees.
fn turn_one(random: &mut Random, order: &mut [(usize, Size)], lying: &mut [Size])
    requires some { 0 < length order.old }
    requires permuted { IsOrderOf lying.old order.old }
    ensures permuted { IsOrderOf lying.new order.new }
    ensures lies { AllZip (MayLie true) lying.old lying.new }
{
    let at = random.below(order.len());
    let sprite = order[at];
    let turned = flipped(sprite.1);
    order[at] = (sprite.0, turned);
    lie_so(lying, sprite.0, turned);
}

// One change of the order: two sprites swapped, one moved, a run turned round, or one sprite turned by 90 degrees.
fn change(random: &mut Random, turn: bool, order: &mut [(usize, Size)], lying: &mut [Size])
    requires { IsOrderOf lying.old order.old }
    ensures permuted { IsOrderOf lying.new order.new }
    ensures lies { AllZip (MayLie turn) lying.old lying.new }
{
    if order.is_empty() {
        return;
    }
    let kinds = if turn { 4 } else { 3 };
    match random.below(kinds) {
        0 => swap_two(random, order),
        1 => move_one(random, order),
        2 => turn_run(random, order),
        _ => {
            if turn {
                turn_one(random, order, lying);
            }
        }
    }
}

/// Sprites as they lie, and an order of them.
#[derive(Drop)]
pub struct Asking<A: Allocator> {
    pub lying: Vec<Size, A>,
    pub order: Vec<(usize, Size), A>,
}

/// Sprites as these lie, and their order, with one change.
pub fn change_of<A: Allocator + Copy>(
    alloc: A,
    random: &mut Random,
    turn: bool,
    from_lying: &[Size],
    from_order: &[(usize, Size)],
) -> Result<Asking<A>, SheetError>
    requires { IsOrderOf from_lying.now from_order.now }
    ensures permuted { IfOk result (λ to. IsOrderOf to.lying.items to.order.items) }
    ensures lies { IfOk result (λ to. AllZip (MayLie turn) from_lying.now to.lying.items) }
    ensures unless { IsOkUnless result Memory }
{
    let mut lying = Vec::from_slice(alloc, from_lying)?;
    let mut order = Vec::from_slice(alloc, from_order)?;
    change(random, turn, &mut order, &mut lying);
    Ok(Asking { lying, order })
}
