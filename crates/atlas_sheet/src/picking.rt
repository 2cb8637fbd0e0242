//! Rows that say of each sprite whether it is chosen.
ghost use Rattle.std.specs.Prelude.{◌≡◌, ◌≢◌, ◌||◌, ◌-◌, ◌<◌, ◌↔◌, ℕ, Bool, false, length, map, IfNone, IfOk, IfSome, IsTrue, IsOkUnless};
ghost use Rattle.atlas_sheet.specs.declared.error.SheetError.TheVariants.{Memory};
ghost use Rattle.atlas_sheet.specs.Grouping.{IsClosed, chosen_row, is_in, picked, spread, with_one};

use crate::error::SheetError;
use crate::placed::Placed;
use guillotiere::Size;
use std::alloc::Allocator;

/// Whether this is the number of the group.
pub fn is_in(group: usize, number: Option<usize>) -> bool
    ensures { result ≡ is_in group number }
{
    match number {
        Some(number) => number == group,
        None => false,
    }
}

/// Which sprites are in the group.
pub fn row_of<A: Allocator>(
    alloc: A,
    group: usize,
    groups: &[Option<usize>],
) -> Result<Vec<bool, A>, SheetError>
    ensures row { IfOk result (λ all. all.items ≡ map (is_in group) groups.now) }
    ensures unless { IsOkUnless result Memory }
{
    let mut all = Vec::with_capacity(alloc, groups.len())?;
    all.extend(groups.iter().map(|number| is_in(group, *number)))?;
    Ok(all)
}

// Whether a sprite is chosen, or in the group.
fn or_in(chosen: bool, group: usize, number: Option<usize>) -> bool
    ensures { result ≡ (chosen || is_in group number) }
{
    chosen || is_in(group, number)
}

/// A row with those that are in the group as well.
pub fn row_with<A: Allocator>(
    alloc: A,
    row: &[bool],
    group: usize,
    groups: &[Option<usize>],
) -> Result<Vec<bool, A>, SheetError>
    requires { length row.now ≡ length groups.now }
    ensures long { IfOk result (λ all. length all.items ≡ length row.now) }
    ensures closed { IsClosed groups.now row.now → IfOk result (λ all. IsClosed groups.now all.items) }
    ensures row { (there : ℕ → Bool) → row.now ≡ chosen_row there 0 groups.now
        → IfOk result (λ all. all.items ≡ chosen_row (with_one group there) 0 groups.now) }
    ensures unless { IsOkUnless result Memory }
{
    let mut all = Vec::new(alloc);
    for (number, chosen) in row.iter().enumerate() {
        let is_chosen = or_in(*chosen, group, groups[number]);
        all.push(is_chosen)?;
    }
    Ok(all)
}

// Whether a sprite is chosen, or in no group where there is room for one.
fn or_single(chosen: bool, room: usize, number: Option<usize>) -> bool
    ensures group { IfSome number (λ n. result ≡ chosen) }
    ensures none { IfNone number (chosen ≡ false → (IsTrue result ↔ (0 < room))) }
{
    chosen || (room > 0 && number.is_none())
}

// The room that is left: one less if the sprite wasn't chosen before.
fn room_left(room: usize, is_chosen: bool, chosen: bool) -> usize
    ensures same { is_chosen ≡ chosen → result ≡ room }
    ensures less { is_chosen ≢ chosen → result ≡ room - 1 }
{
    if is_chosen == chosen {
        room
    } else {
        room.saturating_sub(1)
    }
}

/// A row with so many more of those that are in no group, the first ones.
pub fn row_with_single<A: Allocator>(
    alloc: A,
    row: &[bool],
    many: usize,
    groups: &[Option<usize>],
) -> Result<Vec<bool, A>, SheetError>
    requires { length row.now ≡ length groups.now }
    ensures long { IfOk result (λ all. length all.items ≡ length row.now) }
    ensures closed { IsClosed groups.now row.now → IfOk result (λ all. IsClosed groups.now all.items) }
    ensures row { (there : ℕ → Bool) → row.now ≡ chosen_row there 0 groups.now
        → IfOk result (λ all. all.items ≡ chosen_row there many groups.now) }
    ensures unless { IsOkUnless result Memory }
{
    let mut all = Vec::new(alloc);
    let mut room = many;
    for (number, chosen) in row.iter().enumerate() {
        let is_chosen = or_single(*chosen, room, groups[number]);
        all.push(is_chosen)?;
        room = room_left(room, is_chosen, *chosen);
    }
    Ok(all)
}

/// The sprites where the row says so.
pub fn picked<A: Allocator>(
    alloc: A,
    row: &[bool],
    sprites: &[Size],
) -> Result<Vec<Size, A>, SheetError>
    requires { length row.now ≡ length sprites.now }
    ensures picked { IfOk result (λ all. all.items ≡ picked row.now sprites.now) }
    ensures unless { IsOkUnless result Memory }
{
    let mut all = Vec::new(alloc);
    for (number, chosen) in row.iter().enumerate() {
        if *chosen {
            all.push(sprites[number])?;
        }
    }
    Ok(all)
}

/// What was found, where the row says so.
pub fn spread<A: Allocator>(
    alloc: A,
    row: &[bool],
    found: &[Option<Placed>],
) -> Result<Vec<Option<Placed>, A>, SheetError>
    requires { length found.now ≡ length (picked row.now row.now) }
    ensures spread { IfOk result (λ all. all.items ≡ spread row.now found.now) }
    ensures unless { IsOkUnless result Memory }
{
    let mut all = Vec::new(alloc);
    let mut next = 0;
    for chosen in row {
        if *chosen {
            all.push(found[next])?;
            next += 1;
        } else {
            all.push(None)?;
        }
    }
    Ok(all)
}
