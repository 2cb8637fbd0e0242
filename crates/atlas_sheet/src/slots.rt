//! A slot for each group, so that what is known of one is found without looking through all sprites.
ghost use Rattle.std.specs.Prelude.{◌≡◌, ◌≤◌, ◌<◌, ◌+◌, ◌⊎◌, ℕ, true, false, if◌then◌else◌, length, List, IfOk, IfSome, IsOkUnless};
ghost use Rattle.std.specs.Prelude.{IsTrue, Some, slice_get, slice_index_or};
ghost use Rattle.std.specs.List.{AllZip};
ghost use Rattle.guillotiere.specs.Pixels.{sides_of};
ghost use Rattle.atlas_sheet.specs.declared.error.SheetError.TheVariants.{Memory};
ghost use Rattle.atlas_sheet.specs.Allowances.{pixels};
ghost use Rattle.atlas_sheet.specs.Grouping.{IsSlotIn, is_in, members, pixels_together};

use crate::dense::pixels_of;
use crate::error::SheetError;
use guillotiere::Size;
use std::alloc::Allocator;

// The numbers of the groups in rising order, each as often as a sprite has it.
fn sorted_numbers<A: Allocator>(
    alloc: A,
    groups: &[Option<usize>],
) -> Result<Vec<usize, A>, SheetError>
    ensures unless { IsOkUnless result Memory }
{
    let mut all = Vec::new(alloc);
    for number in groups {
        if let Some(group) = number {
            all.push(*group)?;
        }
    }
    all.sort_unstable();
    Ok(all)
}

// Where a group's number stands among these.
fn slot_in(sorted: &[usize], number: Option<usize>) -> Option<usize>
    ensures { IsSlotIn sorted.now number result }
{
    let Some(group) = number else {
        return None;
    };
    sorted.binary_search(&group).ok()
}

/// The slot of each sprite's group: where its number stands among those of all sprites. None for a sprite in no group.
pub fn slots_of<A: Allocator + Copy>(
    alloc: A,
    groups: &[Option<usize>],
) -> Result<Vec<Option<usize>, A>, SheetError>
    ensures long { IfOk result (λ slots. length slots.items ≡ length groups.now) }
    ensures slots { IfOk result (λ slots. (sorted : List ℕ) × AllZip (IsSlotIn sorted) groups.now slots.items) }
    ensures unless { IsOkUnless result Memory }
{
    let sorted = sorted_numbers(alloc, groups)?;
    let mut slots = Vec::new(alloc);
    for number in groups {
        let slot = slot_in(&sorted, *number);
        slots.push(slot)?;
    }
    Ok(slots)
}

// Adds the pixels of a sprite to those of its slot.
fn add_pixels(all: &mut [u64], slot: Option<usize>, sprite: Size)
    ensures long { length all.new ≡ length all.old }
    ensures added { (s : ℕ) → slice_index_or all.new s 0
        ≤ slice_index_or all.old s 0 + (if is_in s slot then pixels (sides_of sprite) else 0) }
{
    let Some(number) = slot else {
        return;
    };
    if number < all.len() {
        all[number] = all[number].saturating_add(pixels_of(sprite));
    }
}

/// How many pixels the sprites of each slot have together, but at most 2^64 - 1.
pub fn slot_pixels<A: Allocator>(
    alloc: A,
    slots: &[Option<usize>],
    sprites: &[Size],
) -> Result<Vec<u64, A>, SheetError>
    requires { length slots.now ≡ length sprites.now }
    ensures together { IfOk result (λ all. (s : ℕ)
        → slice_index_or all.items s 0 ≤ pixels_together (members s slots.now sprites.now)) }
    ensures unless { IsOkUnless result Memory }
{
    let mut pixels = vec![in alloc; 0; slots.len()]?;
    for (number, slot) in slots.iter().enumerate() {
        add_pixels(&mut pixels, *slot, sprites[number]);
    }
    Ok(pixels)
}

/// Whether the sprites of a slot have more pixels than this.
pub fn is_over(pixels: &[u64], slot: Option<usize>, room: u64) -> bool
    ensures { IsTrue result → (s : ℕ) × (slot ≡ Some s) × (room < slice_index_or pixels.now s 0) }
{
    let Some(number) = slot else {
        return false;
    };
    number < pixels.len() && room < pixels[number]
}

/// Whether a slot is asked for the first time; from now on it has been asked for.
pub fn asks(asked: &mut [bool], slot: Option<usize>) -> bool
    ensures before { result ≡ false → (s : ℕ) × (slot ≡ Some s) × (slice_get asked.old s ≡ Some true) }
    ensures asked { (s : ℕ) → slice_get asked.new s ≡ Some true
        → (slice_get asked.old s ≡ Some true) ⊎ (slot ≡ Some s) }
{
    let Some(number) = slot else {
        return true;
    };
    if number >= asked.len() {
        return true;
    }
    let is_new = !asked[number];
    asked[number] = true;
    is_new
}

/// Whether a group is to be asked for: a sprite of it isn't chosen yet, its slot wasn't asked for before, and its sprites don't have
/// more pixels than there is room for. From now on its slot has been asked for.
pub fn is_open(
    asked: &mut [bool],
    slot: Option<usize>,
    is_chosen: bool,
    pixels: &[u64],
    room: u64,
) -> bool
    ensures closed { result ≡ false → ((s : ℕ) × (slot ≡ Some s) × (slice_get asked.old s ≡ Some true))
        ⊎ (is_chosen ≡ true) ⊎ ((s : ℕ) × (slot ≡ Some s) × (room < slice_index_or pixels.now s 0)) }
    ensures open_yet { result ≡ true → is_chosen ≡ false }
    ensures asked { (s : ℕ) → slice_get asked.new s ≡ Some true
        → (slice_get asked.old s ≡ Some true) ⊎ (slot ≡ Some s) }
{
    asks(asked, slot) && !is_chosen && !is_over(pixels, slot, room)
}
