//! What the library is asked, and what it answers.
ghost use Rattle.std.specs.Prelude.{◌≡◌, ◌≤◌, false, length, map, true, flat_map, Bool, IfErr, IfNone, IfOk, IfSome, None, Option, Some};
ghost use Rattle.std.specs.List.{zip};
ghost use Rattle.atlas_pack.specs.Runs.{AreSheets, IsFilled, IsPackFault, IsAllPacked, Several, allowed_of, frame_in};
ghost use Rattle.atlas_pack.specs.Runs.{frame_of, groups_of, left_in, page_frame_of, sheet_options};
ghost use Rattle.atlas_sheet.specs.Dense.{NoWayFinds, NoneIsDense};
ghost use Rattle.atlas_sheet.specs.Paging.{OneIsTooLarge};
ghost use Rattle.atlas_sheet.specs.Settings.{IsSheetFault};

use crate::error::PackError;
use crate::folders::folder_groups;
use crate::frames::Frame;
use crate::pages::PageFrame;
use crate::settings::{Settings, Sheets};
use crate::sprites::Sprite;
use atlas_model::Size;
use atlas_sheet::{
    Allowed, OnPage, Pages, Placed, Sheet, SheetError, SheetOptions, fill, pack_dense, pack_groups,
    pack_pages, pack_telling,
};
use std::alloc::{AllocError, Global};
use std::io::Write;

// The sheets that are allowed.
fn allowed_of(sheets: Sheets) -> Allowed
    ensures { result ≡ allowed_of sheets }
{
    match sheets {
        Sheets::One(size) => Allowed::One(size),
        Sheets::Squares { least, greatest } => Allowed::Squares { least, greatest },
        Sheets::Powers { greatest } => Allowed::Powers { greatest },
        Sheets::Heights { width, greatest } => Allowed::Heights { width, greatest },
    }
}

/// The library's options for these settings.
pub fn sheet_options(settings: Settings) -> SheetOptions
    ensures { result ≡ sheet_options settings }
{
    SheetOptions {
        allowed: allowed_of(settings.sheets),
        padding: settings.padding,
        alignment: settings.alignment,
        turn: settings.turn,
        effort: settings.effort,
        seed: u64::from(settings.seed),
    }
}

// A sprite in its place.
fn frame_of(sprite: Sprite, placed: Placed) -> Frame
    ensures { result ≡ frame_of sprite placed }
{
    Frame {
        sprite,
        corner: placed.area.min,
        turned: placed.turned,
    }
}

/// The sizes of the sprites, in order.
pub fn sizes_of(alloc: Global, sprites: &[Sprite]) -> Result<Vec<Size>, AllocError>
    ensures { IfOk result (λ sizes. sizes.items ≡ map (λ sprite. sprite.size) sprites.now) }
{
    sprites.iter().map(|sprite| sprite.size).collect(alloc)
}

/// Each sprite with its place or none, in order.
pub fn beside(
    alloc: Global,
    sprites: Vec<Sprite>,
    places: &[Option<Placed>],
) -> Result<Vec<(Sprite, Option<Placed>)>, AllocError>
    ensures { IfOk result (λ pairs. pairs.items ≡ zip sprites.items places.now) }
{
    sprites
        .into_iter()
        .zip(places.iter().copied())
        .collect(alloc)
}

/// The sprites that have places, in them, and those that have none, each in order.
pub fn parted(
    alloc: Global,
    pairs: Vec<(Sprite, Option<Placed>)>,
) -> Result<(Vec<Frame>, Vec<Sprite>), AllocError>
    ensures { IfOk result (λ both. (both.0.items ≡ flat_map frame_in pairs.items)
        × (both.1.items ≡ flat_map left_in pairs.items)) }
{
    let mut frames = Vec::new(alloc);
    let mut left = Vec::new(alloc);
    for (sprite, place) in pairs {
        match place {
            Some(placed) => frames.push(frame_of(sprite, placed))?,
            None => left.push(sprite)?,
        }
    }
    Ok((frames, left))
}

// Places that all are there.
fn all_of(alloc: Global, places: &[Placed]) -> Result<Vec<Option<Placed>>, AllocError>
    ensures { IfOk result (λ all. all.items ≡ map Some places.now) }
{
    places.iter().map(|placed| Some(*placed)).collect(alloc)
}

// The program's error where the library refuses these sizes. The sprites' lines stand after `before` others.
fn fault_of(error: SheetError, sizes: &[Size], options: &SheetOptions, before: usize) -> PackError
    requires few { before ≤ 1 }
    requires fault { IsSheetFault options.now sizes.now error }
    ensures { (fill dense : Bool) (several : Option Several)
        → IsPackFault fill dense several before options.now sizes.now result }
{
    match error {
        SheetError::Memory => PackError::Memory,
        SheetError::EmptySheet => PackError::EmptySheet,
        SheetError::EmptyRange => PackError::EmptyRange,
        SheetError::EmptyAlignment => PackError::EmptyAlignment,
        SheetError::EmptySprite(number) => PackError::EmptySprite(before + number + 1),
        SheetError::GreatSprite(number) => PackError::GreatSprite(before + number + 1),
    }
}

// Tells a person the size of a sheet. A failure is passed over.
fn tell<P: Write>(progress: &mut P, size: Size) {
    let _ = writeln!(progress, "sheet {} {}", size.width, size.height);
}

// The sheet that the library packs all sprites into: with `dense` one with no guillotine cuts, where that is smaller. None
// where none is found. Without `dense`, where changes of the order are tried, `progress` has a line for each sheet as
// soon as it is found.
fn packed<P: Write>(
    alloc: Global,
    sizes: &[Size],
    options: &SheetOptions,
    dense: bool,
    progress: &mut P,
) -> Result<Option<Sheet>, SheetError>
    ensures whole { IfOk result (λ found. IfSome found (λ sheet.
        IsAllPacked dense options.now sizes.now sheet.size (map Some sheet.places.items))) }
    ensures none { IfOk result (λ found. IfNone found (NoWayFinds options.now sizes.now)) }
    ensures full { dense ≡ true → IfOk result (λ found. IfNone found (NoneIsDense options.now sizes.now)) }
    ensures fault { IfErr result (λ e. IsSheetFault options.now sizes.now e) }
{
    if dense {
        return pack_dense(alloc, sizes, options);
    }
    let telling = options.effort > 0;
    pack_telling(alloc, sizes, options, |size| {
        if telling {
            tell(progress, size);
        }
    })
}

/// A sheet that takes all sprites, and their places: with `dense` one with no guillotine cuts, where that is smaller. `NoSheet`
/// where none is found. Without `dense`, where changes of the order are tried, `progress` has a line for each sheet as soon
/// as it is found.
pub fn pack_whole<P: Write>(
    alloc: Global,
    sizes: &[Size],
    options: &SheetOptions,
    dense: bool,
    before: usize,
    progress: &mut P,
) -> Result<(Size, Vec<Option<Placed>>), PackError>
    requires { before ≤ 1 }
    ensures found { IfOk result (λ found. IsAllPacked dense options.now sizes.now found.0 found.1.items) }
    ensures fault { IfErr result (λ e. IsPackFault false dense None before options.now sizes.now e) }
{
    match packed(alloc, sizes, options, dense, progress) {
        Ok(Some(sheet)) => {
            let places = all_of(alloc, &sheet.places)?;
            Ok((sheet.size, places))
        }
        Ok(None) => Err(PackError::NoSheet),
        Err(error) => Err(fault_of(error, sizes, options, before)),
    }
}

// A sprite in its place on one of several sheets.
fn page_frame_of(sprite: Sprite, place: OnPage) -> PageFrame
    ensures { result ≡ page_frame_of (sprite, place) }
{
    PageFrame {
        page: place.page,
        frame: frame_of(sprite, place.placed),
    }
}

/// Each sprite with its place on one of several sheets, in order.
pub fn beside_pages(
    alloc: Global,
    sprites: Vec<Sprite>,
    places: &[OnPage],
) -> Result<Vec<(Sprite, OnPage)>, AllocError>
    ensures { IfOk result (λ pairs. pairs.items ≡ zip sprites.items places.now) }
{
    let places = places.iter().copied();
    sprites.into_iter().zip(places).collect(alloc)
}

/// Each sprite in its place on one of several sheets, in order.
pub fn page_frames(
    alloc: Global,
    pairs: Vec<(Sprite, OnPage)>,
) -> Result<Vec<PageFrame>, AllocError>
    ensures { IfOk result (λ frames. frames.items ≡ map page_frame_of pairs.items) }
{
    let mut frames = Vec::new(alloc);
    for (sprite, place) in pairs {
        frames.push(page_frame_of(sprite, place))?;
    }
    Ok(frames)
}

// The sheets that the library packs all sprites into: with `group` those of a folder into one of them, where one takes
// them all. None where a sprite fits no empty sheet.
fn paged(
    alloc: Global,
    sprites: &[Sprite],
    sizes: &[Size],
    options: &SheetOptions,
    group: bool,
) -> Result<Option<Pages>, SheetError>
    ensures pages { IfOk result (λ found. IfSome found (λ p.
        AreSheets (groups_of group sprites.now) options.now sizes.now p.sizes.items p.places.items)) }
    ensures none { IfOk result (λ found. IfNone found (OneIsTooLarge options.now sizes.now)) }
    ensures fault { IfErr result (λ e. IsSheetFault options.now sizes.now e) }
{
    if group {
        let groups = folder_groups(alloc, sprites)?;
        return pack_groups(alloc, sizes, &groups, options);
    }
    pack_pages(alloc, sizes, options)
}

/// Up to `most` sheets that take all sprites, and their places; with `group` those of a folder on one sheet, where one
/// takes them all. `NoSheet` where a sprite fits no empty sheet, and `MorePages` where more sheets are needed.
pub fn pack_several(
    alloc: Global,
    sprites: &[Sprite],
    sizes: &[Size],
    options: &SheetOptions,
    group: bool,
    most: u32,
    before: usize,
) -> Result<Pages, PackError>
    requires { before ≤ 1 }
    ensures pages { IfOk result (λ p.
        AreSheets (groups_of group sprites.now) options.now sizes.now p.sizes.items p.places.items) }
    ensures few { IfOk result (λ p. length p.sizes.items ≤ most) }
    ensures fault { (fill dense : Bool) → IfErr result (λ e. IsPackFault fill dense
        (Some (record { most = most; groups = groups_of group sprites.now })) before options.now sizes.now e) }
{
    match paged(alloc, sprites, sizes, options, group) {
        Ok(Some(pages)) => {
            if pages.sizes.len() > most as usize {
                return Err(PackError::MorePages);
            }
            Ok(pages)
        }
        Ok(None) => Err(PackError::NoSheet),
        Err(error) => Err(fault_of(error, sizes, options, before)),
    }
}

/// The greatest sheet that is allowed, and a place or none for each sprite.
pub fn fill_one(
    alloc: Global,
    sizes: &[Size],
    options: &SheetOptions,
    before: usize,
) -> Result<(Size, Vec<Option<Placed>>), PackError>
    requires { before ≤ 1 }
    ensures filled { IfOk result (λ found. IsFilled options.now sizes.now found.0 found.1.items) }
    ensures fault { (dense : Bool) → IfErr result (λ e. IsPackFault true dense None before options.now sizes.now e) }
{
    match fill(alloc, sizes, options) {
        Ok(filled) => Ok((filled.size, filled.places)),
        Err(error) => Err(fault_of(error, sizes, options, before)),
    }
}
