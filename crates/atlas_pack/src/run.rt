//! A run of the program, from the bytes of a reader to the bytes of a writer.
ghost use Rattle.std.specs.Prelude.{◌≡◌, ◌≤◌, length, map, IfErr, IfOk, None, Some};
ghost use Rattle.atlas_pack.specs.Runs.{Answers, AreSeveral, IsPackAnswer, IsOneSheet, IsPackFault, IsRunFault, Packs, groups_of};
ghost use Rattle.atlas_pack.specs.Runs.{several_of, sheet_options, written};

use crate::error::PackError;
use crate::frames::Frame;
use crate::job::{Job, read_job};
use crate::json::sheet_json;
use crate::packing::{
    beside, beside_pages, fill_one, pack_several, pack_whole, page_frames, parted, sheet_options,
    sizes_of,
};
use crate::pages::pages_lines;
use crate::settings::Settings;
use crate::sprites::Sprite;
use crate::text::sheet_lines;
use atlas_model::Size;
use atlas_sheet::Placed;
use std::alloc::{AllocError, Global};
use std::io::{Read, Write};

// The sheet that these settings ask for, and a place or none for each sprite.
fn found<P: Write>(
    alloc: Global,
    settings: Settings,
    sprites: &[Sprite],
    before: usize,
    progress: &mut P,
) -> Result<(Size, Vec<Option<Placed>>), PackError>
    requires { before ≤ 1 }
    ensures answers { IfOk result (λ found. Answers settings.fill settings.dense (sheet_options settings)
        (map (λ sprite. sprite.size) sprites.now) found.0 found.1.items) }
    ensures fault { IfErr result (λ e. IsPackFault settings.fill settings.dense None before (sheet_options settings)
        (map (λ sprite. sprite.size) sprites.now) e) }
{
    let sizes = sizes_of(alloc, sprites)?;
    let options = sheet_options(settings);
    if settings.fill {
        return fill_one(alloc, &sizes, &options, before);
    }
    pack_whole(alloc, &sizes, &options, settings.dense, before, progress)
}

// The text of a sheet.
fn written(
    alloc: Global,
    json: bool,
    sheet: Size,
    frames: &[Frame],
    left: &[Sprite],
) -> Result<Vec<u8>, AllocError>
    ensures { IfOk result (λ text. text.items ≡ written json sheet frames.now left.now) }
{
    if json {
        return sheet_json(alloc, sheet, frames, left);
    }
    sheet_lines(alloc, sheet, frames, left)
}

// The text of the sheet that these settings ask for, and the sprites that have no place.
fn one_sheet<P: Write>(
    alloc: Global,
    settings: Settings,
    sprites: Vec<Sprite>,
    before: usize,
    progress: &mut P,
) -> Result<(Vec<u8>, Vec<Sprite>), PackError>
    requires { before ≤ 1 }
    ensures packs { IfOk result (λ f. IsOneSheet settings sprites.items (length f.1.items) f.0.items) }
    ensures fault { IfErr result (λ e. IsPackFault settings.fill settings.dense None before (sheet_options settings)
        (map (λ sprite. sprite.size) sprites.items) e) }
{
    let (sheet, places) = found(alloc, settings, &sprites, before, progress)?;
    let pairs = beside(alloc, sprites, &places)?;
    let (frames, left) = parted(alloc, pairs)?;
    let text = written(alloc, settings.json, sheet, &frames, &left)?;
    Ok((text, left))
}

// Tells a person which sprites have no place. A failure is passed over.
fn tell_left<P: Write>(progress: &mut P, left: &[Sprite]) {
    for sprite in left {
        let _ = writeln!(progress, "no place: {}", sprite.name);
    }
}

// The text of several sheets that these settings ask for. Each sprite has a place.
fn several(
    alloc: Global,
    settings: Settings,
    most: u32,
    sprites: Vec<Sprite>,
    before: usize,
) -> Result<Vec<u8>, PackError>
    requires { before ≤ 1 }
    ensures packs { IfOk result (λ text. AreSeveral most settings sprites.items 0 text.items) }
    ensures fault { IfErr result (λ e. IsPackFault settings.fill settings.dense
        (Some (record { most = most; groups = groups_of settings.group sprites.items })) before (sheet_options settings)
        (map (λ sprite. sprite.size) sprites.items) e) }
{
    let sizes = sizes_of(alloc, &sprites)?;
    let options = sheet_options(settings);
    let group = settings.group;
    let pages = pack_several(alloc, &sprites, &sizes, &options, group, most, before)?;
    let pairs = beside_pages(alloc, sprites, &pages.places)?;
    let frames = page_frames(alloc, pairs)?;
    Ok(pages_lines(alloc, &pages.sizes, &frames)?)
}

// The text that these settings ask for, and the sprites that have no place.
fn answer<P: Write>(
    alloc: Global,
    settings: Settings,
    sprites: Vec<Sprite>,
    before: usize,
    progress: &mut P,
) -> Result<(Vec<u8>, Vec<Sprite>), PackError>
    requires { before ≤ 1 }
    ensures packs { IfOk result (λ f. IsPackAnswer settings.pages settings sprites.items (length f.1.items) f.0.items) }
    ensures fault { IfErr result (λ e. IsPackFault settings.fill settings.dense (several_of settings sprites.items) before
        (sheet_options settings) (map (λ sprite. sprite.size) sprites.items) e) }
{
    match settings.pages {
        Some(most) => {
            let text = several(alloc, settings, most, sprites, before)?;
            Ok((text, Vec::new(alloc)))
        }
        None => one_sheet(alloc, settings, sprites, before, progress),
    }
}

/// Reads lines to their end, packs the sprites that they name, and writes the sheet. Nothing is written where a line is
/// bad or no sheet is found. The answer is how many sprites have no place; `progress` has a line for each.
pub fn run<R: Read, W: Write, P: Write>(
    alloc: Global,
    input: &mut R,
    output: &mut W,
    progress: &mut P,
) -> Result<usize, PackError>
    ensures packs { IfOk result (λ many.
        Packs many (R.remaining input.old) (W.contents output.old) (W.contents output.new)) }
    ensures fault { IfErr result (λ e. IsRunFault (R.remaining input.old) e) }
{
    let mut text = Vec::new(alloc);
    input.read_to_end(&mut text)?;
    let job = read_job(alloc, &text)?;
    let Job {
        settings,
        sprites,
        before,
    } = job;
    let (told, left) = answer(alloc, settings, sprites, before, progress)?;
    output.write_all(&told)?;
    tell_left(progress, &left);
    Ok(left.len())
}
