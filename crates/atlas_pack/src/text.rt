//! A sheet as lines.
ghost use Rattle.std.specs.Prelude.{◌≡◌, IfOk, flat_map, string_bytes};
ghost use Rattle.atlas_pack.specs.Sprites.{IsReadAgain};
ghost use Rattle.atlas_pack.specs.Texts.{full_text, left_text, needs_quotes, place_line, frame_place_text, sheet_line, spelled};
ghost use Rattle.atlas_pack.specs.Texts.{text_of};

use crate::frames::{Frame, fullness};
use crate::json::quote;
use crate::sprites::Sprite;
use atlas_model::Size;
use std::alloc::{AllocError, Global};

// The line of the sheet.
pub fn sheet_line(alloc: Global, sheet: Size) -> Result<String, AllocError>
    ensures { IfOk result (λ text. string_bytes text ≡ sheet_line sheet) }
{
    let Size { width, height } = sheet;
    format!(in alloc; "sheet {width} {height}\n")
}

// Whether a name has to stand in quotation marks.
fn needs_quotes(name: &[u8]) -> bool
    ensures { result ≡ needs_quotes name.now }
{
    match name.first() {
        Some(first) => *first == b'"' || name.contains(&b' '),
        None => false,
    }
}

// A name in a line. It is read as this name.
pub fn spelled(alloc: Global, name: &str) -> Result<Vec<u8>, AllocError>
    ensures value { IfOk result (λ text. text.items ≡ spelled name.now) }
    ensures again { IfOk result (λ text. IsReadAgain name.now text.items) }
{
    if needs_quotes(name.as_bytes()) {
        return quote(alloc, name);
    }
    Vec::from_slice(alloc, name.as_bytes())
}

// What stands after the name in the line of a sprite.
pub fn place(alloc: Global, frame: &Frame) -> Result<String, AllocError>
    ensures { IfOk result (λ text. string_bytes text ≡ frame_place_text frame.now) }
{
    let at = frame.corner;
    let size = frame.sprite.size;
    let turned = if frame.turned { " turned" } else { "" };
    format!(in alloc;
        " {} {} {} {}{turned}\n",
        at.x, at.y, size.width, size.height
    )
}

// The line of a sprite.
fn sprite_line(alloc: Global, frame: &Frame) -> Result<Vec<u8>, AllocError>
    ensures { IfOk result (λ text. text.items ≡ place_line frame.now) }
{
    let mut text = spelled(alloc, frame.sprite.name.as_str())?;
    let place = place(alloc, frame)?;
    text.extend_from_slice(place.as_bytes())?;
    Ok(text)
}

// The lines of the sprites.
fn sprite_lines(alloc: Global, frames: &[Frame]) -> Result<Vec<u8>, AllocError>
    ensures { IfOk result (λ text. text.items ≡ flat_map place_line frames.now) }
{
    let mut text = Vec::new(alloc);
    for frame in frames {
        let line = sprite_line(alloc, frame)?;
        text.extend_from_slice(&line)?;
    }
    Ok(text)
}

// The line of a sprite without a place.
fn left_line(alloc: Global, sprite: &Sprite) -> Result<Vec<u8>, AllocError>
    ensures { IfOk result (λ text. text.items ≡ left_text sprite.now) }
{
    let mut text = spelled(alloc, sprite.name.as_str())?;
    text.extend_from_slice(b" none\n")?;
    Ok(text)
}

// The lines of the sprites without a place.
fn left_lines(alloc: Global, left: &[Sprite]) -> Result<Vec<u8>, AllocError>
    ensures { IfOk result (λ text. text.items ≡ flat_map left_text left.now) }
{
    let mut text = Vec::new(alloc);
    for sprite in left {
        let line = left_line(alloc, sprite)?;
        text.extend_from_slice(&line)?;
    }
    Ok(text)
}

// The line that says how full the sheet is.
pub fn full_line(alloc: Global, fullness: u128) -> Result<String, AllocError>
    ensures { IfOk result (λ text. string_bytes text ≡ full_text fullness) }
{
    format!(in alloc; "full {fullness}\n")
}

/// A sheet as lines: its size, each sprite with its place, those without one, each in order, and how full it is, in
/// thousandths. A name that has a space or begins with a quotation mark is written in quotation marks, as a JSON
/// string. It takes memory for the text.
pub fn sheet_lines(
    alloc: Global,
    sheet: Size,
    frames: &[Frame],
    left: &[Sprite],
) -> Result<Vec<u8>, AllocError>
    ensures { IfOk result (λ text. text.items ≡ text_of sheet frames.now left.now) }
{
    let first = sheet_line(alloc, sheet)?;
    let mut text = Vec::from_slice(alloc, first.as_bytes())?;
    text.extend_from_slice(&sprite_lines(alloc, frames)?)?;
    text.extend_from_slice(&left_lines(alloc, left)?)?;
    let last = full_line(alloc, fullness(sheet, frames))?;
    text.extend_from_slice(last.as_bytes())?;
    Ok(text)
}
