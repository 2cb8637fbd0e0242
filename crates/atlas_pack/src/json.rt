//! A sheet as JSON.
ghost use Rattle.std.specs.Prelude.{◌≡◌, ◌++◌, IfOk, codes, flat_map, string_bytes};
ghost use Rattle.atlas_pack.specs.Json.{corner_text, json_of, left_names_text, member_text, members_text, meta_text};
ghost use Rattle.atlas_pack.specs.Json.{next_member_text, next_name_text, quoted, rotated_text, sides_text, sheet_size_text};

use crate::frames::Frame;
use crate::sprites::Sprite;
use atlas_model::{Point, Size};
use std::alloc::{AllocError, Global};

// A name as a JSON string.
pub fn quote(alloc: Global, name: &str) -> Result<Vec<u8>, AllocError>
    ensures { IfOk result (λ text. text.items ≡ quoted name.now) }
{
    let mut text = Vec::from_slice(alloc, b"\"")?;
    for byte in name.as_bytes() {
        if *byte == b'"' || *byte == b'\\' {
            text.push(b'\\')?;
        }
        text.push(*byte)?;
    }
    text.push(b'"')?;
    Ok(text)
}

// What JSON says of a sprite that is turned, or not.
fn rotated(turned: bool) -> &'static str
    ensures { result.now ≡ rotated_text turned }
{
    if turned { "true" } else { "false" }
}

// Where a sprite lies.
fn corner(alloc: Global, at: Point) -> Result<String, AllocError>
    ensures { IfOk result (λ text. string_bytes text ≡ corner_text at) }
{
    let Point { x, y } = at;
    format!(in alloc; ":{{\"frame\":{{\"x\":{x},\"y\":{y}")
}

// The size of a sprite, and whether it is turned.
fn sides(alloc: Global, size: Size, turned: bool) -> Result<String, AllocError>
    ensures { IfOk result (λ text. string_bytes text ≡ sides_text size turned) }
{
    let Size { width, height } = size;
    let rotated = rotated(turned);
    format!(in alloc; ",\"w\":{width},\"h\":{height}}},\"rotated\":{rotated}}}")
}

// A sprite: its name and its frame.
fn frame_json(alloc: Global, frame: &Frame) -> Result<Vec<u8>, AllocError>
    ensures { IfOk result (λ text. text.items ≡ member_text frame.now) }
{
    let mut text = quote(alloc, frame.sprite.name.as_str())?;
    let corner = corner(alloc, frame.corner)?;
    text.extend_from_slice(corner.as_bytes())?;
    let sides = sides(alloc, frame.sprite.size, frame.turned)?;
    text.extend_from_slice(sides.as_bytes())?;
    Ok(text)
}

// A frame after another.
fn next_json(alloc: Global, frame: &Frame) -> Result<Vec<u8>, AllocError>
    ensures { IfOk result (λ text. text.items ≡ next_member_text frame.now) }
{
    let mut text = Vec::from_slice(alloc, b",\n")?;
    let frame = frame_json(alloc, frame)?;
    text.extend_from_slice(&frame)?;
    Ok(text)
}

// Frames after another, in order.
fn others_json(alloc: Global, others: &[Frame]) -> Result<Vec<u8>, AllocError>
    ensures { IfOk result (λ text. text.items ≡ flat_map next_member_text others.now) }
{
    let mut text = Vec::new(alloc);
    for next in others {
        let line = next_json(alloc, next)?;
        text.extend_from_slice(&line)?;
    }
    Ok(text)
}

// The frames in order, with a comma between two.
fn frames_json(alloc: Global, frames: &[Frame]) -> Result<Vec<u8>, AllocError>
    ensures { IfOk result (λ text. text.items ≡ members_text frames.now) }
{
    let Some((first, others)) = frames.split_first() else {
        return Ok(Vec::new(alloc));
    };
    let mut text = frame_json(alloc, first)?;
    let others = others_json(alloc, others)?;
    text.extend_from_slice(&others)?;
    Ok(text)
}

// The size of the sheet.
fn size_json(alloc: Global, sheet: Size) -> Result<String, AllocError>
    ensures { IfOk result (λ text. string_bytes text ≡ sheet_size_text sheet) }
{
    let Size { width, height } = sheet;
    format!(in alloc; "\n}},\"meta\":{{\"size\":{{\"w\":{width},\"h\":{height}}}")
}

// A name after another.
fn next_name(alloc: Global, sprite: &Sprite) -> Result<Vec<u8>, AllocError>
    ensures { IfOk result (λ text. text.items ≡ next_name_text sprite.now) }
{
    let mut text = Vec::from_slice(alloc, b",")?;
    let name = quote(alloc, sprite.name.as_str())?;
    text.extend_from_slice(&name)?;
    Ok(text)
}

// Names after another, in order.
fn other_names(alloc: Global, others: &[Sprite]) -> Result<Vec<u8>, AllocError>
    ensures { IfOk result (λ text. text.items ≡ flat_map next_name_text others.now) }
{
    let mut text = Vec::new(alloc);
    for next in others {
        let name = next_name(alloc, next)?;
        text.extend_from_slice(&name)?;
    }
    Ok(text)
}

// The names of the sprites that found no place, in order; nothing where there are none.
fn left_names(alloc: Global, left: &[Sprite]) -> Result<Vec<u8>, AllocError>
    ensures { IfOk result (λ text. text.items ≡ left_names_text left.now) }
{
    let Some((first, others)) = left.split_first() else {
        return Ok(Vec::new(alloc));
    };
    let mut text = Vec::from_slice(alloc, b",\"left\":[")?;
    let name = quote(alloc, first.name.as_str())?;
    text.extend_from_slice(&name)?;
    let others = other_names(alloc, others)?;
    text.extend_from_slice(&others)?;
    text.push(b']')?;
    Ok(text)
}

// What is said of the sheet, and the end.
fn meta(alloc: Global, sheet: Size, left: &[Sprite]) -> Result<Vec<u8>, AllocError>
    ensures { IfOk result (λ text. text.items ≡ meta_text sheet left.now) }
{
    let size = size_json(alloc, sheet)?;
    let mut text = Vec::from_slice(alloc, size.as_bytes())?;
    let names = left_names(alloc, left)?;
    text.extend_from_slice(&names)?;
    text.extend_from_slice(b"}}\n")?;
    Ok(text)
}

/// A sheet as a JSON object: `frames` by the names of the sprites, in order, each with its `frame` (`x`, `y`, `w`, `h`)
/// and `rotated`; and `meta` with the `size` of the sheet (`w`, `h`) and, where some found no place, `left`, their names
/// in order. It takes memory for the text.
pub fn sheet_json(
    alloc: Global,
    sheet: Size,
    frames: &[Frame],
    left: &[Sprite],
) -> Result<Vec<u8>, AllocError>
    ensures { IfOk result (λ text. text.items ≡ json_of sheet frames.now left.now) }
{
    let mut text = Vec::from_slice(alloc, b"{\"frames\":{\n")?;
    let frames = frames_json(alloc, frames)?;
    text.extend_from_slice(&frames)?;
    let meta = meta(alloc, sheet, left)?;
    text.extend_from_slice(&meta)?;
    Ok(text)
}
