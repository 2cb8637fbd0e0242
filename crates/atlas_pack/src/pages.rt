//! Several sheets as lines.
ghost use Rattle.std.specs.Prelude.{◌≡◌, ◌<◌, ◌≤◌, ◌*◌, IfOk, flat_map, length, string_bytes};
ghost use Rattle.atlas_pack.specs.Pages.{all_pixels, page_line, page_number_text, pages_fullness, pages_text_of, used_on_pages};
ghost use Rattle.atlas_pack.specs.Texts.{sheet_line};

use crate::frames::{Frame, pixel_count};
use crate::text::{full_line, place, sheet_line, spelled};
use atlas_model::Size;
use std::alloc::{AllocError, Global};

/// A sprite in its place on one of several sheets.
#[derive(Debug, Drop)]
pub struct PageFrame {
    /// The number of the sheet, counted from 0.
    pub page: usize,
    /// The sprite in its place there.
    pub frame: Frame,
}

// The lines of the sheets.
fn sheets_lines(alloc: Global, sheets: &[Size]) -> Result<Vec<u8>, AllocError>
    ensures { IfOk result (λ text. text.items ≡ flat_map sheet_line sheets.now) }
{
    let mut text = Vec::new(alloc);
    for sheet in sheets {
        let line = sheet_line(alloc, *sheet)?;
        text.extend_from_slice(line.as_bytes())?;
    }
    Ok(text)
}

// The number of a sheet, after a space.
fn page_word(alloc: Global, page: usize) -> Result<String, AllocError>
    ensures { IfOk result (λ text. string_bytes text ≡ page_number_text page) }
{
    format!(in alloc; " {page}")
}

// The line of a sprite.
fn page_line(alloc: Global, sprite: &PageFrame) -> Result<Vec<u8>, AllocError>
    ensures { IfOk result (λ text. text.items ≡ page_line sprite.now) }
{
    let mut text = spelled(alloc, sprite.frame.sprite.name.as_str())?;
    let page = page_word(alloc, sprite.page)?;
    text.extend_from_slice(page.as_bytes())?;
    let place = place(alloc, &sprite.frame)?;
    text.extend_from_slice(place.as_bytes())?;
    Ok(text)
}

// The lines of the sprites.
fn page_lines(alloc: Global, sprites: &[PageFrame]) -> Result<Vec<u8>, AllocError>
    ensures { IfOk result (λ text. text.items ≡ flat_map page_line sprites.now) }
{
    let mut text = Vec::new(alloc);
    for sprite in sprites {
        let line = page_line(alloc, sprite)?;
        text.extend_from_slice(&line)?;
    }
    Ok(text)
}

// How many pixels the sheets have together.
fn all_pixels(sheets: &[Size]) -> u128
    ensures value { result ≡ all_pixels sheets.now }
    ensures bound { result ≤ length sheets.now * 4611686018427387904 }
{
    let mut all = 0;
    for sheet in sheets {
        all += u128::from(pixel_count(*sheet));
    }
    all
}

// How many pixels the sprites have together.
fn used_pixels(sprites: &[PageFrame]) -> u128
    ensures { result ≡ used_on_pages sprites.now }
{
    let mut used = 0;
    for sprite in sprites {
        used += u128::from(pixel_count(sprite.frame.sprite.size));
    }
    used
}

/// How many thousandths of the pixels of all sheets the sprites have, rounded down; 0 where there is none.
pub fn pages_fullness(sheets: &[Size], sprites: &[PageFrame]) -> u128
    requires { length sheets.now < 4294967296 }
    ensures { result ≡ pages_fullness sheets.now sprites.now }
{
    let all = all_pixels(sheets);
    1000 * used_pixels(sprites).min(all) / all.max(1)
}

/// Several sheets as lines: the size of each in order, each sprite with the number of its sheet and its place there, in
/// order, and how full they are together, in thousandths. It takes memory for the text.
pub fn pages_lines(
    alloc: Global,
    sheets: &[Size],
    sprites: &[PageFrame],
) -> Result<Vec<u8>, AllocError>
    requires { length sheets.now < 4294967296 }
    ensures { IfOk result (λ text. text.items ≡ pages_text_of sheets.now sprites.now) }
{
    let mut text = sheets_lines(alloc, sheets)?;
    text.extend_from_slice(&page_lines(alloc, sprites)?)?;
    let last = full_line(alloc, pages_fullness(sheets, sprites))?;
    text.extend_from_slice(last.as_bytes())?;
    Ok(text)
}
