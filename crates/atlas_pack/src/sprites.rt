//! Sprites, and the lines that name them.
ghost use Rattle.std.specs.Prelude.{◌≡◌, ℕ, List, IfOk, IfSome, IsSomeAnd, string_bytes};
ghost use Rattle.std.specs.Char.{is_control};
ghost use Rattle.std.specs.List.{list_any};
ghost use Rattle.std.specs.Str.{chars};
ghost use Rattle.atlas_model.specs.declared.geometry.Size.{Size};
ghost use Rattle.atlas_pack.specs.Sprites.{BeginsWithSpelling, IsName, SpellsSprite};

use crate::quoted::{after, read_quoted};
use atlas_model::Size;
use atlas_words::words::{first_word, size_arguments};
use std::alloc::{AllocError, Global};
use std::str;

/// A sprite that a line names.
#[derive(Debug, Drop)]
pub struct Sprite {
    /// Its name: one or more characters, none of them a control character.
    pub name: String,
    /// Its size, in pixels.
    pub size: Size,
}

// What the front of a line spells, in quotation marks or as it is up to a space, and what follows that.
fn read_spelled(alloc: Global, line: &[u8]) -> Result<Option<(Vec<u8>, &[u8])>, AllocError>
    ensures found { IfOk result (λ found. IfSome found (λ f. BeginsWithSpelling f.0.items line.now f.1.now)) }
    ensures only { (name rest : List ℕ) → BeginsWithSpelling name line.now rest → IfOk result (λ found.
        IsSomeAnd found (λ f. (f.0.items ≡ name) × (f.1.now ≡ rest))) }
{
    if let Some(text) = after(b'"', line) {
        return read_quoted(alloc, text);
    }
    let (word, rest) = first_word(line);
    Ok(Some((Vec::from_slice(alloc, word)?, rest)))
}

// Whether a character of a text is a control character.
fn has_control(text: &str) -> bool
    ensures { result ≡ list_any is_control (chars text.now) }
{
    text.chars().any(|c| c.is_control())
}

// The name that these bytes are.
fn name_of(alloc: Global, bytes: &[u8]) -> Result<Option<String>, AllocError>
    ensures found { IfOk result (λ found. IfSome found (λ name.
        (string_bytes name ≡ bytes.now) × IsName bytes.now)) }
    ensures all { IsName bytes.now → IfOk result (λ found. IsSomeAnd found (λ name. string_bytes name ≡ bytes.now)) }
{
    if bytes.is_empty() {
        return Ok(None);
    }
    let Ok(name) = str::from_utf8(bytes) else {
        return Ok(None);
    };
    if has_control(name) {
        return Ok(None);
    }
    Ok(Some(String::from_str(alloc, name)?))
}

/// The sprite that the bytes of a line, without its LF, name: NAME WIDTH HEIGHT, separated by single spaces. None for
/// every other line. A name is one or more characters in UTF-8, none of them a control character. It is written as it
/// is where it has no space and doesn't begin with a quotation mark; each name may be written in quotation marks, as a
/// JSON string. It takes memory for the name.
pub fn read_sprite(alloc: Global, line: &[u8]) -> Result<Option<Sprite>, AllocError>
    ensures found { IfOk result (λ found.
        IfSome found (λ sprite. SpellsSprite (string_bytes sprite.name) sprite.size line.now)) }
    ensures all { (name : List ℕ) (size : Size) → SpellsSprite name size line.now → IfOk result (λ found.
        IsSomeAnd found (λ sprite. (string_bytes sprite.name ≡ name) × (sprite.size ≡ size))) }
{
    let Some((bytes, rest)) = read_spelled(alloc, line)? else {
        return Ok(None);
    };
    let Some(size) = size_arguments(rest) else {
        return Ok(None);
    };
    let Some(name) = name_of(alloc, &bytes)? else {
        return Ok(None);
    };
    Ok(Some(Sprite { name, size }))
}
