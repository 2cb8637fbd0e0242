//! The sprites that the lines of a text name.
ghost use Rattle.std.specs.Prelude.{◌≤◌, IfOk, IfErr};
ghost use Rattle.atlas_pack.specs.Sprites.{AreNamed, IsReadingFault};

use crate::error::PackError;
use crate::sprites::{Sprite, read_sprite};
use atlas_words::words::first_line;
use std::alloc::Global;

// The sprites that the lines of a text name, where `before` lines stand before it. `BadLine` with the number of the
// first line that is none.
pub fn read_sprites(alloc: Global, text: &[u8], before: usize) -> Result<Vec<Sprite>, PackError>
    requires { before ≤ 1 }
    ensures named { IfOk result (λ sprites. AreNamed sprites.items text.now) }
    ensures fault { IfErr result (λ e. IsReadingFault before text.now e) }
{
    let mut sprites = Vec::new(alloc);
    let mut rest = text;
    while !rest.is_empty() {
        let (line, after) = first_line(rest);
        let Some(sprite) = read_sprite(alloc, line)? else {
            return Err(PackError::BadLine(before + sprites.len() + 1));
        };
        sprites.push(sprite)?;
        rest = after;
    }
    Ok(sprites)
}
