//! Names that occur once.
ghost use Rattle.std.specs.Prelude.{◌≤◌, IfErr, OnOk};
ghost use Rattle.atlas_pack.specs.Names.{AreDistinct, IsNameFault};

use crate::error::PackError;
use crate::sprites::Sprite;
use std::alloc::Global;
use std::collections::BTreeSet;

// Whether each name stands once; `Twice` with the line of the first that stands on an earlier one. The first sprite
// stands on the line after `before` lines.
pub fn check_names(alloc: Global, sprites: &[Sprite], before: usize) -> Result<(), PackError>
    requires { before ≤ 1 }
    ensures ok { OnOk result (AreDistinct sprites.now) }
    ensures fault { IfErr result (λ e. IsNameFault before sprites.now e) }
{
    let mut names = BTreeSet::new(alloc);
    for (number, sprite) in sprites.iter().enumerate() {
        if !names.insert(sprite.name.as_str())? {
            return Err(PackError::Twice(before + number + 1));
        }
    }
    Ok(())
}
