//! Sprites in folders: what comes before the last `/` of a name.
ghost use Rattle.std.specs.Prelude.{◌≡◌, ◌<◌, ◌+◌, IfOk, MatchOption, None, OnOk, Some, length, slice_index_or, take};
ghost use Rattle.atlas_pack.specs.Folders.{AreByFolder, AreFirst, folder_groups, folder_in, folder_number, folder_of};

use crate::sprites::Sprite;
use std::alloc::{AllocError, Global};
use std::collections::BTreeMap;

// What stands before the last `/` of a name, if there is one.
fn folder_in(name: &[u8]) -> Option<&[u8]>
    ensures { MatchOption result (folder_in name.now ≡ None) (λ folder. folder_in name.now ≡ Some folder.now) }
{
    let mut rest = name;
    while let Some((last, before)) = rest.split_last() {
        if *last == b'/' {
            return Some(before);
        }
        rest = before;
    }
    None
}

// The number of a sprite's folder: that of the first sprite in it. The first ones of the folders of earlier sprites are
// known, and then also that of this one.
fn number_of<'a>(
    firsts: &mut BTreeMap<&'a [u8], usize>,
    sprites: &'a [Sprite],
    number: usize,
) -> Result<Option<usize>, AllocError>
    requires low { number < length sprites.now }
    requires known { AreFirst firsts.old (take number sprites.now) }
    ensures group { (d : Sprite) → IfOk result (λ group.
        group ≡ folder_number sprites.now (folder_of (slice_index_or sprites.now number d))) }
    ensures known { OnOk result (AreFirst firsts.new (take (number + 1) sprites.now)) }
{
    let Some(folder) = folder_in(sprites[number].name.as_bytes()) else {
        return Ok(None);
    };
    if let Some(first) = firsts.get(&folder) {
        return Ok(Some(*first));
    }
    firsts.insert(folder, number)?;
    Ok(Some(number))
}

/// The number of each sprite's folder, which is what comes before the last `/` of its name: the number of the first
/// sprite in that folder, counted from 0. None where a name has no `/`. So two sprites have the same number exactly if
/// they have the same folder. It takes memory for the numbers.
pub fn folder_groups(alloc: Global, sprites: &[Sprite]) -> Result<Vec<Option<usize>>, AllocError>
    ensures numbers { IfOk result (λ groups. groups.items ≡ folder_groups sprites.now) }
    ensures same { IfOk result (λ groups. AreByFolder sprites.now groups.items) }
{
    let mut firsts = BTreeMap::new(alloc);
    let mut groups = Vec::new(alloc);
    for number in 0..sprites.len() {
        let group = number_of(&mut firsts, sprites, number)?;
        groups.push(group)?;
    }
    Ok(groups)
}
