//! An atlas as plain data, and an atlas made of such data, whoever gives them.
ghost use Rattle.std.specs.Prelude.{◌≡◌, ◌≢◌, ◌<◌, ◌^◌, ◌↔◌, IfOk, IfSome, IsOkUnless, IsTrue, None, Ok};
ghost use Rattle.atlas_model.specs.Boxes.{IsPositive};
ghost use Rattle.atlas_model.specs.Pixels.{sides_of};

use crate::atlas::AtlasAllocator;
use atlas_image::image::{count_used, first_of};
use atlas_model::{AllocatorOptions, AtlasError, MOST_SLOTS, Size};
use atlas_search::link::Link;
use atlas_store::slots::Node;
use atlas_store::store::Store;
use std::alloc::{Allocator, Global};

/// All that an atlas stores but for the shape of its lists, on which no answer depends: its size, its options, its limit on slots, the
/// unused slot that is taken next, and the node of each slot by its number. The node of an unused slot says which unused one comes next.
#[derive(Drop)]
pub struct AtlasImage<A: Allocator = Global> {
    pub size: Size,
    pub options: AllocatorOptions,
    pub limit: u32,
    pub unused: Link,
    pub nodes: Vec<Node, A>,
}

// Whether a size isn't empty. Each side fits an `i32`.
fn is_size(size: Size) -> bool
    ensures positive { IsTrue result ↔ IsPositive (sides_of size) }
    ensures width { (sides_of size).width < 2 ^ 31 }
    ensures height { (sides_of size).height < 2 ^ 31 }
{
    size.is_positive()
}

impl<A: Allocator + Copy> AtlasAllocator<A> {
    ghost use Rattle.atlas_allocator.specs.Images.{image_of, described, state_in, IsImage};
    ghost use Rattle.atlas_store.specs.Stored.{state_of};

    /// The atlas as plain data. `Memory` is the only error.
    pub fn image(&self) -> Result<AtlasImage<A>, AtlasError>
        ensures unless { IsOkUnless result AtlasError.Memory }
        ensures image { IfOk result (λ image. described image ≡ image_of self.now) }
        ensures state { state_in (image_of self.now) ≡ state_of self.now }
        ensures atlas { IfOk result (λ image. IsImage (described image)) }
    {
        Ok(AtlasImage {
            size: self.size,
            options: self.store.options(),
            limit: self.limit,
            unused: self.store.unused(),
            nodes: self.store.nodes()?,
        })
    }

    /// The atlas that data describe; None if they are those of none. Later calls have the answers and the ids that they have of the atlas
    /// that the data are of, except where memory is refused. Its turns begin at 0. Takes time in proportion to the slots, but for the
    /// listing of the free ones, whatever the data say. `Memory` is the only error.
    pub fn from_image(alloc: A, image: &AtlasImage<A>) -> Result<Option<Self>, AtlasError>
        ensures unless { IsOkUnless result AtlasError.Memory }
        ensures image { IfOk result (λ found. IfSome found (λ it. image_of it ≡ described image.now)) }
        ensures state { IfOk result (λ found. IfSome found (λ it. state_of it ≡ state_in (described image.now))) }
        ensures turns { IfOk result (λ found. IfSome found (λ it. it.turns ≡ 0)) }
        ensures complete { IsImage (described image.now) → result ≢ Ok None }
    {
        let AtlasImage {
            size,
            options,
            limit,
            unused,
            nodes,
        } = image;
        let (size, limit, unused) = (*size, *limit, *unused);
        if !is_size(size)
            || !options.is_valid()
            || limit > MOST_SLOTS
            || nodes.len() > limit as usize
        {
            return Ok(None);
        }
        let Some(first) = first_of(alloc, nodes, unused, size, options)? else {
            return Ok(None);
        };
        let used = count_used(nodes);
        let store = Store::restore(alloc, nodes, unused, options)?;
        Ok(Some(AtlasAllocator {
            store,
            first,
            used,
            size,
            limit,
        }))
    }
}
