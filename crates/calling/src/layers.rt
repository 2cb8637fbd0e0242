//! Images on the layers of a texture array.
ghost use Rattle.std.specs.Prelude.{◌≡◌, ◌≢◌, ℕ, [], length, IfOk, IfSome, None};
ghost use Rattle.guillotiere.specs.Callers.{RectanglesLieApart};
ghost use Rattle.guillotiere.specs.Pages.{rectangle_on, AddsBoxOn, HasSameRectangles};

use atlas_pages::{PageAllocation, PagedAtlas, PagesError};
use guillotiere::{AllocId, AllocatorOptions, AtlasError, Rectangle, Size, size2};
use std::alloc::Allocator;

/// Sixteen layers of 2048 by 2048 pixels, none of them made yet.
pub fn layers<A: Allocator + Copy>(alloc: A) -> Result<PagedAtlas<A>, PagesError>
    ensures { IfOk result (λ layers. layers.most ≡ 16) }
{
    PagedAtlas::new(alloc, size2(2048, 2048), 16)
}

/// Layers for compressed images, whose boxes begin at multiples of 4 pixels.
pub fn compressed<A: Allocator + Copy>(alloc: A) -> Result<PagedAtlas<A>, PagesError>
    ensures { IfOk result (λ layers. layers.pages ≡ []) }
{
    let options = AllocatorOptions {
        alignment: size2(4, 4),
        small_size_threshold: 32,
        large_size_threshold: 256,
    };
    PagedAtlas::with_options(alloc, size2(1024, 1024), &options, 8)
}

/// Puts an image on a layer, and says whether the program has to make that layer first. No other image moves.
pub fn upload<A: Allocator + Copy>(
    layers: &mut PagedAtlas<A>,
    size: Size,
) -> Result<Option<(PageAllocation, bool)>, AtlasError>
    ensures { IfOk result (λ put. IfSome put (λ it.
        AddsBoxOn layers.old.pages layers.new.pages it.0.page it.0.id it.0.rectangle)) }
{
    let before = layers.page_count();
    let Some(image) = layers.allocate(size)? else {
        return Ok(None);
    };
    Ok(Some((image, layers.page_count() > before)))
}

/// Takes an image away, and drops the layers at the end that have none left: how many are left.
pub fn remove<A: Allocator + Copy>(
    layers: &mut PagedAtlas<A>,
    page: u32,
    id: AllocId,
) -> Result<u32, AtlasError>
    ensures gone { IfOk result (λ left. left ≡ length layers.new.pages) }
    ensures no { IfOk result (λ _. rectangle_on layers.new.pages page id ≡ None) }
{
    layers.deallocate(page, id)?;
    Ok(layers.shrink())
}

/// No two images of a layer overlap.
pub fn apart<A: Allocator + Copy>(
    layers: &PagedAtlas<A>,
    page: u32,
    id: AllocId,
    other: AllocId,
) -> Option<(Rectangle, Rectangle)>
    requires { id ≢ other }
    ensures { IfSome result (λ pair. RectanglesLieApart pair.0 pair.1) }
{
    layers.prove_kept(page);
    let one = layers.get(page, id)?;
    let two = layers.get(page, other)?;
    Some((one, two))
}

/// Makes a layer larger, and tells its size. No image moves.
pub fn enlarge<A: Allocator + Copy>(
    layers: &mut PagedAtlas<A>,
    page: u32,
    size: Size,
) -> Result<Option<Size>, PagesError>
    ensures { IfOk result (λ _. HasSameRectangles layers.old.pages layers.new.pages) }
{
    layers.grow(page, size)?;
    Ok(layers.page_size(page))
}

/// How many layers there are, by their atlases, each of which can be asked what is on it.
pub fn layer_count<A: Allocator + Copy>(layers: &PagedAtlas<A>) -> usize
    ensures { result ≡ length layers.now.pages }
{
    layers.pages().len()
}

/// All images go, and the layers that have none left: how many stay.
pub fn start_again<A: Allocator + Copy>(layers: &mut PagedAtlas<A>) -> u32
    ensures { (page id : ℕ) → rectangle_on layers.new.pages page id ≡ None }
{
    layers.clear();
    layers.shrink()
}
