//! Frames of a cache at the end of their counter.
ghost use Rattle.std.specs.Prelude.{◌≡◌};

use atlas_cache::TextureCache;

/// Where frames have come to the end of their counter, a new one is the last one again. No test gets there.
pub fn after_the_last_frame(cache: &mut TextureCache<u32>)
    requires { cache.old.frame ≡ 18446744073709551615 }
    ensures { cache.new ≡ cache.old }
{
    cache.begin_frame();
}
