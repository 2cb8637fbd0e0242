//! How a law is used: by a call in the body, or by an import of its lemma.
ghost use Rattle.guillotiere.specs.Laws.RunLaws.{IsTiled};
ghost use Rattle.guillotiere.specs.Stored.{state_of};

use guillotiere::AtlasAllocator;
use guillotiere::laws::sound_is_tiled;
use std::alloc::Allocator;

/// The answer cites the call of the law.
pub fn by_call<A: Allocator + Copy>(atlas: &AtlasAllocator<A>)
    ensures { IsTiled (state_of atlas.now) }
{
    let _size = atlas.size();
    sound_is_tiled();
}

/// The answer imports the lemma.
pub fn by_lemma<A: Allocator + Copy>(atlas: &AtlasAllocator<A>)
    ensures { IsTiled (state_of atlas.now) }
{
    let _size = atlas.size();
}
