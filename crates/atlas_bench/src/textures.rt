//! Glyphs under keys in the pages of a texture array.
ghost use Rattle.std.specs.Prelude.{◌≡◌, ◌<◌, ◌+◌, ◌^◌, IfOk, OnOk};
ghost use Rattle.atlas_bench.specs.Glyphs.{drawn_key, glyph_size};
ghost use Rattle.atlas_bench.specs.SplitMix.{next_state};

use crate::answers::Answers;
use crate::error::BenchError;
use crate::random::Random;
use atlas_cache::{CacheChange, CacheOptions, Changes, TextureCache};
use guillotiere::{DEFAULT_OPTIONS, Size, size2};
use std::alloc::Global;

// How many glyphs there are.
const GLYPHS: u64 = 10_000;

const CALLS_IN_A_FRAME: u32 = 2_000;

const PAGE: Size = Size {
    width: 1024,
    height: 1024,
};

const OPTIONS: CacheOptions = CacheOptions {
    page: PAGE,
    largest_page: PAGE,
    pages: 4,
    padding: 1,
    atlas: DEFAULT_OPTIONS,
};

// The key of the next glyph. Each doubling of the ranks is as likely as the one before, about as by Zipf's law; and a
// rank times an odd factor is its key.
fn next_key(random: &mut Random) -> u32
    ensures key { result ≡ drawn_key random.old }
    ensures state { random.new ≡ next_state (next_state random.old) }
{
    let octave = random.below(14);
    let first = 1u64 << octave;
    let rank = (first - 1 + random.below(first)) % GLYPHS;
    (rank as u32).wrapping_mul(0x9e37_79b1)
}

// The size of a glyph, in pixels: its sides are from 8 to 40, by its key.
fn size_of(key: u32) -> Size
    ensures { result ≡ glyph_size key }
{
    size2(8 + ((key >> 3) % 33) as i32, 8 + ((key >> 17) % 33) as i32)
}

#[derive(Drop)]
struct GlyphCache {
    cache: TextureCache<u32>,
    changes: Changes<u32>,
    answers: Answers,
}

// Takes in what an insertion did. `WrongAnswer` where a page grew or a key moved.
fn add_changes(answers: &mut Answers, changes: &[CacheChange<u32>]) -> Result<(), BenchError>
    ensures { OnOk result (answers.new.calls ≡ answers.old.calls) }
{
    for change in changes {
        match *change {
            CacheChange::PageAdded { .. } => answers.page_added(),
            CacheChange::Evicted { key, .. } => answers.evicted(key),
            _ => return Err(BenchError::WrongAnswer),
        }
    }
    Ok(())
}

impl GlyphCache {
    fn new(alloc: Global) -> Result<Self, BenchError>
        ensures { IfOk result (λ it. it.answers.calls ≡ 0) }
    {
        Ok(GlyphCache {
            cache: TextureCache::new(alloc, OPTIONS)?,
            changes: Vec::new(alloc),
            answers: Answers::new(),
        })
    }

    // Asks for the place of a key, and says whether it is held.
    fn get(&mut self, key: u32) -> bool
        requires { self.old.answers.calls + 1 < 2 ^ 64 }
        ensures { self.new.answers.calls ≡ self.old.answers.calls + 1 }
    {
        let Some(place) = self.cache.get(&key) else {
            self.answers.refused();
            return false;
        };
        self.answers.shown(place);
        true
    }

    // Inserts a key.
    fn insert(&mut self, key: u32) -> Result<(), BenchError>
        requires { self.old.answers.calls + 1 < 2 ^ 64 }
        ensures { OnOk result (self.new.answers.calls ≡ self.old.answers.calls + 1) }
    {
        let placed = self.cache.insert(key, size_of(key), &mut self.changes)?;
        add_changes(&mut self.answers, &self.changes)?;
        self.changes.clear();
        match placed.place() {
            Some(place) => self.answers.shown(place),
            None => self.answers.refused(),
        }
        Ok(())
    }
}

/// Asks a cache for one glyph of 10,000 after another. Where it isn't held, the next call inserts it. Each 2,000 calls
/// are a frame.
pub fn textures(alloc: Global, calls: u32) -> Result<Answers, BenchError>
    ensures { IfOk result (λ it. it.calls ≡ calls) }
{
    let mut glyphs = GlyphCache::new(alloc)?;
    let mut random = Random::new(1);
    let mut wanted = None;
    for call in 0..calls {
        if call % CALLS_IN_A_FRAME == 0 {
            glyphs.cache.begin_frame();
        }
        if let Some(key) = wanted {
            glyphs.insert(key)?;
            wanted = None;
        } else {
            let key = next_key(&mut random);
            if !glyphs.get(key) {
                wanted = Some(key);
            }
        }
    }
    Ok(glyphs.answers)
}
