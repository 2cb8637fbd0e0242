//! Workloads, and jobs of a size.
ghost use Rattle.std.specs.Prelude.{◌≡◌, ◌≤◌, IfSome, Some};
ghost use Rattle.atlas_bench.specs.Names.{name, most_size};

/// What is run.
#[derive(Clone, Copy)]
pub enum Workload {
    /// `glyph`: a cache of glyphs; the size is the number of calls.
    Glyph,
    /// `record`: the same cache through a recording allocator; the size is the number of calls.
    Record,
    /// `sprite`: a sheet of sprites in the order in which they come; the size is their number.
    Sprite,
    /// `sprite-sorted`: the same sprites, sorted.
    SortedSprite,
    /// `column`: an atlas 1 pixel wide that is filled and freed; the size is the number of its rows.
    Column,
    /// `search`: searches in vain over a board; the size is their number.
    Search,
    /// `growth`: an atlas that grows; the size is the side, in pixels, up to which both of its sides grow.
    Growth,
    /// `rearrange`: sprites that are rearranged; the size is how often.
    Rearrange,
    /// `glyph-1024`: `glyph` in 1024x1024.
    Glyph1024,
    /// `glyph-4096`: `glyph` in 4096x4096.
    Glyph4096,
    /// `glyph-8192`: `glyph` in 8192x8192.
    Glyph8192,
    /// `glyph-16384`: `glyph` in 16384x16384.
    Glyph16384,
    /// `mixed-4096`: a cache of sprites; the size is the number of calls.
    Mixed4096,
    /// `tiles`: equal tiles, half of which are live; the size is the number of calls after that.
    Tiles,
    /// `sheet`: sprites by the simple allocator; the size is their number.
    Sheet,
    /// `sheet-16384`: glyphs by the simple allocator; the size is their number.
    Sheet16384,
    /// `cache`: glyphs under keys in the pages of a texture array; the size is the number of calls.
    Cache,
}

/// A workload and its size, which is in range.
#[derive(Clone, Copy)]
pub struct Job {
    pub workload: Workload,
    pub size: u32,
    pub ghost least: { 1 ≤ size },
    pub ghost most: { size ≤ most_size workload },
}

impl Workload {
    /// The workload of this name.
    pub fn named(word: &[u8]) -> Option<Workload>
        ensures found { IfSome result (λ it. word.now ≡ name it) }
        ensures only { (it : Workload) → word.now ≡ name it → result ≡ Some it }
    {
        if word == b"sprite-sorted".as_slice() {
            return Some(Workload::SortedSprite);
        }
        if word == b"glyph-16384".as_slice() {
            return Some(Workload::Glyph16384);
        }
        if word == b"sheet-16384".as_slice() {
            return Some(Workload::Sheet16384);
        }
        match word {
            b"glyph" => Some(Workload::Glyph),
            b"record" => Some(Workload::Record),
            b"sprite" => Some(Workload::Sprite),
            b"column" => Some(Workload::Column),
            b"search" => Some(Workload::Search),
            b"growth" => Some(Workload::Growth),
            b"rearrange" => Some(Workload::Rearrange),
            b"glyph-1024" => Some(Workload::Glyph1024),
            b"glyph-4096" => Some(Workload::Glyph4096),
            b"glyph-8192" => Some(Workload::Glyph8192),
            b"mixed-4096" => Some(Workload::Mixed4096),
            b"tiles" => Some(Workload::Tiles),
            b"sheet" => Some(Workload::Sheet),
            b"cache" => Some(Workload::Cache),
            _ => None,
        }
    }

    /// Its name.
    pub fn name(self) -> &'static str
        ensures { result.now ≡ name self }
    {
        match self {
            Workload::Glyph => "glyph",
            Workload::Record => "record",
            Workload::Sprite => "sprite",
            Workload::SortedSprite => "sprite-sorted",
            Workload::Column => "column",
            Workload::Search => "search",
            Workload::Growth => "growth",
            Workload::Rearrange => "rearrange",
            Workload::Glyph1024 => "glyph-1024",
            Workload::Glyph4096 => "glyph-4096",
            Workload::Glyph8192 => "glyph-8192",
            Workload::Glyph16384 => "glyph-16384",
            Workload::Mixed4096 => "mixed-4096",
            Workload::Tiles => "tiles",
            Workload::Sheet => "sheet",
            Workload::Sheet16384 => "sheet-16384",
            Workload::Cache => "cache",
        }
    }

    /// Its greatest size.
    pub fn most_size(self) -> u32
        ensures { result ≡ most_size self }
    {
        match self {
            Workload::Glyph
            | Workload::Search
            | Workload::Rearrange
            | Workload::Glyph1024
            | Workload::Glyph4096
            | Workload::Glyph8192
            | Workload::Glyph16384
            | Workload::Mixed4096
            | Workload::Tiles
            | Workload::Cache => 1_000_000_000,
            Workload::Record => 10_000_000,
            Workload::Sprite | Workload::SortedSprite | Workload::Sheet | Workload::Sheet16384 =>
                1_000_000,
            Workload::Column => 8_000_000,
            Workload::Growth => 32_768,
        }
    }
}
