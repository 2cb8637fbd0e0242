//! What an insertion answers.
ghost use Rattle.std.specs.Prelude.{◌≡◌};
ghost use Rattle.atlas_cache.specs.Telling.{given_by};

use crate::places::Place;

/// What an insertion answers.
#[derive(Clone, Copy, Debug, PartialEq, Eq)]
pub enum Inserted {
    /// The key is new, and this is its place: its pixels are to be written there. A blank one has none: its place is empty.
    Placed(Place),
    /// The key was held, and this is its place still, with the pixels that were written there.
    Held(Place),
    /// All pages allowed exist, at their largest, and none would have room, were all entries gone that this frame didn't use: draw what
    /// this frame has, begin a new one, and insert again.
    FrameFull,
    /// The size, with the padding on all sides and rounded up to the alignment, exceeds the largest page.
    NeverFits,
}

impl Inserted {
    /// The place that was given, whether the key is new or was held; None if none was.
    pub fn place(self) -> Option<Place>
        ensures { result ≡ given_by self }
    {
        match self {
            Inserted::Placed(place) | Inserted::Held(place) => Some(place),
            Inserted::FrameFull | Inserted::NeverFits => None,
        }
    }
}
