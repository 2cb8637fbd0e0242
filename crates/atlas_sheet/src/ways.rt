//! The ways to place sprites that are tried.
ghost use Rattle.std.specs.Prelude.{◌≡◌, ◌<◌, ◌≤◌, Contains};
ghost use Rattle.atlas_sheet.specs.Fillings.{ways_tried};
ghost use Rattle.guillotiere.specs.Pixels.{options_of};
ghost use Rattle.atlas_sheet.specs.declared.orders.Key.{Key};
ghost use Rattle.atlas_sheet.specs.declared.ways.Choice.{Choice};
ghost use Rattle.atlas_sheet.specs.declared.ways.TheConstants.{WAYS};
ghost use Rattle.atlas_sheet.specs.Orders.{choice_options};

use crate::options::Spacing;
use crate::orders::Key;
use guillotiere::AllocatorOptions;

/// Which free box a sprite takes.
#[derive(Clone, Copy, Debug, PartialEq, Eq)]
pub enum Choice {
    /// The box whose smaller margin is the greatest: every size counts as large.
    Roomiest,
    /// The box whose smaller margin is the smallest: every size counts as medium.
    Tightest,
}

impl Choice {
    /// The options of an allocator that chooses so.
    pub fn options(self, spacing: Spacing) -> AllocatorOptions
        ensures { options_of result ≡ choice_options spacing self }
    {
        let large_size_threshold = match self {
            Choice::Roomiest => 0,
            Choice::Tightest => i32::MAX,
        };
        AllocatorOptions {
            alignment: spacing.alignment,
            small_size_threshold: 0,
            large_size_threshold,
        }
    }
}

/// One way to place sprites.
#[derive(Clone, Copy, Debug, PartialEq, Eq)]
pub struct Way {
    /// Sprites come by this, the greatest first.
    pub key: Key,
    /// Each takes a free box by this.
    pub choice: Choice,
}

/// The ways that are tried: sprites by each key, with each choice.
pub const WAYS: [Way; 10] = [
    Way {
        key: Key::Area,
        choice: Choice::Roomiest,
    },
    Way {
        key: Key::Area,
        choice: Choice::Tightest,
    },
    Way {
        key: Key::Height,
        choice: Choice::Tightest,
    },
    Way {
        key: Key::LesserSide,
        choice: Choice::Tightest,
    },
    Way {
        key: Key::GreaterSide,
        choice: Choice::Tightest,
    },
    Way {
        key: Key::HeightTimesGreaterSide,
        choice: Choice::Tightest,
    },
    Way {
        key: Key::Height,
        choice: Choice::Roomiest,
    },
    Way {
        key: Key::LesserSide,
        choice: Choice::Roomiest,
    },
    Way {
        key: Key::GreaterSide,
        choice: Choice::Roomiest,
    },
    Way {
        key: Key::HeightTimesGreaterSide,
        choice: Choice::Roomiest,
    },
];

/// Each key is in `WAYS` with each choice.
pub fn prove_ways()
    ensures { (key : Key) → (choice : Choice) → Contains WAYS (record { key = key; choice = choice }) }
{}

/// How many of `WAYS` a sheet with so many sprites is filled by: all ten up to 1,200 sprites, fewer for more, so that
/// they ask for some 12,000 places together; at least the first.
pub fn ways_tried(sprites: usize) -> usize
    ensures tried { result ≡ ways_tried sprites }
    ensures some { 0 < result }
    ensures few { result ≤ 10 }
{
    (12000 / sprites.max(1)).clamp(1, 10)
}
