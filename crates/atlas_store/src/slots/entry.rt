//! A slot as an entry of a list.
use crate::slots::Slot;
use atlas_model::Rectangle;
use atlas_search::heap::Linked;
use atlas_search::link::Link;
use atlas_search::search::Entry;

impl Entry for Slot {
    ghost use Rattle.atlas_store.specs.Slots.Picks.{slot_item};

    ghost item = { slot_item };

    fn rectangle(&self) -> Rectangle {
        self.area
    }

    fn up(&self) -> Link {
        self.up
    }

    fn left(&self) -> Link {
        self.left
    }

    fn right(&self) -> Link {
        self.right
    }

    fn is_fork(&self) -> bool {
        self.is_fork
    }
}

impl Linked for Slot {
    ghost use Rattle.atlas_store.specs.Slots.Picks.{unlinked_slot};

    ghost bare = { unlinked_slot };

    fn set_links(&mut self, up: Link, left: Link, right: Link) {
        self.up = up;
        self.left = left;
        self.right = right;
    }

    fn set_fork(&mut self, is_fork: bool) {
        self.is_fork = is_fork;
    }
}
