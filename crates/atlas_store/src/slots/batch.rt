//! A test of a list of ids, in time proportional to its length and without memory: the slots that the ids name are
//! hidden one after another, so that an id that is there twice names none the second time, and shown again.
ghost use Rattle.std.specs.Prelude.{◌≡◌, ◌≢◌, ◌≤◌, ◌↔◌, List, IsTrue, length, take};
ghost use Rattle.atlas_store.specs.declared.slots.Node.{Node as TreePart};
ghost use Rattle.atlas_store.specs.Slots.{nodes, rings};
ghost use Rattle.atlas_store.specs.Batches.{AreHidable, AreNamedOnce, hidden};

use crate::slots::walks::{named_slot, slot_number};
use crate::slots::{NodeKind, Slot, set_kind};
use atlas_model::AllocId;
use atlas_search::link::Link;

// Hides the slots of ids, up to the first id that names none. The answer is how many were hidden.
fn hide(slots: &mut [Slot], ids: &[AllocId]) -> usize
    ensures most { result ≤ length ids.now }
    ensures written { nodes slots.new ≡ hidden (nodes slots.old) (take result ids.now) }
    ensures named { AreHidable (nodes slots.old) (take result ids.now) }
    ensures last { result ≢ length ids.now → AreHidable (nodes slots.old) ids.now → ⊥ }
    ensures same_rings { rings slots.new ≡ rings slots.old }
{
    for (count, id) in ids.iter().enumerate() {
        match named_slot(slots, *id) {
            Some(at) => set_kind(slots, Link { number: at as u32 }, NodeKind::Unused),
            None => return count,
        }
    }
    ids.len()
}

// Shows the slots of ids that were hidden, the last first.
fn show(slots: &mut [Slot], ids: &[AllocId])
    requires { (ns : List TreePart) × (nodes slots.old ≡ hidden ns ids.now) × AreHidable ns ids.now }
    ensures shown { (ns : List TreePart) → nodes slots.old ≡ hidden ns ids.now → AreHidable ns ids.now
        → nodes slots.new ≡ ns }
    ensures same_rings { rings slots.new ≡ rings slots.old }
{
    let mut left = ids.len();
    while left > 0 {
        left -= 1;
        let number = slot_number(ids[left]);
        set_kind(slots, Link { number }, NodeKind::Alloc);
    }
}

/// Whether each of these ids names an allocated slot, and none is there twice.
pub fn are_named_once(slots: &mut [Slot], ids: &[AllocId]) -> bool
    ensures named { IsTrue result ↔ AreNamedOnce (nodes slots.old) ids.now }
    ensures same { slots.new ≡ slots.old }
{
    let count = hide(slots, ids);
    show(slots, &ids[..count]);
    count == ids.len()
}
