//! What a workload was answered.
ghost use Rattle.std.specs.Prelude.{◌≡◌, ◌<◌, ◌+◌, ◌^◌, fold};
ghost use Rattle.atlas_bench.specs.Checksums.{with_word, with_box, with_grant, with_moved, with_list, with_place};
ghost use Rattle.atlas_bench.specs.Checksums.{with_evicted, point_word};

use atlas_cache::Place;
use guillotiere::{Allocation, Change, ChangeList, Point, Rectangle};
use std::marker::Model;

// The word of an answer that a request has no room. No id is so great.
const NO_ROOM: u64 = 0xffff_ffff_ffff_ffff;

// The word of an answer that a box was freed.
const FREED: u64 = 0xffff_ffff_ffff_fffe;

// The word of an answer that the atlas grew.
const GROWN: u64 = 0xffff_ffff_ffff_fffd;

// The word that ends an answer that the atlas was rearranged.
const REARRANGED: u64 = 0xffff_ffff_ffff_fffc;

// The word of a page that is added.
const PAGE_ADDED: u64 = 0xffff_ffff_ffff_fffb;

/// How many calls of an atlas were answered, and a checksum of their answers in order.
#[derive(Clone, Copy)]
pub struct Answers {
    pub calls: u64,
    pub checksum: u64,
}

// A point as a word: x above y.
fn word_of(point: Point) -> u64
    ensures { result ≡ point_word point }
{
    u64::from(point.x.cast_unsigned()) * 0x1_0000_0000 + u64::from(point.y.cast_unsigned())
}

impl Answers {
    /// No answers.
    pub fn new() -> Self
        ensures { result ≡ record { calls = 0; checksum = 0xcbf29ce484222325 } }
    {
        Answers {
            calls: 0,
            checksum: 0xcbf2_9ce4_8422_2325,
        }
    }

    // Takes a word into the checksum: FNV-1a, by words of 64 bits.
    fn add(&mut self, word: u64)
        ensures { self.new ≡ record { calls = self.old.calls; checksum = with_word self.old.checksum word } }
    {
        self.checksum = (self.checksum ^ word).wrapping_mul(0x100_0000_01b3);
    }

    /// Records that a request was granted.
    pub fn granted(&mut self, allocation: Allocation)
        requires { self.old.calls + 1 < 2 ^ 64 }
        ensures { self.new ≡ record { calls = self.old.calls + 1; checksum = with_grant self.old.checksum allocation } }
    {
        self.calls += 1;
        self.add_grant(allocation);
    }

    // Takes the words of a granted box into the checksum.
    fn add_grant(&mut self, allocation: Allocation)
        ensures { self.new ≡ record { calls = self.old.calls; checksum = with_grant self.old.checksum allocation } }
    {
        self.add(u64::from(allocation.id.serialize()));
        self.add_box(allocation.rectangle);
    }

    // Takes the words of a box without its id into the checksum.
    fn add_box(&mut self, rectangle: Rectangle)
        ensures { self.new ≡ record { calls = self.old.calls; checksum = with_box self.old.checksum rectangle } }
    {
        self.add(word_of(rectangle.min));
        self.add(word_of(rectangle.max));
    }

    // Takes granted boxes into the checksum, in order.
    fn add_grants(&mut self, grants: &[Allocation])
        ensures { self.new ≡ record {
          calls = self.old.calls;
          checksum = fold with_grant self.old.checksum grants.now;
        } }
    {
        for allocation in grants {
            self.add_grant(*allocation);
        }
    }

    // Takes what boxes were and what they became into the checksum, in order.
    fn add_changes(&mut self, changes: &[Change])
        ensures { self.new ≡ record {
          calls = self.old.calls;
          checksum = fold with_moved self.old.checksum changes.now;
        } }
    {
        for change in changes {
            self.add_grant(change.old);
            self.add_grant(change.new);
        }
    }

    /// Records that a request was granted by an allocator without ids.
    pub fn placed(&mut self, rectangle: Rectangle)
        requires { self.old.calls + 1 < 2 ^ 64 }
        ensures { self.new ≡ record { calls = self.old.calls + 1; checksum = with_box self.old.checksum rectangle } }
    {
        self.calls += 1;
        self.add_box(rectangle);
    }

    /// Records that a request had no room.
    pub fn refused(&mut self)
        requires { self.old.calls + 1 < 2 ^ 64 }
        ensures { self.new ≡ record { calls = self.old.calls + 1; checksum = with_word self.old.checksum NO_ROOM } }
    {
        self.calls += 1;
        self.add(NO_ROOM);
    }

    /// Records that a box was freed.
    pub fn freed(&mut self)
        requires { self.old.calls + 1 < 2 ^ 64 }
        ensures { self.new ≡ record { calls = self.old.calls + 1; checksum = with_word self.old.checksum FREED } }
    {
        self.calls += 1;
        self.add(FREED);
    }

    /// Records that the atlas grew.
    pub fn grown(&mut self)
        requires { self.old.calls + 1 < 2 ^ 64 }
        ensures { self.new ≡ record { calls = self.old.calls + 1; checksum = with_word self.old.checksum GROWN } }
    {
        self.calls += 1;
        self.add(GROWN);
    }

    /// Records that the atlas was rearranged.
    pub fn rearranged(&mut self, list: &ChangeList)
        requires { self.old.calls + 1 < 2 ^ 64 }
        ensures { self.new ≡ record {
          calls = self.old.calls + 1;
          checksum = with_word (with_list self.old.checksum list.now.changes.items list.now.failures.items) REARRANGED;
        } }
    {
        self.calls += 1;
        self.add_changes(&list.changes);
        self.add_grants(&list.failures);
        self.add(REARRANGED);
    }

    /// Records that a key of a cache has this place.
    pub fn shown(&mut self, place: Place)
        requires { self.old.calls + 1 < 2 ^ 64 }
        ensures { self.new ≡ record { calls = self.old.calls + 1; checksum = with_place self.old.checksum place } }
    {
        self.calls += 1;
        self.add(u64::from(place.page));
        self.add_box(place.rectangle);
    }

    /// Records that a call, which is counted later, added a page.
    pub fn page_added(&mut self)
        ensures { self.new ≡ record { calls = self.old.calls; checksum = with_word self.old.checksum PAGE_ADDED } }
    {
        self.add(PAGE_ADDED);
    }

    /// Records that such a call evicted a key.
    pub fn evicted(&mut self, key: u32)
        ensures { self.new ≡ record { calls = self.old.calls; checksum = with_evicted self.old.checksum key } }
    {
        self.add(0x1_0000_0000 + u64::from(key));
    }
}
