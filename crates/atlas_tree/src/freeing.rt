//! Freeing a leaf of the tree of slots, by the calls of `store`.
ghost use Rattle.std.specs.Prelude.{◌≡◌, ◌+◌, ◌<◌, ℕ, false, IsTrue, IfSome, None};
ghost use Rattle.atlas_model.specs.Trees.{most_slots};
ghost use Rattle.atlas_store.specs.Stored.{Holding};
ghost use Rattle.atlas_store.specs.Store.Holdings.{shelf_of, turns_in, KeepsRoom};
ghost use Rattle.atlas_store.specs.Store.Freeing.{
  IsSettlingAt,
  IsTurnTo,
  IsApart,
  IsApartNext,
  IsSettled,
  IsFreeable,
  IsFreed,
};

use atlas_search::link::{Link, NO_SLOT};
use atlas_store::store::Store;
use std::alloc::Allocator;

/// The detached leaf of a slot takes in the next leaf, if that is free, and says whether.
fn join_next<A: Allocator>(store: &mut Store<A>, at: Link) -> bool
    requires { (h : Holding) × IsSettlingAt (shelf_of store.old) at.number h }
    ensures turned { IsTrue result → IsTurnTo store.old store.new at.number at.number 1 }
    ensures same { result ≡ false → store.new ≡ store.old }
    ensures apart { IsApartNext (shelf_of store.new) at.number }
    ensures room { KeepsRoom store.old store.new }
{
    let next = store.node(at).next;
    if store.is_free(next) {
        store.unlist(next);
        store.join(at);
        return true;
    }
    false
}

/// The previous leaf, if that is free, takes in the detached leaf of a slot. The answer is its slot, or none.
fn join_previous<A: Allocator>(store: &mut Store<A>, at: Link) -> Option<Link>
    requires settling { (h : Holding) × IsSettlingAt (shelf_of store.old) at.number h }
    requires apart { IsApartNext (shelf_of store.old) at.number }
    ensures turned { IfSome result (λ previous. IsTurnTo store.old store.new at.number previous.number 1) }
    ensures apart { IfSome result (λ previous. IsApart (shelf_of store.new) previous.number) }
    ensures same { result ≡ None → store.new ≡ store.old }
    ensures alone { result ≡ None → IsApart (shelf_of store.new) at.number }
    ensures room { KeepsRoom store.old store.new }
{
    let previous = store.node(at).previous;
    if store.is_free(previous) {
        store.unlist(previous);
        store.join(previous);
        return Some(previous);
    }
    None
}

/// The detached leaf of a slot joins its free neighbours. The answer is the slot that is detached then, and so many
/// slots more as were given back.
fn join_neighbours<A: Allocator>(store: &mut Store<A>, at: Link, given: u32) -> (Link, u32)
    requires settling { (h : Holding) × IsSettlingAt (shelf_of store.old) at.number h }
    requires few { given < most_slots }
    ensures turned { (n : ℕ) × (result.1 ≡ given + n)
        × IsTurnTo store.old store.new at.number result.0.number n }
    ensures apart { IsApart (shelf_of store.new) result.0.number }
    ensures room { KeepsRoom store.old store.new }
{
    let mut all = given;
    if join_next(store, at) {
        all += 1;
    }
    if let Some(previous) = join_previous(store, at) {
        return (previous, all + 1);
    }
    (at, all)
}

/// The detached leaf of a slot takes the place of the container that it is alone in. The answer is the container's
/// slot, or none where all is settled.
fn lift_lone<A: Allocator>(store: &mut Store<A>, at: Link) -> Option<Link>
    requires settling { (h : Holding) × IsSettlingAt (shelf_of store.old) at.number h }
    requires apart { IsApart (shelf_of store.old) at.number }
    ensures turned { IfSome result (λ next. IsTurnTo store.old store.new at.number next.number 1) }
    ensures settled { result ≡ None → IsSettled store.old store.new at.number }
    ensures room { KeepsRoom store.old store.new }
{
    let node = store.node(at);
    if node.previous.number == NO_SLOT
        && node.next.number == NO_SLOT
        && node.parent.number != NO_SLOT
    {
        return Some(store.lift(at));
    }
    None
}

/// Frees the granted leaf of a slot: it joins its free neighbours and rises while it is alone. The answer is how many
/// slots were given back. Takes no memory; each marking, join and lift is one turn.
pub fn free_leaf<A: Allocator>(store: &mut Store<A>, slot: Link) -> u32
    requires { (h : Holding) × IsFreeable (shelf_of store.old) slot.number h }
    ensures freed { (h : Holding) → IsFreeable (shelf_of store.old) slot.number h
        → (h' : Holding) × IsFreed (shelf_of store.old) (shelf_of store.new) slot.number result h h' }
    ensures turns { (turns_in store.new).count ≡ (turns_in store.old).count + 1 + result }
    ensures room { KeepsRoom store.old store.new }
{
    store.mark(slot);
    let mut at = slot;
    let mut given = 0;
    loop {
        (at, given) = join_neighbours(store, at, given);
        let Some(container) = lift_lone(store, at) else {
            break;
        };
        at = container;
        given += 1;
    }
    store.list(at);
    given
}
