//! A ring of links through entries, and the calls that change it.
ghost use Rattle.std.specs.Prelude.{◌≡◌, ◌≢◌, ◌⊎◌, ◌<◌, ◌≤◌, ℕ, List, ◌∷◌, length};
ghost use Rattle.atlas_search.specs.Numbers.{occurs, without};
ghost use Rattle.atlas_entries.specs.Rings.{IsInRing, IsRing, IsOutsideRing, at_once, next_at, no_entry, previous_at};

/// The entries before and after an entry, by their numbers.
#[derive(Clone, Copy, Debug, PartialEq, Eq)]
pub struct Link {
    pub previous: u32,
    pub next: u32,
}

/// The number that stands for no entry.
pub const NO_ENTRY: u32 = 4294967295;

/// The link of an entry, or the ends of the order at `NO_ENTRY`.
pub fn read_link(links: &[Link], ends: Link, at: u32) -> Link
    requires { (at ≡ no_entry) ⊎ (at < length links.now) }
    ensures next { result.next ≡ next_at links.now ends at }
    ensures previous { result.previous ≡ previous_at links.now ends at }
{
    if at == NO_ENTRY {
        ends
    } else {
        links[at as usize]
    }
}

// The link of an entry.
fn own_link(links: &[Link], at: u32) -> Link
    requires inside { at < length links.now }
    requires short { length links.now ≤ no_entry }
    ensures next { (ends : Link) → result.next ≡ next_at links.now ends at }
    ensures previous { (ends : Link) → result.previous ≡ previous_at links.now ends at }
{
    links[at as usize]
}

// An entry has this link.
fn set_link(links: &mut [Link], at: u32, link: Link)
    requires inside { at < length links.old }
    requires short { length links.old ≤ no_entry }
    ensures next { (ends : Link) (k : ℕ)
        → next_at links.new ends k ≡ at_once at link.next (next_at links.old ends) k }
    ensures previous { (ends : Link) (k : ℕ)
        → previous_at links.new ends k ≡ at_once at link.previous (previous_at links.old ends) k }
    ensures size { length links.new ≡ length links.old }
{
    links[at as usize] = link;
}

/// `next` comes after `at`.
pub fn set_next(links: &mut [Link], ends: &mut Link, at: u32, next: u32)
    requires { (at ≡ no_entry) ⊎ (at < length links.old) }
    ensures next { (k : ℕ) → next_at links.new ends.new k ≡ at_once at next (next_at links.old ends.old) k }
    ensures previous { (k : ℕ) → previous_at links.new ends.new k ≡ previous_at links.old ends.old k }
    ensures size { length links.new ≡ length links.old }
{
    if at == NO_ENTRY {
        ends.next = next;
    } else {
        let link = &mut links[at as usize];
        link.next = next;
    }
}

/// `previous` comes before `at`.
fn set_previous(links: &mut [Link], ends: &mut Link, at: u32, previous: u32)
    requires { (at ≡ no_entry) ⊎ (at < length links.old) }
    ensures next { (k : ℕ) → next_at links.new ends.new k ≡ next_at links.old ends.old k }
    ensures previous { (k : ℕ) →
        previous_at links.new ends.new k ≡ at_once at previous (previous_at links.old ends.old) k }
    ensures size { length links.new ≡ length links.old }
{
    if at == NO_ENTRY {
        ends.previous = previous;
    } else {
        let link = &mut links[at as usize];
        link.previous = previous;
    }
}

/// The neighbours of an entry are linked to each other instead of to it.
pub fn unlink(links: &mut [Link], ends: &mut Link, at: u32)
    requires listed { IsInRing links.old ends.old at }
    requires short { length links.old ≤ no_entry }
    ensures ring { (xs : List ℕ) → IsRing links.old ends.old xs → 0 < occurs at xs
        → IsRing links.new ends.new (without at xs) }
    ensures others { (xs : List ℕ) (k : ℕ) → IsRing links.old ends.old xs → 0 < occurs at xs → k ≢ no_entry
        → occurs k xs ≡ 0 → next_at links.new ends.new k ≡ next_at links.old ends.old k }
    ensures size { length links.new ≡ length links.old }
{
    let own = own_link(links, at);
    set_next(links, ends, own.previous, own.next);
    set_previous(links, ends, own.next, own.previous);
}

/// An entry comes in front of all.
pub fn push_front(links: &mut [Link], ends: &mut Link, at: u32)
    requires inside { at < length links.old }
    requires unlisted { IsOutsideRing links.old ends.old at }
    requires short { length links.old ≤ no_entry }
    ensures ring { (xs : List ℕ) → IsRing links.old ends.old xs → occurs at xs ≡ 0
        → IsRing links.new ends.new (at ∷ xs) }
    ensures others { (k : ℕ) → k ≢ no_entry → k ≢ at
        → next_at links.new ends.new k ≡ next_at links.old ends.old k }
    ensures size { length links.new ≡ length links.old }
{
    let first = ends.next;
    let own = Link {
        previous: NO_ENTRY,
        next: first,
    };
    set_link(links, at, own);
    set_next(links, ends, NO_ENTRY, at);
    set_previous(links, ends, first, at);
}
