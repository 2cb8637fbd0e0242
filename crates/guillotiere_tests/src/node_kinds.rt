//! The kinds of slots: equality and hashes, variant by variant.

use guillotiere::NodeKind::{self, Alloc, Container, Free, Unused};
use std::hash::{DefaultHasher, Hash, Hasher};
use std::test::Fail;

const KINDS: [NodeKind; 4] = [Container, Alloc, Free, Unused];

fn hash_of(kind: NodeKind) -> u64 {
    let mut state = DefaultHasher::new();
    kind.hash(&mut state);
    state.finish()
}

// Whether each kind is that of its place alone.
fn is_at(kind: NodeKind, place: usize) -> bool {
    let mut same = true;
    for at in 0..4 {
        same = same && (KINDS[at] == kind) == (at == place);
    }
    same
}

// Whether each kind hashes as that of its place alone.
fn hashes_at(hash: u64, place: usize) -> bool {
    let mut same = true;
    for at in 0..4 {
        same = same && (hash_of(KINDS[at]) == hash) == (at == place);
    }
    same
}

#[test]
fn a_kind_equals_itself_alone(rt: HostRuntime) {
    assert!(rt; is_at(Container, 0) && is_at(Alloc, 1) && is_at(Free, 2) && is_at(Unused, 3));
}

#[test]
fn a_kind_hashes_as_itself_alone(rt: HostRuntime) {
    assert!(rt; hashes_at(hash_of(Container), 0) && hashes_at(hash_of(Alloc), 1));
    assert!(rt; hashes_at(hash_of(Free), 2) && hashes_at(hash_of(Unused), 3));
}

#[test]
fn a_copy_of_a_kind_is_equal(rt: HostRuntime) -> Result<(), Fail> {
    let kind = Free;
    let copy = kind;
    let list = vec![in rt.alloc(); kind]?;
    let clone = list.clone()?;
    assert!(rt; copy == kind && clone.first() == Some(&kind));
    Ok(())
}
