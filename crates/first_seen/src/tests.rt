//! Keys whose hashes are one. What is expected is the order in which they came.
ghost use Rattle.std.specs.Prelude.{[]};

use crate::FirstSeen;
use std::hash::{Hash, Hasher};
use std::process::Abort;

/// A key whose hash is that of every other.
#[derive(Clone, Copy, PartialEq, Eq, PartialOrd, Ord)]
struct Colliding(u64);

impl Hash for Colliding {
    ghost use mathlib.Core.Path.{refl};

    ghost hash_input = { λ _. [] };

    ghost respects_eq = { λ _ _ _. refl };

    fn hash<H: Hasher>(&self, _state: &mut H) {}
}

/// How many keys come, three times as many as a hash finds.
const COUNT: usize = 3072;

/// The key that comes at an index. The numbers rise and fall, and no two are the same: 1567 has no
/// divisor with 3072 in common.
fn key_at(index: usize) -> Colliding {
    let number = index as u64;
    Colliding(number.wrapping_mul(1567) % 3072)
}

/// Adds the keys, each of which has then the index at which it came.
fn add_keys(rt: &impl Abort, keys: &mut FirstSeen<Colliding>) {
    for index in 0..COUNT {
        let added = keys.add(key_at(index)).expect(rt, "memory");
        assert_eq!(rt; added, index);
    }
}

#[test]
fn colliding_keys_have_the_indices_at_which_they_came(rt: HostRuntime) {
    let mut keys = FirstSeen::<Colliding>::new(rt.alloc());
    add_keys(&rt, &mut keys);

    // The same keys are there already.
    add_keys(&rt, &mut keys);
    assert_eq!(rt; keys.as_slice().len(), COUNT);
    for index in 0..COUNT {
        let key = key_at(index);
        assert!(rt; keys.index_of(&key) == Some(index));
        assert!(rt; keys.index_near(index / 2, &key) == Some(index));
        assert!(rt; keys.get(index) == Some(&key));
    }
    assert!(rt; keys.index_of(&Colliding(3072)) == None);
    assert!(rt; keys.get(COUNT) == None);
}
