//! What a table of keys hashes by.

use std::fmt;
use std::fmt::{Debug, Formatter};
use std::hash::{BuildHasher, FoldHasher, Hasher};

/// The seed of a run: every table of keys in it hashes by this. Where a run draws it at random, nobody can choose beforehand
/// rows whose keys collide. No answer depends on it, nor the order of its rows.
#[derive(Clone, Copy)]
pub struct KeySeed {
    // Every hasher is a copy of this one, so a seed costs nothing for each key.
    hasher: FoldHasher,
}

impl KeySeed {
    /// The seed that these numbers make.
    pub fn new(first: u64, second: u64) -> KeySeed {
        let mut hasher = FoldHasher::default();
        hasher.write_u64(first);
        hasher.write_u64(second);
        KeySeed { hasher }
    }

    /// The same seed each time, for tests and measures, and where no random number is to be had.
    pub fn fixed() -> KeySeed {
        KeySeed {
            hasher: FoldHasher::default(),
        }
    }
}

impl BuildHasher for KeySeed {
    type Hasher = FoldHasher;

    ghost build_hasher = { λ s. s.hasher };

    fn build_hasher(&self) -> FoldHasher {
        self.hasher
    }
}

// Without the seed: what is printed may be read by those who choose keys.
impl Debug for KeySeed {
    fn fmt<W: fmt::Write>(&self, f: &mut Formatter<W>) -> fmt::Result {
        f.debug_struct("KeySeed").finish_non_exhaustive()
    }
}
