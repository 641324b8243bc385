//! Hashing of names that whoever wrote the module may have chosen.

ghost use Rattle.std.specs.Prelude.{◌≡◌};
ghost use Rattle.wasmparser_names.specs.KeptExports.{first_hasher, hash_of, hasher_after};

use std::fmt;
use std::hash::{BuildHasher, DefaultHasher, Hasher};

/// Hashes names, where they stand in a section after a hash of its bytes. Who chooses names so that they collide changes these bytes, after which they hardly do.
/// (A fast hasher won't do: whatever it starts with, names can be chosen of which many collide.)
#[derive(Clone, Copy)]
pub struct NameHasher {
    start: DefaultHasher,
}

impl NameHasher {
    /// Creates a hasher for names that stand in no section.
    pub fn new() -> NameHasher
        ensures { result ≡ first_hasher }
    {
        NameHasher {
            start: DefaultHasher::new(),
        }
    }

    /// Creates a hasher for names that stand among these bytes.
    pub fn after(bytes: &[u8]) -> NameHasher
        ensures { result ≡ hasher_after bytes.now }
    {
        let mut section = DefaultHasher::new();
        section.write(bytes);
        // (after a word, what follows is hashed by words as well)
        let mut start = DefaultHasher::new();
        start.write_u64(section.finish());
        NameHasher { start }
    }

    /// Returns the hash of a name.
    #[inline(always)]
    #[tactic(auto, unfolding(crate::specs::KeptExports::hash_of))]
    pub fn hash_of(&self, name: &str) -> u64
        ensures { result ≡ hash_of self.now name.now }
    {
        self.hash_one(name)
    }
}

impl BuildHasher for NameHasher {
    type Hasher = DefaultHasher;

    ghost build_hasher = { λ hasher. hasher.start };

    fn build_hasher(&self) -> DefaultHasher {
        self.start
    }
}

impl fmt::Debug for NameHasher {
    fn fmt<W: fmt::Write>(&self, f: &mut fmt::Formatter<W>) -> fmt::Result {
        f.write_str("NameHasher")
    }
}
