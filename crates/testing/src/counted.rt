//! Keys and hashers that count, in a place that a run shares, how often keys are made, compared,
//! hashed and dropped.
ghost use Rattle.std.specs.Cmp.Rules.{comparing, hashing};
ghost use Rattle.std.specs.Hash as fed;
ghost use Rattle.std.specs.Ordering.{on};
ghost use Rattle.std.specs.Prelude.{nat_eq};
ghost use Rattle.std.proofs.Common.{rules};

use std::cell::Cell;
use std::hash::{BuildHasher, Hash, Hasher};

/// How often keys were made, compared, hashed and dropped, and hashers were made, in a run. The keys and
/// hashers share it.
///
/// # Example
///
/// ```
/// let counts = Counts::new();
/// cache.put(counts.key(3), 30);
/// same(counts.asked(), (0, 1))?;
/// ```
#[derive(Drop)]
pub struct Counts {
    made: Cell<u64>,
    compared: Cell<u64>,
    hashed: Cell<u64>,
    hashers: Cell<u64>,
    dropped: Cell<u64>,
}

impl Counts {
    /// Starts with nothing counted.
    pub fn new() -> Counts {
        Counts {
            made: Cell::new(0),
            compared: Cell::new(0),
            hashed: Cell::new(0),
            hashers: Cell::new(0),
            dropped: Cell::new(0),
        }
    }

    /// Makes a key that is counted here. Its tag is the number of keys made so far.
    pub fn key(&self, id: u64) -> Counted<'_> {
        add_one(&self.made);
        Counted {
            id,
            tag: self.made.get(),
            counts: Some(self),
        }
    }

    /// Returns how often keys were compared, and how often one was hashed, since the last such
    /// call.
    pub fn asked(&self) -> (u64, u64) {
        (self.compared.replace(0), self.hashed.replace(0))
    }

    /// Returns how many hashers were made since the last such call.
    pub fn hashers(&self) -> u64 {
        self.hashers.replace(0)
    }

    /// Returns how many keys were dropped, and how many are left.
    pub fn dropped(&self) -> (u64, u64) {
        let dropped = self.dropped.get();
        (dropped, self.made.get().wrapping_sub(dropped))
    }
}

/// Adds one to a count.
fn add_one(count: &Cell<u64>) {
    count.set(count.get().saturating_add(1));
}

/// A key that is compared by its id alone, and counted. The default one isn't.
///
/// # Example
///
/// ```
/// same(counts.key(3) == counts.key(3), true)?;
/// same(counts.dropped(), (2, 0))?;
/// ```
#[derive(Default)]
pub struct Counted<'a> {
    /// What it is compared and hashed by.
    pub id: u64,
    /// Which of the keys made it is, from 1 on.
    pub tag: u64,
    counts: Option<&'a Counts>,
}

impl PartialEq for Counted<'_> {
    ghost eq = { on (λ key. key.id) nat_eq };

    ghost laws = { Prim.search (comparing, rules) };

    fn eq(&self, other: &Self) -> bool {
        if let Some(counts) = self.counts {
            add_one(&counts.compared);
        }
        self.id == other.id
    }
}

impl Eq for Counted<'_> {
    ghost laws = { Prim.search (comparing, rules) };
}

impl Hash for Counted<'_> {
    ghost hash_input = { λ key. fed.u64 key.id };

    ghost respects_eq = { Prim.search (hashing, rules) };

    fn hash<H: Hasher>(&self, state: &mut H) {
        if let Some(counts) = self.counts {
            add_one(&counts.hashed);
        }
        state.write_u64(self.id);
    }
}

impl Drop for Counted<'_> {
    fn drop(self) {
        let Counted {
            id: _,
            tag: _,
            counts,
        } = self;
        if let Some(counts) = counts {
            add_one(&counts.dropped);
        }
    }
}

/// Hashes as another does, and counts the hashers that it makes.
///
/// # Example
///
/// ```
/// let hasher = CountedHashes { hasher: DefaultHashBuilder::new(), counts: &counts };
/// ```
#[derive(Clone, Copy)]
pub struct CountedHashes<'a, S> {
    /// What hashes.
    pub hasher: S,
    /// Where the hashers are counted.
    pub counts: &'a Counts,
}

impl<S: BuildHasher> BuildHasher for CountedHashes<'_, S> {
    type Hasher = S::Hasher;

    ghost build_hasher = { λ counted. S.build_hasher counted.hasher };

    fn build_hasher(&self) -> S::Hasher {
        add_one(&self.counts.hashers);
        self.hasher.build_hasher()
    }
}
