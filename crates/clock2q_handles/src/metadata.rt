//! What a table stores about an entry beside its handle: one word per slot.
ghost use Rattle.clock2q_handles.specs.Homes.{top};
ghost use Rattle.std.specs.Prelude.{◌≡◌, ◌+◌, ◌≤◌, ◌<◌, ◌↔◌, IsTrue, IsSome, None, Some};

/// One unit of reach, which is an entry's displacement plus one. The fingerprint is in the bits
/// below it.
const UNIT: u32 = 1 << 8;

/// The furthest that an entry may be past its home.
pub(super) const MAX_DISPLACEMENT: usize = (1 << 24) - 2;

/// A slot's displacement and fingerprint. A reach of 0 means that the slot is empty.
#[derive(Clone, Copy)]
pub(crate) struct Metadata {
    word: u32,
}

impl Metadata {
    ghost use Rattle.clock2q_handles.specs.Slots.{meaning, sought, mark_reach, mark_on, mark_back};

    /// The metadata of an empty slot. Any word below a unit would do; the bytes of this one are all
    /// equal, so slots are filled by one call of `memset`.
    pub(super) const EMPTY: Metadata = Metadata { word: 0 };

    pub(super) fn is_empty(self) -> bool
        ensures { IsTrue result ↔ (meaning self ≡ None) }
    {
        self.word < UNIT
    }

    /// Returns true if a walk that looks for `wanted` in this slot ends here.
    pub(super) fn ends_walk_for(self, wanted: Wanted) -> bool
        ensures { IsTrue result ↔ (mark_reach (meaning self) < mark_reach (sought wanted)) }
    {
        u64::from(self.word) < wanted.word / WANTED_UNIT * WANTED_UNIT
    }

    /// Returns true if the slot holds an entry that the walk looks for.
    pub(super) fn is(self, wanted: Wanted) -> bool
        requires { IsSome (sought wanted) }
        ensures { IsTrue result ↔ (meaning self ≡ sought wanted) }
    {
        u64::from(self.word) == wanted.word
    }

    /// Returns true if the entry may move on by one slot.
    pub(super) fn can_move_on(self) -> bool
        ensures { IsTrue result ↔ (mark_reach (meaning self) ≤ MAX_DISPLACEMENT) }
    {
        (self.word / UNIT) as usize <= MAX_DISPLACEMENT
    }

    /// Returns true if the slot holds an entry that isn't at its home.
    pub(super) fn can_move_back(self) -> bool
        ensures { IsTrue result ↔ (1 < mark_reach (meaning self)) }
    {
        2 * UNIT <= self.word
    }

    /// Returns the metadata of the same entry one slot further past its home.
    pub(super) fn one_further(self) -> Metadata
        requires some { IsSome (meaning self) }
        requires room { mark_reach (meaning self) ≤ MAX_DISPLACEMENT }
        ensures { meaning result ≡ mark_on (meaning self) }
    {
        Metadata {
            word: self.word + UNIT,
        }
    }

    /// Returns the metadata of the same entry one slot nearer to its home.
    pub(super) fn one_nearer(self) -> Metadata
        requires { 1 < mark_reach (meaning self) }
        ensures { meaning result ≡ mark_back (meaning self) }
    {
        Metadata {
            word: self.word - UNIT,
        }
    }
}

/// The same unit in a 64-bit word.
const WANTED_UNIT: u64 = 1 << 8;

/// What a walk looks for in its current slot: an entry of its home, as far past it as the slot is,
/// with the fingerprint of its hash; or nothing, once the walk has ended. The word is longer than a
/// slot's, since a walk goes one slot further than an entry may be.
#[derive(Clone, Copy)]
pub(crate) struct Wanted {
    word: u64,
}

impl Wanted {
    ghost use Rattle.clock2q_handles.specs.Slots.{meaning, sought, mark_reach, mark_on};

    pub(super) fn nothing() -> Wanted
        ensures { sought result ≡ None }
    {
        Wanted { word: 0 }
    }

    /// Returns what a walk for `hash` looks for at its home.
    pub(super) fn new(hash: u64) -> Wanted
        ensures { sought result ≡ Some (0, top hash) }
    {
        Wanted {
            word: WANTED_UNIT + (hash >> 56),
        }
    }

    pub(super) fn is_nothing(self) -> bool
        ensures { IsTrue result ↔ (sought self ≡ None) }
    {
        self.word < WANTED_UNIT
    }

    /// Returns true if an entry inserted where the walk is would be near enough to its home.
    pub(super) fn is_near(self) -> bool
        ensures { IsTrue result ↔ (mark_reach (sought self) ≤ MAX_DISPLACEMENT + 1) }
    {
        self.word / WANTED_UNIT <= MAX_DISPLACEMENT as u64 + 1
    }

    /// Returns what the walk looks for in the next slot.
    pub(super) fn next(self) -> Wanted
        requires some { IsSome (sought self) }
        requires room { mark_reach (sought self) ≤ MAX_DISPLACEMENT + 1 }
        ensures { sought result ≡ mark_on (sought self) }
    {
        Wanted {
            word: self.word + WANTED_UNIT,
        }
    }

    /// Returns the metadata of an entry inserted where the walk ends.
    pub(super) fn metadata(self) -> Metadata
        requires { mark_reach (sought self) ≤ MAX_DISPLACEMENT + 1 }
        ensures { meaning result ≡ sought self }
    {
        Metadata {
            word: self.word as u32,
        }
    }
}
