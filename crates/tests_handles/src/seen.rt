//! What a closure was called on.

use std::cell::Cell;
use testing::SplitMix64;

/// The handles that a closure was called on: their number, the first eight, and a number that
/// depends on all of them and their order.
#[derive(Drop)]
pub(crate) struct Seen {
    count: Cell<usize>,
    first: Cell<[u64; 8]>,
    mixed: Cell<u64>,
}

impl Seen {
    /// Makes a record of no call.
    pub(crate) fn new() -> Seen {
        Seen {
            count: Cell::new(0),
            first: Cell::new([0; 8]),
            mixed: Cell::new(0),
        }
    }

    /// Notes a call on the handle of this number.
    pub(crate) fn note(&self, handle: u64) {
        let count = self.count.get();
        let mut first = self.first.get();
        if count < 8 {
            first[count] = handle;
        }
        self.first.set(first);
        self.mixed
            .set(SplitMix64::new(self.mixed.get() ^ handle).next());
        self.count.set(count.saturating_add(1));
    }

    /// Returns the number of handles, the first eight, and the number that depends on all.
    pub(crate) fn noted(&self) -> (usize, [u64; 8], u64) {
        (self.count.get(), self.first.get(), self.mixed.get())
    }
}

/// The handles that a table's closures were called on: those that were offered as candidates, and
/// those whose hashes it asked for.
#[derive(Drop)]
pub(crate) struct Notes {
    pub(crate) offered: Seen,
    pub(crate) asked: Seen,
}

impl Notes {
    /// Makes records of no call.
    pub(crate) fn new() -> Notes {
        Notes {
            offered: Seen::new(),
            asked: Seen::new(),
        }
    }
}
