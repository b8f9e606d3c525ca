//! The first reply that is another one.

use crate::verb::Reply;

/// The number of a call, what was replied to it, and what should have been.
pub(crate) type Difference = (u64, Reply, Reply);

/// How many calls were made, and the first whose reply was another.
#[derive(Drop)]
pub(crate) struct Compared {
    calls: u64,
    pub(crate) first: Option<Difference>,
}

impl Compared {
    /// Starts with no call.
    pub(crate) fn new() -> Compared {
        Compared {
            calls: 0,
            first: None,
        }
    }

    /// Counts a call, and notes its replies if it is the first at which they differ.
    pub(crate) fn note(&mut self, got: Reply, wanted: Reply) {
        self.calls = self.calls.saturating_add(1);
        if got != wanted && self.first.is_none() {
            self.first = Some((self.calls, got, wanted));
        }
    }
}
