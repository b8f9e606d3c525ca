//! Hits that are known without a replay.
ghost use Rattle.std.specs.Prelude.{◌≡◌};
ghost use Rattle.simulator_replay.specs.KnownHits.{known_of};

use simulator_interface::Policy;

/// The hits at one capacity after the skipped accesses, of the policies that have a curve.
#[derive(Clone, Copy, Debug, PartialEq, Eq)]
pub(crate) struct KnownHits {
    /// LRU's.
    pub(crate) lru: Option<usize>,
    /// Those of Belady's optimum.
    pub(crate) optimal: Option<usize>,
}

impl KnownHits {
    /// No hits are known.
    pub(crate) const NONE: KnownHits = KnownHits {
        lru: None,
        optimal: None,
    };

    /// Returns the hits of a policy, if they are known.
    pub(crate) fn of(self, policy: Policy) -> Option<usize>
        ensures known { result ≡ known_of self policy }
    {
        match policy {
            Policy::LeastRecentlyUsed => self.lru,
            Policy::Optimal => self.optimal,
            _ => None,
        }
    }
}
