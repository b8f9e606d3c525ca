//! How a cache's capacity is divided among its queues.
ghost use Rattle.std.specs.Prelude.{◌≡◌, ◌<◌, ◌≤◌, ◌↔◌, true, MatchOption};
ghost use Rattle.clock2q_machine.specs.Shares.{usual_shares, usual_history, main_share};
ghost use Rattle.clock2q_machine.specs.Policies.{IsPolicy, shares_with};
ghost use Rattle.clock2q_machine.specs.Growth.{IsAtLeast};

use std::marker::Model;

/// The capacity of a cache, Small's share of it, the window (the number of admissions to Small for
/// which an entry is young) and the number of evicted keys that the history remembers.
#[derive(Clone, Copy)]
pub(crate) struct Shares {
    pub(crate) capacity: usize,
    pub(crate) small: usize,
    pub(crate) window: usize,
    pub(crate) history: usize,
}

impl Model for Shares {
    ghost use Rattle.clock2q_machine.specs.Shares.{Shares as Parts};
    ghost use Rattle.clock2q_machine.specs.Policies.{IsPolicy};

    ghost Value = { Parts };

    ghost view = { λ s. record { capacity = s.capacity; small = s.small; window = s.window; history = s.history } };

    ghost invariant = { λ s. IsPolicy (record { capacity = s.capacity; small = s.small; window = s.window; history = s.history }) };

    ghost inverse = { λ p. record { capacity = p.capacity; small = p.small; window = p.window; history = p.history } };
}

impl Shares {
    /// Returns the shares of a cache that is made with only a capacity.
    pub(crate) fn usual(capacity: usize) -> Self
        requires { 0 < capacity }
        ensures { result ≡ usual_shares capacity }
    {
        let small = if capacity > 1 {
            (capacity / 10).max(1)
        } else {
            0
        };
        Shares {
            capacity,
            small,
            window: small.div_ceil(2),
            history: Shares::usual_history(capacity),
        }
    }

    /// Returns how many keys the history remembers if the caller doesn't say.
    pub(crate) fn usual_history(capacity: usize) -> usize
        ensures { result ≡ usual_history capacity }
    {
        capacity / 2
    }

    /// Returns the shares of a cache that is made with all four numbers, or `None` if they don't
    /// fit together.
    pub(crate) fn new(capacity: usize, small: usize, window: usize, history: usize) -> Option<Self>
        ensures { MatchOption result (¬ IsPolicy (shares_with capacity small window history))
            (λ shares. shares ≡ shares_with capacity small window history) }
    {
        if small >= capacity
            || (small == 0) != (window == 0)
            || window > small
            || history > capacity
        {
            return None;
        }
        Some(Shares {
            capacity,
            small,
            window,
            history,
        })
    }

    /// Returns what Small leaves.
    pub(crate) fn main(self) -> usize
        ensures { result ≡ main_share self }
    {
        self.capacity - self.small
    }

    /// Returns true if no share is smaller than in `old`.
    pub(crate) fn is_at_least(self, old: Shares) -> bool
        ensures least { (result ≡ true) ↔ IsAtLeast old self }
        ensures policy { IsPolicy old }
    {
        old.small <= self.small
            && old.main() <= self.main()
            && old.window <= self.window
            && old.history <= self.history
    }
}
