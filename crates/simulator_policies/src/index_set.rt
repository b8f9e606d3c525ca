//! What a set of indices does.
ghost use Rattle.std.specs.Prelude.{◌≡◌, ◌≢◌, ℕ, ◌<◌, Bool, MatchOption, true, false};
ghost use Rattle.simulator_policies.specs.IndexSets.{IsLastIn};

/// A set of indices below a bound.
pub(crate) trait IndexSet {
    // It is in order.
    ghost is_whole: { Self → Type 0 };

    // Its indices are below this.
    ghost bound: { Self → ℕ };

    // Whether an index is in it.
    ghost holds: { Self → ℕ → Bool };

    /// Returns true if an index is in the set.
    fn contains(&self, index: usize) -> bool
        requires set { is_whole self.now }
        requires index { index < bound self.now }
        ensures held { result ≡ holds self.now index };

    /// Adds an index.
    fn insert(&mut self, index: usize)
        requires set { is_whole self.old }
        requires index { index < bound self.old }
        ensures set { is_whole self.new }
        ensures bound { bound self.new ≡ bound self.old }
        ensures added { holds self.new index ≡ true }
        ensures others { (other : ℕ) → other ≢ index → holds self.new other ≡ holds self.old other };

    /// Removes an index that is in the set.
    fn remove(&mut self, index: usize)
        requires set { is_whole self.old }
        requires index { index < bound self.old }
        requires inside { holds self.old index ≡ true }
        ensures set { is_whole self.new }
        ensures bound { bound self.new ≡ bound self.old }
        ensures removed { holds self.new index ≡ false }
        ensures others { (other : ℕ) → other ≢ index → holds self.new other ≡ holds self.old other };

    /// Returns the last index.
    fn last(&self) -> Option<usize>
        requires set { is_whole self.now }
        ensures last { MatchOption result ((index : ℕ) → holds self.now index ≡ false)
            (IsLastIn (holds self.now)) };
}
