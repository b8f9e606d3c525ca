//! Shares of Clock2Q+ that arguments choose.
ghost use Rattle.std.specs.List.{All};
ghost use Rattle.std.specs.Prelude.{◌≡◌, ◌≤◌, ◌^◌, ◌↔◌, IsTrue, OnOk, Some};
ghost use Rattle.clock2q_machine.specs.Policies.{IsPolicy};
ghost use Rattle.simulator_interface.specs.Amounts.{IsCapacity};
ghost use Rattle.simulator_interface.specs.AskedOptions.{beside_history, both_in, either_in, is_share, share_in, shares_after, shares_in, three_in};
ghost use Rattle.simulator_interface.specs.ChosenShares.{Fits, history_of, shares_for, small_of, window_of};

use crate::amount::{Amount, Unit};
use crate::error::SimulationError;
use std::fmt;

/// Shares for caches of any capacity: how large Small is, how long a key is young, and how many
/// evicted keys the history remembers.
///
/// # Example
///
/// ```
/// let usual = ChosenShares::written("small=10%,window=50%").ok_or("no shares")?;
/// assert_eq!(rt; usual.small(200), 20);
/// assert_eq!(rt; usual.window(200), 10);
/// assert_eq!(rt; usual.history(200), 100);
/// ```
#[derive(Clone, Copy, Debug, PartialEq, Eq)]
pub struct ChosenShares {
    /// Small's share of the capacity.
    pub small: Amount,
    /// The window's share of Small.
    pub window: Amount,
    /// The history's share of the capacity, unless it is half of it.
    pub history: Option<Amount>,
}

impl ChosenShares {
    /// Returns the shares that a word spells, such as `small=20%,window=10` or
    /// `small=10%,window=50%,history=90%`, in any order. The history's may be left out.
    pub fn written(word: &str) -> Option<ChosenShares>
        ensures shares { result ≡ shares_in word.now }
    {
        let (first, rest) = word.split_once(',')?;
        shares_after(first, rest)
    }

    /// Returns the number of slots of Small in a cache of a capacity.
    pub fn small(self, capacity: usize) -> usize
        requires few { capacity ≤ 2 ^ 32 }
        ensures small { result ≡ small_of self capacity }
    {
        self.small.of(capacity)
    }

    /// Returns the number of admissions to Small for which a key is young in a cache of a capacity.
    pub fn window(self, capacity: usize) -> usize
        requires few { capacity ≤ 2 ^ 32 }
        ensures window { result ≡ window_of self capacity }
    {
        self.window.of(self.small.of(capacity).min(capacity))
    }

    /// Returns the number of evicted keys that the history of a cache of a capacity remembers.
    pub fn history(self, capacity: usize) -> usize
        requires few { capacity ≤ 2 ^ 32 }
        ensures history { result ≡ history_of self capacity }
    {
        match self.history {
            Some(history) => history.of(capacity),
            None => capacity / 2,
        }
    }

    /// Returns true if the shares fit together in a cache of a capacity: Small leaves Main a slot,
    /// the window is no longer than Small, both are 0 or neither is, and the history remembers no
    /// more keys than the cache holds.
    pub fn fit(self, capacity: usize) -> bool
        requires few { capacity ≤ 2 ^ 32 }
        ensures fit { IsTrue result ↔ IsPolicy (shares_for (Some self) capacity) }
    {
        let (small, window) = (self.small(capacity), self.window(capacity));
        let history = self.history(capacity);
        small < capacity && (small == 0) == (window == 0) && window <= small && history <= capacity
    }

    /// Returns true if one of the shares is a number of keys, other than 0.
    pub(crate) fn are_counted(self) -> bool {
        let has_history = self.history.is_some_and(|history| is_counted(history));
        is_counted(self.small) || is_counted(self.window) || has_history
    }

    /// Returns true if the shares fit together in a cache of a capacity. A percentage is assumed to
    /// fit, since its number of keys isn't known yet.
    fn may_fit(self, capacity: Amount) -> bool
        requires within { IsCapacity capacity }
        ensures fit { IsTrue result ↔ Fits (Some self) capacity }
    {
        match capacity.unit {
            Unit::Keys => self.fit(capacity.number),
            Unit::Millionths => true,
        }
    }

    /// Refuses the shares if they don't fit together in a cache of one of these capacities, except
    /// for percentages.
    pub(crate) fn check(self, capacities: &[Amount]) -> Result<(), SimulationError>
        requires within { All IsCapacity capacities.now }
        ensures fit { OnOk result (All (Fits (Some self)) capacities.now) }
    {
        for capacity in capacities {
            if !self.may_fit(*capacity) {
                return Err(SimulationError::Shares(capacity.number));
            }
        }
        Ok(())
    }
}

impl fmt::Display for ChosenShares {
    fn fmt<W: fmt::Write>(&self, f: &mut fmt::Formatter<W>) -> fmt::Result {
        write!(f, "small={},window={}", self.small, self.window)?;
        match self.history {
            Some(history) => write!(f, ",history={history}"),
            None => Ok(()),
        }
    }
}

/// Returns the shares that a word and those after it spell: two, or three with the history's.
fn shares_after(first: &str, rest: &str) -> Option<ChosenShares>
    ensures shares { result ≡ shares_after first.now rest.now }
{
    match rest.split_once(',') {
        Some((second, third)) => three_named(first, second, third),
        None => either_named(first, rest, None),
    }
}

/// Returns the shares that three words spell, in any order.
fn three_named(first: &str, second: &str, third: &str) -> Option<ChosenShares>
    ensures three { result ≡ three_in first.now second.now third.now }
{
    let history_first = beside_history(first, second, third);
    let history_second = beside_history(second, first, third);
    beside_history(third, first, second).or(history_second.or(history_first))
}

/// Returns the shares that a word with the history's and two others spell.
fn beside_history(history: &str, first: &str, second: &str) -> Option<ChosenShares>
    ensures beside { result ≡ beside_history history.now first.now second.now }
{
    let history = share_named(history, "history")?;
    either_named(first, second, Some(history))
}

/// Returns the shares that two words spell, in either order, beside the history's.
fn either_named(first: &str, second: &str, history: Option<Amount>) -> Option<ChosenShares>
    ensures either { result ≡ either_in history first.now second.now }
{
    both_named(first, second, history).or(both_named(second, first, history))
}

/// Returns the shares that two words spell, Small's first, beside the history's.
fn both_named(small: &str, window: &str, history: Option<Amount>) -> Option<ChosenShares>
    ensures both { result ≡ both_in history small.now window.now }
{
    Some(ChosenShares {
        small: share_named(small, "small")?,
        window: share_named(window, "window")?,
        history,
    })
}

/// Returns the amount that a word spells after a name and an equals sign. A percentage is above 0 and
/// at most 100.
fn share_named(word: &str, name: &str) -> Option<Amount>
    ensures share { result ≡ share_in name.now word.now }
{
    let (named, value) = word.split_once('=')?;
    if named != name {
        return None;
    }
    let share = Amount::written(value)?;
    is_share(share).then_some(share)
}

/// Returns true if a share is a number of keys, other than 0.
fn is_counted(share: Amount) -> bool {
    share.unit == Unit::Keys && share.number > 0
}

/// Returns true if an amount can be a share.
fn is_share(share: Amount) -> bool
    ensures share { result ≡ is_share share.unit share.number }
{
    match share.unit {
        Unit::Keys => true,
        Unit::Millionths => 0 < share.number && share.number <= 1_000_000,
    }
}
