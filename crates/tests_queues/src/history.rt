//! The history beside a plain list of keys.

use crate::beside::TestedHistory;
use crate::compared::{Compared, Difference};
use crate::verb::{Reply, Verb, flag};
use std::alloc::Global;
use testing::SplitMix64;

/// Keys without duplicates, newest first. If there is no memory for a key, it is left out, and comparisons
/// fail.
#[derive(Drop)]
struct Newest {
    keys: Vec<u64>,
    limit: usize,
    /// What a history replied to the same calls.
    compared: Compared,
}

impl Newest {
    /// Takes a key out, and returns true if it was there.
    fn take(&mut self, key: u64) -> bool {
        for place in 0..self.keys.len() {
            if self.keys[place] == key {
                self.keys.remove(place);
                return true;
            }
        }
        false
    }

    /// Remembers a key, and replies whether it was remembered before.
    fn renew(&mut self, key: u64) -> Reply {
        let known = self.take(key);
        let _ = self.keys.insert(0, key);
        self.keys.truncate(self.limit);
        flag(known)
    }

    /// Makes a call.
    fn reply(&mut self, verb: Verb, key: u64) -> Reply {
        match verb {
            Verb::Renew => self.renew(key),
            Verb::Pass | Verb::Forget => flag(self.take(key)),
            Verb::Len => Some(self.keys.len() as u64),
            Verb::Clear => {
                self.keys.clear();
                Some(1)
            }
            _ => None,
        }
    }
}

/// Makes a call of both.
fn make(history: &mut TestedHistory<'_>, newest: &mut Newest, verb: Verb, key: u64) {
    let got = history.reply(verb, key);
    let wanted = newest.reply(verb, key);
    newest.compared.note(got, wanted);
}

/// Returns a drawn call: one in 97 clears the history, one in three of the others discards the key, half
/// of which also make it resident for a while, and the rest renew it. The keys are few.
fn drawn_call(draws: &mut SplitMix64) -> (Verb, u64) {
    let key = draws.below(12);
    if draws.below(97) == 0 {
        return (Verb::Clear, key);
    }
    let verb = match draws.below(6) {
        0 => Verb::Pass,
        1 => Verb::Forget,
        _ => Verb::Renew,
    };
    (verb, key)
}

/// Makes 2,000 drawn calls, and compares the numbers of keys after each.
fn go_along(history: &mut TestedHistory<'_>, newest: &mut Newest, draws: &mut SplitMix64) {
    for _ in 0..2000 {
        let (verb, key) = drawn_call(draws);
        make(history, newest, verb, key);
        make(history, newest, Verb::Len, 0);
    }
}

/// Plays a seeded run of a history of `limit` keys, and returns the first difference from a plain list.
pub(crate) fn beside_list(
    history: &mut TestedHistory<'_>,
    alloc: Global,
    (limit, seed): (u64, u64),
) -> Option<Difference> {
    let mut newest = Newest {
        keys: Vec::new(alloc),
        limit: limit as usize,
        compared: Compared::new(),
    };
    go_along(history, &mut newest, &mut SplitMix64::new(seed));
    newest.compared.first
}
