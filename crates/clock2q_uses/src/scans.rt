//! Keys that are read once, as by a backup or a full search: how many other keys they evict.
ghost use Rattle.clock2q_machine.specs.Scans.{IsFullCache, IsScan, left_all, left_main, set_in_small};
ghost use Rattle.clock2q_machine.specs.Steps.{after_all};
ghost use Rattle.clock2q_uses.specs.Scanning.{LeavesOrStays, calls_of, puts_of};
ghost use Rattle.std.specs.Prelude.{◌≡◌, ◌<◌, ◌≤◌, eqb};

use clock2q::Cache;

/// Puts each key in the cache with itself as the value.
///
/// If Small has a share and the keys are distinct and not known to the cache, then, however many
/// there are, no more residents leave than that share. No more keys leave Main than Small had old
/// keys that were hit; and if Small had none and the cache is full, Main is unchanged. A resident
/// that stays keeps its slot and its value.
pub fn put_all(cache: &mut Cache<u64, u64>, keys: &[u64])
    ensures machine { cache.new.machine ≡ after_all eqb (calls_of keys.now) cache.old.machine }
    ensures all { 0 < cache.old.machine.shares.small → IsScan eqb (puts_of keys.now) cache.old.machine
        → left_all eqb cache.old.machine cache.new.machine ≤ cache.old.machine.shares.small }
    ensures left { 0 < cache.old.machine.shares.small → IsScan eqb (puts_of keys.now) cache.old.machine
        → left_main eqb cache.old.machine cache.new.machine ≤ set_in_small cache.old.machine }
    ensures share { 0 < cache.old.machine.shares.small → IsScan eqb (puts_of keys.now) cache.old.machine
        → left_main eqb cache.old.machine cache.new.machine ≤ cache.old.machine.shares.small }
    ensures untouched { IsFullCache cache.old.machine → IsScan eqb (puts_of keys.now) cache.old.machine
        → set_in_small cache.old.machine ≡ 0 → cache.new.machine.main ≡ cache.old.machine.main }
    ensures keeps { IsScan eqb (puts_of keys.now) cache.old.machine →
        LeavesOrStays cache.old.machine cache.new.machine }
{
    cache.facts();
    for key in keys {
        cache.put(*key, *key);
    }
}
