//! Keys by place: what each call writes, moves out and counts.
ghost use Rattle.std.specs.Prelude.{◌≡◌, ℕ, ◌+◌, ◌^◌, ◌<◌, ◌≤◌, List, length, IfSome, nat_eq, true};
ghost use Rattle.std.specs.List.{AllByRecursion};
ghost use Rattle.clock2q_handles.specs.Homes.{capacity};
ghost use Rattle.clock2q_directory.specs.Keys.{is_key_at, with_value};
ghost use Rattle.clock2q_directory.specs.Indexes.{IsIndex};

use clock2q_count::Count;
use clock2q_directory::index::index_room;
use clock2q_directory::keys::{Entry, Keys};
use clock2q_handles::Table;
use std::alloc::{AllocError, Global};
use std::test::Fail;
use testing::same;

/// Writes a value through the reference that is lent.
fn set_value(keys: &mut Keys<u64, u64>, place: u32, value: u64)
    requires used { place < length keys.old.entries }
    ensures set { keys.new ≡ record keys.old { entries = with_value place value keys.old.entries } }
{
    *keys.value_mut(place) = value;
}

/// The keys and values at the first two places, and for each key 1 if it equals another one, and otherwise 0.
type Held = [u64; 6];

/// Returns what is held, and whether each key equals `key`.
fn held(keys: &mut Keys<u64, u64>, key: u64) -> Held
    requires two { 2 ≤ length keys.old.entries }
    ensures len { length keys.new.entries ≡ length keys.old.entries }
    ensures room { keys.new.room ≡ keys.old.room }
{
    let (first, second) = (keys.key_equals(0, &key), keys.key_equals(1, &key));
    [
        *keys.key(0),
        *keys.value(0),
        *keys.key(1),
        *keys.value(1),
        u64::from(first),
        u64::from(second),
    ]
}

/// Replaces the key at the first place, which keeps its value. Returns the old one and its hash, and the
/// new one's hash.
fn replace_first(keys: &mut Keys<u64, u64>) -> (u64, u64, u64)
    requires two { 2 ≤ length keys.old.entries }
    ensures len { length keys.new.entries ≡ length keys.old.entries }
    ensures room { keys.new.room ≡ keys.old.room }
{
    let entry = Entry {
        hash: 9,
        key: 90,
        value: None,
    };
    let (hash, key) = keys.replace(0, entry);
    (hash, key, keys.hash(0))
}

/// Replaces the value at the first place twice, and returns the one that was replaced last.
fn replace_first_value(keys: &mut Keys<u64, u64>) -> u64
    requires two { 2 ≤ length keys.old.entries }
    ensures len { length keys.new.entries ≡ length keys.old.entries }
    ensures room { keys.new.room ≡ keys.old.room }
{
    set_value(keys, 0, 900);
    keys.replace_value(0, 901)
}

/// Replaces one of two keys, overwrites the other, and clears both. Returns what is held before, between and
/// after the two, and then the hash and the key that left, the new hash and the value that left, and the
/// numbers of keys before and after they are cleared.
fn replace_both(keys: &mut Keys<u64, u64>) -> [Held; 4]
    requires two { length keys.old.entries ≡ 2 }
    requires room { keys.old.room ≡ 2 }
{
    let at_first = held(keys, 70);
    let (hash, key, new_hash) = replace_first(keys);
    let then = held(keys, 90);
    let value = replace_first_value(keys);
    let entry = Entry {
        hash: 6,
        key: 60,
        value: Some(600),
    };
    keys.put(1, entry);
    let count = keys.len() as u64;
    let at_last = held(keys, 90);
    keys.clear();
    let replaced = [hash, key, new_hash, value, count, keys.len() as u64];
    [at_first, then, at_last, replaced]
}

/// Two keys are pushed and put, replaced, and cleared.
pub(crate) fn two_keys(alloc: Global) -> Result<[Held; 4], AllocError> {
    let mut keys: Keys<u64, u64> = Keys::new(alloc, 2)?;
    keys.push(7, 70, 700);
    let entry = Entry {
        hash: 8,
        key: 80,
        value: Some(800),
    };
    keys.put(1, entry);
    Ok(replace_both(&mut keys))
}

/// Pushes a key, and inserts its place into an index of all keys.
fn put(keys: &mut Keys<u64, ()>, index: &mut Table<u32>, hash: u64, key: u64)
    requires room { length keys.old.entries < keys.old.room }
    requires short { keys.old.room < 2 ^ 24 }
    requires spacious { keys.old.room ≤ capacity (length index.old.homes) }
    requires indexed { (places : List ℕ) × IsIndex index.old.homes keys.old.entries places ×
        AllByRecursion (λ s. s < length keys.old.entries) places × (length places ≡ length keys.old.entries) }
    ensures room { keys.new.room ≡ keys.old.room }
    ensures len { length keys.new.entries ≡ length keys.old.entries + 1 }
    ensures spacious { keys.new.room ≤ capacity (length index.new.homes) }
    ensures indexed { (places : List ℕ) × IsIndex index.new.homes keys.new.entries places ×
        AllByRecursion (λ s. s < length keys.new.entries) places × (length places ≡ length keys.new.entries) }
{
    let place = keys.len() as u32;
    keys.push(hash, key, ());
    let _ = index.insert_within_capacity(hash, place);
}

/// Looks a key up twice through an index of all keys: a count of its own counts one lookup, and the
/// keys count the other.
fn place_of(keys: &mut Keys<u64, ()>, index: &Table<u32>, hash: u64, key: u64) -> Option<u32>
    requires some { 0 < length index.now.homes }
    requires indexed { (places : List ℕ) × IsIndex index.now.homes keys.old.entries places }
    ensures has { IfSome result (λ place. is_key_at nat_eq key keys.old.entries place ≡ true) }
    ensures same { keys.new ≡ record keys.old { comparisons = keys.new.comparisons } }
{
    let mut asked = Count::new();
    let found = keys.find_counting_in(index.get(hash), &key, &mut asked);
    let again = keys.find(index.get_in_slots(hash), &key);
    prove!(found == again);
    found
}

/// Returns the places of five keys. Two of the three that are there have the same hash, and an index can't
/// distinguish the third's from it.
fn places_of(keys: &mut Keys<u64, ()>, index: &Table<u32>) -> [Option<u32>; 5]
    requires some { 0 < length index.now.homes }
    requires indexed { (places : List ℕ) × IsIndex index.now.homes keys.old.entries places }
{
    [
        place_of(keys, index, 7, 70),
        place_of(keys, index, 7, 71),
        place_of(keys, index, 7, 73),
        place_of(keys, index, 7 + 16, 72),
        place_of(keys, index, 8, 71),
    ]
}

/// Looks up three keys, of which two have the same hash, and others.
fn keys_of_one_hash(alloc: Global) -> Result<[Option<u32>; 5], Fail> {
    let mut keys: Keys<u64, ()> = Keys::new(alloc, 3)?;
    let mut index: Table<u32> = Table::with_capacity(alloc, index_room(3))?;
    put(&mut keys, &mut index, 7, 70);
    put(&mut keys, &mut index, 7, 71);
    put(&mut keys, &mut index, 7 + 16, 72);
    Ok(places_of(&mut keys, &index))
}

/// Compares the places of five keys, of which three are there.
pub(crate) fn look_up_one_hash(alloc: Global) -> Result<(), Fail> {
    same(
        keys_of_one_hash(alloc)?,
        [Some(0), Some(1), None, Some(2), None],
    )
}
